// The first of two places, and a place where a rule is broken.
ghost use Rattle.std.specs.Prelude.{◌≡◌};
ghost use Rattle.smv_mentions.specs.Scopes as scopes;
ghost use Rattle.smv_mentions.specs.NameFaults as faults;
ghost use Rattle.smv_first_fault.specs.Firsts.{least};

/// The first of two places.
pub fn first_of(place: Option<u32>, other: Option<u32>) -> Option<u32>
    ensures { result ≡ scopes.first_of_places place other }
{
    match (place, other) {
        (Some(at), Some(other)) => Some(at.min(other)),
        (Some(at), None) => Some(at),
        (None, other) => other,
    }
}

/// The place, where a rule is broken.
pub fn place_if(broken: bool, at: u32) -> Option<u32>
    ensures { result ≡ least (faults.place_if broken at) }
{
    if broken { Some(at) } else { None }
}
