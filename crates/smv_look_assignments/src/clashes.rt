// The first assignment that clashes with one at a place.
ghost use Rattle.std.specs.Prelude.{◌≡◌, [], map, if◌then◌else◌, nat_eq};
ghost use Rattle.std.specs.List.{flat_map};
ghost use Rattle.smv_mentions.specs.NameFaults as faults;
ghost use Rattle.smv_first_fault.specs.Firsts.{least};
ghost use Rattle.smv_single_assignment.specs.Held.{standing_of};
ghost use Rattle.smv_single_assignment.specs.Clashes.{clash_by};
ghost use Rattle.smv_look_assignments.specs.Assignments as places;

use smv_first_fault::places::{first_of, place_if};
use smv_single_assignment::assignments::Assignment;
use smv_single_assignment::clashes::{Clash, do_clash};

// The first of these assignments that clashes with another one.
#[tactic(auto, using(smv_first_fault::proofs::LeastLaws::leasts))]
fn first_with(by: Clash, earlier: &[Assignment], b: &Assignment) -> Option<u32>
    ensures { result ≡ least (flat_map (λ a. faults.place_if (clash_by by.entry a (standing_of b.now)) a.at) (map standing_of earlier.now)) }
{
    let mut found = None;
    for a in earlier {
        found = first_of(found, place_if(do_clash(by, a, b), a.at));
    }
    found
}

// The same, where that one stands at a place.
fn first_at(by: Clash, earlier: &[Assignment], b: &Assignment, at: u32) -> Option<u32>
    ensures { result ≡ least (if nat_eq (standing_of b.now).at at then flat_map (λ a. faults.place_if (clash_by by.entry a (standing_of b.now)) a.at) (map standing_of earlier.now) else []) }
{
    if b.at == at {
        first_with(by, earlier, b)
    } else {
        None
    }
}

/// The first of some assignments that clashes with one of others at a place.
#[tactic(auto, using(smv_first_fault::proofs::LeastLaws::leasts))]
pub(crate) fn first_clash(
    by: Clash,
    earlier: &[Assignment],
    later: &[Assignment],
    at: u32,
) -> Option<u32>
    ensures { result ≡ least (places.clashing at (clash_by by.entry) (map standing_of earlier.now) (map standing_of later.now)) }
{
    let mut found = None;
    for b in later {
        found = first_of(found, first_at(by, earlier, b, at));
    }
    found
}
