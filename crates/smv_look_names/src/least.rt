// The first of some places.
ghost use Rattle.std.specs.Prelude.{◌≡◌};
ghost use Rattle.smv_first_fault.specs.Firsts as spec;

use smv_first_fault::places::first_of;

/// The first of these places.
#[tactic(auto, using(smv_first_fault::proofs::LeastLaws::leasts))]
pub(crate) fn least(places: &[u32]) -> Option<u32>
    ensures { result ≡ spec.least places.now }
{
    let mut first = None;
    for place in places {
        first = first_of(first, Some(*place));
    }
    first
}
