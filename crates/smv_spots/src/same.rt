// Spots that are the same place.
ghost use Rattle.std.specs.Prelude.{◌≡◌};
ghost use Rattle.law_obligations.specs.Places.{same_place};
ghost use Rattle.smv_spots.specs.Spots.{place_by};

use crate::names::{constant_name, is_one_set};
use crate::spots::Spot;
use smv_core::flat::Design;

/// Two spots are one place.
pub fn is_same(design: &Design, p: Spot, q: Spot) -> bool
    ensures { result ≡ same_place (place_by design.now p) (place_by design.now q) }
{
    match (p, q) {
        (Spot::Number { value: a }, Spot::Number { value: b }) => a == b,
        (Spot::Constant { list: s, value: a }, Spot::Constant { list: t, value: b }) => {
            (s == t && a == b) || constant_name(design, s, a) == constant_name(design, t, b)
        }
        (Spot::Class { set: s, class: a }, Spot::Class { set: t, class: b }) => is_one_set(
            design, s, t,
        ) && a == b,
        (Spot::Rest { set: s, rest: a }, Spot::Rest { set: t, rest: b }) => is_one_set(design, s, t)
            && a == b,
        _ => false,
    }
}
