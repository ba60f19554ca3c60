// Arithmetic on outcomes.
ghost use Rattle.std.specs.Prelude.{◌≡◌};
ghost use Rattle.smv_core.specs.FlatMeaning.{Numbered};
ghost use Rattle.smv_core.specs.Values.{add, modulo};
ghost use Rattle.law_obligations.specs.Places.{valued, as_place};
ghost use Rattle.smv_spots.specs.Spots.{outcome_in};

use crate::spots::Spot;

/// `+`, or with `minus` `-`: numbers up to 511 and down to 0.
pub fn added(minus: bool, u: Option<Spot>, v: Option<Spot>) -> Option<Spot>
    ensures { (n : Numbered) → outcome_in n result ≡ as_place (add minus (valued (outcome_in n u)) (valued (outcome_in n v))) }
{
    let (Some(Spot::Number { value: a }), Some(Spot::Number { value: b })) = (u, v) else {
        return None;
    };
    if minus {
        if b <= a {
            Some(Spot::Number { value: a - b })
        } else {
            None
        }
    } else if a <= 511 && b <= 511 - a {
        Some(Spot::Number { value: a + b })
    } else {
        None
    }
}

/// `mod`.
pub fn remainder(u: Option<Spot>, by: u16) -> Option<Spot>
    ensures { (n : Numbered) → outcome_in n result ≡ as_place (modulo (valued (outcome_in n u)) by) }
{
    let Some(Spot::Number { value }) = u else {
        return None;
    };
    if by == 0 {
        None
    } else {
        Some(Spot::Number { value: value % by })
    }
}
