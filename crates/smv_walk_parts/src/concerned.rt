// Which elements a definition concerns, as far as the constants in its left sides tell.
ghost use Rattle.std.specs.Prelude.{◌≡◌, map};
ghost use Rattle.std.specs.List.{list_any};
ghost use Rattle.smv_core.specs.FlatMeaning.{Numbered, flat_index};
ghost use Rattle.law_obligations.specs.Demands.{fits_place, concerns_place};
ghost use Rattle.smv_spots.specs.Spots.{place_in};
ghost use Rattle.smv_indexes.specs.Indexes.{index_of};
ghost use Rattle.smv_walk_parts.specs.Parts as spec;
ghost use Rattle.smv_walk_parts.specs.Parts.{all_fit};

use smv_core::flat::{DefBody, FlatExpr};
use smv_indexes::{Index, known};
use smv_spots::spots::Spot;

// A constant index is a number, and lies where it is; any other may lie anywhere.
#[tactic(auto, using(crate::proofs::ConcernLaws::no_numbers))]
fn fits(index: Index, q: Spot) -> bool
    ensures { (n : Numbered) → result ≡ fits_place (index_of index) (place_in n q) }
{
    match index {
        Index::Fixed { value: None } => false,
        Index::Fixed {
            value: Some(constant),
        } => match q {
            Spot::Number { value } => constant == value,
            Spot::Constant { .. } => false,
            Spot::Class { .. } => false,
            Spot::Rest { .. } => false,
        },
        Index::Bare { .. } => true,
        Index::Computed => true,
    }
}

// Each index of a left side fits the element's.
fn fit(left: &[FlatExpr], indexes: &[Spot]) -> bool
    ensures { (n : Numbered) → result ≡ all_fit (map flat_index left.now) (map (place_in n) indexes.now) }
{
    let Some((first, others)) = left.split_first() else {
        return true;
    };
    let Some((q, rest)) = indexes.split_first() else {
        return true;
    };
    fits(known(first), *q) && fit(others, rest)
}

// Whether some assignment of a part concerns the element.
#[cycle(concerned)]
#[tactic(auto, using(crate::proofs::ConcernLaws::equations))]
fn is_concerned(part: &DefBody, indexes: &[Spot]) -> bool
    ensures { (n : Numbered) → result ≡ spec.is_concerned (map (place_in n) indexes.now) part.now }
{
    match part {
        DefBody::Nothing => false,
        DefBody::Assign { left, .. } => fit(left.as_slice(), indexes),
        DefBody::If { yes, no, .. } => {
            is_concerned(yes.get(), indexes) || is_concerned(no.get(), indexes)
        }
        DefBody::First { parts } => some_is_concerned(parts.as_slice(), indexes),
        DefBody::Forall { body, .. } => is_concerned(body.get(), indexes),
    }
}

// Whether some assignment of these parts concerns it.
#[cycle(concerned)]
fn some_is_concerned(parts: &[DefBody], indexes: &[Spot]) -> bool
    ensures { (n : Numbered) → result ≡ list_any (spec.is_concerned (map (place_in n) indexes.now)) parts.now }
{
    for part in parts {
        if is_concerned(part, indexes) {
            return true;
        }
    }
    false
}

/// Whether some assignment of a definition concerns the element of these indexes.
#[tactic(auto, unfolding(crate::specs::Parts::is_concerned))]
pub fn concerns(part: &DefBody, indexes: &[Spot]) -> bool
    ensures { (n : Numbered) → result ≡ concerns_place part.now (map (place_in n) indexes.now) }
{
    is_concerned(part, indexes)
}
