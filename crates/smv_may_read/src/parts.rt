// Whether a definition may read one of some elements for the element that it defines.
ghost use Rattle.std.specs.Prelude.{◌≡◌, false};
ghost use Rattle.std.specs.List.{list_any};
ghost use Rattle.smv_may_read.specs.Mentions.{mentions_inside};

use crate::expressions::{may_read, some_may_read};
use crate::lefts::may_be_at;
use smv_core::flat::{Class, DefBody, Element};

// Whether an assignment of a part that may be of the element of these indexes may read one, or stands under a condition that may: `around` says so of those around it.
#[cycle(inside)]
#[tactic(auto, using(crate::proofs::PartLaws::equations))]
fn reads_inside(elements: &[Element], own: &[Class], around: bool, part: &DefBody) -> bool
    ensures { result ≡ mentions_inside elements.now own.now around part.now }
{
    match part {
        DefBody::Nothing => false,
        DefBody::Assign { left, value, .. } => {
            may_be_at(left.as_slice(), own)
                && (around
                    || (some_may_read(elements, left.as_slice()) || may_read(elements, value)))
        }
        DefBody::If { cond, yes, no } => {
            let inside = around || may_read(elements, cond);
            reads_inside(elements, own, inside, yes.get())
                || reads_inside(elements, own, inside, no.get())
        }
        DefBody::First { parts } => some_reads_inside(elements, own, around, parts.as_slice()),
        DefBody::Forall { body, .. } => reads_inside(elements, own, around, body.get()),
    }
}

// Whether some of these parts does so.
#[cycle(inside)]
fn some_reads_inside(elements: &[Element], own: &[Class], around: bool, parts: &[DefBody]) -> bool
    ensures { result ≡ list_any (mentions_inside elements.now own.now around) parts.now }
{
    for part in parts {
        if reads_inside(elements, own, around, part) {
            return true;
        }
    }
    false
}

/// Whether a part of a definition may read one of these elements for the element of these indexes.
pub fn may_read_for(elements: &[Element], own: &[Class], part: &DefBody) -> bool
    ensures { result ≡ mentions_inside elements.now own.now false part.now }
{
    reads_inside(elements, own, false, part)
}
