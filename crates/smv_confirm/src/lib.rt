//! A unit of a text is decided at given sizes, over the unreduced design: it holds, or a shortest run of these sizes breaks it. So a fault of a report is confirmed, or found to be one of the reduction alone.
//!
//! For the top call. `cases` decides the cases of a unit, `subjects` makes of a plan what is decided. What is told is said in `law_confirmed/specs/Answers`, and what that means for the runs of the text is a law there.
#![tactic(auto)]

ghost use Rattle.std.specs.Prelude.{◌≡◌, ◌≤◌, IfOk, length};
ghost use Rattle.law_answers.specs.Dues.{limit};
ghost use Rattle.smv_lex.specs.Answers.{IfFault};
ghost use Rattle.smv_confirm.specs.Confirmations.{AreInRange, IsConfirmation, IsConfirmFault};

mod cases;
mod subjects;

use law_sized_texts::sized::designs_are_exact;
use law_valid_texts::plans_of_texts::valid_texts_are_faultless;
use smv_bits::Bits;
use smv_core::flat::{Design, Param};
use smv_core::{Fault, Refusal, Seq};
use smv_problem::{Budgets, Verdict};
use smv_read_design::{place_named, plans_of_valid_texts_are_whole, read_design};
use std::alloc::Global;

/// What is told of a unit at given sizes, by the name and the parameters of the unit itself: true where each instance holds in all runs of these sizes, and false with a shortest run that breaks one.
#[derive(Drop)]
pub struct Confirmed {
    pub design: Design,
    pub params: Seq<Param>,
    pub verdict: Verdict,
}

/// Decides the first unit of this name at given sizes, one for each set type without a size of its own, over bits that stand so. Refused are the text's first fault; that no unit has the name (26, at the front of the text); another number of sizes (34, there too); and at the
/// unit a family with more than 256 elements (35), more than 8 parameters or 4,096 cases (29), and a case with more than 1,024 state bits (30).
pub fn confirm(
    alloc: Global,
    text: &[u8],
    name: &[u8],
    sizes: &[u16],
    bits: Bits,
    budgets: Budgets,
) -> Result<Confirmed, Refusal>
    requires within { length text.now ≤ limit }
    requires steps { 1 ≤ budgets.steps }
    requires sizes { AreInRange sizes.now }
    ensures confirmed { IfOk result (IsConfirmation text.now name.now sizes.now bits budgets.nodes budgets.steps) }
    ensures fault { IfFault result (IsConfirmFault text.now name.now sizes.now) }
{
    designs_are_exact();
    valid_texts_are_faultless();
    plans_of_valid_texts_are_whole();
    match read_design(alloc, text) {
        Ok(plan) => {
            let place = place_named(alloc, &plan.design, plan.units.as_slice(), name)?;
            match place {
                Some(place) => match subjects::tell(alloc, &plan, place, sizes, bits, budgets) {
                    Ok(told) => Ok(Confirmed {
                        design: plan.design,
                        params: told.params,
                        verdict: told.verdict,
                    }),
                    Err(refusal) => Err(refusal),
                },
                None => Err(Refusal::Fault(Fault { number: 26, at: 0 })),
            }
        }
        Err(refusal) => Err(refusal),
    }
}
