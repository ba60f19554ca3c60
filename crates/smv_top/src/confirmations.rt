// The answer to the command that decides a unit at given sizes.
ghost use Rattle.std.specs.Prelude.{◌≡◌, ◌++◌, IfOk};
ghost use Rattle.smv_command.specs.Ranges.{AreInRange, AreSizes};
ghost use Rattle.smv_command.specs.declared.commands.Command.TheVariants as variant;
ghost use Rattle.smv_report_lines.specs.Parts.{details};
ghost use Rattle.law_answers.specs.Confirmations.{confirmed_heading, confirmed_status};
ghost use Rattle.smv_answers.specs.Dues.{IsDue};

use crate::limits::{LIMIT, TOO_LONG};
use crate::refusals::refused_by;
use smv_answers::{Answer, confirmed as told, refused};
use smv_bits::Bits;
use smv_confirm::{Confirmed, confirm};
use smv_core::Name;
use smv_problem::Budgets;
use std::alloc::{AllocError, Global};

/// The answer to a command that decides the unit of a name at given sizes, over bits that stand so.
pub fn confirmed(
    alloc: Global,
    text: &[u8],
    name: &Name,
    sizes: &[u16],
    bits: Bits,
    budgets: Budgets,
) -> Result<Answer, AllocError>
    requires sizes { AreSizes sizes.now }
    requires in_range { AreInRange budgets }
    ensures { IfOk result (λ answer. IsDue (variant.Confirm name.now sizes.now bits budgets) text.now answer.status answer.bytes.items) }
{
    if text.len() > LIMIT {
        return refused(alloc, text, TOO_LONG);
    }
    let name = name.as_bytes();
    match confirm(alloc, text, name, sizes, bits, budgets) {
        Ok(found) => told_of(alloc, name, found),
        Err(refusal) => refused_by(alloc, text, refusal),
    }
}

// The answer by what was found of the unit of a name.
fn told_of(alloc: Global, name: &[u8], found: Confirmed) -> Result<Answer, AllocError>
    ensures status { IfOk result (λ answer. answer.status ≡ confirmed_status found.verdict) }
    ensures bytes { IfOk result (λ answer. answer.bytes.items ≡ confirmed_heading name.now found.verdict ++ details found.design found.params found.verdict) }
{
    told(
        alloc,
        name,
        &found.design,
        found.params.as_slice(),
        &found.verdict,
    )
}
