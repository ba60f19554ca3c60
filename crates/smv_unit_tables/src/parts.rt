// The families that parts of definitions read.
ghost use Rattle.std.specs.Prelude.{◌≡◌, ◌||◌, ◌++◌, flat_map, take, if◌then◌else◌, IfOk};
ghost use Rattle.std.specs.List.{list_any};
ghost use Rattle.smv_unit_tables.specs.Reads.{has_assignment, part_reads};

use crate::expressions::{add_all, add_read};
use smv_core::flat::{DefBody, Family};
use std::alloc::AllocError;

/// Puts the families that a part of a definition reads behind others: what its assignments read, and the conditions around them. Whether it has an assignment.
#[cycle(parts)]
#[tactic(auto, using(crate::proofs::ReadLaws::listing, crate::proofs::PartLaws::equations))]
pub(crate) fn add_part(
    out: &mut Vec<usize>,
    families: &[Family],
    x: &DefBody,
) -> Result<bool, AllocError>
    ensures some { IfOk result (λ some. some ≡ has_assignment x.now) }
    ensures reads { IfOk result (λ some. out.new.items ≡ out.old.items ++ part_reads families.now x.now) }
{
    match x {
        DefBody::Nothing => Ok(false),
        DefBody::Assign { left, value, .. } => {
            add_all(out, families, left.as_slice())?;
            add_read(out, families, value)?;
            Ok(true)
        }
        DefBody::If { cond, yes, no } => {
            let count = out.len();
            add_read(out, families, cond)?;
            let first = add_part(out, families, yes.get())?;
            let second = add_part(out, families, no.get())?;
            Ok(keep_if(out, first, second, count))
        }
        DefBody::First { parts } => add_parts(out, families, parts.as_slice()),
        DefBody::Forall { body, .. } => add_part(out, families, body.get()),
    }
}

// All of them where one part or another has an assignment, and else so many. Whether one has.
fn keep_if(out: &mut Vec<usize>, first: bool, second: bool, count: usize) -> bool
    ensures some { result ≡ (first || second) }
    ensures kept { out.new.items ≡ if first || second then out.old.items else take count out.old.items }
{
    if first || second {
        return true;
    }
    out.truncate(count);
    false
}

#[cycle(parts)]
#[tactic(auto, using(crate::proofs::ReadLaws::listing, crate::proofs::PartLaws::steps))]
fn add_parts(
    out: &mut Vec<usize>,
    families: &[Family],
    parts: &[DefBody],
) -> Result<bool, AllocError>
    ensures some { IfOk result (λ some. some ≡ list_any has_assignment parts.now) }
    ensures reads { IfOk result (λ some. out.new.items ≡ out.old.items ++ flat_map (part_reads families.now) parts.now) }
{
    let mut some = false;
    for x in parts {
        let one = add_part(out, families, x)?;
        some = some || one;
    }
    Ok(some)
}
