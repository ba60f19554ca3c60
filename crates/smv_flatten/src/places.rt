// The places of claims: how many assignments and claims are met before each.
ghost use Rattle.std.specs.Prelude.{◌≡◌, ◌+◌, IfOk, OnOk, sum_by};
ghost use Rattle.law_designs.specs.Flattening.{with_places};
ghost use Rattle.smv_flatten.specs.Places.{assignments_in, with_place, weight};

use smv_core::flat::{FlatItem, FlatStmt};
use smv_core::seq::Seq;
use std::alloc::AllocError;

// The sum of two numbers. Where it does not fit, which no text within the limits has, no memory is said to be left.
fn plus(a: u32, b: u32) -> Result<u32, AllocError>
    ensures { IfOk result (λ n. n ≡ a + b) }
{
    match a.checked_add(b) {
        Some(n) => Ok(n),
        None => Err(AllocError),
    }
}

// How many assignments stand in a statement.
#[cycle(counts)]
#[tactic(auto, using(crate::proofs::PlaceLaws::counts))]
fn count(act: &FlatStmt) -> Result<u32, AllocError>
    ensures { IfOk result (λ n. n ≡ assignments_in act.now) }
{
    match act {
        FlatStmt::Assign { .. } => Ok(1),
        FlatStmt::If { yes, no, .. } => {
            let yes = count(yes.get())?;
            let no = count(no.get())?;
            plus(yes, no)
        }
        FlatStmt::Block { parts } => count_all(parts.as_slice()),
        FlatStmt::Default { first, second } => {
            let first = count(first.get())?;
            let second = count(second.get())?;
            plus(first, second)
        }
        FlatStmt::Forall { body, .. } => count(body.get()),
    }
}

#[cycle(counts)]
fn count_all(parts: &[FlatStmt]) -> Result<u32, AllocError>
    ensures { IfOk result (λ n. n ≡ sum_by assignments_in parts.now) }
{
    let mut all = 0;
    for part in parts {
        let more = count(part)?;
        all = plus(all, more)?;
    }
    Ok(all)
}

// A claim gets its place, and the next place is told.
#[tactic(auto, unfolding(crate::specs::Places::assignments_in))]
fn set_place(item: &mut FlatItem, place: u32) -> Result<u32, AllocError>
    ensures next { IfOk result (λ next. next ≡ place + weight item.old) }
    ensures item { OnOk result (item.new ≡ with_place place item.old) }
{
    match item {
        FlatItem::Act { act, .. } => {
            let more = count(act)?;
            plus(place, more)
        }
        FlatItem::Claim { claim } => {
            claim.place = place;
            plus(place, 1)
        }
        FlatItem::Split { .. } => Ok(place),
        FlatItem::Using { .. } => Ok(place),
    }
}

/// Each claim gets its place. Also where a place does not fit its field, which no text within the limits has, no memory is said to be left.
#[tactic(auto, using(crate::proofs::PlaceLaws::places))]
pub fn placed(items: Vec<FlatItem>) -> Result<Seq<FlatItem>, AllocError>
    ensures { IfOk result (λ placed. placed ≡ with_places 0 items.items) }
{
    let mut all = items;
    let mut place = 0;
    for i in 0..all.len() {
        place = set_place(&mut all[i], place)?;
    }
    Ok(Seq::from_vec(all))
}
