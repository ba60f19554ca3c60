// The assignments of statements, each with its place in flat order.
ghost use Rattle.std.specs.Prelude.{◌≡◌, ◌+◌, ◌++◌, map, IfOk, OnOk};
ghost use Rattle.smv_design.specs.Parts.{size, sizes};
ghost use Rattle.smv_design.specs.Acts.{head_of, heads_in, heads_in_all};

use crate::places::place_after;
use smv_core::flat::FlatStmt;
use smv_core::seq::Seq;
use std::alloc::AllocError;

/// An assignment by its layer and its family, with its place in flat order and its offset.
#[derive(Clone, Copy)]
pub struct Noted {
    pub layer: Option<u16>,
    pub family: u16,
    pub place: u32,
    pub at: u32,
}

/// Notes the assignments of a statement of a layer, the first of which has this place, and gives the place behind them.
#[cycle(heads)]
#[tactic(auto, using(smv_mentions::proofs::Notes::noting, crate::proofs::StatementLaws::heads, crate::proofs::StatementLaws::counts))]
pub(crate) fn note_heads(
    out: &mut Seq<Noted>,
    act: &FlatStmt,
    layer: Option<u16>,
    place: u32,
) -> Result<u32, AllocError>
    ensures heads { OnOk result (map head_of out.new ≡ map head_of out.old ++ heads_in layer place act.now) }
    ensures after { IfOk result (λ after. after ≡ place + size act.now) }
{
    match act {
        FlatStmt::Assign { family, at, .. } => {
            out.push(Noted {
                layer,
                family: *family,
                place,
                at: *at,
            })?;
            place_after(place, 1)
        }
        FlatStmt::If { yes, no, .. } => {
            let middle = note_heads(out, yes.get(), layer, place)?;
            note_heads(out, no.get(), layer, middle)
        }
        FlatStmt::Block { parts } => note_all_heads(out, parts.as_slice(), layer, place),
        FlatStmt::Default { first, second } => {
            let middle = note_heads(out, first.get(), layer, place)?;
            note_heads(out, second.get(), layer, middle)
        }
        FlatStmt::Forall { body, .. } => note_heads(out, body.get(), layer, place),
    }
}

#[cycle(heads)]
#[tactic(auto, using(smv_mentions::proofs::Notes::noting))]
fn note_all_heads(
    out: &mut Seq<Noted>,
    acts: &[FlatStmt],
    layer: Option<u16>,
    place: u32,
) -> Result<u32, AllocError>
    ensures heads { OnOk result (map head_of out.new ≡ map head_of out.old ++ heads_in_all layer place acts.now) }
    ensures after { IfOk result (λ after. after ≡ place + sizes acts.now) }
{
    let mut next = place;
    for act in acts {
        next = note_heads(out, act, layer, next)?;
    }
    Ok(next)
}
