// The items of a flattened text, taken apart.
ghost use Rattle.std.specs.Prelude.{◌≡◌, ◌++◌, ◌∷◌, [], map, IfOk, OnOk};
ghost use Rattle.law_designs.specs.WholeText.{claims_of};
ghost use Rattle.law_designs.specs.Standing.{statements_from};
ghost use Rattle.law_designs.specs.Definitions.{splits_of, uses_of};
ghost use Rattle.smv_design.specs.Acts.{head_of, heads_from, statement_of, place_behind};

use crate::heads::{Noted, note_heads};
use crate::places::place_after;
use smv_core::flat::{Claim, FlatItem, FlatSplit, FlatStmt, FlatUsing};
use smv_core::seq::Seq;
use std::alloc::{AllocError, Global};

/// A statement of a layer, or outside layers, with the place of its first assignment.
#[derive(Drop)]
pub struct Act {
    pub layer: Option<u16>,
    pub place: u32,
    pub act: FlatStmt,
}

/// The items of each sort, in flat order, and the assignments of the statements.
#[derive(Drop)]
pub struct Items {
    pub acts: Vec<Act>,
    pub heads: Seq<Noted>,
    pub claims: Vec<Claim>,
    pub splits: Vec<FlatSplit>,
    pub uses: Vec<FlatUsing>,
}

// One more statement; gives the place behind it.
fn add_act(
    acts: &mut Vec<Act>,
    heads: &mut Seq<Noted>,
    layer: Option<u16>,
    act: FlatStmt,
    place: u32,
) -> Result<u32, AllocError>
    ensures statement { OnOk result (map statement_of acts.new.items ≡ map statement_of acts.old.items ++ statements_from place (FlatItem.Act layer act ∷ [])) }
    ensures heads { OnOk result (map head_of heads.new ≡ map head_of heads.old ++ heads_from place (FlatItem.Act layer act ∷ [])) }
    ensures after { IfOk result (λ after. after ≡ place_behind place (FlatItem.Act layer act)) }
{
    let after = note_heads(heads, &act, layer, place)?;
    acts.push(Act { layer, place, act })?;
    Ok(after)
}

// One more item; gives the place behind it.
fn add_item(items: &mut Items, item: FlatItem, place: u32) -> Result<u32, AllocError>
    ensures statement { OnOk result (map statement_of items.new.acts.items ≡ map statement_of items.old.acts.items ++ statements_from place (item ∷ [])) }
    ensures heads { OnOk result (map head_of items.new.heads ≡ map head_of items.old.heads ++ heads_from place (item ∷ [])) }
    ensures claims { OnOk result (items.new.claims.items ≡ items.old.claims.items ++ claims_of (item ∷ [])) }
    ensures splits { OnOk result (items.new.splits.items ≡ items.old.splits.items ++ splits_of (item ∷ [])) }
    ensures uses { OnOk result (items.new.uses.items ≡ items.old.uses.items ++ uses_of (item ∷ [])) }
    ensures after { IfOk result (λ after. after ≡ place_behind place item) }
{
    match item {
        FlatItem::Act { layer, act } => {
            add_act(&mut items.acts, &mut items.heads, layer, act, place)
        }
        FlatItem::Claim { claim } => {
            items.claims.push(claim)?;
            place_after(place, 1)
        }
        FlatItem::Split { split } => {
            items.splits.push(split)?;
            Ok(place)
        }
        FlatItem::Using { using } => {
            items.uses.push(using)?;
            Ok(place)
        }
    }
}

/// The items by their sorts, the statements with their places.
pub(crate) fn take_apart(items: Seq<FlatItem>, alloc: Global) -> Result<Items, AllocError>
    ensures statements { IfOk result (λ found. map statement_of found.acts.items ≡ statements_from 0 items) }
    ensures heads { IfOk result (λ found. map head_of found.heads ≡ heads_from 0 items) }
    ensures claims { IfOk result (λ found. found.claims.items ≡ claims_of items) }
    ensures splits { IfOk result (λ found. found.splits.items ≡ splits_of items) }
    ensures uses { IfOk result (λ found. found.uses.items ≡ uses_of items) }
{
    let mut found = Items {
        acts: Vec::new(alloc),
        heads: Seq::new(alloc),
        claims: Vec::new(alloc),
        splits: Vec::new(alloc),
        uses: Vec::new(alloc),
    };
    let mut place = 0;
    for item in items.into_vec() {
        place = add_item(&mut found, item, place)?;
    }
    Ok(found)
}
