// What is said twice in a `using`.
ghost use Rattle.std.specs.Prelude.{◌≡◌, ◌++◌, ℕ, map, true, not, cond, nat_eq, None, if◌then◌else◌, option_copied, IfOk, OnOk};
ghost use Rattle.smv_references.specs.Again.{placed};
ghost use Rattle.law_uses.specs.Choices.{own_map};
ghost use Rattle.smv_choices.specs.Held.{AreTables, is_seen};
ghost use Rattle.smv_choices.specs.Parts as parts;
ghost use Rattle.smv_choices.specs.Readings as readings;
ghost use Rattle.smv_choices.specs.Readings.{reading, pair_of};

use crate::own::{is_own, own_map};
use crate::readings::{Proved, Reading};
use crate::tables::Tables;
use name_index::NameIndex;
use smv_core::flat::{Assumed, Def, Leaf, Pick, Unit};
use smv_core::name::Name;
use smv_core::tree::Use;
use smv_first_fault::places::first_of;
use smv_references::again::{first_again, first_name_again};
use std::alloc::{AllocError, Global};
use std::collections::HashSet;

/// A place with a number, or with two.
pub type Key = (u32, (u16, Option<u16>));

/// The definitions of layers that are chosen, by family and layer.
#[tactic(auto, using(smv_mentions::proofs::Notes::noting))]
pub fn map_keys(alloc: Global, picks: &[(u32, Pick)]) -> Result<Vec<Key>, AllocError>
    ensures { IfOk result (λ keys. keys.items ≡ parts.map_keys picks.now) }
{
    let mut keys = Vec::new(alloc);
    for (at, pick) in picks {
        add_map_key(&mut keys, *at, *pick)?;
    }
    Ok(keys)
}

#[tactic(auto, using(smv_mentions::proofs::Notes::noting))]
fn add_map_key(keys: &mut Vec<Key>, at: u32, pick: Pick) -> Result<(), AllocError>
    ensures { OnOk result (keys.new.items ≡ keys.old.items ++ parts.map_key at pick) }
{
    if pick.layer.is_some() {
        keys.push((at, (pick.family, pick.layer)))?;
    }
    Ok(())
}

/// The definitions that are chosen besides the leaf's own map, by family.
#[tactic(auto, using(smv_mentions::proofs::Notes::noting))]
pub fn family_keys(
    alloc: Global,
    own: Option<&Def>,
    picks: &[(u32, Pick)],
) -> Result<Vec<Key>, AllocError>
    ensures { IfOk result (λ keys. keys.items ≡ parts.family_keys (option_copied own.entry) picks.now) }
{
    let mut keys = Vec::new(alloc);
    for (at, pick) in picks {
        add_family_key(&mut keys, own, *at, *pick)?;
    }
    Ok(keys)
}

#[tactic(auto, using(smv_mentions::proofs::Notes::noting))]
fn add_family_key(
    keys: &mut Vec<Key>,
    own: Option<&Def>,
    at: u32,
    pick: Pick,
) -> Result<(), AllocError>
    ensures { OnOk result (keys.new.items ≡ keys.old.items ++ parts.family_key (option_copied own.entry) at pick) }
{
    if !is_own(own, &pick) {
        keys.push((at, (pick.family, None)))?;
    }
    Ok(())
}

/// The claims that are assumed.
#[tactic(auto, using(smv_mentions::proofs::Notes::noting))]
pub fn claim_keys(alloc: Global, claims: &[(u32, Assumed)]) -> Result<Vec<Key>, AllocError>
    ensures { IfOk result (λ keys. keys.items ≡ parts.claim_keys claims.now) }
{
    let mut keys = Vec::new(alloc);
    for (at, used) in claims {
        keys.push((*at, (used.claim, None)))?;
    }
    Ok(keys)
}

/// The set types that have braces.
#[tactic(auto, using(smv_mentions::proofs::Notes::noting))]
pub fn set_names<'a>(
    alloc: Global,
    sets: &NameIndex,
    uses: &'a [Use],
) -> Result<Vec<(u32, &'a Name)>, AllocError>
    ensures { IfOk result (λ names. map placed names.items ≡ parts.set_keys sets.now uses.now) }
{
    let mut names = Vec::new(alloc);
    for x in uses {
        add_set_name(&mut names, sets, x)?;
    }
    Ok(names)
}

#[tactic(auto, using(smv_mentions::proofs::Notes::noting))]
fn add_set_name<'a>(
    names: &mut Vec<(u32, &'a Name)>,
    sets: &NameIndex,
    x: &'a Use,
) -> Result<(), AllocError>
    ensures { OnOk result (map placed names.new.items ≡ map placed names.old.items ++ parts.set_key sets.now x.now) }
{
    match x {
        Use::Keep { set, .. } => {
            if sets.find(&set.name).is_some() {
                names.push((set.at, &set.name))?;
            }
            Ok(())
        }
        Use::Plain { .. } => Ok(()),
        Use::Early { .. } => Ok(()),
    }
}

// The first of two choices of one family for a leaf, besides its own map.
fn chosen_again(
    alloc: Global,
    own: Option<&Def>,
    picks: &[(u32, Pick)],
) -> Result<Option<u32>, AllocError>
    ensures { IfOk result (λ place. place ≡ parts.chosen_again (option_copied own.entry) picks.now) }
{
    let keys = family_keys(alloc, own, picks)?;
    first_again(alloc, &keys)
}

// Whether two places are one, or both are none.
fn are_one(place: Option<u32>, other: Option<u32>) -> bool
    ensures { result ≡ true → place ≡ other }
{
    match (place, other) {
        (Some(at), Some(other)) => at == other,
        (None, None) => true,
        _ => false,
    }
}

// Notes a unit. Whether it was not noted before.
fn note_unit(seen: &mut HashSet<u16>, unit: u16) -> Result<bool, AllocError>
    ensures is_new { IfOk result (λ is_new. is_new ≡ not (is_seen seen.old unit)) }
    ensures seen { OnOk result ((other : ℕ) → is_seen seen.new other ≡ cond (nat_eq unit other) true (is_seen seen.old other)) }
{
    let is_new = seen.insert(unit)?;
    Ok(is_new)
}

// The same for a leaf, where none of its unit was looked at before.
fn chosen_anew(
    alloc: Global,
    units: &[Unit],
    tables: &Tables,
    seen: &mut HashSet<u16>,
    picks: &[(u32, Pick)],
    leaf: &Leaf,
) -> Result<Option<u32>, AllocError>
    ensures place { IfOk result (λ place. place ≡ (if is_seen seen.old leaf.now.unit then None else parts.chosen_again (own_map tables.now.design.now units.now leaf.now) picks.now)) }
    ensures seen { OnOk result ((other : ℕ) → is_seen seen.new other ≡ cond (nat_eq leaf.now.unit other) true (is_seen seen.old other)) }
{
    if !note_unit(seen, leaf.unit)? {
        return Ok(None);
    }
    let own = own_map(tables.design, units, leaf);
    let place = chosen_again(alloc, own, picks)?;
    Ok(place)
}

// The same for all leaves that are proved. None has an earlier place than there is without maps of their own, so most often the first leaf decides.
#[tactic(auto, using(crate::proofs::FaultLaws::bounds))]
fn chosen_for_each(
    alloc: Global,
    units: &[Unit],
    tables: &Tables,
    picks: &[(u32, Pick)],
    proved: &[Proved],
) -> Result<Option<u32>, AllocError>
    ensures { IfOk result (λ place. place ≡ parts.chosen_for_each tables.now.design.now units.now picks.now (map pair_of proved.now)) }
{
    let bound = chosen_again(alloc, None, picks)?;
    if bound.is_none() {
        return Ok(None);
    }
    let mut seen = HashSet::new(alloc);
    let mut found = None;
    for x in proved {
        let place = chosen_anew(alloc, units, tables, &mut seen, picks, x.leaf)?;
        found = first_of(found, place);
        if are_one(found, bound) {
            return Ok(found);
        }
    }
    Ok(found)
}

/// The first place of fault 27 in a `using`, besides leaves that others prove too.
pub(crate) fn twice_in(
    alloc: Global,
    units: &[Unit],
    tables: &Tables,
    x: &Reading,
) -> Result<Option<u32>, AllocError>
    requires { AreTables tables.now }
    ensures { IfOk result (λ place. place ≡ readings.twice_in tables.now.design.now units.now (reading x.now)) }
{
    let picks = x.found.picks.as_slice();
    let maps = map_keys(alloc, picks)?;
    let map = first_again(alloc, &maps)?;
    let family = chosen_for_each(alloc, units, tables, picks, &x.proved.leaves)?;
    let claims = claim_keys(alloc, x.found.claims.as_slice())?;
    let claim = first_again(alloc, &claims)?;
    let names = set_names(alloc, &tables.sets, x.using.uses.as_slice())?;
    let set = first_name_again(alloc, &names)?;
    Ok(first_of(first_of(map, family), first_of(claim, set)))
}
