// What stands twice in a list.
ghost use Rattle.std.specs.Prelude.{◌≡◌, ◌++◌, ◌∷◌, [], map, is_some, cond, true, IfOk, OnOk};
ghost use Rattle.std.specs.Str.{bytes_eq};
ghost use Rattle.name_index.specs.Position.{position};
ghost use Rattle.smv_mentions.specs.NameFaults as faults;
ghost use Rattle.smv_first_fault.specs.Firsts.{least};
ghost use Rattle.smv_references.specs.Again.{Key, same_key, again, is_noted, placed};

use name_index::NameIndex;
use smv_core::name::Name;
use smv_first_fault::places::{first_of, place_if};
use std::alloc::{AllocError, Global};
use std::collections::HashSet;

// Notes a key, and gives its place where it was noted before.
#[tactic(auto, using(crate::proofs::AgainLaws::nots))]
fn note(
    seen: &mut HashSet<(u16, Option<u16>)>,
    key: (u16, Option<u16>),
    at: u32,
) -> Result<Option<u32>, AllocError>
    ensures place { IfOk result (λ place. place ≡ least (faults.place_if (is_noted seen.old key) at)) }
    ensures noted { OnOk result ((other : Key) → is_noted seen.new other ≡ cond (same_key key other) true (is_noted seen.old other)) }
{
    let is_new = seen.insert(key)?;
    Ok(place_if(!is_new, at))
}

/// The first place of a key, of one number or two, that stood before.
pub fn first_again(
    alloc: Global,
    keys: &[(u32, (u16, Option<u16>))],
) -> Result<Option<u32>, AllocError>
    ensures { IfOk result (λ place. place ≡ least (again same_key [] keys.now)) }
{
    let mut seen = HashSet::new(alloc);
    let mut found = None;
    for (at, key) in keys {
        let place = note(&mut seen, *key, *at)?;
        found = first_of(found, place);
    }
    Ok(found)
}

// Notes a name, and gives its place where it was noted before.
fn note_name<'a>(
    seen: &mut NameIndex<'a>,
    name: &'a Name,
    at: u32,
) -> Result<Option<u32>, AllocError>
    ensures place { IfOk result (λ place. place ≡ least (faults.place_if (is_some (position seen.old name.now)) at)) }
    ensures noted { OnOk result (seen.new ≡ seen.old ++ name.now ∷ []) }
{
    let known = seen.find(name).is_some();
    seen.push(name)?;
    Ok(place_if(known, at))
}

/// The first place of a name that stood before.
#[tactic(auto, using(crate::proofs::AgainLaws::naming))]
pub fn first_name_again<'a>(
    alloc: Global,
    names: &[(u32, &'a Name)],
) -> Result<Option<u32>, AllocError>
    ensures { IfOk result (λ place. place ≡ least (again bytes_eq [] (map placed names.now))) }
{
    let mut seen = NameIndex::new(alloc);
    let mut found = None;
    for (at, name) in names {
        let place = note_name(&mut seen, name, *at)?;
        found = first_of(found, place);
    }
    Ok(found)
}
