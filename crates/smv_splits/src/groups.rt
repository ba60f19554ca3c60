// The splits of a design in groups by what they are of.
ghost use Rattle.std.specs.Prelude.{◌≡◌, ◌<◌, ◌++◌, ◌∷◌, [], map, replicate, slice_set, vec_len, IfOk, OnOk};
ghost use Rattle.graph_search.specs.Walks.{lists, list_at};
ghost use Rattle.graph_search.specs.Reverse.{after};
ghost use Rattle.law_splits.specs.Leaves.{named_by};
ghost use Rattle.smv_splits.specs.Groups.{numbers_with, noted_in, AreGroups, AreTables};

use name_index::NameIndex;
use smv_core::flat::Design;
use smv_core::name::Name;
use std::alloc::{AllocError, Global};

/// A design with the names of what its splits are of, and for the first place of each such name the numbers of the splits that are of it.
#[derive(Drop)]
pub struct Tables<'a> {
    pub design: &'a Design,
    pub named: NameIndex<'a>,
    pub groups: Vec<Vec<usize>>,
}

// So many empty groups.
fn no_groups(alloc: Global, count: usize) -> Result<Vec<Vec<usize>>, AllocError>
    ensures { IfOk result (λ groups. lists groups.items ≡ replicate count []) }
{
    let mut groups: Vec<Vec<usize>> = Vec::new(alloc);
    for _place in 0..count {
        groups.push(Vec::new(alloc))?;
    }
    Ok(groups)
}

// A number more in the group of a place that there is.
fn add(groups: &mut Vec<Vec<usize>>, place: usize, number: usize) -> Result<(), AllocError>
    requires { place < vec_len groups.old }
    ensures { OnOk result (lists groups.new.items ≡ slice_set (lists groups.old.items) place (after (lists groups.old.items) place ++ number ∷ [])) }
{
    groups[place].push(number)?;
    Ok(())
}

// A number more in the group of a place.
fn note(groups: &mut Vec<Vec<usize>>, place: Option<usize>, number: usize) -> Result<(), AllocError>
    ensures { OnOk result (lists groups.new.items ≡ noted_in (lists groups.old.items) place number) }
{
    match place {
        Some(place) => {
            if place < groups.len() {
                add(groups, place, number)?;
            }
            Ok(())
        }
        None => Ok(()),
    }
}

// For the first place of each name the numbers of its places.
fn make_groups(
    alloc: Global,
    named: &NameIndex,
    names: &[Name],
) -> Result<Vec<Vec<usize>>, AllocError>
    requires { named.now ≡ names.now }
    ensures { IfOk result (λ groups. AreGroups names.now (lists groups.items)) }
{
    let mut groups = no_groups(alloc, names.len())?;
    for (number, name) in names.iter().enumerate() {
        note(&mut groups, named.find(name), number)?;
    }
    Ok(groups)
}

/// The tables of a design, with the names of what its splits are of.
pub fn make_tables<'a>(
    alloc: Global,
    design: &'a Design,
    named: NameIndex<'a>,
    names: &[Name],
) -> Result<Tables<'a>, AllocError>
    requires names { names.now ≡ map (λ split. named_by split.of) design.now.splits }
    requires named { named ≡ names.now }
    ensures same { IfOk result (λ tables. tables.design.now ≡ design.now) }
    ensures tables { IfOk result (λ tables. AreTables tables) }
{
    let groups = make_groups(alloc, &named, names)?;
    Ok(Tables {
        design,
        named,
        groups,
    })
}

// The group at a place, if there is one.
fn group_at(groups: &[Vec<usize>], place: Option<usize>) -> &[usize]
    ensures { result.now ≡ list_at (lists groups.now) place }
{
    match place {
        Some(place) => match groups.get(place) {
            Some(group) => group.as_slice(),
            None => &[],
        },
        None => &[],
    }
}

/// The numbers of the splits that are of what has a name, in their order.
pub fn group<'a>(tables: &'a Tables, name: &Name) -> &'a [usize]
    requires { AreTables tables.now }
    ensures { result.now ≡ numbers_with name.now 0 tables.now.named }
{
    group_at(&tables.groups, tables.named.find(name))
}
