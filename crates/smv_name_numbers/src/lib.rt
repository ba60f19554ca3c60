//! The numbers of the names of constants and of set types: equal names have one number, constants of whatever enumeration.
//! For the calls that make problems: the numbers are made once for a design and copied into the problem of each case. `name_number` and `set_numbers_of` of `smv_problem/specs/Written` say what they are.
#![tactic(auto)]

ghost use Rattle.std.specs.Prelude.{◌≡◌, ◌++◌, map, flat_map, IfOk, OnOk};
ghost use Rattle.smv_problem.specs.Written.{name_number, set_numbers_of};
ghost use Rattle.smv_name_numbers.specs.Places.{place_among};

use name_index::NameIndex;
use smv_core::flat::SetInfo;
use smv_core::{Name, Seq};
use std::alloc::{AllocError, Global};

// The names of one enumeration, behind those before.
fn push_names<'a>(index: &mut NameIndex<'a>, names: &'a [Name]) -> Result<(), AllocError>
    ensures { OnOk result (index.new ≡ index.old ++ names.now) }
{
    for name in names {
        index.push(name)?;
    }
    Ok(())
}

// The names of all enumerations, one after the other.
fn push_all<'a>(index: &mut NameIndex<'a>, enums: &'a [Seq<Name>]) -> Result<(), AllocError>
    ensures { OnOk result (index.new ≡ index.old ++ flat_map (λ names. names) enums.now) }
{
    for names in enums {
        push_names(index, names.as_slice())?;
    }
    Ok(())
}

// The first place of a name; 0 for one that is not there.
fn place_of(index: &NameIndex, name: &Name) -> usize
    ensures { result ≡ place_among index.now name.now }
{
    index.find(name).unwrap_or(0)
}

// The first place of each name of an enumeration.
fn places_of(alloc: Global, index: &NameIndex, names: &[Name]) -> Result<Seq<usize>, AllocError>
    ensures { IfOk result (λ places. places ≡ map (place_among index.now) names.now) }
{
    let mut places = Seq::new(alloc);
    for name in names {
        places.push(place_of(index, name))?;
    }
    Ok(places)
}

// And of each enumeration.
fn all_places(
    alloc: Global,
    index: &NameIndex,
    enums: &[Seq<Name>],
) -> Result<Seq<Seq<usize>>, AllocError>
    ensures { IfOk result (λ places. places ≡ map (map (place_among index.now)) enums.now) }
{
    let mut places = Seq::new(alloc);
    for names in enums {
        places.push(places_of(alloc, index, names.as_slice())?)?;
    }
    Ok(places)
}

/// The number of the name of each constant, enumeration by enumeration: that of its first place among all constants, counted from 1, and 0 for an empty name.
pub fn name_numbers(alloc: Global, enums: &[Seq<Name>]) -> Result<Seq<Seq<usize>>, AllocError>
    ensures { IfOk result (λ numbers. numbers ≡ map (map (name_number enums.now)) enums.now) }
{
    let empty = Name::from_vec(Vec::new(alloc));
    let mut index = NameIndex::new(alloc);
    index.push(&empty)?;
    push_all(&mut index, enums)?;
    all_places(alloc, &index, enums)
}

// The names of set types, behind those before.
fn push_set_names<'a>(index: &mut NameIndex<'a>, sets: &'a [SetInfo]) -> Result<(), AllocError>
    ensures { OnOk result (index.new ≡ index.old ++ map (λ info. info.name) sets.now) }
{
    for info in sets {
        index.push(&info.name)?;
    }
    Ok(())
}

// The first place of the name of each set type.
fn set_places(alloc: Global, index: &NameIndex, sets: &[SetInfo]) -> Result<Seq<usize>, AllocError>
    ensures { IfOk result (λ places. places ≡ map (λ info. place_among index.now info.name) sets.now) }
{
    let mut places = Seq::new(alloc);
    for info in sets {
        places.push(place_of(index, &info.name))?;
    }
    Ok(places)
}

/// The number of the name of each set type: that of its first place among them, counted from 1, and 0 for an empty name.
pub fn set_numbers(alloc: Global, sets: &[SetInfo]) -> Result<Seq<usize>, AllocError>
    ensures { IfOk result (λ numbers. numbers ≡ set_numbers_of sets.now) }
{
    let empty = Name::from_vec(Vec::new(alloc));
    let mut index = NameIndex::new(alloc);
    index.push(&empty)?;
    push_set_names(&mut index, sets)?;
    set_places(alloc, &index, sets)
}
