// What types, constants and paths are in a flattened text.
ghost use Rattle.std.specs.Prelude.{◌≡◌, ◌++◌, IfOk, length, option_map};
ghost use Rattle.smv_core.specs.Outcome.{family_at, fields_of};
ghost use Rattle.law_designs.specs.Numbers.{flat_over, constant_in, family_number};
ghost use Rattle.smv_flatten_families.specs.Paths.{path_of};
ghost use Rattle.smv_flatten_families.specs.Held.{AreNumbers, instance_of, scope_here};
ghost use Rattle.smv_core.specs.declared.flat.FlatExpr.{Constant};
ghost use Rattle.smv_flatten_families.specs.Found.{family_place, is_empty, lone_name};

use crate::fits::short;
use crate::numbers::Here;
use crate::places::{Names, place_of};
use crate::simples::no_simple;
use crate::types::simple_type;
use smv_core::flat::{FlatExpr, Simple};
use smv_core::name::Name;
use smv_core::tree::{Part, TypeExpr};
use std::alloc::{AllocError, Global};

/// The type over which a binder runs. Also where a number does not fit its field, which no text within the limits has, no memory is said to be left.
pub fn over(here: Here, of: &TypeExpr) -> Result<Simple, AllocError>
    requires { AreNumbers here.numbers.now }
    ensures { IfOk result (λ over. over ≡ flat_over (scope_here here.entry) of.now) }
{
    let types = &here.numbers.types;
    match simple_type(types, of, types.forms.len())? {
        Some(over) => Ok(over),
        None => no_simple(&types.simples),
    }
}

// Whether a path has no name.
fn is_nameless(parts: &[Part]) -> bool
    ensures { result ≡ is_empty (fields_of parts.now) }
{
    match parts {
        [] => true,
        [part, more @ ..] => match part {
            Part::Field { .. } => false,
            Part::At { .. } => is_nameless(more),
        },
    }
}

// The name of a path that is a name alone, without its indexes.
fn lone_name_of(parts: &[Part]) -> Option<&Name>
    ensures { option_map (λ name. name.now) result ≡ lone_name (fields_of parts.now) }
{
    match parts {
        [] => None,
        [part, more @ ..] => match part {
            Part::Field { name } => {
                if is_nameless(more) {
                    Some(&name.name)
                } else {
                    None
                }
            }
            Part::At { .. } => lone_name_of(more),
        },
    }
}

// What is written of a constant that there is not.
fn no_constant(here: Here, at: u32) -> Result<FlatExpr, AllocError>
    requires { AreNumbers here.numbers.now }
    ensures { IfOk result (λ e. e ≡ Constant (length (scope_here here.entry).enums) 0 at) }
{
    Ok(FlatExpr::Constant {
        list: short(here.numbers.enums.len())?,
        value: 0,
        at,
    })
}

/// A constant at a place, by its path. Also where a number does not fit its field, no memory is said to be left.
pub fn constant(here: Here, parts: &[Part], at: u32) -> Result<FlatExpr, AllocError>
    requires { AreNumbers here.numbers.now }
    ensures { IfOk result (λ e. e ≡ constant_in (scope_here here.entry) (fields_of parts.now) at) }
{
    match lone_name_of(parts) {
        Some(name) => match here.numbers.constants.find(name) {
            Some(constant) => Ok(FlatExpr::Constant {
                list: constant.list,
                value: constant.value,
                at,
            }),
            None => no_constant(here, at),
        },
        None => no_constant(here, at),
    }
}

// These names, and those of a path behind them, without its indexes.
#[tactic(auto, using(smv_mentions::proofs::Notes::noting))]
fn key_of_parts<'p>(
    alloc: Global,
    names: &[&'p Name],
    parts: &'p [Part],
) -> Result<Names<'p>, AllocError>
    ensures { IfOk result (λ key. key ≡ path_of names.now ++ fields_of parts.now) }
{
    let mut key = Vec::from_slice(alloc, names)?;
    for part in parts {
        match part {
            Part::Field { name } => key.push(&name.name)?,
            Part::At { .. } => {}
        }
    }
    Ok(Names::from_vec(key))
}

// The first place of the family to which a path leads from an instance.
fn found_at(here: Here, parts: &[Part]) -> Result<Option<usize>, AllocError>
    requires { AreNumbers here.numbers.now }
    ensures { IfOk result (λ place. place ≡ family_place here.entry (instance_of here.entry ++ fields_of parts.now)) }
{
    let key = key_of_parts(here.numbers.types.simples.alloc, here.instance, parts)?;
    Ok(place_of(&here.numbers.places, &key))
}

/// The family to which a path leads from an instance, where it is a signal. Also where a number does not fit its field, no memory is said to be left.
pub fn signal(here: Here, parts: &[Part]) -> Result<Option<u16>, AllocError>
    requires { AreNumbers here.numbers.now }
    ensures { IfOk result (λ found. found ≡ option_map (λ f. family_number (scope_here here.entry) (instance_of here.entry ++ fields_of parts.now)) (family_at (scope_here here.entry).families (instance_of here.entry ++ fields_of parts.now))) }
{
    match found_at(here, parts)? {
        Some(place) => Ok(Some(short(place)?)),
        None => Ok(None),
    }
}

/// The family to which a path leads from an instance, or the number of families where it is none. Also where a number does not fit its field, no memory is said to be
/// left.
pub fn family(here: Here, parts: &[Part]) -> Result<u16, AllocError>
    requires { AreNumbers here.numbers.now }
    ensures { IfOk result (λ n. n ≡ family_number (scope_here here.entry) (instance_of here.entry ++ fields_of parts.now)) }
{
    let found = found_at(here, parts)?;
    let place = found.unwrap_or(here.numbers.families.len());
    Ok(short(place)?)
}

// These names, and others behind them.
fn key_of_names<'p>(
    alloc: Global,
    names: &[&'p Name],
    more: &[&'p Name],
) -> Result<Names<'p>, AllocError>
    ensures { IfOk result (λ key. key ≡ path_of names.now ++ path_of more.now) }
{
    let mut key = Vec::from_slice(alloc, names)?;
    for name in more {
        key.push(*name)?;
    }
    Ok(Names::from_vec(key))
}

/// The same for a path of names.
pub fn family_named(here: Here, names: &[&Name]) -> Result<u16, AllocError>
    requires { AreNumbers here.numbers.now }
    ensures { IfOk result (λ n. n ≡ family_number (scope_here here.entry) (instance_of here.entry ++ path_of names.now)) }
{
    let key = key_of_names(here.numbers.types.simples.alloc, here.instance, names)?;
    let found = place_of(&here.numbers.places, &key);
    let place = found.unwrap_or(here.numbers.families.len());
    Ok(short(place)?)
}
