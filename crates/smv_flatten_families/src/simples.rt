// Types of one value by their numbers.
ghost use Rattle.std.specs.Prelude.{◌≡◌, length, IfOk};
ghost use Rattle.std.specs.List.{position_or_len};
ghost use Rattle.smv_core.specs.Types.{names_of};
ghost use Rattle.smv_core.specs.Outcome.{same_path};
ghost use Rattle.smv_core.specs.declared.flat.Simple.TheVariants.{Range, Enum, Set};
ghost use Rattle.law_designs.specs.Numbers.{set_number};
ghost use Rattle.smv_flatten_families.specs.Simples.{AreSimples, numbering};

use crate::fits::{byte, short};
use crate::names::key_of_words;
use crate::places::{Names, place_of};
use name_index::NameIndex;
use smv_core::flat::Simple;
use smv_core::name::Name;
use smv_core::tree::{Span, Text, Word};
use std::alloc::{AllocError, Global};
use std::collections::HashMap;

/// The numbers of the set types and enumerations of a text.
#[derive(Drop)]
pub struct Simples<'a> {
    pub alloc: Global,
    pub text: &'a Text,
    /// The names of the set types.
    pub sets: NameIndex<'a>,
    pub set_count: usize,
    /// The first place of each enumeration.
    pub lists: HashMap<Names<'a>, usize>,
    pub list_count: usize,
}

/// A set type, by its place among the set types.
pub(crate) fn set_simple(simples: &Simples, name: &Name) -> Result<Simple, AllocError>
    requires { AreSimples simples.now }
    ensures { IfOk result (λ t. t ≡ Set (set_number (numbering simples.now.text.now) name.now)) }
{
    let place = simples.sets.find(name).unwrap_or(simples.set_count);
    Ok(Simple::Set { set: short(place)? })
}

/// An enumeration, by the place of its list among the enumerations.
pub(crate) fn list_simple(simples: &Simples, words: &[Word]) -> Result<Simple, AllocError>
    requires { AreSimples simples.now }
    ensures { IfOk result (λ t. t ≡ Enum (position_or_len (same_path (names_of words.now)) (numbering simples.now.text.now).enums)) }
{
    let names = key_of_words(simples.alloc, words)?;
    let place = place_of(&simples.lists, &names).unwrap_or(simples.list_count);
    Ok(Simple::Enum {
        list: short(place)?,
    })
}

/// A range.
pub(crate) fn range_simple(span: Span) -> Result<Simple, AllocError>
    ensures { IfOk result (λ t. t ≡ Range span.low span.high) }
{
    let low = byte(span.low)?;
    let high = byte(span.high)?;
    Ok(Simple::Range { low, high })
}

/// What is written of a type that there is not.
pub(crate) fn no_simple(simples: &Simples) -> Result<Simple, AllocError>
    requires { AreSimples simples.now }
    ensures { IfOk result (λ t. t ≡ Enum (length (numbering simples.now.text.now).enums)) }
{
    Ok(Simple::Enum {
        list: short(simples.list_count)?,
    })
}
