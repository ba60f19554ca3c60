// Names behind names, and paths.
ghost use Rattle.std.specs.Prelude.{◌≡◌, option_map, IfOk, OnOk, ◌++◌, []};
ghost use Rattle.std.specs.List.{flat_map};
ghost use Rattle.smv_mentions.specs.Scopes as scopes;
ghost use Rattle.smv_mentions.specs.Scopes.{pieces, path_places, resolved};
ghost use Rattle.smv_mentions.specs.Said.{words_at, said_of};
ghost use Rattle.smv_first_fault.specs.Firsts.{least};
ghost use Rattle.smv_scope.specs.Numbered.{known_before, scope_at, inside_of, word_in};
ghost use Rattle.smv_scope.specs.Held.{AreTables, inner_of, own_of};

use crate::fields::fields_of;
use crate::places::{is_before, no_field};
use crate::tables::{Own, Tables, constant_at, module_named, own_name};
use smv_core::name::Name;
use smv_core::tree::{Part, Word};
use smv_first_fault::places::first_of;
use smv_mentions::mentions::What;
use std::alloc::{AllocError, Global};

/// A name in a module: the number of the module's top, and the name.
#[derive(Clone, Copy)]
pub struct Inner<'a> {
    pub place: usize,
    pub own: Own<'a>,
}

// A name in a module of a name.
fn inside<'a>(tables: &Tables<'a, '_>, module: &Name, name: &Name) -> Option<Inner<'a>>
    requires { AreTables tables.now }
    ensures { inside_of (scopes.module_named (pieces tables.now.text.now) module.now) name.now ≡ option_map (inner_of tables.now.text.now) result }
{
    match module_named(tables, module) {
        Some(found) => match own_name(tables, found.place, name) {
            Some(own) => Some(Inner {
                place: found.place,
                own,
            }),
            None => None,
        },
        None => None,
    }
}

/// What is wrong with names behind a signal, an instance, a claim or a split of the top of a number.
pub fn behind<'a>(
    tables: &Tables<'a, '_>,
    place: usize,
    what: What<'a>,
    words: &[&Word],
) -> Option<u32>
    requires { AreTables tables.now }
    ensures { result ≡ least (scopes.behind (pieces tables.now.text.now) (known_before tables.now.text.now place) (said_of what.entry) (words_at words.now)) }
{
    match what {
        What::Goal => no_field(words),
        What::Signal { of, .. } => fields_of(tables, place, of, words),
        What::Instance { module } => match words {
            [] => None,
            [word, more @ ..] => match inside(tables, &module.name, &word.name) {
                Some(inner) => behind(tables, inner.place, inner.own.what, more),
                None => Some(word.at),
            },
        },
    }
}

// A name and those behind it, where it is declared as a name of the module, and where first as a variable or a constant.
fn resolve<'a>(
    tables: &Tables<'a, '_>,
    place: usize,
    own: Option<Own<'a>>,
    value: Option<u32>,
    word: &Word,
    more: &[&Word],
) -> Option<u32>
    requires { AreTables tables.now }
    ensures { result ≡ least (resolved (scope_at tables.now.text.now place) (option_map own_of own.entry) value word.now (words_at more.now)) }
{
    match own {
        Some(own) => {
            if is_before(value, own.at) {
                no_field(more)
            } else {
                behind(tables, place, own.what, more)
            }
        }
        None => match value {
            Some(_) => no_field(more),
            None => Some(word.at),
        },
    }
}

// What is wrong with the names of a path in the top of a number, where a variable around it is bound there.
fn names_place<'a>(
    tables: &Tables<'a, '_>,
    place: usize,
    around: Option<u32>,
    words: &[&Word],
) -> Option<u32>
    requires { AreTables tables.now }
    ensures { result ≡ least (path_places (scope_at tables.now.text.now place) around (words_at words.now)) }
{
    match words {
        [] => None,
        [word, more @ ..] => {
            let own = own_name(tables, place, &word.name);
            let value = first_of(around, constant_at(tables, &word.name));
            resolve(tables, place, own, value, word, more)
        }
    }
}

// The name of a part of a path, unless it is an index.
fn word_of<'a>(out: &mut Vec<&'a Word>, part: &'a Part) -> Result<(), AllocError>
    ensures { OnOk result (words_at out.new.items ≡ words_at out.old.items ++ word_in part.now) }
{
    match part {
        Part::Field { name } => {
            out.push(name)?;
            Ok(())
        }
        Part::At { .. } => Ok(()),
    }
}

// The names of a path, without its indexes.
fn words_of<'a>(alloc: Global, parts: &'a [Part]) -> Result<Vec<&'a Word>, AllocError>
    ensures { IfOk result (λ words. words_at words.items ≡ flat_map word_in parts.now) }
{
    let mut out = Vec::new(alloc);
    for part in parts {
        word_of(&mut out, part)?;
    }
    Ok(out)
}

/// What is wrong with a path in the top of a number, where a variable around it is bound there: the place of its first name that is not declared.
pub(crate) fn path_place<'a>(
    alloc: Global,
    tables: &Tables<'a, '_>,
    place: usize,
    around: Option<u32>,
    parts: &'a [Part],
) -> Result<Option<u32>, AllocError>
    requires { AreTables tables.now }
    ensures { IfOk result (λ at. at ≡ least (path_places (scope_at tables.now.text.now place) around (scopes.words_of parts.now))) }
{
    let words = words_of(alloc, parts)?;
    Ok(names_place(tables, place, around, words.as_slice()))
}
