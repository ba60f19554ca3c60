// Where a name that is declared twice is declared first.
ghost use Rattle.std.specs.Prelude.{◌≡◌, [], ◌∷◌, ◌++◌, map, Some, IfOk, OnOk, slice_get, option_to_list, if◌then◌else◌, nat_eq};
ghost use Rattle.std.specs.List.{flat_map};
ghost use Rattle.smv_core.specs.Types.{find_name};
ghost use Rattle.smv_core.specs.declared.tree.Field.{out-Field};
ghost use Rattle.smv_mentions.specs.Scopes as scopes;
ghost use Rattle.smv_mentions.specs.Scopes.{pieces};
ghost use Rattle.smv_mentions.specs.Said.{said, words_at};
ghost use Rattle.smv_mentions.specs.NameFaults as faults;
ghost use Rattle.smv_scope.specs.Numbered.{scope_at};
ghost use Rattle.smv_scope.specs.Held.{AreTables, piece_noted};
ghost use Rattle.smv_look_names.specs.Names as spec;

use crate::least::least;
use crate::lists::{push_listed, push_place};
use crate::words::{declared_words, field_words, listed_words, top_words};
use name_index::map::NameMap;
use smv_core::tree::{Field, Text, Word};
use smv_mentions::mentions::Mention;
use smv_mentions::pieces::{Piece, pieces};
use smv_scope::build::tables;
use smv_scope::tables::{Tables, constant_at, own_name};
use smv_scope::undeclared::formals_of;
use std::alloc::{AllocError, Global};

// ---- words of one list

// Where the name of a word is seen, if the word stands at a place.
fn seen_at(seen: &NameMap<u32>, word: &Word, at: u32) -> Option<u32>
    ensures { option_to_list result ≡ (if nat_eq word.now.at at then option_to_list (find_name seen.now word.now.name) else []) }
{
    if word.at == at {
        seen.find(&word.name).copied()
    } else {
        None
    }
}

// Where the name of the word at a place stands first before it.
fn push_before<'a>(
    alloc: Global,
    out: &mut Vec<u32>,
    words: &[&'a Word],
    at: u32,
) -> Result<(), AllocError>
    ensures { OnOk result (out.new.items ≡ out.old.items ++ spec.first_before at [] (words_at words.now)) }
{
    let mut seen = NameMap::new(alloc);
    for word in words {
        push_place(out, seen_at(&seen, word, at))?;
        seen.push(&word.name, word.at)?;
    }
    Ok(())
}

// The same among the words of a list.
fn push_words(alloc: Global, out: &mut Vec<u32>, words: &[Word], at: u32) -> Result<(), AllocError>
    ensures { OnOk result (out.new.items ≡ out.old.items ++ spec.first_before at [] words.now) }
{
    let listed = listed_words(alloc, words)?;
    push_before(alloc, out, listed.as_slice(), at)
}

// The same among the names of fields.
fn push_fields(
    alloc: Global,
    out: &mut Vec<u32>,
    fields: &[Field],
    at: u32,
) -> Result<(), AllocError>
    ensures { OnOk result (out.new.items ≡ out.old.items ++ spec.first_before at [] (flat_map (λ field. (out-Field field).names) fields.now)) }
{
    let words = field_words(alloc, fields)?;
    push_before(alloc, out, words.as_slice(), at)
}

// The same among the words that are declared.
fn push_declared(
    alloc: Global,
    out: &mut Vec<u32>,
    mentions: &[Mention],
    at: u32,
) -> Result<(), AllocError>
    ensures { OnOk result (out.new.items ≡ out.old.items ++ spec.first_before at [] (flat_map (λ mention. faults.declared_words (said mention ∷ [])) mentions.now)) }
{
    let words = declared_words(alloc, mentions)?;
    push_before(alloc, out, words.as_slice(), at)
}

// The same among the names of the tops.
fn push_tops(alloc: Global, out: &mut Vec<u32>, tables: &Tables, at: u32) -> Result<(), AllocError>
    requires { AreTables tables.now }
    ensures { OnOk result (out.new.items ≡ out.old.items ++ spec.first_before at [] (map (λ piece. piece.word) (pieces tables.now.text.now))) }
{
    let words = top_words(alloc, tables.pieces)?;
    push_before(alloc, out, words.as_slice(), at)
}

// ---- names of several sorts

// The earlier of two declarations of one name, where there are two and the later stands at a place.
fn earlier_of(other: Option<u32>, here: u32, at: u32) -> Option<u32>
    ensures { option_to_list result ≡ spec.earlier_of at other here }
{
    match other {
        Some(other) => {
            if other.max(here) == at {
                Some(other.min(here))
            } else {
                None
            }
        }
        None => None,
    }
}

// The places of the constants of a list.
fn push_constants(
    alloc: Global,
    out: &mut Vec<u32>,
    tables: &Tables,
    names: &[Word],
    at: u32,
) -> Result<(), AllocError>
    requires { AreTables tables.now }
    ensures { OnOk result (out.new.items ≡ out.old.items ++ (spec.first_before at [] names.now ++ flat_map (spec.listed_at at (scopes.constants (pieces tables.now.text.now)) names.now) names.now)) }
{
    push_words(alloc, out, names, at)?;
    push_listed(out, tables, names, at)
}

// Where a name is first declared as a name of the top of a number.
fn own_at(tables: &Tables, place: usize, word: &Word) -> Option<u32>
    requires { AreTables tables.now }
    ensures { result ≡ faults.own_at (scope_at tables.now.text.now place) word.now.name }
{
    match own_name(tables, place, &word.name) {
        Some(own) => Some(own.at),
        None => None,
    }
}

// The places of a variable that is declared before or after as something else.
fn push_variable(
    out: &mut Vec<u32>,
    tables: &Tables,
    place: usize,
    around: Option<u32>,
    var: &Word,
    at: u32,
) -> Result<(), AllocError>
    requires { AreTables tables.now }
    ensures { OnOk result (out.new.items ≡ out.old.items ++ (spec.earlier_of at around var.now.at ++ spec.earlier_of at (scopes.constant_at (scope_at tables.now.text.now place) var.now.name) var.now.at ++ spec.earlier_of at (faults.own_at (scope_at tables.now.text.now place) var.now.name) var.now.at)) }
{
    push_place(out, earlier_of(around, var.at, at))?;
    push_place(out, earlier_of(constant_at(tables, &var.name), var.at, at))?;
    push_place(out, earlier_of(own_at(tables, place, var), var.at, at))
}

// The places of what is declared twice in one thing that the top of a number says.
fn push_said<'a>(
    alloc: Global,
    out: &mut Vec<u32>,
    tables: &Tables<'a, '_>,
    place: usize,
    mention: &Mention<'a>,
    at: u32,
) -> Result<(), AllocError>
    requires { AreTables tables.now }
    ensures { OnOk result (out.new.items ≡ out.old.items ++ spec.first_said at (scope_at tables.now.text.now place) (said mention.now)) }
{
    match *mention {
        Mention::HasFields { fields } => push_fields(alloc, out, fields, at),
        Mention::ListsConstants { names } => push_constants(alloc, out, tables, names, at),
        Mention::Declares { word, .. } => {
            push_place(
                out,
                earlier_of(constant_at(tables, &word.name), word.at, at),
            )
        }
        Mention::Binds { around, var } => push_variable(out, tables, place, around, var, at),
        _ => Ok(()),
    }
}

// The same of all that it says.
fn push_all_said<'a>(
    alloc: Global,
    out: &mut Vec<u32>,
    tables: &Tables<'a, '_>,
    place: usize,
    mentions: &[Mention<'a>],
    at: u32,
) -> Result<(), AllocError>
    requires { AreTables tables.now }
    ensures { OnOk result (out.new.items ≡ out.old.items ++ flat_map (λ mention. spec.first_said at (scope_at tables.now.text.now place) (said mention)) mentions.now) }
{
    for mention in mentions {
        push_said(alloc, out, tables, place, mention, at)?;
    }
    Ok(())
}

// ---- tops

// The places of what is declared twice in the top of a number.
fn push_top<'a>(
    alloc: Global,
    out: &mut Vec<u32>,
    tables: &Tables<'a, '_>,
    place: usize,
    piece: &Piece<'a>,
    at: u32,
) -> Result<(), AllocError>
    requires tables { AreTables tables.now }
    requires here { slice_get tables.now.pieces.now place ≡ Some piece.now }
    ensures { OnOk result (out.new.items ≡ out.old.items ++ spec.first_in at (pieces tables.now.text.now) (piece_noted tables.now.text.now place piece.now)) }
{
    push_words(alloc, out, formals_of(piece), at)?;
    push_declared(alloc, out, piece.mentions.as_slice(), at)?;
    push_all_said(alloc, out, tables, place, piece.mentions.as_slice(), at)
}

// The places of what is declared twice in all tops.
fn push_all(alloc: Global, out: &mut Vec<u32>, tables: &Tables, at: u32) -> Result<(), AllocError>
    requires { AreTables tables.now }
    ensures { OnOk result (out.new.items ≡ out.old.items ++ flat_map (spec.first_in at (pieces tables.now.text.now)) (pieces tables.now.text.now)) }
{
    for place in 0..tables.pieces.len() {
        let piece = &tables.pieces[place];
        push_top(alloc, out, tables, place, piece, at)?;
    }
    Ok(())
}

// All places where the name that is declared twice at a place is declared before.
fn push_places(
    alloc: Global,
    out: &mut Vec<u32>,
    tables: &Tables,
    at: u32,
) -> Result<(), AllocError>
    requires { AreTables tables.now }
    ensures { OnOk result (out.new.items ≡ out.old.items ++ spec.declared_before at (pieces tables.now.text.now)) }
{
    push_tops(alloc, out, tables, at)?;
    push_all(alloc, out, tables, at)
}

/// Where the name that is declared twice at a place of a text is declared first.
pub fn declared_first(alloc: Global, text: &Text, at: u32) -> Result<Option<u32>, AllocError>
    ensures { IfOk result (λ place. place ≡ spec.declared_first text.now at) }
{
    let pieces = pieces(alloc, text)?;
    let tables = tables(alloc, text, pieces.as_slice())?;
    let mut out = Vec::new(alloc);
    push_places(alloc, &mut out, &tables, at)?;
    Ok(least(out.as_slice()))
}
