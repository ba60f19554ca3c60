// Names that are not declared.
ghost use Rattle.std.specs.Prelude.{◌≡◌, [], Some, IfOk, slice_get, not, is_none, option_map, unwrap_or};
ghost use Rattle.smv_core.specs.Types.{find_name};
ghost use Rattle.std.specs.List.{flat_map};
ghost use Rattle.smv_core.specs.Types.{names_of};
ghost use Rattle.smv_mentions.specs.Scopes as scopes;
ghost use Rattle.smv_mentions.specs.Scopes.{pieces};
ghost use Rattle.smv_mentions.specs.Said.{said, said_of};
ghost use Rattle.smv_mentions.specs.NameFaults as faults;
ghost use Rattle.smv_first_fault.specs.Firsts.{least};
ghost use Rattle.smv_scope.specs.Numbered.{scope_at, known_before};
ghost use Rattle.smv_scope.specs.Held.{AreTables, AreFormals, piece_noted};

use crate::fields::type_named;
use crate::paths::path_place;
use crate::tables::{Tables, module_named, own_name};
use name_index::NameIndex;
use smv_core::name::Name;
use smv_core::tree::{Role, Word};
use smv_first_fault::places::{first_of, place_if};
use smv_mentions::mentions::{Mention, What};
use smv_mentions::pieces::Piece;
use std::alloc::{AllocError, Global};

/// The formals of a module, and where each name is among them.
#[derive(Drop)]
pub struct Formals<'a> {
    pub words: &'a [Word],
    pub index: NameIndex<'a>,
}

// Where the names of the formals are among them.
#[tactic(auto, using(smv_mentions::proofs::Notes::noting))]
fn index_of<'a>(alloc: Global, words: &'a [Word]) -> Result<NameIndex<'a>, AllocError>
    ensures { IfOk result (λ index. index ≡ names_of words.now) }
{
    let mut index = NameIndex::new(alloc);
    for word in words {
        index.push(&word.name)?;
    }
    Ok(index)
}

// Whether a name is a formal.
#[tactic(auto, using(crate::proofs::NameLaws::names))]
fn is_formal(formals: &Formals, name: &Name) -> bool
    requires { AreFormals formals.now }
    ensures { result ≡ scopes.has_name formals.now.words.now name.now }
{
    formals.index.find(name).is_some()
}

// Whether a module takes or gives this.
fn is_port(what: &What) -> bool
    ensures { result ≡ faults.is_port (said_of what.now) }
{
    match what {
        What::Signal {
            role: Role::Input,
            ..
        } => true,
        What::Signal {
            role: Role::Output,
            ..
        } => true,
        _ => false,
    }
}

// A type that is not declared.
#[tactic(auto, using(crate::proofs::Numbers::numbered))]
fn undeclared_type(tables: &Tables, place: usize, word: &Word) -> Option<u32>
    requires { AreTables tables.now }
    ensures { result ≡ least (faults.place_if (not (faults.is_type (find_name (known_before tables.now.text.now place) word.now.name))) word.now.at) }
{
    let found = type_named(tables.text, &tables.names, place, &word.name);
    place_if(found.is_none(), word.at)
}

// A module that is not declared.
fn undeclared_module(tables: &Tables, word: &Word) -> Option<u32>
    requires { AreTables tables.now }
    ensures { result ≡ least (faults.place_if (is_none (scopes.module_named (pieces tables.now.text.now) word.now.name)) word.now.at) }
{
    place_if(module_named(tables, &word.name).is_none(), word.at)
}

// What is not declared in one thing that the top of a number says.
fn undeclared<'a>(
    alloc: Global,
    tables: &Tables<'a, '_>,
    place: usize,
    formals: &Formals,
    mention: &Mention<'a>,
) -> Result<Option<u32>, AllocError>
    requires tables { AreTables tables.now }
    requires formals { AreFormals formals.now }
    ensures { IfOk result (λ at. at ≡ least (faults.undeclared (scope_at tables.now.text.now place) formals.now.words.now (said mention.now))) }
{
    match *mention {
        Mention::NamesType { word } => Ok(undeclared_type(tables, place, word)),
        Mention::Instantiates { module, .. } => Ok(undeclared_module(tables, module)),
        Mention::Follows { around, parts } => path_place(alloc, tables, place, around, parts),
        Mention::Declares { word, what } => Ok(place_if(
            is_port(&what) && !is_formal(formals, &word.name),
            word.at,
        )),
        _ => Ok(None),
    }
}

// A formal that is not declared as `input` or `output`.
fn formal_undeclared(tables: &Tables, place: usize, word: &Word) -> Option<u32>
    requires { AreTables tables.now }
    ensures { result ≡ least (faults.formal_undeclared (scope_at tables.now.text.now place) word.now) }
{
    match own_name(tables, place, &word.name) {
        Some(own) => place_if(!is_port(&own.what), word.at),
        None => Some(word.at),
    }
}

// The first formal that is not declared.
#[tactic(auto, using(smv_first_fault::proofs::LeastLaws::leasts))]
fn undeclared_formals(tables: &Tables, place: usize, words: &[Word]) -> Option<u32>
    requires { AreTables tables.now }
    ensures { result ≡ least (flat_map (faults.formal_undeclared (scope_at tables.now.text.now place)) words.now) }
{
    let mut first = None;
    for word in words {
        first = first_of(first, formal_undeclared(tables, place, word));
    }
    first
}

// The first thing of these that is not declared.
#[tactic(auto, using(smv_first_fault::proofs::LeastLaws::leasts))]
fn undeclared_mentions<'a>(
    alloc: Global,
    tables: &Tables<'a, '_>,
    place: usize,
    formals: &Formals,
    mentions: &[Mention<'a>],
) -> Result<Option<u32>, AllocError>
    requires tables { AreTables tables.now }
    requires formals { AreFormals formals.now }
    ensures { IfOk result (λ at. at ≡ least (flat_map (λ mention. faults.undeclared (scope_at tables.now.text.now place) formals.now.words.now (said mention)) mentions.now)) }
{
    let mut first = None;
    for mention in mentions {
        let at = undeclared(alloc, tables, place, formals, mention)?;
        first = first_of(first, at);
    }
    Ok(first)
}

/// The formals of a top, none where it is no module.
pub fn formals_of<'a>(piece: &Piece<'a>) -> &'a [Word]
    ensures { result.now ≡ unwrap_or (option_map (λ words. words.now) piece.now.formals) [] }
{
    match piece.formals {
        Some(words) => words,
        None => &[],
    }
}

/// The first thing that is not declared in the top of a number.
pub(crate) fn undeclared_in<'a>(
    alloc: Global,
    tables: &Tables<'a, '_>,
    place: usize,
    piece: &Piece<'a>,
) -> Result<Option<u32>, AllocError>
    requires tables { AreTables tables.now }
    requires here { slice_get tables.now.pieces.now place ≡ Some piece.now }
    ensures { IfOk result (λ at. at ≡ least (faults.undeclared_in (pieces tables.now.text.now) (piece_noted tables.now.text.now place piece.now))) }
{
    let words = formals_of(piece);
    let index = index_of(alloc, words)?;
    let formals = Formals { words, index };
    let first = undeclared_formals(tables, place, words);
    let second = undeclared_mentions(alloc, tables, place, &formals, piece.mentions.as_slice())?;
    Ok(first_of(first, second))
}
