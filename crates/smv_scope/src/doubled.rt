// Names that are declared twice.
ghost use Rattle.std.specs.Prelude.{◌≡◌, [], ◌∷◌, ◌++◌, Some, IfOk, OnOk, slice_get, map, is_some};
ghost use Rattle.std.specs.List.{flat_map};
ghost use Rattle.smv_core.specs.declared.tree.Field.{out-Field};
ghost use Rattle.smv_mentions.specs.Scopes as scopes;
ghost use Rattle.smv_mentions.specs.Scopes.{pieces};
ghost use Rattle.smv_mentions.specs.Said.{said, words_at};
ghost use Rattle.smv_mentions.specs.NameFaults as faults;
ghost use Rattle.name_index.specs.Position.{position};
ghost use Rattle.smv_first_fault.specs.Firsts.{least};
ghost use Rattle.smv_scope.specs.Numbered.{scope_at};
ghost use Rattle.smv_scope.specs.Held.{AreTables, piece_noted};
ghost use Rattle.smv_scope.specs.Rules.{others};

use crate::constants::other_constant;
use crate::places::later;
use crate::tables::{Tables, constant_at, own_name};
use crate::undeclared::formals_of;
use name_index::NameIndex;
use smv_core::tree::{Field, Word};
use smv_first_fault::places::{first_of, place_if};
use smv_mentions::mentions::Mention;
use smv_mentions::pieces::Piece;
use std::alloc::{AllocError, Global};

// ---- words of one list

// The place of a word whose name stands before; and the name.
fn see<'a>(seen: &mut NameIndex<'a>, word: &'a Word) -> Result<Option<u32>, AllocError>
    ensures place { IfOk result (λ at. at ≡ least (faults.place_if (is_some (position seen.old word.now.name)) word.now.at)) }
    ensures seen { OnOk result (seen.new ≡ seen.old ++ word.now.name ∷ []) }
{
    let known = seen.find(&word.name).is_some();
    seen.push(&word.name)?;
    Ok(place_if(known, word.at))
}

// The first of these words whose name stands before.
fn repeated<'a>(alloc: Global, words: &[&'a Word]) -> Result<Option<u32>, AllocError>
    ensures { IfOk result (λ at. at ≡ least (faults.repeated [] (words_at words.now))) }
{
    let mut seen = NameIndex::new(alloc);
    let mut first = None;
    for word in words {
        let at = see(&mut seen, word)?;
        first = first_of(first, at);
    }
    Ok(first)
}

// These words more.
#[tactic(auto, using(smv_mentions::proofs::Notes::noting))]
fn add_words<'a>(out: &mut Vec<&'a Word>, words: &'a [Word]) -> Result<(), AllocError>
    ensures { OnOk result (words_at out.new.items ≡ words_at out.old.items ++ words.now) }
{
    for word in words {
        out.push(word)?;
    }
    Ok(())
}

// The first of these words whose name stands before.
fn repeated_in(alloc: Global, words: &[Word]) -> Result<Option<u32>, AllocError>
    ensures { IfOk result (λ at. at ≡ least (faults.repeated [] words.now)) }
{
    let mut out = Vec::new(alloc);
    add_words(&mut out, words)?;
    repeated(alloc, out.as_slice())
}

// The names of fields.
#[tactic(auto, using(smv_mentions::proofs::Notes::noting))]
fn field_words<'a>(alloc: Global, fields: &'a [Field]) -> Result<Vec<&'a Word>, AllocError>
    ensures { IfOk result (λ words. words_at words.items ≡ flat_map (λ field. (out-Field field).names) fields.now) }
{
    let mut out = Vec::new(alloc);
    for field in fields {
        add_words(&mut out, field.names.as_slice())?;
    }
    Ok(out)
}

// The first field whose name stands before in its struct.
fn doubled_field(alloc: Global, fields: &[Field]) -> Result<Option<u32>, AllocError>
    ensures { IfOk result (λ at. at ≡ least (faults.repeated [] (flat_map (λ field. (out-Field field).names) fields.now))) }
{
    let words = field_words(alloc, fields)?;
    repeated(alloc, words.as_slice())
}

// The word that is declared, where something is.
#[tactic(auto, using(smv_mentions::proofs::Notes::noting))]
fn add_declared<'a>(out: &mut Vec<&'a Word>, mention: &Mention<'a>) -> Result<(), AllocError>
    ensures { OnOk result (words_at out.new.items ≡ words_at out.old.items ++ faults.declared_words (said mention.now ∷ [])) }
{
    match *mention {
        Mention::Declares { word, .. } => {
            out.push(word)?;
            Ok(())
        }
        _ => Ok(()),
    }
}

// The words that are declared.
#[tactic(auto, using(smv_mentions::proofs::Notes::noting))]
fn declared_words<'a>(alloc: Global, mentions: &[Mention<'a>]) -> Result<Vec<&'a Word>, AllocError>
    ensures { IfOk result (λ words. words_at words.items ≡ flat_map (λ mention. faults.declared_words (said mention ∷ [])) mentions.now) }
{
    let mut out = Vec::new(alloc);
    for mention in mentions {
        add_declared(&mut out, mention)?;
    }
    Ok(out)
}

// The first word that is declared before.
fn doubled_declared(alloc: Global, mentions: &[Mention]) -> Result<Option<u32>, AllocError>
    ensures { IfOk result (λ at. at ≡ least (faults.repeated [] (flat_map (λ mention. faults.declared_words (said mention ∷ [])) mentions.now))) }
{
    let words = declared_words(alloc, mentions)?;
    repeated(alloc, words.as_slice())
}

// The words of the tops.
#[tactic(auto, using(smv_mentions::proofs::Notes::noting))]
fn top_words<'a>(alloc: Global, pieces: &[Piece<'a>]) -> Result<Vec<&'a Word>, AllocError>
    ensures { IfOk result (λ words. words_at words.items ≡ map (λ piece. piece.word.now) pieces.now) }
{
    let mut out = Vec::new(alloc);
    for piece in pieces {
        out.push(piece.word)?;
    }
    Ok(out)
}

/// The first name of a top that is declared twice.
pub(crate) fn doubled_tops(alloc: Global, tables: &Tables) -> Result<Option<u32>, AllocError>
    requires { AreTables tables.now }
    ensures { IfOk result (λ at. at ≡ least (faults.repeated [] (map (λ piece. piece.word) (pieces tables.now.text.now)))) }
{
    let words = top_words(alloc, tables.pieces)?;
    repeated(alloc, words.as_slice())
}

// ---- names of several sorts

// The first constant of a list that is listed twice.
#[tactic(auto, using(smv_first_fault::proofs::LeastLaws::leasts))]
fn doubled_constant(
    alloc: Global,
    tables: &Tables,
    names: &[Word],
) -> Result<Option<u32>, AllocError>
    requires { AreTables tables.now }
    ensures { IfOk result (λ at. at ≡ least (faults.repeated [] names.now ++ others tables.now.text.now names.now)) }
{
    let first = repeated_in(alloc, names)?;
    let second = other_constant(tables, names);
    Ok(first_of(first, second))
}

// Where a name is first declared as a name of the top of a number.
fn own_at(tables: &Tables, place: usize, word: &Word) -> Option<u32>
    requires { AreTables tables.now }
    ensures { result ≡ faults.own_at (scope_at tables.now.text.now place) word.now.name }
{
    match own_name(tables, place, &word.name) {
        Some(own) => Some(own.at),
        None => None,
    }
}

// A variable that is declared before or after as something else.
#[tactic(auto, using(smv_first_fault::proofs::LeastLaws::leasts))]
fn doubled_variable(tables: &Tables, place: usize, around: Option<u32>, var: &Word) -> Option<u32>
    requires { AreTables tables.now }
    ensures { result ≡ least (faults.later around var.now.at ++ faults.later (scopes.constant_at (scope_at tables.now.text.now place) var.now.name) var.now.at ++ faults.later (faults.own_at (scope_at tables.now.text.now place) var.now.name) var.now.at) }
{
    let constant = later(constant_at(tables, &var.name), var.at);
    let own = later(own_at(tables, place, var), var.at);
    first_of(later(around, var.at), first_of(constant, own))
}

// What is declared twice in one thing that the top of a number says.
fn doubled<'a>(
    alloc: Global,
    tables: &Tables<'a, '_>,
    place: usize,
    mention: &Mention<'a>,
) -> Result<Option<u32>, AllocError>
    requires { AreTables tables.now }
    ensures { IfOk result (λ at. at ≡ least (faults.doubled (scope_at tables.now.text.now place) (said mention.now))) }
{
    match *mention {
        Mention::HasFields { fields } => doubled_field(alloc, fields),
        Mention::ListsConstants { names } => doubled_constant(alloc, tables, names),
        Mention::Declares { word, .. } => { Ok(later(constant_at(tables, &word.name), word.at)) }
        Mention::Binds { around, var } => Ok(doubled_variable(tables, place, around, var)),
        _ => Ok(None),
    }
}

// The first thing of these that is declared twice.
fn doubled_mentions<'a>(
    alloc: Global,
    tables: &Tables<'a, '_>,
    place: usize,
    mentions: &[Mention<'a>],
) -> Result<Option<u32>, AllocError>
    requires { AreTables tables.now }
    ensures { IfOk result (λ at. at ≡ least (flat_map (λ mention. faults.doubled (scope_at tables.now.text.now place) (said mention)) mentions.now)) }
{
    let mut first = None;
    for mention in mentions {
        let at = doubled(alloc, tables, place, mention)?;
        first = first_of(first, at);
    }
    Ok(first)
}

/// The first name in the top of a number that is declared twice.
pub(crate) fn doubled_in<'a>(
    alloc: Global,
    tables: &Tables<'a, '_>,
    place: usize,
    piece: &Piece<'a>,
) -> Result<Option<u32>, AllocError>
    requires tables { AreTables tables.now }
    requires here { slice_get tables.now.pieces.now place ≡ Some piece.now }
    ensures { IfOk result (λ at. at ≡ least (faults.doubled_in (pieces tables.now.text.now) (piece_noted tables.now.text.now place piece.now))) }
{
    let formal = repeated_in(alloc, formals_of(piece))?;
    let own = doubled_declared(alloc, piece.mentions.as_slice())?;
    let other = doubled_mentions(alloc, tables, place, piece.mentions.as_slice())?;
    Ok(first_of(formal, first_of(own, other)))
}
