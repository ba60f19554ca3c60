// The rules about names, each by the first place where it is broken.
ghost use Rattle.std.specs.Prelude.{◌≡◌, Some, IfOk, slice_get};
ghost use Rattle.std.specs.List.{flat_map};
ghost use Rattle.smv_mentions.specs.Scopes.{pieces};
ghost use Rattle.smv_mentions.specs.Said.{said};
ghost use Rattle.smv_mentions.specs.NameFaults as faults;
ghost use Rattle.smv_first_fault.specs.Firsts.{least};
ghost use Rattle.smv_scope.specs.Held.{AreTables, piece_noted};
ghost use Rattle.smv_scope.specs.Rules.{broken};

use crate::doubled::doubled_in;
use crate::tables::{Tables, module_named};
use crate::undeclared::undeclared_in;
use smv_core::name::Name;
use smv_first_fault::places::{first_of, place_if};
use smv_mentions::mentions::Mention;
use smv_mentions::pieces::Piece;
use std::alloc::{AllocError, Global};

/// A rule about the names in a top.
#[derive(Clone, Copy)]
pub enum Rule {
    /// Each name is declared.
    Declared,
    /// No name is declared twice.
    Once,
    /// Each instance has as many arguments as its module has formals.
    Counted,
}

// An instance with a wrong number of arguments.
fn miscounted(tables: &Tables, mention: &Mention) -> Option<u32>
    requires { AreTables tables.now }
    ensures { result ≡ least (faults.miscounted (pieces tables.now.text.now) (said mention.now)) }
{
    match *mention {
        Mention::Instantiates { module, args } => match module_named(tables, &module.name) {
            Some(found) => place_if(found.formals.len() != args, module.at),
            None => None,
        },
        _ => None,
    }
}

// The first instance with a wrong number of arguments.
#[tactic(auto, using(smv_first_fault::proofs::LeastLaws::leasts))]
fn miscounted_in(tables: &Tables, mentions: &[Mention]) -> Option<u32>
    requires { AreTables tables.now }
    ensures { result ≡ least (flat_map (λ mention. faults.miscounted (pieces tables.now.text.now) (said mention)) mentions.now) }
{
    let mut first = None;
    for mention in mentions {
        first = first_of(first, miscounted(tables, mention));
    }
    first
}

// The first place in the top of a number where the rule is broken.
fn broken_in<'a>(
    alloc: Global,
    tables: &Tables<'a, '_>,
    rule: Rule,
    place: usize,
    piece: &Piece<'a>,
) -> Result<Option<u32>, AllocError>
    requires tables { AreTables tables.now }
    requires here { slice_get tables.now.pieces.now place ≡ Some piece.now }
    ensures { IfOk result (λ at. at ≡ least (broken rule (pieces tables.now.text.now) (piece_noted tables.now.text.now place piece.now))) }
{
    match rule {
        Rule::Declared => undeclared_in(alloc, tables, place, piece),
        Rule::Once => doubled_in(alloc, tables, place, piece),
        Rule::Counted => Ok(miscounted_in(tables, piece.mentions.as_slice())),
    }
}

/// The first place in all tops where the rule is broken.
pub(crate) fn first_broken(
    alloc: Global,
    tables: &Tables,
    rule: Rule,
) -> Result<Option<u32>, AllocError>
    requires { AreTables tables.now }
    ensures { IfOk result (λ at. at ≡ least (flat_map (broken rule (pieces tables.now.text.now)) (pieces tables.now.text.now))) }
{
    let mut first = None;
    for place in 0..tables.pieces.len() {
        let piece = &tables.pieces[place];
        let at = broken_in(alloc, tables, rule, place, piece)?;
        first = first_of(first, at);
    }
    Ok(first)
}

/// The place of the fault that there is no module `main`.
pub(crate) fn without_main(alloc: Global, tables: &Tables) -> Result<Option<u32>, AllocError>
    requires { AreTables tables.now }
    ensures { IfOk result (λ at. at ≡ least (faults.without_main (pieces tables.now.text.now))) }
{
    let main = Name::from_vec(Vec::from_slice(alloc, b"main")?);
    let found = module_named(tables, &main);
    Ok(place_if(found.is_none(), 0))
}
