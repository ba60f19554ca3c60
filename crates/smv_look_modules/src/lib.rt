//! The modules that the faults 9 and 10 are about: the module that may be meant by `main`, and the one that contains itself.
//!
//! For `smv_look_faults`. A reader begins with `specs/Modules`.
#![tactic(auto)]

ghost use Rattle.std.specs.Prelude.{◌≡◌, ◌∷◌, ◌++◌, [], map, IfOk, OnOk};
ghost use Rattle.std.specs.List.{flat_map};
ghost use Rattle.smv_first_fault.specs.Firsts.{least};
ghost use Rattle.smv_mentions.specs.NameFaults.{used_in};
ghost use Rattle.smv_mentions.specs.Said.{said, told};
ghost use Rattle.smv_look_modules.specs.Modules as spec;

use name_index::NameIndex;
use smv_core::tree::Text;
use smv_first_fault::places::{first_of, place_if};
use smv_mentions::mentions::Mention;
use smv_mentions::pieces::{Piece, pieces};
use std::alloc::{AllocError, Global};

// The module of an instance.
fn push_instance<'a>(names: &mut NameIndex<'a>, mention: &Mention<'a>) -> Result<(), AllocError>
    ensures { OnOk result (names.new ≡ names.old ++ used_in (said mention.now ∷ [])) }
{
    match *mention {
        Mention::Instantiates { module, .. } => {
            names.push(&module.name)?;
            Ok(())
        }
        _ => Ok(()),
    }
}

// The modules of all instances in a top.
#[tactic(auto, using(smv_mentions::proofs::Notes::noting, crate::proofs::UsedLaws::used_first))]
fn push_used<'a>(names: &mut NameIndex<'a>, mentions: &[Mention<'a>]) -> Result<(), AllocError>
    ensures { OnOk result (names.new ≡ names.old ++ used_in (map said mentions.now)) }
{
    for mention in mentions {
        push_instance(names, mention)?;
    }
    Ok(())
}

// The modules of all instances in a text.
#[tactic(auto, using(smv_mentions::proofs::Notes::noting))]
fn all_used<'a>(alloc: Global, pieces: &[Piece<'a>]) -> Result<NameIndex<'a>, AllocError>
    ensures { IfOk result (λ names. names ≡ spec.all_used (map told pieces.now)) }
{
    let mut names = NameIndex::new(alloc);
    for piece in pieces {
        push_used(&mut names, piece.mentions.as_slice())?;
    }
    Ok(names)
}

// The place of a module of which none of these is an instance.
fn if_unused(used: &NameIndex, piece: &Piece) -> Option<u32>
    ensures { result ≡ least (spec.if_unused used.now (told piece.now)) }
{
    match piece.formals {
        Some(_) => place_if(used.find(&piece.word.name).is_none(), piece.word.at),
        None => None,
    }
}

// The first of them.
#[tactic(auto, using(smv_first_fault::proofs::LeastLaws::leasts))]
fn first_unused(used: &NameIndex, pieces: &[Piece]) -> Option<u32>
    ensures { result ≡ least (flat_map (spec.if_unused used.now) (map told pieces.now)) }
{
    let mut first = None;
    for piece in pieces {
        first = first_of(first, if_unused(used, piece));
    }
    first
}

// A place, where a mention is an instance at another place.
fn if_instance(mention: &Mention, place: u32, at: u32) -> Option<u32>
    ensures { result ≡ least (spec.if_instance at place (said mention.now)) }
{
    match *mention {
        Mention::Instantiates { module, .. } => place_if(module.at == at, place),
        _ => None,
    }
}

// Where a top is named in which an instance stands at a place.
#[tactic(auto, using(smv_first_fault::proofs::LeastLaws::leasts))]
fn holding(piece: &Piece, at: u32) -> Option<u32>
    ensures { result ≡ least (spec.holding at (told piece.now)) }
{
    let mut first = None;
    for mention in piece.mentions.as_slice() {
        first = first_of(first, if_instance(mention, piece.word.at, at));
    }
    first
}

// The first of them.
#[tactic(auto, using(smv_first_fault::proofs::LeastLaws::leasts))]
fn first_holding(pieces: &[Piece], at: u32) -> Option<u32>
    ensures { result ≡ least (flat_map (spec.holding at) (map told pieces.now)) }
{
    let mut first = None;
    for piece in pieces {
        first = first_of(first, holding(piece, at));
    }
    first
}

/// Where the first module of a text is named of which no module has an instance.
pub fn unused_first(alloc: Global, text: &Text) -> Result<Option<u32>, AllocError>
    ensures { IfOk result (λ place. place ≡ spec.unused_first text.now) }
{
    let pieces = pieces(alloc, text)?;
    let used = all_used(alloc, pieces.as_slice())?;
    Ok(first_unused(&used, pieces.as_slice()))
}

/// Where the module is named in which an instance stands at a place of a text.
pub fn holding_first(alloc: Global, text: &Text, at: u32) -> Result<Option<u32>, AllocError>
    ensures { IfOk result (λ place. place ≡ spec.holding_first text.now at) }
{
    let pieces = pieces(alloc, text)?;
    Ok(first_holding(pieces.as_slice(), at))
}
