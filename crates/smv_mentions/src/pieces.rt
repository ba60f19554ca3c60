// The tops of a text, each with what it says about names.
ghost use Rattle.std.specs.Prelude.{◌≡◌, [], ◌++◌, map, option_map, IfOk, OnOk};
ghost use Rattle.smv_mentions.specs.Said.{AreNoted, said, told, told_by};
ghost use Rattle.smv_mentions.specs.Scopes.{piece_of};

use crate::items::items;
use crate::mentions::{Mention, type_of};
use smv_core::tree::{Text, Top, Word};
use std::alloc::{AllocError, Global};

/// A top of a text with its name, its formals where it is a module, and what it says about names, in the order of the text.
#[derive(Drop)]
pub struct Piece<'a> {
    pub word: &'a Word,
    pub formals: Option<&'a [Word]>,
    pub mentions: Vec<Mention<'a>>,
}

/// The tops of a text in their order, each with what it says about names.
#[tactic(auto, using(crate::proofs::Notes::noting))]
pub fn pieces<'a>(alloc: Global, text: &'a Text) -> Result<Vec<Piece<'a>>, AllocError>
    ensures { IfOk result (λ pieces. AreNoted pieces.items text.now) }
{
    let tops = text.tops.as_slice();
    let mut pieces = Vec::new(alloc);
    for top in tops {
        let piece = one_piece(alloc, top)?;
        pieces.push(piece)?;
    }
    Ok(pieces)
}

// A top, with what it says about names.
#[tactic(auto, using(crate::proofs::Notes::noting))]
fn one_piece<'a>(alloc: Global, top: &'a Top) -> Result<Piece<'a>, AllocError>
    ensures { IfOk result (λ piece. told piece ≡ told_by top.now) }
{
    let mut mentions = Vec::new(alloc);
    said_by(alloc, &mut mentions, top)?;
    let (word, formals) = head(top);
    Ok(Piece {
        word,
        formals,
        mentions,
    })
}

// The name of a top, and its formals where it is a module.
fn head(top: &Top) -> (&Word, Option<&[Word]>)
    ensures word { result.0.now ≡ (piece_of [] top.now).word }
    ensures formals { option_map (λ words. words.now) result.1 ≡ (piece_of [] top.now).formals }
{
    match top {
        Top::SetType { name, .. } => (name, None),
        Top::Alias { name, .. } => (name, None),
        Top::Module { name, formals, .. } => (name, Some(formals.as_slice())),
    }
}

// What a top says about names.
#[tactic(auto, using(crate::proofs::Notes::noting))]
fn said_by<'a>(alloc: Global, out: &mut Vec<Mention<'a>>, top: &'a Top) -> Result<(), AllocError>
    ensures { OnOk result (map said out.new.items ≡ map said out.old.items ++ (piece_of [] top.now).mentions) }
{
    match top {
        Top::SetType { .. } => Ok(()),
        Top::Alias { of, .. } => type_of(out, of),
        Top::Module { body, .. } => items(alloc, out, &[], body.as_slice()),
    }
}
