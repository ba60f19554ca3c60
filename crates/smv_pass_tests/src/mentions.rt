//! Where the names stand that a text mentions.

use crate::texts::tree;
use smv_core::Refusal;
use smv_mentions::mentions::Mention;
use smv_mentions::pieces::{Piece, pieces};
use std::alloc::{AllocError, Global};
use std::test::Fail;

// The place of a variable, of a type, or of a signal or a claim.
fn place_of(mention: &Mention) -> u32 {
    match mention {
        Mention::Binds { var, .. } => var.at,
        Mention::NamesType { word } => word.at,
        Mention::Declares { word, .. } => word.at,
        _ => 0,
    }
}

fn places_of(alloc: Global, noted: &[Piece]) -> Result<Vec<u32>, AllocError> {
    let mut places = Vec::new(alloc);
    for piece in noted {
        for mention in &piece.mentions {
            places.push(place_of(mention))?;
        }
    }
    Ok(places)
}

fn places(alloc: Global, text: &str) -> Result<Vec<u32>, Refusal> {
    let tree = tree(alloc, text)?;
    let noted = pieces(alloc, &tree)?;
    Ok(places_of(alloc, &noted)?)
}

const PLACES: &[(&'static str, &'static [u32])] = &[
    ("", &[]),
    (
        "module m() { x : boolean; forall (i in t) p : assert G 1; }",
        &[13, 34, 39, 42],
    ),
];

// Fails with the first text that mentions names at other places.
fn all_have_places(alloc: Global, rows: &[(&'static str, &'static [u32])]) -> Result<(), Fail> {
    for (text, want) in rows {
        if places(alloc, text)?.as_slice() != *want {
            return Err(Fail::new(*text));
        }
    }
    Ok(())
}

#[test]
fn a_module_says_what_it_declares(rt: HostRuntime) -> Result<(), Fail> {
    all_have_places(rt.alloc(), PLACES)
}
