//! Where tokens end, and the bytes between two offsets of a text.
//!
//! For what copies parts of a text: `smv_strengthen`, and the translation of claims over several times.
#![tactic(auto)]

pub mod bytes;
pub mod ends;
