//! Laws of the grammar: what each piece of a parser reads, proved once for each kind of piece.
//!
//! For the parser: the readers here are functions on lists of tokens, and each function of the parser answers what the reader of its production answers.
//! The grammar itself is `smv_core/specs/Grammar`.
#![tactic(auto)]

pub mod laws;
