//! Tokens of the same kinds spell the same text, but for places, splits and uses, wherever they stand.
//!
//! For laws that change a text by its bytes. `proofs/Texts` goes on from expressions (`law_spelled_alike`) through the rest of the grammar.
#![tactic(auto)]

pub mod laws;
