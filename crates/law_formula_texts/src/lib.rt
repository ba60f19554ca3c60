//! Texts with formulas: their grammar, and that a text that is spelled is sound over times exactly where its translation is sound.
#![tactic(auto)]

pub mod laws;
