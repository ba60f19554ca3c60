//! The translation of a text with formulas is one, and the text is sound over times exactly where what its translation spells is sound.
#![tactic(auto)]

pub mod laws;
