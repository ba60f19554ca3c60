//! A text with formulas and its translation: the design of the one is that of the other with monitors, so the one is sound where the other is.
#![tactic(auto)]

pub mod layers;
pub mod trees;
