//! Readers of texts with formulas.
#![tactic(auto)]

pub mod laws;
pub mod worked;
