//! The world of a well-formed case is one of which its written problem speaks by numbers, and there every expression has an outcome.
//! For whoever reads a problem by an evaluator over numbers: with these laws its answers are those of each case that is written so. A reader begins with `specs/Laws`.
#![tactic(auto)]

pub mod laws;
