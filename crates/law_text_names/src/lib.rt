//! The names of a text are its tokens: those of its tops, and the variable and the ordset of an induction.
//!
//! For the prover by induction. `specs/Laws` has what is said.
#![tactic(auto)]

pub mod laws;
