//! When a claim can be proved by induction: where neither the text nor its strengthened text has a fault of names. A text has one strengthened text, or none.
//!
//! For the prover by induction. A reader begins with `specs/Laws`; `specs/World` says of an expression's names what both texts say of them.
#![tactic(auto)]

pub mod laws;
