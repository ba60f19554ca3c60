//! The cases of a leaf are decided, and a set is kept of each that is true: its old set where that still serves, and else the set that closes the search.
//!
//! For the call that keeps or resumes a proof document. What is kept of a case is said in `law_checked_proofs` (`specs/Kept`, `specs/Resumed`); here `specs/Tried` says what a case and a leaf come to.
//! `cases` tries one case, `leaf` goes through the cases of a leaf in order, `old_sets` finds the old set of a case; whether that still serves is tested by `smv_meets`. Each case that is searched has a store of
//! diagrams of its own, which is given back with the case.
#![tactic(auto)]

mod cases;
pub mod leaf;
pub mod old_sets;
