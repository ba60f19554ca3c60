//! Induction over an ordset: a claim that may assume itself, at the same time, for all smaller values of a parameter holds of every value.
//!
//! For the prover by induction. A reader begins with `specs/Strengthened`: the claim with what it may assume, and the tree in which it stands; `specs/Renamed` is what it assumes, under a new name.
//! `laws` says that where the tree with the strengthened claim is sound, so is the tree; `worked` has worked texts. Bytes are joined with it in `law_strengthened_claims`.
#![tactic(auto)]

pub mod laws;
pub mod worked;
