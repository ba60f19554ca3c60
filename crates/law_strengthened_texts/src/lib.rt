//! The strengthened text of an induction, byte by byte: which text it is, when there is none, and where its offsets stand in the text that was read.
//!
//! For the prover by induction. `specs/Stronger` has the definition; `laws` says that it is the text with the replacement in place of the claim's expression, and what its soundness gives; `worked` has
//! worked texts.
#![tactic(auto)]

pub mod laws;
pub mod worked;
