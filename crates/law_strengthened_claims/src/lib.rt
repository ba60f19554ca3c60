//! The bytes of a strengthened claim, joined with what they mean.
//!
//! For the prover by induction. A reader begins with `specs/Replacement`, the bytes that stand in place of a claim's expression: the text with them spells a tree whose soundness gives that of the
//! text (`laws`). What a strengthened claim means is in `law_induction`, and that one claim's bytes can be exchanged in `law_exchanged`. `worked` has worked bytes.
#![tactic(auto)]

pub mod laws;
pub mod worked;
