//! The bounds that `lint` speaks of hold: of each outcome that is a number, where the conditions around are as they are taken.
//!
//! For whoever wants to know what `by types and conditions this is within 0..7` promises: `specs/BoundsHold`; and `this condition is made of constants alone`: `specs/ConstantsStay`.
#![tactic(auto)]

pub mod laws;
