//! Where an assignment that clashes with another one meets it: the other place of the faults 15 and 16.
//!
//! For `smv_look_faults`. A reader begins with `specs/Assignments`.
#![tactic(auto)]

mod clashes;
mod conflicts;

pub use conflicts::{conflicts_first, mixed_first};
