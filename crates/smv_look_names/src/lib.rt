//! Where a name that is declared twice is declared first: the other place of a fault 8.
//!
//! For `smv_look_faults`. A reader begins with `specs/Names`.
#![tactic(auto)]

mod least;
mod lists;
mod names;
mod words;

pub use names::declared_first;
