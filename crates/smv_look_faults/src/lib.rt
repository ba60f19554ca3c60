//! What `explain` says of a fault: its lines, and below them those of its other place, where it has one, of the loop that it is about, or of what could stand there.
//!
//! For the call of `smv_look`. A reader begins with `specs/Explained`; `specs/Places` has the other places, and the crates below those of each sort of fault.
#![tactic(auto)]

mod places;
mod told;

pub use told::explained;
