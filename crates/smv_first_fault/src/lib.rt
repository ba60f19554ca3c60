//! The first of several faults, by place and then by number, and the first of several places.
//!
//! For each pass that answers its first fault. Begin at `faults::earlier`; `specs/Firsts` says what is first, and `proofs/` that it may be found part by part.
#![tactic(auto)]

pub mod faults;
pub mod places;
