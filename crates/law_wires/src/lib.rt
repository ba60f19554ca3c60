//! Wires: when an element that is tried behind those with cells is determined, by a test at all assignments, and when nothing depends on an element.
//!
//! For whoever leaves the bits of elements of a case out. A reader begins with `specs/Tries`: what is tried, and what is asked of each assignment; `specs/Idle` has elements that nothing reads.
#![tactic(auto)]

pub mod idle;
pub mod tries;
pub mod worked;
