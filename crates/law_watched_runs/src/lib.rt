//! Runs of a design and of one with monitors: what a claim that is watched by monitors says, and which runs the two designs have.
#![tactic(auto)]

pub mod designs;
pub mod runs;
