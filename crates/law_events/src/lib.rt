//! The verdict of a case as an event of its schedule: the first line at which a count passes the budget, a violating path has been found, two rings are equal, or the images are used up.
//!
//! For whoever says what a verdict is, without a search. `specs/Events` is the definition; `proofs/Meaning` has what each event says of paths. Nothing here runs.
#![tactic(auto)]

pub mod verdicts;
