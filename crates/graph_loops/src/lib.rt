//! Shortest loops through graphs with numbered nodes whose edges have places: of all loops through some nodes one with the fewest edges, by the places of its edges.
//!
//! For whoever shows a loop. `specs/Walks` says what a loop is: read it first. `search.rt` finds how many edges lead from each node to one, round by round, and follows them.
#![tactic(auto)]

pub mod edges;
pub mod search;
