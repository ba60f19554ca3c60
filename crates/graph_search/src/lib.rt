//! Searches through graphs with numbered nodes: a worklist that passes over what was seen before, the nodes that a node leads to, and those that lead to it.
//! For passes that follow uses or reads by numbers. `specs/Walks` says what a walk is, and the contracts speak of walks alone: read it first.
//! `search.rt` has the one loop; `reverse.rt` has graphs from the ends of their edges.
#![tactic(auto)]

pub mod reverse;
pub mod search;
