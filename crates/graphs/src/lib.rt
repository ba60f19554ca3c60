//! Graphs with numbered nodes: which nodes are reached from a node, and which are on no cycle.
//!
//! For the passes over modules and over cells. To change it: contracts speak of `Reaches` and of the order in `specs/`, never of visits or ranks.
#![tactic(auto)]

pub mod ranks;
pub mod reach;
