//! The problem of a unit at given sizes, over the unreduced design, and what its violating paths say of the runs of these sizes; the sizes as a command gives them, and what a unit is refused for at them.
//! For whoever confirms a fault at given sizes. A reader begins with `specs/Concrete` and `specs/Sizes`, then `specs/Runs` and `specs/Laws`.
#![tactic(auto)]

pub mod paths;
pub mod problems;
pub mod sizes;
