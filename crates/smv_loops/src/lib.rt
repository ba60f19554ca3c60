//! Loops without delay: the first assignment with which cells of a design read themselves at one time.
//!
//! For `smv_front`. Cells and assignments are one graph, numbered and sorted; contracts speak of the edges of `law_designs/specs/Loops` alone.
#![tactic(auto)]

pub mod base;
pub mod cells;
pub mod laws;
pub mod listed;
pub mod loops;
pub mod order;
pub mod ranks;
pub mod reading;
pub mod rows;
pub mod ways;
