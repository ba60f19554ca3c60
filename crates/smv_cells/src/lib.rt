//! What the kept elements of a case may be, as data: for each a list of values, each with a condition.
//!
//! For the evaluator, which reads elements by `add_cell` alone. Whoever knows the states of a case makes the cells once for each time. `specs/Seen` says when
//! cells are those of a case: then a read by cells is the read of the definitions (`CellLaws`).
#![tactic(auto)]

pub mod cells;

pub use cells::{Cell, add_cell};
