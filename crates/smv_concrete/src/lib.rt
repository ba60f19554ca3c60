//! A unit decided over the unreduced design at given sizes: its cases, each parameter at any of its values, and the problem of a case, in which each value of a set type is a class of its own and nothing is assumed; or the fault for which
//! the sizes are refused.
//! For the call that confirms a fault. `subjects` says what is passed in, `cases` has the cases, `calls` the problem of one. A reader begins with `specs/Subjects`, and reads on in `law_concrete` what the problem means.
#![tactic(auto)]

pub mod calls;
pub mod cases;
pub mod classes;
pub mod counts;
pub mod subjects;

pub use calls::{concrete, width_fault};
pub use cases::at_sizes;
