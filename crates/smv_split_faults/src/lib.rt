//! The leaves of a design's units, or the first fault of its splits, 23 and 24: `leaves` and `split_fault`, by the definitions of `law_splits`.
//!
//! For `smv_plans`. `smv_splits` has fault 23 and what a split alone shows of fault 24; `mismatches` what it shows beside the parameters of what it is of: all splits that a unit leads
//! to are met once, each with the types of the parameters before it. To change it: `specs/Waiting` has the splits that wait to be met; `specs/Answers` says when there are leaves; a law
//! of `law_splits` says that types are enough.
#![tactic(auto)]

mod faults;
mod leaf;
pub mod leaf_laws;
pub mod mismatches;
pub mod types;

pub use faults::split_fault;
pub use leaf::leaves;
