//! The cases of a leaf, in order, or fault 29; and the abstract form of each set type in a case.
//! For the passes of a plan (is there a fault?) and for whoever makes the problems of a leaf, case by case.
//! `calls.rt` has the calls. A case is found parameter by parameter (`grow.rt`): a class is tried only where it can stand behind those before it (`rules.rt`),
//! and the rules of each set type are tested once more at the end; `specs/Growing` says why this is the definition's list, and `laws.rt` that it is.
#![tactic(auto)]

pub mod calls;
pub mod gather;
pub mod grow;
pub mod laws;
pub mod rules;
pub mod slots;

pub use calls::{abs_types, cases, fault_at_unit};
