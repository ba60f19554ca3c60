//! The problem of a case, as it is written: its values, its cone, its bits, and the law that it is well formed for each leaf that a call takes.
//!
//! For the calls that find cones, make problems and evaluate them. `specs/Values` has values as they are written, `Search` and `Order` a search of a cone and its elements in order,
//! `FoundLaws` what such a search has found; `Parts` says what a call on a leaf takes and refuses. `guard_kinds` and `fit_designs` say that each leaf of a text without faults is
//! such a leaf. The times of uses are no condition; that the bits are few is the one premise that a call has to see to.
#![tactic(auto)]

pub mod cones;
pub mod fit_designs;
pub mod found_elements;
pub mod guard_kinds;
pub mod problems;
pub mod written_values;
