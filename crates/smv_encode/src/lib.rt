//! The lists of functions of a problem, over its current and next bits: what the search over its states stands on.
//!
//! For whoever decides a case. A reader begins with `relations` and `CaseLists` of `law_reports`, which says what each list has. The cells of both times are made once for a problem
//! (`coded`, `times`), and so are the tables of what is known of expressions in both (`CaseKnown`), which all that reads the cells hands on: `specs/Coded` says which states cells are
//! right for, those that the bits are read as by their places, with some elements worked out from the others, the wires, where a caller has made their cells (`relations_by`); `times` has the function of each demand, and `specs/Encoded` says of which assignments it is true; `specs/Parts` says what each function
//! of `lists`, `elements` and `chosen` adds to a list. `kept_stores` joins what two crates say of a store that grows.
#![tactic(auto)]

pub mod cells;
pub mod chosen;
mod coded;
mod elements;
pub mod kept_stores;
mod lists;
pub mod times;

pub use lists::{relations, relations_by, relations_over};
