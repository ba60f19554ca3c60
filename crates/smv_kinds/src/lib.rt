//! The first fault of kinds, ranges and sets.
//!
//! For `smv_typing`. It meets `law_designs/specs/KindFaults`: least place, then number.
#![tactic(auto)]

pub mod arguments;
pub mod faults;
pub mod formals;
pub mod items;
pub mod statements;
pub mod values;
