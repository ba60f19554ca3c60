//! What types, names and paths lead to, and the kinds of values.
//!
//! For `smv_kinds`. It answers what `law_designs/specs` says of types, paths and operands; names are found by hash.
#![tactic(auto)]

pub mod kinds;
pub mod lists;
pub mod lookups;
pub mod paths;
pub mod tables;
