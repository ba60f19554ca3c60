//! The numbers by which a flattened text speaks of set types, enumerations, families and constants.
//!
//! For `smv_flatten` and `smv_flatten_statements`. Numbers are places in the lists of the definition, found by hash.
#![tactic(auto)]

pub mod dots;
pub mod enums;
pub mod families;
pub mod fits;
pub mod lookups;
pub mod names;
pub mod numbers;
pub mod places;
pub mod sets;
pub mod simples;
pub mod types;
