//! The first fault of a text's scopes: names that are not declared or declared twice, no module `main`, wrong numbers of arguments.
//!
//! For `smv_names`. It meets `smv_mentions/specs/NameFaults`; every look-up is by hash.
#![tactic(auto)]

pub mod build;
pub mod constants;
pub mod doubled;
pub mod fields;
pub mod paths;
pub mod places;
pub mod rules;
pub mod scope;
pub mod tables;
pub mod undeclared;
