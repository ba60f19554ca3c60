//! A module that contains itself, and the size of a text.
//!
//! For `smv_names`. It meets `smv_mentions/specs/Sizes`: one pass in a good order, and rounds only where that did not settle.
#![tactic(auto)]

pub mod constants;
pub mod modules;
pub mod pass;
pub mod place;
pub mod recursion;
pub mod rounds;
pub mod size;
pub mod statements;
pub mod types;
