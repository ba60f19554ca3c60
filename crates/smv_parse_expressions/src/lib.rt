//! Tokens to trees.
//!
//! For `smv_parse_items`. Each function answers what the reader of its production in `law_grammar` answers. Keep no expression by value at a `?`.
#![tactic(auto)]

pub mod ahead;
pub mod exprs;
mod grammar;
pub mod names;
mod nodes;
mod operators;
mod sets;
pub mod single;
pub mod stop;
pub mod types;
