//! Tokens to statements, and which token comes next.
//!
//! For `smv_parse_items`. Each function answers what the reader of its production in `law_grammar` answers.
#![tactic(auto)]

pub mod ahead;
pub mod grammar;
pub mod parts;
pub mod tokens;
