//! Tokens to the tree of a text with formulas.
//!
//! For `smv_parse_formula_texts`; what has no claims is read by `smv_parse_items`. Each function answers what the reader of its production in `law_formula_grammar` answers.
#![tactic(auto)]

pub mod claims;
pub mod formulas;
pub mod items;
pub mod parse;
pub mod tops;
pub mod tree;
