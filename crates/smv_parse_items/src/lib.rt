//! Tokens to the tree of a text: references, items, tops and the text.
//!
//! For `smv_parse`; statements are read by `smv_parse_statements`. Each function answers what the reader of its production in `law_grammar` answers.
#![tactic(auto)]

pub mod bodies;
pub mod items;
pub mod parse;
pub mod references;
pub mod tops;
