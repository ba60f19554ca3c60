//! The flat form of expressions and statements.
//!
//! For `smv_flatten`. Its two recursions, over expressions and over statements, are the dear part of a check: keep no expression by value at a `?`.
#![tactic(auto)]

pub mod expressions;
pub mod places;
pub mod statements;
mod turns;
pub mod vars;
