//! The canonical spelling of a text.
//!
//! For `smv_top`. It meets `specs/`, the canonical tokens and bytes of a tree.
#![tactic(auto)]

mod expressions;
mod items;
mod statements;
mod text;
mod types;
mod write;

pub use text::print;
