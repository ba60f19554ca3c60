//! Modules, types and names: the faults of a text's names and of its size.
//!
//! For the passes over names and sizes, and for the flattened text: scopes, instances and sizes as definitions that compute (`worked_texts`), and
//! `pieces`, what each top of a text says about names.
#![tactic(auto)]

pub mod expressions;
pub mod items;
pub mod mentions;
pub mod pieces;
pub mod statements;
