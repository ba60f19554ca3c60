//! Copies of names, of lists of types, of flat expressions, and of what a problem takes over from a design: families, guards, parts of definitions.
//!
//! For the passes and for the call that makes problems. Each function gives an equal value; it fails only for want of memory.
#![tactic(auto)]

mod flat;
mod parts;

pub use flat::copy_expression;
pub use parts::{copy_classes, copy_families, copy_guards, copy_name, copy_part, copy_types};
