//! The kind of each expression, and the faults of kinds, ranges and sets in expressions and types.
//!
//! For `smv_kinds`. Each function adds its faults to a list, in the order of `law_designs/specs/Operands` and `law_designs/specs/Types`.
#![tactic(auto)]

pub mod operands;
pub mod types;
