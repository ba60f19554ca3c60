//! Values of a problem by the numbers of their types: which are the same, how they compare, which a type has, and which constants there are.
//!
//! A problem has no names, so values compare by numbers. `specs/Worlds` says of which worlds that is right: those where names are told apart as numbers are.
//! What a spot is stands in `smv_spots`.
#![tactic(auto)]

pub mod answers;
pub mod numbers;
pub mod places;
pub mod same;
