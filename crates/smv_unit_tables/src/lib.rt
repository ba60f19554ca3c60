//! A design in tables of numbers, for the times of uses: which families each definition and each claim reads at the time of its value, the base
//! definition of each family, and the unit of each map and each claim.
//!
//! `expressions` and `parts` collect what is read, `reads` has it for each definition and claim, `bases` the base definitions, `units` the units by what
//! they say. Each table is made in one pass; contracts speak of the definitions of `law_obligations` at each number.
#![tactic(auto)]

pub mod bases;
pub mod expressions;
pub mod parts;
pub mod reads;
pub mod units;
