//! Conditions over assignments, and what is built of them: truth values as three conditions, outcomes each with a condition, and what a definition may give.
//!
//! The trait `Conditions` is a boolean algebra whose values live in the implementing type: diagrams of a `Store`, or plain truth values. It knows no element and
//! no time; what is read of a state is data. What is offered at an assignment is said by tests (`specs/Offers`), truth values by `specs/Chances`; the laws on
//! the definitions alone are in `law_obligations`.
#![tactic(auto)]

pub mod chances;
pub mod conditions;
pub mod gists;
pub mod lists;
pub mod offers;
pub mod stores;
