//! What operators make of lists of outcomes, each with a condition: all of the evaluator that does not go down an expression.
//!
//! For the evaluator of expressions and for right sides. `combined` has `<->` and conditionals, `pairs` comparisons, sums and remainders, `members` what stands right of `in`,
//! `quantified` quantifiers, and `reads` elements at indexes that may be several. Long lists are compared part by part (`compared_lists`): what lies below a bound on one side has one answer with
//! all that lies above it on the other; `keys` tells outcomes apart, `specs/Orders` says by what. Contracts say by tests what is offered (`smv_conditions`).
#![tactic(auto)]

pub mod bindings;
pub mod combined;
mod keys;
pub mod members;
mod orders;
pub mod pairs;
pub mod quantified;
pub mod reads;

pub use orders::compared_lists;
