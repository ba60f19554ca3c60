//! What a right side may allow of a target's value, and what it allows for certain: exactly the definitions, for every text.
//!
//! For walks of definitions and demands. Begin at `may_allow` and `must_allow`; `specs/Sides` says what they answer, and `smv_targets` what a target is. `outcomes`
//! has right sides with outcomes of their own, `members` listed sets, `choices` comprehensions, `sides` the recursion through conditionals and members.
#![tactic(auto)]

pub mod branches;
pub mod choices;
pub mod comprehensions;
pub mod members;
pub mod outcomes;
pub mod sides;

pub use sides::{may_allow, must_allow};
pub use smv_outcomes as expressions;
