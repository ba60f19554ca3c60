//! Whether an expression or a definition may read one of some elements, as far as the text alone tells: by families and by constant indexes.
//!
//! For whoever leaves elements without bits and works them out one after the other: what reads none of those that are left has all that it reads. `specs/Mentions` has the tests, which say yes
//! rather than no where an index is no constant; `specs/Laws` says that a no is right of whatever bound variables stand for.
#![tactic(auto)]

pub mod expressions;
pub mod laws;
pub mod lefts;
pub mod parts;

pub use expressions::may_read;
pub use parts::may_read_for;
