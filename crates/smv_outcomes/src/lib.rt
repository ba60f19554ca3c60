//! What an expression may be, as outcomes each with a condition: exactly the definitions, for every expression.
//!
//! For right sides, walks of definitions and demands. Begin at `may_of`; `specs/Outcomes` says what its answer is, and `smv_cells` (`specs/Seen`) what it is right
//! for. What does not go down an expression stands in `smv_outcome_lists`: an operator is changed there, and its law in `law_obligations`.
#![tactic(auto)]

pub mod bindings;
pub mod expressions;

pub use expressions::{offers_for, truth_of};
pub use smv_free_variables::known::{Known, nothing_known};
pub use smv_outcome_lists::bindings::bound_to;
