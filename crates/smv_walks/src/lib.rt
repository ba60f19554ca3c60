//! What the definition of an element allows it, and when demands of a case are met, a target is broken and guards may hold, as conditions: exactly the definitions, at time 0 and later.
//!
//! For the evaluator of given states and for the encoder, which differ only in what the cells are. Begin at `met` and at `gists_of`; `specs/Demands` says of which cases, states and demands the
//! answers speak, `specs/Walks` what the gists of a definition are. Left sides and the first result of several parts stand in `smv_walk_parts`, right sides in `smv_sides`; here is the way
//! down a definition, which passes over assignments that are known to be elsewhere (`passed`), and `given`, which joins what an element's three definitions give in both senses at once.
//!
//! Each call takes what is known of expressions where they are read by the cells now (`known`), and `met` and `broken` also what is known by the cells before (`past`); each leaves it right for
//! the same cells, so that one table for each time of a case serves all calls.
#![tactic(auto)]

pub mod bindings;
pub mod demands;
pub mod given;
pub mod passed;
pub mod walks;

pub use demands::{broken, may_hold, met};
pub use smv_walk_parts::concerns;
pub use walks::{Way, everything};
