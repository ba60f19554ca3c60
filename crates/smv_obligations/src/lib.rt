//! The problem of a case: the elements of its cone, what is demanded at each time and at each but the last, the target and the guards, as data; or fault 30 where it has too many state bits.
//! For the evaluator, the encoder and whoever decides a case. `calls` has the call, `demands` what is demanded of elements and assumed claims, `targets` the target, `shared` what the problems of all cases have in common; `specs/Demands` says what they
//! are by elements, classes and spots as they are written, which is what the definitions say of places (`proofs/DemandLaws`).
#![tactic(auto)]

pub mod calls;
pub mod demands;
pub mod shared;
pub mod targets;

pub use calls::{assembled, problem, problem_with};
pub use shared::{ProblemParts, Shared, in_common, taken_apart, taken_back};
