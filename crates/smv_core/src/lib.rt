//! The types of the language and the definitions of what a design means.
//!
//! For every other crate. `specs/` is what a reader must believe (begin at `Sound`); a change here proves everything anew. The big enums drop by hand:
//! where one is let go a call stands, and not an arm for each variant.
#![tactic(auto)]

pub mod abstract_type;
pub mod boxed;
pub mod fault;
pub mod flat;
pub mod name;
pub mod seq;
pub mod signs;
pub mod token;
pub mod tree;

pub use abstract_type::{AbsType, Rest};
pub use boxed::Boxed;
pub use fault::{Fault, Refusal};
pub use name::Name;
pub use seq::Seq;
