//! The cone of a case: the elements that its problem keeps, in family order and then by indexes, or fault 30 where they have more than 1,024 bits together.
//! For the calls that make problems and decide them. `calls` has the call, `begin` with what a search begins, `search` how it goes on from each element that it finds. The search holds elements
//! as they are written, in a `Found`; `specs/Searching` says of which elements of the definitions they are the written ones. It reaches no more than 1,025 elements.
#![tactic(auto)]

pub mod begin;
pub mod bits;
pub mod calls;
pub mod parts;
pub mod search;

pub use calls::cone;
