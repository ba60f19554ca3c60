//! The lists of functions of one case, their paths and rings, and the schedule of a search over them.
//!
//! For the search and the inductive check. Read `specs/Lists`, `Paths`, `Schedule`: nothing there speaks of diagrams; `plan` says which variables each
//! act of a turn may quantify.
#![tactic(auto)]

pub mod laws;
mod ops;

use bdd_store::Ref;
pub use ops::{Op, apply, apply_within, plan};

/// The lists of functions of one case. Bit b is read at variable 2b, and in the new state of a step at variable 2b + 1.
#[derive(Drop)]
pub struct Rel {
    pub now_first: Vec<Ref>,
    pub before_first: Vec<Ref>,
    pub broken_first: Ref,
    pub now_step: Vec<Ref>,
    pub before_step: Vec<Ref>,
    pub broken_step: Ref,
    pub bits: u16,
}
