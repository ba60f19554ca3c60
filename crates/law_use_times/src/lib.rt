//! What times of uses are in terms of searches through graphs: a leaf's same-time set is what walks lead to, and a cycle of uses is a component.
//!
//! For the pass that finds the times by worklists. No code runs here. A reader begins with `specs/Found`; `specs/Laws` has the laws.
#![tactic(auto)]

pub mod laws;
