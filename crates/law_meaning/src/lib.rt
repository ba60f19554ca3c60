//! Worked designs and laws of what a design means: that the definitions mean what a designer expects. Nothing stands on it.
//!
//! For readers of the definitions in `smv_core/specs`. `exchanges` carries the symmetry of scalarsets to definition sets and units: where the values of a scalarset are exchanged in the states, what a
//! definition allows is exchanged too, and a unit's instance holds where the exchanged one held.
#![tactic(auto)]

pub mod exchanges;
pub mod meaning;
