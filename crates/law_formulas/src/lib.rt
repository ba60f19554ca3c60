//! Claims over several times: what their formulas mean along a run, and the monitors that stand for them.
#![tactic(auto)]

pub mod laws;
pub mod worked;
