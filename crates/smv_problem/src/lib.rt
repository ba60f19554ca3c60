//! The problem of a case, its abstract states, plans, reports and verdicts, as data; how a case is written so, and when a problem is well formed.
//! For the evaluator, the encoder, traces and reports. A reader begins with `problem` and `specs/Written`. A problem has no names: contracts speak of each case that is written so (`OfCases`), and
//! `specs/WellFormed` has all that cases which are written alike need to behave alike.
#![tactic(auto)]

pub mod problem;
pub mod report;

pub use problem::{AbsState, AbsValue, Demand, Problem};
pub use report::{Budgets, Plan, Report, UnitResult, Verdict};
