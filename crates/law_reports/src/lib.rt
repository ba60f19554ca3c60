//! From the search of a case to a report: the lists of functions of a case, verdicts of leaves and scripts, and when a report is right.
//!
//! For whoever decides units and prints or trusts what is told. `specs/CaseLists` has the order of the functions of a case (`worked_texts` cases that were worked out by hand);
//! `Verdicts` the verdict of a leaf by those of its cases; `Told` the cases of a plan; `Reports` when a report is right, and `Lines` its format. A right report tells the verdicts of the units, so two right reports
//! tell the same.
#![tactic(auto)]

pub mod case_lists;
pub mod plan_cases;
pub mod reports;
pub mod verdicts;
