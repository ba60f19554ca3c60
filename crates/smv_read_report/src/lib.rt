//! A report of `prove` read back: its false units, each with its case and its path.
//!
//! For whoever shows a path. `specs/Reports` says what a report is, line by line, and which line is the first that is not as a report has it; `specs/Lines` what a line says by itself, `specs/Pieces` what
//! names, classes and values are made of. `pieces` cuts, `line` reads a line, `reading` puts lines together.
#![tactic(auto)]

mod line;
mod pieces;
mod reading;

pub use line::{Cells, Line};
pub use reading::{Due, FalseUnit, ReadFailure, Reading, ReportFault, false_units};
