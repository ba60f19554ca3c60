//! The paths of the false units of a report as tables: elements in rows, times in columns.
//!
//! For the call of `smv_wave`. A reader begins with `specs/Tables`; `specs/Truth` says that a row tells the values that were read. `tables` writes them, `widths` measures.
#![tactic(auto)]

mod tables;
mod truth;
mod widths;

pub use tables::path_tables;
pub use truth::rows_tell_their_values;
