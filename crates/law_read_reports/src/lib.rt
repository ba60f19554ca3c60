//! A report that is written is read back: from the lines of a report `smv_read_report` reads its false units, with their names, cases, elements and values as the lines spell them.
//!
//! For whoever trusts a dump of a report. `specs/Shown` says what a report shows of its false units, and which reports spell what can be read: those whose names, classes and values are words.
#![tactic(auto)]

pub mod laws;
