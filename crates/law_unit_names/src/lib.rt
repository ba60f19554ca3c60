//! Names of units as they are written: at least one byte, and only bytes that are seen. So a name stands alone in a line, between blanks.
//!
//! For whoever writes names of units into lines and reads them again. A reader begins with `specs/Names`.
#![tactic(auto)]

pub mod laws;
