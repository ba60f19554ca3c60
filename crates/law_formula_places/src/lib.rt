//! What the command `ltl` refuses a text with formulas for is told at a place of that text.
//!
//! For `law_fault_places`, which says it of what a call answers. `specs/Laws` has the laws: of the faults of the text itself, and of the map by which an offset of the translated text is carried back. Nothing here runs.
#![tactic(auto)]

pub mod laws;
