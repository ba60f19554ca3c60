//! What `explain` says of a fault: the line of `prove`, the line of the text with a mark, and the rule that is broken; and the same of the other place of a fault, where it has one, or of several.
//!
//! For the call of `smv_look`. A reader begins with `specs/Faults`; `specs/Rules` has the sentences, `specs/Others` what is said of other places.
#![tactic(auto)]

mod faults;
mod others;
mod rules;

pub use faults::{fault_lines, unshown_lines};
pub use others::{lines_along, lines_with};
