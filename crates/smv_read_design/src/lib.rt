//! The plan of a text, from its bytes on, or its first fault of all passes, that of cases with too many state bits among them.
//!
//! For the calls that decide a text: after this call cases, cones and problems refuse nothing. A reader begins with `read_design` and `specs/Answers`; `specs/Widths` has the leaves of which a case
//! has too many bits; `place_named` finds a unit by its name, and `read_plans` says what the plan of a valid text is good for.
#![tactic(auto)]

mod designs;
mod named;
mod read_plans;
mod widths;

pub use designs::read_design;
pub use named::place_named;
pub use read_plans::{plans_of_valid_texts_are_checked, plans_of_valid_texts_are_whole};
pub use widths::width_fault;
