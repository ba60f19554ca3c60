//! The element whose value is asked about, as data: its indexes, a condition for each place of its type, and what outcomes give it.
//!
//! For right sides, walks of definitions and demands. Begin at `Target`, and at `target_of`, which makes one of an element's cell; `specs/Targets` says when a target is an element's,
//! `specs/CellTargets` which element of a case it is. A target's value is a table of conditions, so what an outcome gives is looked up.
#![tactic(auto)]

pub mod cell_targets;
pub mod offered;
pub mod targets;
pub mod values;

pub use cell_targets::target_of;
pub use offered::{Several, several_of, some_given, some_offered};
pub use targets::{At, Sense, Target, given};
pub use values::{places_for, value_of};
