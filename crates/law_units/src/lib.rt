//! Laws of units from a text to a verdict: the units of a text are those of its design, and a unit holds where its leaf does.
//!
//! For whoever asks whether flattening and splits change what is proved. `specs/TextUnits` says when a unit of a text is one of its design, and `units_of_texts` that the two lists are the same, with
//! the same names; `specs/LeafInstances` says when an instance of a leaf holds, and `leaves` that a unit always holds exactly where its leaf does.
#![tactic(auto)]

pub mod leaves;
pub mod units_of_texts;
