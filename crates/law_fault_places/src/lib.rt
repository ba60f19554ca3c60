//! Each refusal of a text has a number of 1 to 31 and a place of at most the text's length.
//!
//! For whoever relies on the lines that refuse. A reader begins with `specs/FaultsOfTexts`; `specs/PassFaults` joins the passes. `specs/TreePlaces` and `specs/FlatPlaces` say what a place is: those of a
//! tree stand within its text, those of the flattened text and of the design among the tree's; each other module of `specs/` is the law of some passes.
#![tactic(auto)]

pub mod designs;
pub mod flat;
pub mod kinds;
pub mod names;
pub mod passes;
pub mod splits;
pub mod texts;
pub mod trees;
