//! The translated tree from the tokens of the translated text: the tokens of a text with formulas as segments, which are kept, or have others in their place.
//!
//! For the law that the translated text spells the translated tree. `specs/Segments` says what segments are, and which edits they are.
#![tactic(auto)]

pub mod laws;
