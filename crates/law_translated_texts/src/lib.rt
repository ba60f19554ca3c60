//! The translated text of a text with formulas, byte by byte, and the place in the text that was read to which each byte belongs.
//!
//! For the command that proves formulas over several times. `specs/Translation` has the definition, over the parts of formulas (`specs/Parts`) and what is written for one formula
//! (`specs/Phrases`); `specs/Answers` says when a text is translated and when it is refused. `laws` says that the parts which the definition takes are those that the tokens spell; `worked` has
//! worked texts.
#![tactic(auto)]

pub mod laws;
pub mod worked;
