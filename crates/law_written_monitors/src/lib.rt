//! What a translated text has before the closing brace of a module: from the pieces that are written to the items that they spell.
//!
//! For the law that the translated text spells the translated tree. `specs/Monitored` says what is written there for the claims that have monitors.
#![tactic(auto)]

pub mod laws;
