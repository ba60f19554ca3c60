//! The bytes of the translated text spell the translated tree.
//!
//! For the command that proves formulas over several times: what it hands on is what the theorem of the translation speaks of.
#![tactic(auto)]

pub mod laws;
