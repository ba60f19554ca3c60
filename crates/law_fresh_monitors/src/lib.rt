//! Monitors with names that stand nowhere in the text fit the text, and free names are such.
#![tactic(auto)]

pub mod laws;
