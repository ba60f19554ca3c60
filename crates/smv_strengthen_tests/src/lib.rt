//! Tests of strengthened texts. The expected bytes were written by hand.
#![tactic(auto)]

#[cfg(test)]
mod rows;
