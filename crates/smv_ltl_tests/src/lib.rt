//! Tests of translated texts. The expected bytes were written by hand.
#![tactic(auto)]

#[cfg(test)]
mod rows;
