//! The problem of a case of a text, posed for tests, its functions, and its elements told as words.
//!
//! For the crates of tests that begin with the bytes of a text, and for nothing else. `problems` poses the problem of a case of a unit, both by their places; `functions` makes its lists of functions, `bits` has assignments and the value of a function at one; `elements` tells elements by the names of
//! their families and their indexes, and `texts` has small texts that several crates of tests look at.
#![tactic(auto)]

pub mod bits;
pub mod elements;
pub mod functions;
pub mod problems;
pub mod texts;
