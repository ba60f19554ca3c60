//! What the lexer reads of bytes that are put together: the tokens of each part, where no token spans a seam.
//!
//! For laws that change a text by its bytes. A reader begins with `specs/Parts`, which says when bytes do not go together, and `specs/Laws`.
#![tactic(auto)]

pub mod laws;
pub mod worked;
