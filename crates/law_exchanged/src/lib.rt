//! One claim's expression exchanged for another in a text: the tree is changed there, and elsewhere only in its places.
//!
//! For laws that change a text by its bytes. A reader begins with `specs/Changed`, the tree in which the expressions of claims are changed, and `specs/Laws`: `one_exchanged` says it of tokens,
//! `bytes_exchanged` of bytes.
#![tactic(auto)]

pub mod laws;
