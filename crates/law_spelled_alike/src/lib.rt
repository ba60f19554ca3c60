//! Tokens that are related to others spell the tree that is so related, places aside, wherever they stand.
//!
//! For laws that change a text by its bytes: the tokens around the change keep their kinds and move, or have another name in them. `laws` has the law of expressions and tokens of the same kinds.
//! `specs/Local` says what is asked of a relation of tokens, and `proofs/Combining` and `proofs/Expressions` carry it through the grammar: a rule made of local rules is local.
#![tactic(auto)]

pub mod laws;
