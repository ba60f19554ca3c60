//! What a translated text has in place of its formulas: from the pieces that are written to the expressions that they spell.
//!
//! For the law that the translated text spells the translated tree. `specs/Kinds` says as which tokens pieces are read.
#![tactic(auto)]

pub mod laws;
