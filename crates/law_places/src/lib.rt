//! Places in a text are no part of its meaning: texts whose trees differ in offsets, splits and uses alone are sound alike.
//!
//! For laws that change a text by its bytes, where all that stands behind the change moves. A reader begins with `specs/Placeless` and `specs/Laws`. `proofs/LikeDesigns.like_designs_hold` is for whoever
//! compares two designs whose statements are alike (`specs/Likeness`): a lemma, since it speaks of any relation of claims.
#![tactic(auto)]

pub mod meaning;
