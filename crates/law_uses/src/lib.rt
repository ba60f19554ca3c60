//! What the proof of each leaf uses (`choices_of`) and the faults of uses, 26 to 28 (`first_fault_of_uses`), as definitions in `specs/` and laws; `worked_texts` has
//! worked texts and `smv_choices` the code. Read `Uses` (what references mean), then `Choices`, then `UseFaults`; `laws` says that what a choice names is there.
//! `Meaning` is a type of this crate's own, so that the code gives the very value of which the definitions speak.
#![tactic(auto)]

pub mod laws;
pub mod meaning;
