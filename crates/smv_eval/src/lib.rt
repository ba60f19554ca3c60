//! What a problem means in abstract states that are given as data: what expressions may be, which demands are met, what a definition allows for certain, and whether states are a violating path.
//!
//! For whoever asks of given states, without a search: tests, whoever checks a trace, and the look at a design (`smv_look_allowed`); the prover itself searches (`smv_encode`). A reader begins with `may` (`specs/Answers`),
//! `met` and `broken` (`specs/Held`), `must` (`specs/Sure`) and `is_violating` (`specs/Violations`); `is_state` and `cells_of` read a state that is written as a list of values
//! (`specs/States`). Who has more than one question about a state makes its cells once and asks `demands`. Each is the same evaluator as the search's, over plain truth values.
#![tactic(auto)]

pub mod demands;
pub mod held_states;
pub mod must_states;
pub mod must_values;
pub mod states;
pub mod targets;
pub mod values;
mod violations;

pub use held_states::{broken, met};
pub use must_states::must;
pub use states::{cells_of, is_state};
pub use values::may;
pub use violations::is_violating;
