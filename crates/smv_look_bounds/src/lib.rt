//! The least and the greatest number that an expression can have, by the types of what it reads and by the conditions around it; and where these do not keep a sum, an index or a value inside.
//!
//! For `lint`. A reader begins with `specs/Doubts`; `specs/Bounds` has the bounds, `specs/Narrowing` what conditions leave of them. `numbers` reckons with bounds, `narrowing` and `bounds` find those of an expression, `constants` the conditions that never change, `sums`, `doubts` and `parts` what is doubted of a definition.
#![tactic(auto)]

mod bounds;
mod constants;
mod doubts;
mod narrowing;
mod numbers;
mod parts;
mod places;
mod sums;
mod targets;

pub use doubts::{Doubt, What};
pub use numbers::Bounds;
pub use parts::push_def;
pub use places::first_at;
pub use sums::family_at;
