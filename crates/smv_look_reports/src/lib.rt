//! What `explain` shows of the verdicts of a text without a fault: the path of a false unit as a table, with what its map allows at the end of it and what its proof uses; of an unknown one the bits of its case and the elements that have most of them; of a true one the units that it leans on and that are not true.
//!
//! For the call of `smv_look`. A reader begins with `specs/Explained`. `specs/Paths`, `specs/Allowed`, `specs/Cones` and `specs/Leans` have the lines of each verdict, `specs/Dearest` the elements by their bits, `specs/Cases` what is taken of a plan and its results. `values` writes classes and values, `paths` a table, `allowed` what maps allow, `dearest` and `cones` an unknown unit, `leans` a true one, `explained` all units.
#![tactic(auto)]

mod allowed;
mod cases;
mod cones;
mod dearest;
mod explained;
mod leans;
mod paths;
mod values;

pub use allowed::allowed_by_all;
pub use cases::right_results_have_cases;
pub use dearest::dearest_come_first;
pub use explained::{are_all_true, explain_lines};
