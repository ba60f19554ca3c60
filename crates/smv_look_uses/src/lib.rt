//! Where what is chosen, assumed, kept or proved twice is named first: the other place of a fault 27.
//!
//! For `smv_look_faults`. A reader begins with `specs/Chosen`; `leaves` has the names of the leaves that are proved, `firsts` the keys and names that stand before one at a place.
#![tactic(auto)]

mod chosen;
mod firsts;
mod leaves;

pub use chosen::{chosen_first, design_in};
