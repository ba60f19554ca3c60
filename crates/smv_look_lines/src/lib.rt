//! The lines of the program `smv_look`: of each unit of a plan what is proved of it and what its proof uses (`list`), and of a case the elements of its cone (`cone`).
//!
//! For the call of that program, and for whoever shows a case or what a proof uses beside its verdict. It meets `specs/Lists` and `specs/Cones`, byte by byte; `specs/Parts` has their words. `parts` writes names, types and places, `choices` what a proof uses, `lists` the units, `cones` the elements of a case.
//! A plan that no call gives is written too: a number that leads nowhere stands for nothing.
#![tactic(auto)]

mod choices;
mod cones;
mod lists;
mod parts;

pub use choices::push_choice;
pub use cones::{Look, cone_lines, count_line, is_target, push_lines, target_of, total};
pub use lists::list_lines;
pub use parts::{push_place, push_type};
