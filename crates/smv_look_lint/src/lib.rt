//! What `lint` warns of: values that a signal's type does not have, what is doubted by the bounds of expressions, signals that are free or that nothing reads, and a text without units.
//!
//! For the call of `smv_look`. A reader begins with `specs/Lint`; `specs/Lines` has the lines. `strays` finds the values, `once` what is doubted, at each place once, `signals` which signals are defined, read and mapped, `roles` the inputs and outputs of a text, `lint` all warnings in the order of their places, `lines` writes them.
#![tactic(auto)]

mod lines;
mod lint;
mod marks;
mod once;
mod roles;
mod signals;
mod strays;
mod truth;
mod warnings;

pub use lines::lint_lines;
pub use truth::strays_rule_nothing_out;
pub use warnings::{Flaw, Warning};
