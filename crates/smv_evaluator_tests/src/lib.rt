//! Tests of the evaluator of given states and of the functions of cases, from the bytes of a text on: what was worked
//! out by hand of small texts, and the Tomasulo machine's functions beside the evaluator.
//!
//! Nothing stands on it. A row of each table becomes a question about a case, and `questions` tells whether its answer
//! is right. Of the evaluator, `states` spells states and values; `expressions` has what expressions may be, `demands`
//! what is met, broken and certain, `cones` the elements of cases, and `orders` orders of their bits. Of the functions, `lists` has the lists of small
//! texts, written out by hand, and `searches` what a search finds under budgets. Of the machine, `machine` has the cones
//! of its six cases and looks at a thousand assignments of each, `functions` looks at each function beside the
//! evaluator, and `late` has a path of a machine that takes what it did not wait for.
#![tactic(auto)]

#[cfg(test)]
mod cones;
#[cfg(test)]
mod demands;
#[cfg(test)]
mod expressions;
#[cfg(test)]
mod functions;
#[cfg(test)]
mod late;
#[cfg(test)]
mod lists;
#[cfg(test)]
mod machine;
#[cfg(test)]
mod orders;
#[cfg(test)]
mod questions;
#[cfg(test)]
mod searches;
#[cfg(test)]
mod states;
