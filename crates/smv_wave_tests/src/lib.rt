//! Tests of the call of `smv_wave`, from the bytes of a report to a status and the bytes of its two sinks. The answers of `rows` were written by hand; `pages` has the dumps that the users' pages show, and is written by `tools/pages.py --tests`.
#![tactic(auto)]

#[cfg(test)]
mod pages;
#[cfg(test)]
mod rows;
