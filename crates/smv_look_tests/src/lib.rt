//! Tests of the call of `smv_look`, from the bytes of a text to a status and the bytes of its sink. The answers of `rows`, `lint` and `others` were written by hand; `pages` has what the users' pages show, and `mistakes` the texts of `docs/FAULTS.md` with what is explained of them: both are written by `tools/pages.py --tests`.
#![tactic(auto)]

#[cfg(test)]
mod lint;
#[cfg(test)]
mod mistakes;
#[cfg(test)]
mod others;
#[cfg(test)]
mod pages;
#[cfg(test)]
mod rows;
