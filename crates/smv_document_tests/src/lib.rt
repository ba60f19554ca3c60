//! Tests of the commands on proof documents, on units at given sizes, by induction and over several times, from words and bytes to a status and bytes. The expected answers were worked out by hand from the rules of the language, of documents and of concrete runs.
//! `documents` has what is written and what is resumed, `checks` what is checked, each rule of a document broken once, `confirmations` what is told of units at given sizes, `inductions` what is proved by induction, and `formulas` what is proved of claims over several times; `pages` what the users' pages show of them, written by `tools/pages.py --tests`.
#![tactic(auto)]

#[cfg(test)]
mod calls;
#[cfg(test)]
mod checks;
#[cfg(test)]
mod confirmations;
#[cfg(test)]
mod documents;
#[cfg(test)]
mod formulas;
#[cfg(test)]
mod inductions;
#[cfg(test)]
mod pages;
