//! Tests of the whole program, from words and bytes to a status and bytes. The expected answers were worked out by hand from the rules of the language and of the method.
//! `rows` has worked designs with their reports, `small_designs` all designs of one signal of a few forms, `faults` a text for each fault, `passes` which fault comes first, `limits` and `edges` the texts at each limit and past it, `fronts` each front of the Tomasulo machine,
//! `prints` what is printed, and `transfers` what happens where a source or a sink fails.
//! `page_examples`, `page_method` and `short_pages` (`README.md`, `docs/FAULTS.md`, `docs/COMING-FROM.md`) have each command that the users' pages show, with the answer and the status that stand there. They are written by `tools/pages.py --tests`; where a page changes, run it again.
#![tactic(auto)]

#[cfg(test)]
mod calls;
#[cfg(test)]
mod edges;
#[cfg(test)]
mod faults;
#[cfg(test)]
mod fronts;
#[cfg(test)]
mod limits;
#[cfg(test)]
mod page_examples;
#[cfg(test)]
mod page_method;
#[cfg(test)]
mod passes;
#[cfg(test)]
mod prints;
#[cfg(test)]
mod rows;
#[cfg(test)]
mod short_pages;
#[cfg(test)]
mod small_designs;
#[cfg(test)]
mod transfers;
