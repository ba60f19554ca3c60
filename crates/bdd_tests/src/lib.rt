//! Tests of the store of functions, its memo table, the operations on it, and of searches and inductive sets over it: what no clause says, as that calls succeed where there is memory, and what they
//! answer of functions and cases whose tables were worked out by hand.
//!
//! Nothing stands on it. `functions` makes what several modules test; `cases` builds a case of truth tables and proves that its conditions hold, and `searches` has the tables.
#![tactic(auto)]

#[cfg(test)]
mod cases;
#[cfg(test)]
mod functions;
#[cfg(test)]
mod memo;
#[cfg(test)]
mod operations;
#[cfg(test)]
mod searches;
#[cfg(test)]
mod store;
