//! Abstraction and its soundness: what a case of a unit shows of all runs, up to the law from cases without violating paths to all units of a design.
//!
//! For everything about cases. Read `specs/Places`, `May`, `Right`, `Results`, `Obligations` and `Soundness` for one case; `Outlines`, `Units`, `Times`, `Cones`, `Problems` and
//! `Checked` for a whole design, with `proved_is_sound` (`obligations`); `Scripts` for the cases of a script of proofs; `Readings` and `CasePaths` for a case by its bits; `Mix` and
//! `Gist` for what an expression or a definition may give from what its parts may give, the laws that the evaluator cites (`outcomes`), and `FreeReads` for what it reads.
//! No code runs here. A reading looks an element up among the slots with `find`, never bit by bit: keep it so, since each law on readings is a use of what `find` finds.
#![tactic(auto)]

pub mod abstraction;
pub mod cases;
pub mod free_variables;
pub mod obligations;
pub mod outcomes;
pub mod readings;
