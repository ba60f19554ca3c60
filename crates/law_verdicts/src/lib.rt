//! What verdicts say beyond their words: a true one leaves a set of states that meets the four conditions of induction, and under budgets that are enough each one is true or false.
//!
//! For whoever asks a report for more than its answer. `specs/Invariants` says it of true verdicts; `specs/Budgets` says how many steps and nodes are enough. `searches` joins the clauses of
//! `smv_search` and `smv_inductive` with what a verdict is: what a search answers is so of its problem, and a closed set passes the inductive check.
#![tactic(auto)]

pub mod budgets;
pub mod searches;
pub mod true_verdicts;
