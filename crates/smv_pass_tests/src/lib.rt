//! Tests of the way of a text to its plan: what no clause says, as that calls succeed where there is memory, and what was worked out by hand of small texts and of the Tomasulo machine.
//!
//! Sources and sinks, tokens, trees, spelling and reports (`streams`, `lexing`, `parsing`, `printing`, `reports`); the passes over trees, flattened texts and designs (`texts` brings a text to the form that a
//! pass takes); the rules of proof, from the bytes of a text to its plan (`plans` tells a plan as a line; `rules_faults` has the first faults of 21 to 29 with their columns).
#![tactic(auto)]

#[cfg(test)]
mod answers;
#[cfg(test)]
mod definitions;
#[cfg(test)]
mod faults;
#[cfg(test)]
mod lexing;
#[cfg(test)]
mod mentions;
#[cfg(test)]
mod orders;
#[cfg(test)]
mod parsing;
#[cfg(test)]
mod plans;
#[cfg(test)]
mod printing;
#[cfg(test)]
mod reports;
#[cfg(test)]
mod rules_faults;
#[cfg(test)]
mod sizes;
#[cfg(test)]
mod streams;
#[cfg(test)]
mod texts;
#[cfg(test)]
mod told;
#[cfg(test)]
mod units;
