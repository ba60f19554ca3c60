//! Laws of lists, tests, numbers and options that the standard library does not have, each stated once.
//!
//! For proofs of every crate: an `antt` file cites one by `use Rattle.law_lists.proofs.Lists.{map-map}`. `Lists` has what is made of whole lists, `Places` what stands where, `Anys` tests
//! of some member, `Each` what holds of each member, `Booleans` and `Numbers` tests and comparisons, `Options` options and results. Look in the standard library first (`rt lemma`); a law
//! that speaks of a definition of some crate belongs to that crate. A changed statement is paid in all crates above.
#![tactic(auto)]
