//! The leaves of a design: the ends of the chains of splits, their parameters and guards, and the faults of splits, as definitions in `specs/` and laws.
//!
//! For the passes over splits and the law of whole designs. `leaves_of` and `faults_of_splits` compute; `leaves` gives what `law_obligations` asks of leaves. `chain_laws` says
//! that what leads to a unit at all does so in as many splits as the design has, so a search through a graph finds it; and that types alone tell what splits show of the parameters
//! before them.
#![tactic(auto)]

pub mod chain_laws;
pub mod leaves;
