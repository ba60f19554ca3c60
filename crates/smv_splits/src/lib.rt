//! What the passes over splits find: the parameters that a split adds, its misfits, the groups of splits, and the leaf of each unit, by the definitions of `law_splits`.
//!
//! For the faults of splits (`smv_split_faults`) and for leaves. `names` and `params` look up units and parameters; `misfits` has the first misfit of a split alone (fault 24), with
//! `standing`, `rights`, `kinds` and `strays`; `groups` and `lost` have the first split that leads nowhere (fault 23), by a worklist; `chains`, `guards` and `leaf_chains` the leaf at
//! the end of each unit's chain, and `expressions` gives guards other numbers for their variables. No step looks through the equations for each name: what is looked through is the list
//! of the variables around a split, which are few. To change it: `specs/Parts`, `Groups` and `Links` have the definitions as the code finds them.
#![tactic(auto)]

pub mod chains;
pub mod expressions;
pub mod groups;
pub mod guards;
pub mod kinds;
mod leaf_chains;
pub mod lost;
pub mod misfits;
pub mod names;
pub mod numbers;
pub mod params;
pub mod rights;
pub mod standing;
pub mod strays;

pub use leaf_chains::unit_leaves;
