//! A shortest loop without delay that begins at a place: the other places of a fault 18.
//!
//! For `smv_look_faults`. A reader begins with `specs/Paths`, which speaks of the cells of `law_designs/specs/Loops`. `shares` tells where two assignments meet in a cell; `paths` makes a graph of
//! all assignments, and `graph_loops` searches it.
#![tactic(auto)]

pub mod laws;
mod paths;
mod shares;

pub use paths::loop_places;
