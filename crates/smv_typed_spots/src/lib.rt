//! Places of a problem as spots, by the types of where they stand, and spots as written values.
//!
//! For whoever makes cells, targets or bindings of a problem: an index and a value are written without the number of their type, which the family of their element has.
//! `specs/TypedSpots` says what they are; that a place of a type is the one that it is written from is proved in `proofs/TypedLaws`.
#![tactic(auto)]

pub mod spots;

pub use spots::{index_spots, spot_of_value};
