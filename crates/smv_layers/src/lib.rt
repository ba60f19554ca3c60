//! The first fault of a design among those of abstract signals outside layers.
//!
//! For `smv_front` and for proofs. It meets `law_designs/specs/LayerFaults`; `laws` has it that the two words for a base definition agree where there is none.
#![tactic(auto)]

pub mod expressions;
pub mod laws;
pub mod layers;

pub use layers::layer_fault;
