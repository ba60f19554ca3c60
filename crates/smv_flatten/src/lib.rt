//! The flattened text.
//!
//! For `smv_typing`. It meets `law_designs/specs/Flattening`, item by item in flat order.
#![tactic(auto)]

pub mod acts;
pub mod connections;
pub mod copies;
pub mod flatten;
pub mod goals;
pub mod layers;
pub mod leaves;
pub mod met;
pub mod places;
pub mod roles;
