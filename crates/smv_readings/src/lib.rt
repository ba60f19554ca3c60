//! How many bits a problem's state has, and the abstract state that an assignment of these bits is read as.
//!
//! For the encoder, for stores, for whoever keeps a problem within its limit, and for traces. A reader begins with `specs/StateBits` (for each element the least number of bits that its values
//! need, and at least one) and `specs/States`; that these are the bits and the reading of each case that is written so is proved here.
#![tactic(auto)]

mod readings;
mod widths;

pub use readings::read_state;
pub use widths::{family_bits, state_bits, values};
