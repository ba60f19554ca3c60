//! Arrangements of a case: elements without bits, and the order of the bits of the others; the lists of a case over one, and why they decide the case.
//!
//! For whoever encodes a case over fewer bits than its elements have, or in another order. `specs/Arrangements` says what an arrangement is, `specs/ArrangedLists` has the lists over one,
//! and `specs/Laws` says that paths of each length, and so what is true or false, are those of the declared lists.
#![tactic(auto)]

pub mod arrangements;
pub mod orders;
pub mod tries;
pub mod worked;
