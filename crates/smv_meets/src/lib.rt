//! Whether a set that is kept for a case meets the four conditions of induction.
//!
//! For the check of a document, and for whoever begins from an old one. A set speaks of the bits as they are declared; it is tested over the declared order and over a near one (`smv_bit_order`), in
//! stores that are bounded at first, and what either decides is so (`law_moved_sets`). `bits` has the functions of the bits over an order, `over` tests a set over one, `tries` goes through the orders.
#![tactic(auto)]

mod bits;
mod over;
mod tries;

pub use over::is_over;
pub use tries::meets;
