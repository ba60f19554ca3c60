//! Sets of states over an arrangement of the bits of a case: when they meet the four conditions of induction.
//!
//! For whoever tests a set that speaks of the declared bits over another order of them. `specs/Moved` says which function of places a set is, and `specs/Laws` that it meets the conditions over
//! the order exactly where the set meets them as declared.
#![tactic(auto)]

ghost use Rattle.law_moved_sets.specs.Laws.{OrdersKeepInduction};

/// A set meets the four conditions of induction over an order of the bits exactly where it meets them over the declared ones.
pub fn orders_keep_induction()
    ensures { OrdersKeepInduction }
{}
