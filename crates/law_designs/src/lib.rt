//! What a design without modules is and which rules it keeps, as definitions that compute, with their laws: kinds, the flattened text, single assignment, loops, layers, set types.
//!
//! For every pass over trees and flattened texts, each of which meets one of these definitions, and for the laws of whole texts. `specs/Kinds`, `Types` and `KindFaults` have the
//! kinds of a tree, `FlatKinds` those of a flattened text; `Flattening` is the definition that the code meets, and `Agreement` that it means what the tree means; `SingleFaults`,
//! `LayerFaults`, `FirstFault` and `SetFaults` have the faults of the rules; `WellKinded` is the one premise on texts of the laws above. Each module of `src` has the laws of one theme.
//! Worked texts decide the definitions (`worked_texts`). A change is paid in all passes above.
#![tactic(auto)]

pub mod depth;
pub mod enumerations;
pub mod flattening;
pub mod loops_and_layers;
pub mod single_assignment;
pub mod well_kinded;
