//! The lists of a case in which elements are worked out from others at each time, so that they need no function: wires.
//!
//! For whoever decides a case. A reader begins with `relations_wired`. `law_wires` says when an element that is tried behind others is determined, `specs/Wired` which cells there are while elements are
//! tried one after the other, and `specs/Tried` how a try begins and ends. `ready` looks at what a definition reads, `tested` has for each value of the element the condition that its demands are met,
//! `alone` whether exactly one of these holds, and `wires` makes its cell; `coded` has the cells of elements by their bits, and `tries` goes through the candidates.
#![tactic(auto)]

mod alone;
mod coded;
mod met;
mod ready;
mod relations;
mod tested;
mod tries;
mod wires;

pub use relations::{Wired, relations_wired};
