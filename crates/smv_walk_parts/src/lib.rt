//! What a walk of a definition makes of its parts: whether left sides are the element's, the first result of several, and whether an assignment concerns an element at all.
//!
//! For walks and demands, which go down definitions. `matches` has the indexes of one assignment, each of which may have several outcomes; `firsts` joins what parts give; `concerned` and
//! `lefts` look at constants, numbers and bound variables in left sides alone, before anything is read: `specs/Elsewhere` says what is known of an index.
#![tactic(auto)]

pub mod concerned;
pub mod firsts;
pub mod lefts;
pub mod matches;

pub use concerned::concerns;
pub use firsts::first_of_all;
pub use lefts::is_elsewhere;
pub use matches::matched;
