//! Worked cases, scripts and leaves, each with what was worked out by hand of it, as theorems by computation.
//!
//! For readers of the definitions of `law_obligations` and `law_splits`. `abstraction` has cases by themselves: what expressions and right sides may give in a small case, and which
//! demands have a violating path. `obligations` has whole scripts: their units, times, cones, problems and states, and scripts that the joined law covers. `leaves` has the leaves of
//! units and the faults of splits. No law cites a row; a change of a definition that changes an answer fails here, and a row is added to the list of its theme.
#![tactic(auto)]

pub mod abstraction;
pub mod leaves;
pub mod obligations;
