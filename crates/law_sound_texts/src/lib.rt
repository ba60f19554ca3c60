//! The laws that carry what is proved of a design to the text that it was made of. Begin at `proved_texts_are_sound` (`sound_texts`).
//!
//! For the headline. `left_sides`, `whole` and `conflicts` say that each left side has its indexes and no two definitions conflict; `checked_scripts` gives what `law_obligations`
//! asks of a script; `extension` and `behaviours` say that abstract signals take no behaviour from an implementation, and that texts have runs; `number_widths` that each number of a
//! text within the limits fits its field. That flattening keeps the rules of kinds stands below, in `law_flat_kinds`.
#![tactic(auto)]

pub mod behaviours;
pub mod checked_scripts;
pub mod conflicts;
pub mod extension;
pub mod left_sides;
pub mod number_widths;
pub mod sound_texts;
pub mod whole;
