//! What is written for one formula over several times: its claim, and the declarations and definitions of its monitors.
//!
//! For `smv_ltl`. `parts` finds the parts of a formula among its tokens; `phrases` has formulas with the bytes of their parts; `stages` writes claims, `monitors` declarations and definitions, piece by piece with `pieces`. It meets `law_translated_texts/specs/Phrases`.
#![tactic(auto)]

pub mod monitors;
pub mod parts;
pub mod phrases;
pub mod pieces;
pub mod stages;
