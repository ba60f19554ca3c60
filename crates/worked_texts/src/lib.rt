//! Worked texts, each with its first fault or with what a pass makes of it, as theorems by computation from the bytes.
//!
//! For readers of the definitions that they are about, each module those of one: names and size (`smv_mentions`), kinds, flattening, single assignment, loops and layers and set types
//! (`law_designs`), splits, uses (`law_uses`), cases, the functions of a case (`law_reports`), plans, whole texts, generated texts, the lines of reports, words and waveforms. Each answer was worked out by hand from the rules; `conditions` shows that
//! the premises of the laws of texts can be met. A change of a definition that changes an answer fails here; a row is added to the list of its theme.
#![tactic(auto)]

pub mod case_lists;
pub mod cases;
pub mod conditions;
pub mod flat_kinds;
pub mod flattening;
pub mod generated;
pub mod kinds;
pub mod loops_and_layers;
pub mod names;
pub mod plans;
pub mod report_lines;
pub mod set_types;
pub mod single_assignment;
pub mod splits;
pub mod uses;
pub mod valid_texts;
pub mod waveforms;
pub mod words;
