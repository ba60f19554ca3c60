//! When a text is valid: the first fault of a text, of all passes, and what a right report of a text that has none proves of it.
//!
//! For the calls that read a text or decide it, and for the top call. A reader begins with `specs/Faults`, which lists the passes in their order, and goes on to `Reports`, `Joined` and `Plans`.
//! A report by which every unit of a valid text is true makes it sound, and two reports of a text tell the same (`valid_texts`). `plans_of_texts` and `parts_of_texts` say what the passes leave to
//! the calls on leaves: `Faultless` and `Rooms` have their premises. No pass stands below: `smv_read_design` joins this with the call that reads a plan.
#![tactic(auto)]

pub mod parts_of_texts;
pub mod plans_of_texts;
pub mod true_reports;
pub mod valid_texts;
