//! What the words of `smv_look` ask for, read by clap.
//!
//! For the call of that program. A reader begins with `specs/CommandLine`, which is all that clap is told, and `specs/Queries`.
#![tactic(auto)]

mod command_line;
mod queries;
mod words;
pub mod words_laws;

pub use queries::Query;
pub use words::query_of;
