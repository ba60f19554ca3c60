//! The command that the words of a command line are, read by clap; and how a call of the program ended, with the exit status that says so.
//!
//! For the top call, which answers a command and does not know how words are read. A reader begins with `specs/CommandLine`, which is all that clap is told, and `specs/Commands`;
//! `specs/Ranges` has the ranges of numbers, `specs/Numbers` the exit statuses. `words_laws` says that words are a command exactly where clap gives matches and bits are named by a word of theirs, and that the
//! numbers of a command are in range. To add a command: its shape in `CommandLine`, its builder in `command_line.rt`, a row in `named`, and its arm in `words.rt`.
#![tactic(auto)]

mod command_line;
mod commands;
mod exit;
mod words;
pub mod words_laws;

pub use commands::Command;
pub use exit::Status;
pub use words::command_of;
