//! The proof of a valid text is a document: its units' names, the numbers of its cases and the variables of its sets are such as a document may have. So what is written of it is judged with yes.
//!
//! For the calls that write a document and for whoever reads one again. A reader begins with `specs/Laws`.
#![tactic(auto)]

pub mod laws;
