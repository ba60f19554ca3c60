//! The codes of a dump tell its elements apart: elements of different numbers have different codes, and a code is made of the printable bytes from 33 to 126.
//!
//! For whoever trusts a dump. `specs/Codes` has the laws.
#![tactic(auto)]

pub mod laws;
