//! How the bits of a case's elements stand while the case is decided, as data: the words of a command name it, and what is told of a case depends on it.
//!
//! For whoever decides cases, and for the definitions of verdicts (`law_reports`), which say what each of the two means.
#![tactic(auto)]

/// How the bits of a case's elements stand.
#[derive(Clone, Copy)]
pub enum Bits {
    /// Whichever of the arrangements that are tried decides the case.
    Near,
    /// In the order of declarations, element by element.
    Declared,
}
