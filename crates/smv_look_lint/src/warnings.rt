// What is warned of, as data.
use smv_core::tree::Span;
use smv_look_bounds::What;

/// What is wrong with a signal.
#[derive(Clone, Copy)]
pub enum Flaw {
    /// An assignment gives it a value that its type does not have, or one that is Undefined.
    Stray { value: Option<u16> },
    /// An assignment gives it one of these numbers, of which its type does not have all.
    StraySpan { span: Span },
    /// Something in its definition is doubted.
    Doubted { what: What },
    /// Nothing outside layers assigns it, and it is no input.
    Unassigned,
    /// It is abstract, and no layer defines it.
    Undefined,
    /// Nothing reads it, no map is about it, and it is no output.
    Unread,
    /// The same of an abstract signal, or of an input.
    Unused,
    /// Nothing reads it, it is no output, and maps are about it, none of which a proof uses.
    Unapplied,
}

/// What is wrong with the signal of this number among the families, and the offset where it stands.
#[derive(Clone, Copy)]
pub struct Warning {
    pub family: u16,
    pub flaw: Flaw,
    pub at: u32,
}
