// Abstract types.

/// What a set type has beside its classes: nothing, one rest for all other values of a scalarset, or the gaps around the classes of an ordset.
#[derive(Clone, Copy, PartialEq, Eq)]
pub enum Rest {
    None,
    One,
    Gaps,
}

/// The abstract form of a set type: how many classes it has, and what it has beside them.
#[derive(Clone, Copy, PartialEq, Eq)]
pub struct AbsType {
    pub named: u16,
    pub rest: Rest,
}
