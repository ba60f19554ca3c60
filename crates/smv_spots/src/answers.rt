// What comparisons of spots may give.

/// Whether 0 is among the answers, whether 1 is, and whether neither is.
#[derive(Clone, Copy)]
pub struct Answers {
    pub no: bool,
    pub yes: bool,
    pub neither: bool,
}
