// A leaf that is to be decided.
use smv_core::flat::{Choice, Def, Design, Leaf, Timed, Unit};

/// A leaf that is to be decided, with its choice and the times of its uses. With it come the units of its design, and for each family the definition that its proof uses.
#[derive(Clone, Copy)]
pub struct Task<'a> {
    pub design: &'a Design,
    pub units: &'a [Unit],
    pub leaf: &'a Leaf,
    pub choice: &'a Choice,
    pub timed: &'a Timed,
    pub table: &'a [Option<&'a Def>],
}
