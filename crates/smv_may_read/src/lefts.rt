// Whether references and left sides may be of elements.
ghost use Rattle.std.specs.Prelude.{◌≡◌, map};
ghost use Rattle.smv_core.specs.FlatMeaning.{flat_index};
ghost use Rattle.smv_indexes.specs.Indexes.{index_of};
ghost use Rattle.smv_may_read.specs.Mentions as spec;

use smv_core::flat::{Class, Element, FlatExpr};
use smv_indexes::{Index, known};

// A constant index lies at its own number alone; any other may lie anywhere.
fn may_lie(index: Index, class: Class) -> bool
    ensures { result ≡ spec.may_lie (index_of index) class }
{
    match index {
        Index::Fixed { value: None } => true,
        Index::Fixed {
            value: Some(constant),
        } => match class {
            Class::Number { value } => constant == u16::from(value),
            Class::Named { .. } => false,
            Class::Rest { .. } => false,
        },
        Index::Bare { .. } => true,
        Index::Computed => true,
    }
}

/// Whether each index may lie where the element's does.
#[tactic(auto, using(crate::proofs::LeftLaws::equations))]
pub(crate) fn may_be_at(left: &[FlatExpr], classes: &[Class]) -> bool
    ensures { result ≡ spec.may_be_at (map flat_index left.now) classes.now }
{
    match left {
        [] => true,
        [first, left @ ..] => match classes {
            [] => true,
            [class, classes @ ..] => may_lie(known(first), *class) && may_be_at(left, classes),
        },
    }
}

/// Whether a reference may be of one of these elements.
#[tactic(auto, using(crate::proofs::LeftLaws::one_equations))]
pub(crate) fn may_be_one(elements: &[Element], family: u16, indexes: &[FlatExpr]) -> bool
    ensures { result ≡ spec.may_be_one elements.now family (map flat_index indexes.now) }
{
    match elements {
        [] => false,
        [element, elements @ ..] => {
            (family == element.family && may_be_at(indexes, element.indexes.as_slice()))
                || may_be_one(elements, family, indexes)
        }
    }
}
