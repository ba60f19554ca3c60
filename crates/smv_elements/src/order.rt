// When elements are the same, and which stands before which.
ghost use Rattle.std.specs.Prelude.{◌≡◌};
ghost use Rattle.smv_elements.specs.Elements as spec;
ghost use Rattle.smv_elements.specs.Elements.{sort_of, number_of, keys, numbers_before, same_numbers};

use smv_core::flat::{Class, Element};

// Numbers stand before classes and these before rests.
fn sort(class: Class) -> u8
    ensures { result ≡ sort_of class }
{
    match class {
        Class::Number { .. } => 0,
        Class::Named { .. } => 1,
        Class::Rest { .. } => 2,
    }
}

fn number(class: Class) -> u8
    ensures { result ≡ number_of class }
{
    match class {
        Class::Number { value } => value,
        Class::Named { class } => class,
        Class::Rest { gap } => gap,
    }
}

// The same classes, one after the other.
fn are_same(cs: &[Class], ds: &[Class]) -> bool
    ensures { result ≡ same_numbers (keys cs.now) (keys ds.now) }
{
    match cs {
        [] => match ds {
            [] => true,
            [_, ..] => false,
        },
        [c, more @ ..] => match ds {
            [] => false,
            [d, others @ ..] => sort(*c) == sort(*d)
                && (number(*c) == number(*d) && are_same(more, others)),
        },
    }
}

// By the first index in which they differ.
fn are_before(cs: &[Class], ds: &[Class]) -> bool
    ensures { result ≡ numbers_before (keys cs.now) (keys ds.now) }
{
    match cs {
        [] => match ds {
            [] => false,
            [_, ..] => true,
        },
        [c, more @ ..] => match ds {
            [] => false,
            [d, others @ ..] => {
                sort(*c) < sort(*d)
                    || (sort(*c) == sort(*d)
                        && (number(*c) < number(*d)
                            || (number(*c) == number(*d) && are_before(more, others))))
            }
        },
    }
}

/// Two elements are the same.
pub fn is_same(x: &Element, y: &Element) -> bool
    ensures { result ≡ spec.same_element x.now y.now }
{
    x.family == y.family && are_same(x.indexes.as_slice(), y.indexes.as_slice())
}

/// By families and then by their indexes.
pub fn is_before(x: &Element, y: &Element) -> bool
    ensures { result ≡ spec.is_before x.now y.now }
{
    x.family < y.family
        || (x.family == y.family && are_before(x.indexes.as_slice(), y.indexes.as_slice()))
}
