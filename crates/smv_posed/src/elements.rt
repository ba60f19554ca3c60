//! Elements as words.

use smv_core::flat::{Class, Design, Element};
use std::alloc::AllocError;

/// Adds classes to a line: numbers behind `=`, named classes behind `#` and rests behind `*`, each by its last digit.
pub fn tell_classes(line: &mut Vec<u8>, classes: &[Class]) -> Result<(), AllocError> {
    for class in classes {
        let (sign, number) = match *class {
            Class::Number { value } => (b'=', value),
            Class::Named { class } => (b'#', class),
            Class::Rest { gap } => (b'*', gap),
        };
        line.push(sign)?;
        line.push(b'0' + number % 10)?;
    }
    Ok(())
}

/// Adds an element to a line: the name of its family and its indexes.
pub fn tell_element(
    line: &mut Vec<u8>,
    design: &Design,
    element: &Element,
) -> Result<(), AllocError> {
    if let Some(family) = design.families.as_slice().get(element.family as usize) {
        line.extend_from_slice(family.name.as_bytes())?;
    }
    tell_classes(line, element.indexes.as_slice())?;
    Ok(())
}
