// How many bits elements have, against the limit.
ghost use Rattle.std.specs.Prelude.{◌≡◌, map, length, nat_le, IfOk};
ghost use Rattle.smv_readings.specs.StateBits.{bits_of_elements};

use smv_core::abstract_type::AbsType;
use smv_core::flat::{Design, Element, Family};
use smv_core::{Name, Seq};
use smv_readings::family_bits;
use std::alloc::{AllocError, Global};

// How many names a list has. Also where the number does not fit its field, which no text within the limits has, there is an error.
fn count(names: &Seq<Name>) -> Result<u16, AllocError>
    ensures { IfOk result (λ count. count ≡ length names.now) }
{
    match u16::try_from(names.len()) {
        Ok(count) => Ok(count),
        Err(_) => Err(AllocError),
    }
}

/// How many constants each enumeration of a design has.
pub fn list_lengths(alloc: Global, design: &Design) -> Result<Vec<u16>, AllocError>
    ensures { IfOk result (λ lists. lists.items ≡ map length design.now.enums) }
{
    let mut lists = Vec::new(alloc);
    for names in design.enums.as_slice() {
        let count = count(names)?;
        lists.push(count)?;
    }
    Ok(lists)
}

/// These elements have no more than 1,024 bits together.
pub(crate) fn are_few(
    families: &[Family],
    lists: &[u16],
    types: &[AbsType],
    elements: &[Element],
) -> bool
    ensures { result ≡ nat_le (bits_of_elements families.now lists.now types.now elements.now) 1024 }
{
    let mut left = 1024;
    for x in elements {
        let bits = family_bits(families, lists, types, x.family);
        if left < bits {
            return false;
        }
        left -= bits;
    }
    true
}
