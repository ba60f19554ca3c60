// Names of set types and of constants.
ghost use Rattle.std.specs.Prelude.{◌≡◌, slice_get, get_or, []};
ghost use Rattle.smv_spots.specs.Spots.{name_of, is_ordset, is_same_set};

use smv_core::flat::Design;

// The name of a set type; one that is not there has no name.
fn set_name(design: &Design, set: u16) -> &[u8]
    ensures { result.now ≡ name_of (slice_get design.now.sets set) }
{
    match design.sets.as_slice().get(set as usize) {
        Some(info) => info.name.as_bytes(),
        None => &[],
    }
}

// Whether a set type is an ordset.
fn is_ordered(design: &Design, set: u16) -> bool
    ensures { result ≡ is_ordset (slice_get design.now.sets set) }
{
    match design.sets.as_slice().get(set as usize) {
        Some(info) => info.ordered,
        None => false,
    }
}

/// Two set types of the same name and sort.
pub fn is_one_set(design: &Design, set: u16, other: u16) -> bool
    ensures { result ≡ is_same_set (slice_get design.now.sets set) (slice_get design.now.sets other) }
{
    if set == other {
        return true;
    }
    is_ordered(design, set) == is_ordered(design, other)
        && set_name(design, set) == set_name(design, other)
}

/// The name of a constant; one that is not there has no name.
pub fn constant_name(design: &Design, list: u16, value: u16) -> &[u8]
    ensures { result.now ≡ get_or (get_or design.now.enums list []) value [] }
{
    let Some(names) = design.enums.as_slice().get(list as usize) else {
        return &[];
    };
    match names.as_slice().get(value as usize) {
        Some(name) => name.as_bytes(),
        None => &[],
    }
}
