// The other place of a fault, by its number.
ghost use Rattle.std.specs.Prelude.{◌≡◌, IfOk};
ghost use Rattle.smv_look_faults.specs.Places as spec;

use smv_core::Fault;
use smv_core::tree::Text;
use smv_look_assignments::{conflicts_first, mixed_first};
use smv_look_modules::{holding_first, unused_first};
use smv_look_names::declared_first;
use smv_look_uses::chosen_first;
use std::alloc::{AllocError, Global};

/// Whether a fault of this number may have another place.
pub(crate) fn has_other(number: u8) -> bool
    ensures { result ≡ spec.has_other number }
{
    number == 8 || number == 9 || number == 10 || number == 15 || number == 16 || number == 27
}

/// The other place of a fault of a text, where it has one.
pub(crate) fn other_place(
    alloc: Global,
    text: &Text,
    fault: Fault,
) -> Result<Option<u32>, AllocError>
    ensures { IfOk result (λ place. place ≡ spec.other_place text.now fault.number fault.at) }
{
    let at = fault.at;
    if fault.number == 8 {
        declared_first(alloc, text, at)
    } else if fault.number == 9 {
        unused_first(alloc, text)
    } else if fault.number == 10 {
        holding_first(alloc, text, at)
    } else if fault.number == 15 {
        conflicts_first(alloc, text, at)
    } else if fault.number == 16 {
        mixed_first(alloc, text, at)
    } else if fault.number == 27 {
        chosen_first(alloc, text, at)
    } else {
        Ok(None)
    }
}
