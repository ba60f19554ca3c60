// The answer to a refusal.
ghost use Rattle.std.specs.Prelude.{IfOk};
ghost use Rattle.smv_top.specs.Refusals.{IsRefused};

use smv_answers::{Answer, refused};
use smv_core::Refusal;
use std::alloc::{AllocError, Global};

/// The answer to a refusal of a text: its fault, and none where memory ran out.
pub fn refused_by(alloc: Global, text: &[u8], refusal: Refusal) -> Result<Answer, AllocError>
    ensures { IfOk result (λ answer. IsRefused text.now refusal answer.status answer.bytes.items) }
{
    match refusal {
        Refusal::Fault(fault) => refused(alloc, text, fault),
        Refusal::OutOfMemory => Err(AllocError),
    }
}
