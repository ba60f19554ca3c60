//! The first fault of a text among those of its names and of its size.
//!
//! For `smv_front`. It joins `smv_scope` and `smv_size`: least place, then number, and the size last.
#![tactic(auto)]

ghost use Rattle.std.specs.Prelude.{◌≡◌, IfOk};
ghost use Rattle.smv_mentions.specs.FirstFault as spec;
ghost use Rattle.smv_mentions.specs.Said.{AreNoted};

use smv_core::Fault;
use smv_core::tree::Text;
use smv_first_fault::faults::{any_order, earlier, first_of_both};
use smv_mentions::pieces::Piece;
use smv_scope::scope::scope_fault;
use smv_size::recursion::recursion_fault;
use smv_size::size::size_fault;
use std::alloc::{AllocError, Global};

/// The first fault of a text whose tops were noted, among 7 to 11, by place and then by number, and then 25; or none.
pub fn first_fault<'a>(
    alloc: Global,
    text: &'a Text,
    pieces: &[Piece<'a>],
) -> Result<Option<Fault>, AllocError>
    requires { AreNoted pieces.now text.now }
    ensures { IfOk result (λ fault. fault ≡ spec.first_fault text.now) }
{
    let named = name_fault(alloc, text, pieces)?;
    match named {
        Some(fault) => Ok(Some(fault)),
        None => size_fault(alloc, text, pieces),
    }
}

// The first fault of the names, by place and then by number, where they are noted.
fn name_fault<'a>(
    alloc: Global,
    text: &'a Text,
    pieces: &[Piece<'a>],
) -> Result<Option<Fault>, AllocError>
    requires { AreNoted pieces.now text.now }
    ensures { IfOk result (λ fault. fault ≡ spec.first_of (spec.faults_of_names text.now)) }
{
    first_of_both();
    any_order();
    let scope = scope_fault(alloc, text, pieces)?;
    let recursion = recursion_fault(alloc, text, pieces)?;
    Ok(earlier(scope, recursion))
}
