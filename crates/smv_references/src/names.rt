// Names as references write them.
ghost use Rattle.std.specs.Prelude.{◌≡◌, ◌++◌, map, IfOk, OnOk};
ghost use Rattle.std.specs.List.{join_with_byte};
ghost use Rattle.law_splits.specs.Leaves.{named_by};
ghost use Rattle.smv_references.specs.Dots.{dot_before, dotted_from};

use smv_core::name::Name;
use smv_core::tree::{Ref, Word};
use std::alloc::{AllocError, Global};

// One name more, behind a dot where it is not the first.
fn add_word(bytes: &mut Vec<u8>, index: usize, word: &Word) -> Result<(), AllocError>
    ensures { OnOk result (bytes.new.items ≡ bytes.old.items ++ dot_before index ++ word.now.name) }
{
    if 0 < index {
        bytes.push(b'.')?;
    }
    bytes.extend_from_slice(word.name.as_bytes())?;
    Ok(())
}

// The bytes of the path of a reference, with a dot between each two names.
#[tactic(auto, using(smv_mentions::proofs::Notes::noting))]
fn path_bytes(alloc: Global, of: &Ref) -> Result<Vec<u8>, AllocError>
    ensures { IfOk result (λ bytes. bytes.items ≡ dotted_from 0 of.now.path) }
{
    let mut bytes = Vec::new(alloc);
    for (index, word) in of.path.as_slice().iter().enumerate() {
        add_word(&mut bytes, index, word)?;
    }
    Ok(bytes)
}

/// The path of a reference, as it is written: its names with dots between them.
#[tactic(auto, using(crate::proofs::NameLaws::dots))]
pub fn path_of(alloc: Global, of: &Ref) -> Result<Name, AllocError>
    ensures { IfOk result (λ name. name ≡ join_with_byte 46 (map (λ word. word.name) of.now.path)) }
{
    Ok(Name::from_vec(path_bytes(alloc, of)?))
}

/// The name of what a reference names, with its layer.
#[tactic(auto, using(smv_mentions::proofs::Notes::noting, crate::proofs::NameLaws::dots))]
pub fn name_of(alloc: Global, of: &Ref) -> Result<Name, AllocError>
    ensures { IfOk result (λ name. name ≡ named_by of.now) }
{
    let mut bytes = path_bytes(alloc, of)?;
    match &of.layer {
        Some(layer) => {
            bytes.push(b'/')?;
            bytes.push(b'/')?;
            bytes.extend_from_slice(layer.name.as_bytes())?;
            Ok(Name::from_vec(bytes))
        }
        None => Ok(Name::from_vec(bytes)),
    }
}
