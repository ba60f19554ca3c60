// The names to the right of the equations of a split.
ghost use Rattle.std.specs.Prelude.{◌≡◌, ◌++◌, ◌∷◌, [], IfOk, OnOk};
ghost use Rattle.smv_splits.specs.Parts as parts;
ghost use Rattle.smv_splits.specs.Parts.{AreRights, repeated_if};

use name_index::NameIndex;
use smv_core::flat::FlatPair;
use smv_core::name::Name;
use smv_core::tree::Word;
use std::alloc::{AllocError, Global};

/// The names to the right of the equations of a split, in their order, and those that stand there once more than before.
#[derive(Drop)]
pub struct Rights<'a> {
    pub names: NameIndex<'a>,
    pub repeated: NameIndex<'a>,
}

// One name more.
fn note<'a>(rights: &mut Rights<'a>, name: &'a Name) -> Result<(), AllocError>
    ensures names { OnOk result (rights.new.names ≡ rights.old.names ++ name.now ∷ []) }
    ensures repeated { OnOk result (rights.new.repeated ≡ rights.old.repeated ++ repeated_if rights.old.names name.now) }
{
    if rights.names.find(name).is_some() {
        rights.repeated.push(name)?;
    }
    rights.names.push(name)?;
    Ok(())
}

/// The names to the right of these equations.
pub(crate) fn make_rights<'a>(
    alloc: Global,
    pairs: &'a [FlatPair],
) -> Result<Rights<'a>, AllocError>
    ensures { IfOk result (λ rights. AreRights pairs.now rights) }
{
    let mut out = Rights {
        names: NameIndex::new(alloc),
        repeated: NameIndex::new(alloc),
    };
    for pair in pairs {
        note(&mut out, &pair.right.name)?;
    }
    Ok(out)
}

/// Whether a name is to the right of exactly one equation.
pub(crate) fn is_in_one(rights: &Rights, word: &Word) -> bool
    ensures { result ≡ parts.is_in_one rights.now.names rights.now.repeated word.now }
{
    rights.names.find(&word.name).is_some() && rights.repeated.find(&word.name).is_none()
}
