// Names with dots between them.
ghost use Rattle.std.specs.Prelude.{◌≡◌, ◌∷◌, ◌++◌, IfOk, OnOk};
ghost use Rattle.law_designs.specs.Flattening as flattening;
ghost use Rattle.smv_flatten_families.specs.Paths.{path_of};

use smv_core::name::Name;
use std::alloc::{AllocError, Global};

// One name more, behind a dot.
fn add_dotted(bytes: &mut Vec<u8>, name: &Name) -> Result<(), AllocError>
    ensures { OnOk result (bytes.new.items ≡ bytes.old.items ++ flattening.dot ∷ name.now) }
{
    bytes.push(b'.')?;
    bytes.extend_from_slice(name.as_bytes())?;
    Ok(())
}

/// The names that lead to something as one name, with a dot between each two.
#[tactic(auto, using(smv_mentions::proofs::Notes::noting, crate::proofs::BuildLaws::dots))]
pub fn dotted(alloc: Global, names: &[&Name]) -> Result<Name, AllocError>
    ensures { IfOk result (λ name. name ≡ flattening.dotted (path_of names.now)) }
{
    match names {
        [] => Ok(Name::from_vec(Vec::new(alloc))),
        [first, more @ ..] => {
            let mut bytes = Vec::from_slice(alloc, first.as_bytes())?;
            for name in more {
                add_dotted(&mut bytes, name)?;
            }
            Ok(Name::from_vec(bytes))
        }
    }
}
