// The first assignment of each definition.
ghost use Rattle.std.specs.Prelude.{◌≡◌, List, ◌++◌, ◌∷◌, [], map, IfOk, OnOk};
ghost use Rattle.law_designs.specs.Flattening.{different};
ghost use Rattle.law_designs.specs.Definitions.{Head, same_definition};
ghost use Rattle.smv_design.specs.Acts.{head_of};
ghost use Rattle.smv_design.specs.Firsts.{IsGathered};

use crate::heads::Noted;
use crate::owners::Owner;
use std::alloc::{AllocError, Global};
use std::collections::HashSet;

/// The first assignment of each definition in flat order, and what these define.
#[derive(Drop)]
pub struct Gathered {
    pub heads: Vec<Noted>,
    pub owners: HashSet<Owner>,
}

// Notes one more assignment, where it is the first of its definition.
fn note(gathered: &mut Gathered, head: Noted) -> Result<(), AllocError>
    ensures { OnOk result ((met : List Head) → IsGathered gathered.old met → IsGathered gathered.new (met ++ head_of head ∷ [])) }
{
    let owner = Owner {
        layer: head.layer,
        family: head.family,
    };
    if gathered.owners.insert(owner)? {
        gathered.heads.push(head)?;
    }
    Ok(())
}

// Notes these assignments.
fn note_all(gathered: &mut Gathered, heads: &[Noted]) -> Result<(), AllocError>
    ensures { OnOk result ((met : List Head) → IsGathered gathered.old met → IsGathered gathered.new (met ++ map head_of heads.now)) }
{
    for head in heads {
        note(gathered, *head)?;
    }
    Ok(())
}

/// The first of these assignments for each definition, in their order.
pub(crate) fn first_heads(heads: &[Noted], alloc: Global) -> Result<Vec<Noted>, AllocError>
    ensures { IfOk result (λ firsts. map head_of firsts.items ≡ different same_definition (map head_of heads.now)) }
{
    let mut gathered = Gathered {
        heads: Vec::new(alloc),
        owners: HashSet::new(alloc),
    };
    note_all(&mut gathered, heads)?;
    let Gathered {
        heads: firsts,
        owners: _,
    } = gathered;
    Ok(firsts)
}
