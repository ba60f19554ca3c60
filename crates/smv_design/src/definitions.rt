// The definitions that are made of a text's statements.
ghost use Rattle.std.specs.Prelude.{◌≡◌, map, false, IfOk};
ghost use Rattle.law_designs.specs.Definitions.{joined as joined_of};
ghost use Rattle.smv_design.specs.declared.owners.Owner.{Owner};
ghost use Rattle.smv_design.specs.Acts.{head_of, statement_of};
ghost use Rattle.smv_design.specs.Groups.{same_owner, used, held};
ghost use Rattle.smv_design.specs.Definitions.{owner_of, def_from, def_among, IsSame, IsSaid, AreApart};

use crate::acts::Act;
use crate::groups::Sides;
use crate::heads::Noted;
use crate::owners::Owner;
use crate::parts::joined;
use crate::statements::gathered;
use smv_core::flat::{Def, DefBody};
use smv_core::tree::Kind;
use std::alloc::{AllocError, Global};
use std::collections::HashMap;

/// What statements say of each owner, for each kind of assignment.
#[derive(Drop)]
pub struct Said {
    pub init: HashMap<Owner, Sides>,
    pub next: HashMap<Owner, Sides>,
    pub comb: HashMap<Owner, Sides>,
}

/// What these statements say.
pub fn said_by(acts: &[Act], alloc: Global) -> Result<Said, AllocError>
    ensures { IfOk result (λ said. IsSaid said acts.now) }
{
    Ok(Said {
        init: gathered(acts, Kind::Init, alloc)?,
        next: gathered(acts, Kind::Next, alloc)?,
        comb: gathered(acts, Kind::Comb, alloc)?,
    })
}

// Takes out what is said of an owner, as one part.
fn taken(groups: &mut HashMap<Owner, Sides>, owner: Owner) -> DefBody
    ensures part { result ≡ joined_of (held groups.old owner).first }
    ensures others { (other : Owner) → same_owner owner other ≡ false → used groups.new other ≡ used groups.old other }
{
    match groups.remove(&owner) {
        Some(sides) => {
            let Sides { first, second: _ } = sides;
            joined(first.into_vec())
        }
        None => DefBody::Nothing,
    }
}

// The definition whose first assignment is this one; takes out what is said of it.
fn definition(head: &Noted, said: &mut Said) -> Def
    ensures def { result ≡ def_from said.old head.now }
    ensures others { (other : Owner) → same_owner (owner_of head.now) other ≡ false → IsSame said.old said.new other }
{
    let owner = Owner {
        layer: head.layer,
        family: head.family,
    };
    Def {
        family: head.family,
        layer: head.layer,
        init: taken(&mut said.init, owner),
        next: taken(&mut said.next, owner),
        comb: taken(&mut said.comb, owner),
        place: head.place,
        at: head.at,
    }
}

/// The definitions whose first assignments are these.
pub fn definitions(heads: &[Noted], acts: &[Act], alloc: Global) -> Result<Vec<Def>, AllocError>
    requires apart { AreApart heads.now }
    ensures { IfOk result (λ defs. defs.items ≡ map (def_among (map statement_of acts.now)) (map head_of heads.now)) }
{
    let mut said = said_by(acts, alloc)?;
    let mut defs = Vec::new(alloc);
    for head in heads {
        defs.push(definition(head, &mut said))?;
    }
    Ok(defs)
}
