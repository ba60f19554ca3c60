// What statements say, for one kind of assignment: each statement is gone over once, and gives what it says of all owners.
ghost use Rattle.std.specs.Prelude.{◌≡◌, ◌+◌, ◌++◌, List, IfOk, OnOk, flat_map};
ghost use Rattle.smv_core.specs.declared.flat.DefBody.{DefBody};
ghost use Rattle.law_designs.specs.Definitions.{joined as joined_of, each_value as each_value_of};
ghost use Rattle.smv_design.specs.declared.owners.Owner.{Owner};
ghost use Rattle.smv_design.specs.Parts.{kept, size, sizes};
ghost use Rattle.smv_design.specs.Groups.{parts_for, filled, held};
ghost use Rattle.smv_design.specs.Told.{told, told_from, told_by};

use crate::acts::Act;
use crate::groups::{Sides, add, add_all, merged};
use crate::owners::Owner;
use crate::parts::{Part, assigned, each_value, is_same, keep};
use crate::places::place_after;
use smv_core::flat::{FlatStmt, Simple};
use smv_core::tree::Kind;
use std::alloc::{AllocError, Global};
use std::collections::HashMap;

// The parts of a `default`, by what its statements say: those of the second stand first.
fn default_parts(
    first: HashMap<Owner, Sides>,
    second: HashMap<Owner, Sides>,
    alloc: Global,
) -> Result<Vec<Part>, AllocError>
    ensures { IfOk result (λ parts. (owner : Owner) → parts_for owner parts.items ≡ kept (joined_of (kept (joined_of (held second owner).first) ++ kept (joined_of (held first owner).first)))) }
{
    let first = merged(first, None, alloc)?;
    let second = merged(second, None, alloc)?;
    let mut groups = HashMap::new(alloc);
    add_all(&mut groups, second, false, alloc)?;
    add_all(&mut groups, first, false, alloc)?;
    merged(groups, None, alloc)
}

// The parts of a `forall` over this body.
fn each_part(
    var: u16,
    over: Simple,
    body: Vec<Part>,
    alloc: Global,
) -> Result<Vec<Part>, AllocError>
    ensures { IfOk result (λ parts. (owner : Owner) → parts_for owner parts.items ≡ flat_map (λ p. kept (each_value_of var over p)) (parts_for owner body.items)) }
{
    let mut parts = Vec::new(alloc);
    for part in body {
        let Part { owner, says } = part;
        let says = each_value(var, over, says, alloc)?;
        keep(&mut parts, owner, says)?;
    }
    Ok(parts)
}

/// What a statement of a layer says, whose first assignment has this place, is added to what is said of each owner. Gives the place behind the statement.
#[cycle(parts)]
#[tactic(auto, using(crate::proofs::StatementLaws::parts, crate::proofs::StatementLaws::counts))]
fn add_said(
    groups: &mut HashMap<Owner, Sides>,
    act: &FlatStmt,
    layer: Option<u16>,
    kind: Kind,
    place: u32,
    is_second: bool,
    alloc: Global,
) -> Result<u32, AllocError>
    ensures parts { OnOk result ((owner : Owner) → held groups.new owner ≡ filled (held groups.old owner) is_second (kept (told kind layer owner place act.now))) }
    ensures after { IfOk result (λ after. after ≡ place + size act.now) }
{
    match act {
        FlatStmt::Assign {
            kind: which,
            family,
            left,
            value,
            at,
        } => {
            let after = place_after(place, 1)?;
            if !is_same(*which, kind) {
                return Ok(after);
            }
            let says = assigned(left.as_slice(), value, place, *at, alloc)?;
            let owner = Owner {
                layer,
                family: *family,
            };
            add(groups, Part { owner, says }, is_second, alloc)?;
            Ok(after)
        }
        FlatStmt::If { cond, yes, no } => {
            let mut sides = HashMap::new(alloc);
            let middle = add_branch(&mut sides, yes.get(), layer, kind, place, false, alloc)?;
            let after = add_branch(&mut sides, no.get(), layer, kind, middle, true, alloc)?;
            let parts = merged(sides, Some(cond), alloc)?;
            add_all(groups, parts, is_second, alloc)?;
            Ok(after)
        }
        FlatStmt::Block { parts } => {
            let mut inner = HashMap::new(alloc);
            let after = add_each(
                &mut inner,
                parts.as_slice(),
                layer,
                kind,
                place,
                false,
                alloc,
            )?;
            let parts = merged(inner, None, alloc)?;
            add_all(groups, parts, is_second, alloc)?;
            Ok(after)
        }
        FlatStmt::Default { first, second } => {
            let mut firsts = HashMap::new(alloc);
            let middle = add_branch(&mut firsts, first.get(), layer, kind, place, false, alloc)?;
            let mut seconds = HashMap::new(alloc);
            let after = add_branch(
                &mut seconds,
                second.get(),
                layer,
                kind,
                middle,
                false,
                alloc,
            )?;
            let parts = default_parts(firsts, seconds, alloc)?;
            add_all(groups, parts, is_second, alloc)?;
            Ok(after)
        }
        FlatStmt::Forall { var, over, body } => {
            let mut inner = HashMap::new(alloc);
            let after = add_branch(&mut inner, body.get(), layer, kind, place, false, alloc)?;
            let parts = each_part(*var, *over, merged(inner, None, alloc)?, alloc)?;
            add_all(groups, parts, is_second, alloc)?;
            Ok(after)
        }
    }
}

// The same of a branch, which is alone on its side: the parts of a block stand there one by one, and as one they are what it says.
#[cycle(parts)]
#[tactic(auto, using(crate::proofs::StatementLaws::counts))]
fn add_branch(
    groups: &mut HashMap<Owner, Sides>,
    act: &FlatStmt,
    layer: Option<u16>,
    kind: Kind,
    place: u32,
    is_second: bool,
    alloc: Global,
) -> Result<u32, AllocError>
    ensures parts { OnOk result ((owner : Owner) → (parts : List DefBody) × (held groups.new owner ≡ filled (held groups.old owner) is_second parts) × (joined_of parts ≡ told kind layer owner place act.now)) }
    ensures after { IfOk result (λ after. after ≡ place + size act.now) }
{
    match act {
        FlatStmt::Block { parts } => {
            let parts = parts.as_slice();
            let after = add_each(groups, parts, layer, kind, place, is_second, alloc)?;
            Ok(after)
        }
        _ => {
            let after = add_said(groups, act, layer, kind, place, is_second, alloc)?;
            Ok(after)
        }
    }
}

// The same of each of these statements.
#[cycle(parts)]
fn add_each(
    groups: &mut HashMap<Owner, Sides>,
    acts: &[FlatStmt],
    layer: Option<u16>,
    kind: Kind,
    place: u32,
    is_second: bool,
    alloc: Global,
) -> Result<u32, AllocError>
    ensures parts { OnOk result ((owner : Owner) → held groups.new owner ≡ filled (held groups.old owner) is_second (told_from kind layer owner place acts.now)) }
    ensures after { IfOk result (λ after. after ≡ place + sizes acts.now) }
{
    let mut next = place;
    for act in acts {
        next = add_said(groups, act, layer, kind, next, is_second, alloc)?;
    }
    Ok(next)
}

/// What the statements of a text say, by owner.
pub fn gathered(
    acts: &[Act],
    kind: Kind,
    alloc: Global,
) -> Result<HashMap<Owner, Sides>, AllocError>
    ensures { IfOk result (λ groups. (owner : Owner) → (held groups owner).first ≡ told_by kind owner acts.now) }
{
    let mut groups = HashMap::new(alloc);
    for act in acts {
        add_said(
            &mut groups,
            &act.act,
            act.layer,
            kind,
            act.place,
            false,
            alloc,
        )?;
    }
    Ok(groups)
}
