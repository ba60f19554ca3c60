// Which names a text declares in a role.
ghost use Rattle.std.specs.Prelude.{◌≡◌, ◌++◌, flat_map, map, IfOk, OnOk};
ghost use Rattle.smv_look_lint.specs.Roles as spec;
ghost use Rattle.smv_look_lint.specs.Roles.{item_names, names_declared, top_names};

use smv_core::tree::{Item, Role, Text, Top, Word};
use std::alloc::{AllocError, Global};

fn same_role(wanted: Role, role: Role) -> bool
    ensures { result ≡ spec.same_role wanted role }
{
    match wanted {
        Role::Plain => matches!(role, Role::Plain),
        Role::Abstract => matches!(role, Role::Abstract),
        Role::Input => matches!(role, Role::Input),
        Role::Output => matches!(role, Role::Output),
    }
}

// Notes the places of some words.
fn push_words(out: &mut Vec<u32>, words: &[Word]) -> Result<(), AllocError>
    ensures { OnOk result (out.new.items ≡ out.old.items ++ map (λ word. word.at) words.now) }
{
    for word in words {
        out.push(word.at)?;
    }
    Ok(())
}

fn push_item(out: &mut Vec<u32>, wanted: Role, item: &Item) -> Result<(), AllocError>
    ensures { OnOk result (out.new.items ≡ out.old.items ++ item_names wanted item.now) }
{
    match item {
        Item::Declare { role, names, .. } => {
            if same_role(wanted, *role) {
                push_words(out, names.as_slice())
            } else {
                Ok(())
            }
        }
        Item::Instance { .. } | Item::Layer { .. } | Item::Forall { .. } => Ok(()),
        Item::Block { .. } | Item::Claim { .. } | Item::Split { .. } => Ok(()),
        Item::Using { .. } | Item::Act { .. } => Ok(()),
    }
}

fn push_items(out: &mut Vec<u32>, wanted: Role, items: &[Item]) -> Result<(), AllocError>
    ensures { OnOk result (out.new.items ≡ out.old.items ++ flat_map (item_names wanted) items.now) }
{
    for item in items {
        push_item(out, wanted, item)?;
    }
    Ok(())
}

fn push_top(out: &mut Vec<u32>, wanted: Role, top: &Top) -> Result<(), AllocError>
    ensures { OnOk result (out.new.items ≡ out.old.items ++ top_names wanted top.now) }
{
    match top {
        Top::Module { body, .. } => push_items(out, wanted, body.as_slice()),
        Top::SetType { .. } | Top::Alias { .. } => Ok(()),
    }
}

/// The places of the names that a text declares in a role.
pub(crate) fn names_declared(
    alloc: Global,
    wanted: Role,
    text: &Text,
) -> Result<Vec<u32>, AllocError>
    ensures { IfOk result (λ names. names.items ≡ names_declared wanted text.now) }
{
    let mut names = Vec::new(alloc);
    for top in text.tops.as_slice() {
        push_top(&mut names, wanted, top)?;
    }
    Ok(names)
}
