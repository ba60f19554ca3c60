// The roles of the formals of modules.
ghost use Rattle.std.specs.Prelude.{◌≡◌, ◌++◌, [], map, flat_map, unwrap_or, IfOk, OnOk};
ghost use Rattle.smv_core.specs.Types.{find_name};
ghost use Rattle.smv_core.specs.FlatOrder.{modules, role_of};
ghost use Rattle.smv_flatten.specs.Roles.{roles_declared, roles_beside, module_in};

use name_index::map::NameMap;
use smv_core::name::Name;
use smv_core::seq::Seq;
use smv_core::tree::{Item, Role, Text, Top, Word};
use std::alloc::{AllocError, Global};

// These names in one role.
#[tactic(auto, using(smv_mentions::proofs::Notes::noting))]
fn add_words<'a>(
    declared: &mut NameMap<'a, Role>,
    role: Role,
    words: &'a [Word],
) -> Result<(), AllocError>
    ensures { OnOk result (declared.new ≡ declared.old ++ map (λ word. (word.name, role)) words.now) }
{
    for word in words {
        declared.push(&word.name, role)?;
    }
    Ok(())
}

// The signals that an item declares.
#[tactic(auto, using(smv_mentions::proofs::Notes::noting))]
fn add_item<'a>(declared: &mut NameMap<'a, Role>, item: &'a Item) -> Result<(), AllocError>
    ensures { OnOk result (declared.new ≡ declared.old ++ roles_declared item.now) }
{
    match item {
        Item::Declare { role, names, .. } => add_words(declared, *role, names.as_slice()),
        Item::Instance { .. } => Ok(()),
        Item::Layer { .. } => Ok(()),
        Item::Forall { .. } => Ok(()),
        Item::Block { .. } => Ok(()),
        Item::Claim { .. } => Ok(()),
        Item::Split { .. } => Ok(()),
        Item::Using { .. } => Ok(()),
        Item::Act { .. } => Ok(()),
    }
}

// The signals that items declare, each with its role.
#[tactic(auto, using(smv_mentions::proofs::Notes::noting))]
fn all_declared<'a>(alloc: Global, items: &'a [Item]) -> Result<NameMap<'a, Role>, AllocError>
    ensures { IfOk result (λ declared. declared ≡ flat_map roles_declared items.now) }
{
    let mut declared = NameMap::new(alloc);
    for item in items {
        add_item(&mut declared, item)?;
    }
    Ok(declared)
}

// The role of a name.
fn role_in(declared: &NameMap<'_, Role>, name: &Name) -> Role
    ensures { result ≡ unwrap_or (find_name declared.now name.now) Role.Plain }
{
    match declared.find(name) {
        Some(role) => *role,
        None => Role::Plain,
    }
}

// The roles of the formals of a module.
#[tactic(auto, using(smv_mentions::proofs::Notes::noting, crate::proofs::RoleLaws::roles))]
fn roles_of(alloc: Global, formals: &[Word], items: &[Item]) -> Result<Seq<Role>, AllocError>
    ensures { IfOk result (λ roles. roles ≡ map (λ word. role_of items.now word.name) formals.now) }
{
    let declared = all_declared(alloc, items)?;
    let mut roles = Seq::new(alloc);
    for word in formals {
        roles.push(role_in(&declared, &word.name))?;
    }
    Ok(roles)
}

// The roles of the formals of a top, where it is a module.
#[tactic(auto, using(smv_mentions::proofs::Notes::noting))]
fn add_top<'a>(
    alloc: Global,
    table: &mut NameMap<'a, Seq<Role>>,
    top: &'a Top,
) -> Result<(), AllocError>
    ensures { OnOk result (table.new ≡ table.old ++ map roles_beside (module_in top.now)) }
{
    match top {
        Top::Module {
            name,
            formals,
            body,
            ..
        } => {
            let roles = roles_of(alloc, formals.as_slice(), body.as_slice())?;
            table.push(&name.name, roles)
        }
        Top::SetType { .. } => Ok(()),
        Top::Alias { .. } => Ok(()),
    }
}

/// The roles of the formals of each module of a text.
#[tactic(auto, using(smv_mentions::proofs::Notes::noting, crate::proofs::RoleLaws::tops))]
pub(crate) fn role_table<'a>(
    alloc: Global,
    text: &'a Text,
) -> Result<NameMap<'a, Seq<Role>>, AllocError>
    ensures { IfOk result (λ table. table ≡ map roles_beside (modules text.now.tops)) }
{
    let tops = text.tops.as_slice();
    let mut table = NameMap::new(alloc);
    for top in tops {
        add_top(alloc, &mut table, top)?;
    }
    Ok(table)
}

/// The roles of the formals of the module of a name.
pub(crate) fn roles_named<'t>(table: &'t NameMap<'_, Seq<Role>>, name: &Name) -> &'t [Role]
    ensures { result.now ≡ unwrap_or (find_name table.now name.now) [] }
{
    match table.find(name) {
        Some(roles) => roles.as_slice(),
        None => &[],
    }
}
