// The families of a text, in flat order.
ghost use Rattle.std.specs.Prelude.{◌≡◌, [], ◌∷◌, ◌++◌, map, length, unwrap_or, IfOk, OnOk};
ghost use Rattle.std.specs.List.{flat_map};
ghost use Rattle.smv_core.specs.Types.{find_name};
ghost use Rattle.smv_core.specs.FlatOrder as flat_order;
ghost use Rattle.smv_core.specs.FlatOrder.{is_abstract_role};
ghost use Rattle.smv_flatten_families.specs.Paths.{path_of};
ghost use Rattle.smv_flatten_families.specs.Types.{AreTypes, behind, field_leaves, form_leaves, leaves, types_of, under};
ghost use Rattle.smv_flatten_families.specs.Families.{body_beside, body_now, in_place, instance_places, item_places, no_body, placed_leaf, stem_leaf};

use crate::names::longer;
use crate::numbers::Body;
use crate::types::{Form, Types, form_of};
use name_index::map::NameMap;
use smv_core::flat::Simple;
use smv_core::name::Name;
use smv_core::tree::{Field, Item, Role, TypeExpr, Word};
use std::alloc::{AllocError, Global};

/// A family: the names that lead to it, its types, and the place of the name that declares it.
#[derive(Drop)]
pub struct Placed<'a> {
    pub names: Vec<&'a Name>,
    pub over: Vec<Simple>,
    pub value: Simple,
    pub is_abstract: bool,
    pub at: u32,
}

/// A signal or a part of one: the names that lead to it, the indexes before it, and where it is declared.
#[derive(Clone, Copy)]
pub struct Stem<'a, 'n> {
    pub names: &'n [&'a Name],
    pub over: &'n [Simple],
    pub is_abstract: bool,
    pub at: u32,
}

// ---- a signal

// One value.
#[tactic(auto, using(smv_mentions::proofs::Notes::noting))]
fn add_one<'a>(
    alloc: Global,
    out: &mut Vec<Placed<'a>>,
    stem: Stem<'a, '_>,
    value: Simple,
) -> Result<(), AllocError>
    ensures { OnOk result (map in_place out.new.items ≡ map in_place out.old.items ++ record { path = path_of stem.entry.names.now; over = stem.entry.over.now; value = value; is_abstract = stem.entry.is_abstract; at = stem.entry.at } ∷ []) }
{
    let names = Vec::from_slice(alloc, stem.names)?;
    let over = Vec::from_slice(alloc, stem.over)?;
    out.push(Placed {
        names,
        over,
        value,
        is_abstract: stem.is_abstract,
        at: stem.at,
    })?;
    Ok(())
}

// The indexes, and one more.
fn more_over(alloc: Global, over: &[Simple], t: Simple) -> Result<Vec<Simple>, AllocError>
    ensures { IfOk result (λ more. more.items ≡ over.now ++ t ∷ []) }
{
    let mut more = Vec::from_slice(alloc, over)?;
    more.push(t)?;
    Ok(more)
}

// The families of a signal that has a form. The count falls with each level; no memory holds a type of more levels than it counts.
#[cycle(families)]
#[tactic(auto, using(smv_mentions::proofs::Notes::noting, crate::proofs::StemLaws::stems))]
fn add_form<'a>(
    types: &Types<'a>,
    out: &mut Vec<Placed<'a>>,
    stem: Stem<'a, '_>,
    form: Form<'a>,
    left: usize,
) -> Result<(), AllocError>
    requires { AreTypes types.now }
    ensures { OnOk result (map in_place out.new.items ≡ map in_place out.old.items ++ map (stem_leaf stem.entry) (form_leaves types.now.simples.text.now form.entry)) }
{
    if left == 0 {
        return Err(AllocError);
    }
    match form {
        Form::Single { of } => add_one(types.simples.alloc, out, stem, of),
        Form::Array { index, of, place } => match index {
            Some(t) => add_array(types, out, stem, t, of, place, left - 1),
            None => Ok(()),
        },
        Form::Struct { fields, place } => add_fields(types, out, stem, fields, place, left - 1),
        Form::Nothing => Ok(()),
    }
}

// Those of an array.
#[cycle(families)]
#[tactic(auto, using(smv_mentions::proofs::Notes::noting, crate::proofs::StemLaws::stems))]
fn add_array<'a>(
    types: &Types<'a>,
    out: &mut Vec<Placed<'a>>,
    stem: Stem<'a, '_>,
    index: Simple,
    of: &'a TypeExpr,
    place: usize,
    left: usize,
) -> Result<(), AllocError>
    requires { AreTypes types.now }
    ensures { OnOk result (map in_place out.new.items ≡ map in_place out.old.items ++ map (stem_leaf stem.entry) (map (under index) (leaves types.now.simples.text.now place of.now))) }
{
    let over = more_over(types.simples.alloc, stem.over, index)?;
    let form = form_of(types, of, place)?;
    let inner = Stem {
        names: stem.names,
        over: over.as_slice(),
        is_abstract: stem.is_abstract,
        at: stem.at,
    };
    add_form(types, out, inner, form, left)
}

// Those of fields.
#[cycle(families)]
#[tactic(auto, using(smv_mentions::proofs::Notes::noting, crate::proofs::StemLaws::stems))]
fn add_fields<'a>(
    types: &Types<'a>,
    out: &mut Vec<Placed<'a>>,
    stem: Stem<'a, '_>,
    fields: &'a [Field],
    place: usize,
    left: usize,
) -> Result<(), AllocError>
    requires { AreTypes types.now }
    ensures { OnOk result (map in_place out.new.items ≡ map in_place out.old.items ++ map (stem_leaf stem.entry) (flat_map (field_leaves types.now.simples.text.now place) fields.now)) }
{
    for field in fields {
        add_field(types, out, stem, field, place, left)?;
    }
    Ok(())
}

// Those of fields of one type.
#[cycle(families)]
#[tactic(auto, using(smv_mentions::proofs::Notes::noting, crate::proofs::StemLaws::stems))]
fn add_field<'a>(
    types: &Types<'a>,
    out: &mut Vec<Placed<'a>>,
    stem: Stem<'a, '_>,
    field: &'a Field,
    place: usize,
    left: usize,
) -> Result<(), AllocError>
    requires { AreTypes types.now }
    ensures { OnOk result (map in_place out.new.items ≡ map in_place out.old.items ++ map (stem_leaf stem.entry) (field_leaves types.now.simples.text.now place field.now)) }
{
    let form = form_of(types, &field.of, place)?;
    for word in field.names.as_slice() {
        add_named(types, out, stem, word, form, left)?;
    }
    Ok(())
}

// Those behind one more name.
#[cycle(families)]
#[tactic(auto, using(smv_mentions::proofs::Notes::noting, crate::proofs::StemLaws::stems))]
fn add_named<'a>(
    types: &Types<'a>,
    out: &mut Vec<Placed<'a>>,
    stem: Stem<'a, '_>,
    word: &'a Word,
    form: Form<'a>,
    left: usize,
) -> Result<(), AllocError>
    requires { AreTypes types.now }
    ensures { OnOk result (map in_place out.new.items ≡ map in_place out.old.items ++ map (stem_leaf stem.entry) (map (behind word.now.name) (form_leaves types.now.simples.text.now form.entry))) }
{
    let names = longer(types.simples.alloc, stem.names, &word.name)?;
    let inner = Stem {
        names: names.as_slice(),
        over: stem.over,
        is_abstract: stem.is_abstract,
        at: stem.at,
    };
    add_form(types, out, inner, form, left)
}

// ---- an instance

// Whether a signal is declared abstract.
fn is_abstract(role: Role) -> bool
    ensures { result ≡ is_abstract_role role }
{
    match role {
        Role::Abstract => true,
        Role::Plain => false,
        Role::Input => false,
        Role::Output => false,
    }
}

/// The module of a name, or one without formals and items.
pub fn module_named<'a>(modules: &NameMap<'a, Body<'a>>, name: &Name) -> Body<'a>
    ensures { body_now result ≡ unwrap_or (find_name (map body_beside modules.now) name.now) no_body }
{
    match modules.find(name) {
        Some(body) => *body,
        None => Body {
            formals: &[],
            items: &[],
        },
    }
}

// The families of one declared signal.
#[tactic(auto, using(smv_mentions::proofs::Notes::noting, crate::proofs::StemLaws::stems))]
fn add_signal<'a>(
    types: &Types<'a>,
    out: &mut Vec<Placed<'a>>,
    here: &[&'a Name],
    role: Role,
    word: &'a Word,
    form: Form<'a>,
) -> Result<(), AllocError>
    requires { AreTypes types.now }
    ensures { OnOk result (map in_place out.new.items ≡ map in_place out.old.items ++ map (placed_leaf (path_of here.now ++ word.now.name ∷ []) [] (is_abstract_role role) word.now.at) (form_leaves types.now.simples.text.now form.entry)) }
{
    let names = longer(types.simples.alloc, here, &word.name)?;
    let stem = Stem {
        names: names.as_slice(),
        over: &[],
        is_abstract: is_abstract(role),
        at: word.at,
    };
    add_form(types, out, stem, form, usize::MAX)
}

// The families of declared signals of one type.
#[tactic(auto, using(smv_mentions::proofs::Notes::noting))]
fn add_signals<'a>(
    types: &Types<'a>,
    out: &mut Vec<Placed<'a>>,
    here: &[&'a Name],
    role: Role,
    words: &'a [Word],
    of: &'a TypeExpr,
) -> Result<(), AllocError>
    requires { AreTypes types.now }
    ensures { OnOk result (map in_place out.new.items ≡ map in_place out.old.items ++ flat_map (λ word. map (placed_leaf (path_of here.now ++ word.name ∷ []) [] (is_abstract_role role) word.at) (leaves types.now.simples.text.now (length (types_of types.now.simples.text.now)) of.now)) words.now) }
{
    let form = form_of(types, of, types.forms.len())?;
    for word in words {
        add_signal(types, out, here, role, word, form)?;
    }
    Ok(())
}

/// The families of an instance of a module; no chain of instances inside it is longer than this number.
#[cycle(instances)]
#[tactic(auto, using(smv_mentions::proofs::Notes::noting))]
pub(crate) fn add_instance<'a>(
    types: &Types<'a>,
    modules: &NameMap<'a, Body<'a>>,
    out: &mut Vec<Placed<'a>>,
    here: &[&'a Name],
    name: &Name,
    left: usize,
) -> Result<(), AllocError>
    requires types { AreTypes types.now }
    requires modules { map body_beside modules.now ≡ flat_order.modules types.now.simples.text.now.tops }
    ensures { OnOk result (map in_place out.new.items ≡ map in_place out.old.items ++ instance_places types.now.simples.text.now left (path_of here.now) name.now) }
{
    if left == 0 {
        return Ok(());
    }
    let body = module_named(modules, name);
    for item in body.items {
        add_item(types, modules, out, here, item, left - 1)?;
    }
    Ok(())
}

// The families of an item.
#[cycle(instances)]
#[tactic(auto, using(smv_mentions::proofs::Notes::noting, crate::proofs::ItemLaws::equations))]
fn add_item<'a>(
    types: &Types<'a>,
    modules: &NameMap<'a, Body<'a>>,
    out: &mut Vec<Placed<'a>>,
    here: &[&'a Name],
    item: &'a Item,
    left: usize,
) -> Result<(), AllocError>
    requires types { AreTypes types.now }
    requires modules { map body_beside modules.now ≡ flat_order.modules types.now.simples.text.now.tops }
    ensures { OnOk result (map in_place out.new.items ≡ map in_place out.old.items ++ item_places types.now.simples.text.now left (path_of here.now) item.now) }
{
    match item {
        Item::Declare {
            role,
            names,
            of,
            ..
        } => add_signals(types, out, here, *role, names.as_slice(), of),
        Item::Instance { names, module, .. } => {
            add_instances(types, modules, out, here, names.as_slice(), module, left)
        }
        Item::Layer { .. } => Ok(()),
        Item::Forall { .. } => Ok(()),
        Item::Block { .. } => Ok(()),
        Item::Claim { .. } => Ok(()),
        Item::Split { .. } => Ok(()),
        Item::Using { .. } => Ok(()),
        Item::Act { .. } => Ok(()),
    }
}

// The families of instances of one module.
#[cycle(instances)]
#[tactic(auto, using(smv_mentions::proofs::Notes::noting))]
fn add_instances<'a>(
    types: &Types<'a>,
    modules: &NameMap<'a, Body<'a>>,
    out: &mut Vec<Placed<'a>>,
    here: &[&'a Name],
    words: &'a [Word],
    name: &'a Word,
    left: usize,
) -> Result<(), AllocError>
    requires types { AreTypes types.now }
    requires modules { map body_beside modules.now ≡ flat_order.modules types.now.simples.text.now.tops }
    ensures { OnOk result (map in_place out.new.items ≡ map in_place out.old.items ++ flat_map (λ word. instance_places types.now.simples.text.now left (path_of here.now ++ word.name ∷ []) name.now.name) words.now) }
{
    for word in words {
        add_inner(types, modules, out, here, word, name, left)?;
    }
    Ok(())
}

// The families of one of them.
#[cycle(instances)]
fn add_inner<'a>(
    types: &Types<'a>,
    modules: &NameMap<'a, Body<'a>>,
    out: &mut Vec<Placed<'a>>,
    here: &[&'a Name],
    word: &'a Word,
    name: &'a Word,
    left: usize,
) -> Result<(), AllocError>
    requires types { AreTypes types.now }
    requires modules { map body_beside modules.now ≡ flat_order.modules types.now.simples.text.now.tops }
    ensures { OnOk result (map in_place out.new.items ≡ map in_place out.old.items ++ instance_places types.now.simples.text.now left (path_of here.now ++ word.now.name ∷ []) name.now.name) }
{
    let inner = longer(types.simples.alloc, here, &word.name)?;
    add_instance(types, modules, out, inner.as_slice(), &name.name, left)
}
