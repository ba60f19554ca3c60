// What is met in modules and in the modules of their instances: families, instances and statements.
ghost use Rattle.std.specs.Prelude.{◌≡◌, ℕ, ◌+◌, ◌*◌, [], ◌∷◌, ◌++◌, List, map, flat_map, length, sum, OnOk, IfOk};
ghost use Rattle.smv_core.specs.Values.{Name};
ghost use Rattle.smv_core.specs.FlatOrder.{Body};
ghost use Rattle.smv_core.specs.FlatOrder as flat;
ghost use Rattle.smv_core.specs.declared.tree.Word.{Word};
ghost use Rattle.smv_mentions.specs.Sizes.{Extent, Sized, Thing, family, instance, things_of_item, statements_of_item};
ghost use Rattle.smv_size.specs.Limits.{capped};
ghost use Rattle.smv_size.specs.Summary.{families_told, types_told, things_told, module_bodies, body_of, empty_told, body_told, AreToldOf};
ghost use Rattle.smv_size.specs.Summary as spec;

use crate::statements::{in_all, plus, statements, times};
use crate::types::{Families, TypeSize, families_of, is_wide, repeated};
use name_index::NameIndex;
use name_index::map::NameMap;
use smv_core::name::Name;
use smv_core::tree::{Item, Top, Word};
use std::alloc::{AllocError, Global};

// One more than the families and instances that a text may have, and than its statements.
const MOST_THINGS: usize = 4097;

const MOST_STATEMENTS: u64 = 65_537;

/// Families and instances: how many, up to one more than their limit, and whether one is too wide.
#[derive(Clone, Copy, PartialEq, Eq)]
pub struct Things {
    pub count: usize,
    pub wide: bool,
}

/// A module: its formals, and what is met in it, each number up to one more than its limit.
#[derive(Clone, Copy, PartialEq, Eq)]
pub struct ModuleSize {
    pub formals: u64,
    pub things: Things,
    pub statements: u64,
}

/// A module as it stands in the text: its formals and its items.
#[derive(Clone, Copy)]
pub struct ModuleText<'a> {
    pub formals: &'a [Word],
    pub items: &'a [Item],
}

/// The names of the modules.
pub fn module_names<'a>(alloc: Global, tops: &'a [Top]) -> Result<NameIndex<'a>, AllocError>
    ensures { IfOk result (λ names. names ≡ spec.module_names (flat.modules tops.now)) }
{
    let mut names = NameIndex::new(alloc);
    for top in tops {
        note_name(&mut names, top)?;
    }
    Ok(names)
}

// The name of a module more, if this is one.
fn note_name<'a>(names: &mut NameIndex<'a>, top: &'a Top) -> Result<(), AllocError>
    ensures { OnOk result (names.new ≡ names.old ++ spec.module_names (flat.modules (top.now ∷ []))) }
{
    match top {
        Top::SetType { .. } => Ok(()),
        Top::Alias { .. } => Ok(()),
        Top::Module { name, .. } => names.push(&name.name),
    }
}

/// The modules, in their order.
pub fn module_texts<'a>(alloc: Global, tops: &'a [Top]) -> Result<Vec<ModuleText<'a>>, AllocError>
    ensures { IfOk result (λ modules. map body_of modules.items ≡ module_bodies (flat.modules tops.now)) }
{
    let mut modules = Vec::new(alloc);
    for top in tops {
        note_text(&mut modules, top)?;
    }
    Ok(modules)
}

// A module more, if this is one.
fn note_text<'a>(modules: &mut Vec<ModuleText<'a>>, top: &'a Top) -> Result<(), AllocError>
    ensures { OnOk result (map body_of modules.new.items ≡ map body_of modules.old.items ++ module_bodies (flat.modules (top.now ∷ []))) }
{
    match top {
        Top::SetType { .. } => Ok(()),
        Top::Alias { .. } => Ok(()),
        Top::Module { formals, body, .. } => {
            modules.push(ModuleText {
                formals: formals.as_slice(),
                items: body.as_slice(),
            })?;
            Ok(())
        }
    }
}

/// The modules, with nothing in them.
pub(crate) fn empty_sizes(
    alloc: Global,
    modules: &[ModuleText],
) -> Result<Vec<ModuleSize>, AllocError>
    ensures { IfOk result (λ sizes. sizes.items ≡ map empty_told (map body_of modules.now)) }
{
    let mut sizes = Vec::new(alloc);
    for text in modules {
        sizes.push(ModuleSize {
            formals: number_of(text.formals.len()),
            things: nothing(),
            statements: 0,
        })?;
    }
    Ok(sizes)
}

/// The modules, where instances are followed one module further.
pub(crate) fn next_sizes(
    alloc: Global,
    modules: &[ModuleText],
    types: &NameMap<TypeSize>,
    names: &NameIndex,
    sizes: &[ModuleSize],
) -> Result<Vec<ModuleSize>, AllocError>
    ensures { IfOk result (λ next. (known : List (Name × Sized)) (bodies : List (Name × Body)) (things : Name → List Thing) (counts : Name → ℕ) → types.now ≡ types_told known → AreToldOf known bodies things counts names.now sizes.now → next.items ≡ map (body_told known bodies things counts) (map body_of modules.now)) }
{
    let mut next = Vec::new(alloc);
    for text in modules {
        next.push(body_size(text, types, names, sizes))?;
    }
    Ok(next)
}

/// A module, by its formals and its body.
pub(crate) fn body_size(
    text: &ModuleText,
    types: &NameMap<TypeSize>,
    names: &NameIndex,
    sizes: &[ModuleSize],
) -> ModuleSize
    ensures { (known : List (Name × Sized)) (bodies : List (Name × Body)) (things : Name → List Thing) (counts : Name → ℕ) → types.now ≡ types_told known → AreToldOf known bodies things counts names.now sizes.now → result ≡ body_told known bodies things counts (body_of text.now) }
{
    ModuleSize {
        formals: number_of(text.formals.len()),
        things: things_of_items(text.items, types, names, sizes),
        statements: statements_of_items(text.items, names, sizes),
    }
}

// The families and instances of some items.
fn things_of_items(
    items: &[Item],
    types: &NameMap<TypeSize>,
    names: &NameIndex,
    sizes: &[ModuleSize],
) -> Things
    ensures { (known : List (Name × Sized)) (bodies : List (Name × Body)) (things : Name → List Thing) (counts : Name → ℕ) → types.now ≡ types_told known → AreToldOf known bodies things counts names.now sizes.now → result ≡ things_told (flat_map (things_of_item known bodies things) items.now) }
{
    let mut all = nothing();
    for item in items {
        all = both(all, things_of(item, types, names, sizes));
    }
    all
}

// The families and instances of an item.
fn things_of(x: &Item, types: &NameMap<TypeSize>, names: &NameIndex, sizes: &[ModuleSize]) -> Things
    ensures { (known : List (Name × Sized)) (bodies : List (Name × Body)) (things : Name → List Thing) (counts : Name → ℕ) → types.now ≡ types_told known → AreToldOf known bodies things counts names.now sizes.now → result ≡ things_told (things_of_item known bodies things x.now) }
{
    match x {
        Item::Declare {
            names: words,
            of,
            ..
        } => families(repeated(words.len(), families_of(of, types))),
        Item::Instance {
            names: words,
            module,
            ..
        } => instances(words.len(), size_named(names, sizes, &module.name).things),
        _ => nothing(),
    }
}

fn nothing() -> Things
    ensures { result ≡ things_told [] }
{
    Things {
        count: 0,
        wide: false,
    }
}

fn both(a: Things, b: Things) -> Things
    ensures { (xs : List Thing) (ys : List Thing) → a ≡ things_told xs → b ≡ things_told ys → result ≡ things_told (xs ++ ys) }
{
    Things {
        count: a.count.saturating_add(b.count).min(MOST_THINGS),
        wide: a.wide || b.wide,
    }
}

fn families(of: Families) -> Things
    ensures { (xs : List Extent) → of ≡ families_told xs → result ≡ things_told (map family xs) }
{
    Things {
        count: of.count,
        wide: is_wide(of),
    }
}

// Instances of a module, each with what is met in it.
fn instances(times: usize, inside: Things) -> Things
    ensures { (words : List Word) (xs : List Thing) → times ≡ length words → inside ≡ things_told xs → result ≡ things_told (flat_map (λ word. instance ∷ xs) words) }
{
    Things {
        count: inside
            .count
            .saturating_add(1)
            .saturating_mul(times)
            .min(MOST_THINGS),
        wide: times != 0 && inside.wide,
    }
}

/// What is known of the module of a name.
pub(crate) fn size_named(names: &NameIndex, sizes: &[ModuleSize], name: &Name) -> ModuleSize
    ensures { result ≡ spec.size_named names.now sizes.now name.now }
{
    match names.find(name) {
        None => no_module(),
        Some(place) => match sizes.get(place) {
            None => no_module(),
            Some(size) => *size,
        },
    }
}

fn no_module() -> ModuleSize
    ensures { result ≡ spec.no_module }
{
    ModuleSize {
        formals: 0,
        things: nothing(),
        statements: 0,
    }
}

// A number, up to one more than the statements that a text may have.
fn number_of(n: usize) -> u64
    ensures { result ≡ capped n }
{
    (n as u64).min(MOST_STATEMENTS)
}

// The statements that are met in an item.
#[cycle(items)]
fn statements_of(x: &Item, names: &NameIndex, sizes: &[ModuleSize]) -> u64
    ensures { (known : List (Name × Sized)) (bodies : List (Name × Body)) (things : Name → List Thing) (counts : Name → ℕ) → AreToldOf known bodies things counts names.now sizes.now → result ≡ capped (statements_of_item known bodies counts x.now) }
{
    match x {
        Item::Declare { .. } => 0,
        Item::Instance {
            names: words,
            module,
            ..
        } => connected(words.len(), size_named(names, sizes, &module.name)),
        Item::Layer { body, .. } => plus(1, in_all(body.as_slice())),
        Item::Forall { body, .. } => plus(1, statements_of(body.get(), names, sizes)),
        Item::Block { items } => plus(1, statements_of_items(items.as_slice(), names, sizes)),
        Item::Claim { .. } => 1,
        Item::Split { .. } => 1,
        Item::Using { .. } => 1,
        Item::Act { act } => statements(act),
    }
}

#[cycle(items)]
fn statements_of_items(items: &[Item], names: &NameIndex, sizes: &[ModuleSize]) -> u64
    ensures { (known : List (Name × Sized)) (bodies : List (Name × Body)) (things : Name → List Thing) (counts : Name → ℕ) → AreToldOf known bodies things counts names.now sizes.now → result ≡ capped (sum (map (statements_of_item known bodies counts) items.now)) }
{
    let mut total = 0;
    for item in items {
        total = plus(total, statements_of(item, names, sizes));
    }
    total
}

// The statements of some instances: the connections of each, and what is met in its module.
fn connected(instances: usize, inside: ModuleSize) -> u64
    ensures { (formals : ℕ) (inner : ℕ) → inside.formals ≡ capped formals → inside.statements ≡ capped inner → result ≡ capped (instances * (formals + inner)) }
{
    times(
        number_of(instances),
        plus(inside.formals, inside.statements),
    )
}
