// The families of types, by their number and the greatest of their sizes.
ghost use Rattle.std.specs.Prelude.{◌≡◌, ℕ, ◌+◌, ◌*◌, min, [], ◌++◌, List, map, flat_map, length, if◌then◌else◌, ◌==◌, OnOk, IfOk};
ghost use Rattle.std.specs.List.{list_any};
ghost use Rattle.smv_core.specs.Values.{Name};
ghost use Rattle.smv_core.specs.declared.tree.Field.{out-Field};
ghost use Rattle.smv_core.specs.declared.tree.Word.{Word};
ghost use Rattle.smv_mentions.specs.Sizes.{Extent, Sized, one_value, family, is_too_wide, extents_of, sized_from, sized_after};
ghost use Rattle.smv_mentions.specs.Sizes as sizes;
ghost use Rattle.smv_size.specs.Summary.{families_told, type_told, types_told, size_or_one};

use name_index::map::NameMap;
use smv_core::name::Name;
use smv_core::tree::{Field, Top, TypeExpr};
use std::alloc::{AllocError, Global};

// One more than the families and instances that a text may have, the index types of a family, and the values of its range indexes together.
const MOST_THINGS: usize = 4097;

const MOST_INDEXES: usize = 5;

const MOST_VALUES: usize = 257;

/// Some families: how many, and the most index types and the greatest product of one of them; each number up to one more than its limit.
#[derive(Clone, Copy)]
pub struct Families {
    pub count: usize,
    pub indexes: usize,
    pub product: usize,
}

/// A type that is named: its families, and its size where it is a range.
#[derive(Clone, Copy)]
pub struct TypeSize {
    pub families: Families,
    pub size: Option<usize>,
}

/// The types of a text.
pub fn type_sizes<'a>(alloc: Global, tops: &'a [Top]) -> Result<NameMap<'a, TypeSize>, AllocError>
    ensures { IfOk result (λ types. types ≡ types_told (sized_from [] tops.now)) }
{
    let mut types = NameMap::new(alloc);
    for top in tops {
        note_type(&mut types, top)?;
    }
    Ok(types)
}

// A type more, if this is one.
fn note_type<'a>(types: &mut NameMap<'a, TypeSize>, top: &'a Top) -> Result<(), AllocError>
    ensures { OnOk result ((known : List (Name × Sized)) → types.old ≡ types_told known → types.new ≡ types_told (sized_after known top.now)) }
{
    match top {
        Top::SetType { name, .. } => {
            let size = TypeSize {
                families: one_family(),
                size: None,
            };
            types.push(&name.name, size)
        }
        Top::Alias { name, of, .. } => {
            let size = type_size(types, of);
            types.push(&name.name, size)
        }
        Top::Module { .. } => Ok(()),
    }
}

fn type_size(types: &NameMap<TypeSize>, x: &TypeExpr) -> TypeSize
    ensures { (known : List (Name × Sized)) → types.now ≡ types_told known → result ≡ type_told (record { families = extents_of known x.now; size = sizes.size_of known x.now }) }
{
    TypeSize {
        families: families_of(x, types),
        size: size_of(types, x),
    }
}

/// The families that a signal of a type has.
#[cycle(families)]
pub fn families_of(x: &TypeExpr, types: &NameMap<TypeSize>) -> Families
    ensures { (known : List (Name × Sized)) → types.now ≡ types_told known → result ≡ families_told (extents_of known x.now) }
{
    match x {
        TypeExpr::Boolean => one_family(),
        TypeExpr::Range { .. } => one_family(),
        TypeExpr::Enum { .. } => one_family(),
        TypeExpr::Named { name, .. } => named(types, &name.name).families,
        TypeExpr::Array { index, of } => {
            under(size_of(types, index.get()), families_of(of.get(), types))
        }
        TypeExpr::Struct { fields } => families_of_fields(fields.as_slice(), types),
    }
}

#[cycle(families)]
fn families_of_fields(fields: &[Field], types: &NameMap<TypeSize>) -> Families
    ensures { (known : List (Name × Sized)) → types.now ≡ types_told known → result ≡ families_told (flat_map (λ field. flat_map (λ word. extents_of known (out-Field field).of) (out-Field field).names) fields.now) }
{
    let mut all = no_family();
    for field in fields {
        all = both(
            all,
            repeated(field.names.len(), families_of(&field.of, types)),
        );
    }
    all
}

// How many values an index type has, where it is a range.
fn size_of(types: &NameMap<TypeSize>, x: &TypeExpr) -> Option<usize>
    ensures { (known : List (Name × Sized)) → types.now ≡ types_told known → result ≡ sizes.size_of known x.now }
{
    match x {
        TypeExpr::Boolean => Some(2),
        TypeExpr::Range { span, .. } => {
            Some((usize::from(span.high) + 1).saturating_sub(usize::from(span.low)))
        }
        TypeExpr::Named { name, .. } => named(types, &name.name).size,
        _ => None,
    }
}

// What a type name stands for; one that is not declared has no family.
fn named(types: &NameMap<TypeSize>, name: &Name) -> TypeSize
    ensures { (known : List (Name × Sized)) → types.now ≡ types_told known → result ≡ type_told (sizes.sized known name.now) }
{
    match types.find(name) {
        Some(size) => *size,
        None => TypeSize {
            families: no_family(),
            size: None,
        },
    }
}

fn no_family() -> Families
    ensures { result ≡ families_told [] }
{
    Families {
        count: 0,
        indexes: 0,
        product: 0,
    }
}

fn one_family() -> Families
    ensures { result ≡ families_told one_value }
{
    Families {
        count: 1,
        indexes: 0,
        product: 1,
    }
}

fn both(a: Families, b: Families) -> Families
    ensures { (xs : List Extent) (ys : List Extent) → a ≡ families_told xs → b ≡ families_told ys → result ≡ families_told (xs ++ ys) }
{
    Families {
        count: a.count.saturating_add(b.count).min(MOST_THINGS),
        indexes: a.indexes.max(b.indexes),
        product: a.product.max(b.product),
    }
}

/// The same families for each of some names.
pub fn repeated(times: usize, of: Families) -> Families
    ensures { (words : List Word) (xs : List Extent) → times ≡ length words → of ≡ families_told xs → result ≡ families_told (flat_map (λ word. xs) words) }
{
    if times == 0 {
        return no_family();
    }
    Families {
        count: of.count.saturating_mul(times).min(MOST_THINGS),
        indexes: of.indexes,
        product: of.product,
    }
}

// Families under one more index.
fn under(size: Option<usize>, of: Families) -> Families
    ensures { (xs : List Extent) → of ≡ families_told xs → result ≡ families_told (map (sizes.under size) xs) }
{
    Families {
        count: of.count,
        indexes: one_more(of.count, of.indexes),
        product: times_size(size, of.product),
    }
}

// One index type more, where there is a family.
fn one_more(count: usize, indexes: usize) -> usize
    ensures { (n : ℕ) → indexes ≡ min 5 n → result ≡ (if count == 0 then 0 else min 5 (n + 1)) }
{
    if count == 0 {
        0
    } else {
        indexes.saturating_add(1).min(MOST_INDEXES)
    }
}

// The product with the size of one more index type, where that is a range.
fn times_size(size: Option<usize>, product: usize) -> usize
    ensures { (n : ℕ) → product ≡ min 257 n → result ≡ min 257 (size_or_one size * n) }
{
    match size {
        None => product,
        Some(size) => size.saturating_mul(product).min(MOST_VALUES),
    }
}

/// Whether one of some families is too wide.
pub fn is_wide(of: Families) -> bool
    ensures { (xs : List Extent) → of ≡ families_told xs → result ≡ list_any is_too_wide (map family xs) }
{
    of.indexes == MOST_INDEXES || of.product == MOST_VALUES
}
