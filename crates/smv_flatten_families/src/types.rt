// What a signal of a type has.
ghost use Rattle.std.specs.Prelude.{◌≡◌, ◌≤◌, ◌<◌, ◌+◌, length, min, slice_get, take, [], IfOk, OnOk, Some};
ghost use Rattle.std.specs.Option.{option_map_or};
ghost use Rattle.smv_core.specs.Types.{types_from};
ghost use Rattle.smv_core.specs.declared.tree.Text.{Text};
ghost use Rattle.smv_flatten_families.specs.Simples.{AreSimples};
ghost use Rattle.smv_flatten_families.specs.Types.{AreTypes, AreTypesSoFar, alone, form_leaves, leaves, named_leaves, top_leaves, typed, types_of};

use crate::simples::{Simples, list_simple, range_simple, set_simple};
use name_index::NameIndex;
use smv_core::flat::Simple;
use smv_core::name::Name;
use smv_core::tree::{Field, Top, TypeExpr};
use std::alloc::AllocError;

/// What a signal of a type has.
#[derive(Clone, Copy)]
pub enum Form<'a> {
    /// One value.
    Single {
        of: Simple,
    },
    /// For each index, what a signal of a type has that is written behind so many types; without an index that is a type of one value, nothing.
    Array {
        index: Option<Simple>,
        of: &'a TypeExpr,
        place: usize,
    },
    /// Fields, whose types are written behind so many types.
    Struct {
        fields: &'a [Field],
        place: usize,
    },
    /// Nothing.
    Nothing,
}

/// A type's name, and what a signal of it has.
#[derive(Clone, Copy)]
pub struct Typed<'a> {
    pub name: &'a Name,
    pub form: Form<'a>,
}

/// The types of a text, in the order of their tops.
#[derive(Drop)]
pub struct Types<'a> {
    pub simples: Simples<'a>,
    pub names: NameIndex<'a>,
    pub forms: Vec<Form<'a>>,
}

// The form of a number, if there is one.
fn form_at<'a>(forms: &[Form<'a>], place: usize) -> Option<Form<'a>>
    ensures { result ≡ slice_get forms.now place }
{
    forms.get(place).copied()
}

// What a signal has of the type of a name, among so many types.
fn form_named<'a>(types: &Types<'a>, name: &Name, place: usize) -> Option<Form<'a>>
    requires types { AreTypesSoFar types.now }
    requires enough { min place (length (types_of types.now.simples.text.now)) ≤ length types.now.forms.items }
    ensures { named_leaves types.now.simples.text.now place name.now ≡ option_map_or (form_leaves types.now.simples.text.now) result [] }
{
    match types.names.find(name) {
        Some(found) => {
            if found < place {
                form_at(types.forms.as_slice(), found)
            } else {
                None
            }
        }
        None => None,
    }
}

// The type of one value, where a signal has no more.
#[tactic(auto, using(crate::proofs::LeafLaws::lone))]
fn single(form: Form) -> Option<Simple>
    ensures { (text : Text) → alone (form_leaves text form.entry) ≡ result }
{
    match form {
        Form::Single { of } => Some(of),
        Form::Array { .. } => None,
        Form::Struct { .. } => None,
        Form::Nothing => None,
    }
}

/// The type of one value that a type is which is written behind so many types.
#[tactic(auto, using(crate::proofs::LeafLaws::equations))]
pub(crate) fn simple_type(
    types: &Types,
    of: &TypeExpr,
    place: usize,
) -> Result<Option<Simple>, AllocError>
    requires types { AreTypesSoFar types.now }
    requires enough { min place (length (types_of types.now.simples.text.now)) ≤ length types.now.forms.items }
    ensures { IfOk result (λ t. t ≡ alone (leaves types.now.simples.text.now place of.now)) }
{
    match of {
        TypeExpr::Boolean => Ok(Some(Simple::Range { low: 0, high: 1 })),
        TypeExpr::Range { span, .. } => Ok(Some(range_simple(*span)?)),
        TypeExpr::Enum { names, .. } => Ok(Some(list_simple(&types.simples, names.as_slice())?)),
        TypeExpr::Named { name, .. } => match form_named(types, &name.name, place) {
            Some(form) => Ok(single(form)),
            None => Ok(None),
        },
        TypeExpr::Array { .. } => Ok(None),
        TypeExpr::Struct { .. } => Ok(None),
    }
}

/// What a signal has of a type that is written behind so many types.
#[tactic(auto, using(crate::proofs::LeafLaws::equations))]
pub fn form_of<'a>(
    types: &Types<'a>,
    of: &'a TypeExpr,
    place: usize,
) -> Result<Form<'a>, AllocError>
    requires types { AreTypesSoFar types.now }
    requires enough { min place (length (types_of types.now.simples.text.now)) ≤ length types.now.forms.items }
    ensures { IfOk result (λ form. leaves types.now.simples.text.now place of.now ≡ form_leaves types.now.simples.text.now form) }
{
    match of {
        TypeExpr::Boolean => Ok(Form::Single {
            of: Simple::Range { low: 0, high: 1 },
        }),
        TypeExpr::Range { span, .. } => Ok(Form::Single {
            of: range_simple(*span)?,
        }),
        TypeExpr::Enum { names, .. } => Ok(Form::Single {
            of: list_simple(&types.simples, names.as_slice())?,
        }),
        TypeExpr::Named { name, .. } => match form_named(types, &name.name, place) {
            Some(form) => Ok(form),
            None => Ok(Form::Nothing),
        },
        TypeExpr::Array { index, of } => Ok(Form::Array {
            index: simple_type(types, index.get(), place)?,
            of: of.get(),
            place,
        }),
        TypeExpr::Struct { fields } => Ok(Form::Struct {
            fields: fields.as_slice(),
            place,
        }),
    }
}

// The type that a top is, if it is one, where the tops before it have theirs.
#[tactic(auto, using(crate::proofs::TopLaws::tops))]
fn type_of_top<'a>(types: &Types<'a>, top: &'a Top) -> Result<Option<Typed<'a>>, AllocError>
    requires { AreTypesSoFar types.now }
    ensures { IfOk result (λ found. typed types.now.simples.text.now found ≡ top_leaves types.now.simples.text.now (length types.now.forms.items) top.now) }
{
    match top {
        Top::SetType { name, .. } => Ok(Some(Typed {
            name: &name.name,
            form: Form::Single {
                of: set_simple(&types.simples, &name.name)?,
            },
        })),
        Top::Alias { name, of, .. } => Ok(Some(Typed {
            name: &name.name,
            form: form_of(types, of, types.forms.len())?,
        })),
        Top::Module { .. } => Ok(None),
    }
}

// One type more, where the next top is one.
fn add_type<'a>(types: &mut Types<'a>, place: usize) -> Result<(), AllocError>
    requires types { AreTypesSoFar types.old }
    requires here { length types.old.forms.items ≡ length (types_from [] (take place types.old.simples.text.now.tops)) }
    requires within { place < length types.old.simples.text.now.tops }
    ensures types { OnOk result (AreTypesSoFar types.new) }
    ensures here { OnOk result (length types.new.forms.items ≡ length (types_from [] (take (place + 1) types.old.simples.text.now.tops))) }
    ensures text { OnOk result (types.new.simples.text.now ≡ types.old.simples.text.now) }
{
    let text = types.simples.text;
    let top = &text.tops.as_slice()[place];
    match type_of_top(types, top)? {
        Some(found) => {
            types.names.push(found.name)?;
            types.forms.push(found.form)?;
            Ok(())
        }
        None => Ok(()),
    }
}

/// The types of a text whose set types and enumerations have their numbers.
pub(crate) fn types_with<'a>(simples: Simples<'a>) -> Result<Types<'a>, AllocError>
    requires { AreSimples simples }
    ensures types { IfOk result (λ types. AreTypes types) }
    ensures text { IfOk result (λ types. types.simples.text.now ≡ simples.entry.text.now) }
{
    let alloc = simples.alloc;
    let count = simples.text.tops.len();
    let mut types = Types {
        simples,
        names: NameIndex::new(alloc),
        forms: Vec::new(alloc),
    };
    for place in 0..count {
        add_type(&mut types, place)?;
    }
    Ok(types)
}
