// What the parts of a path lead to.
ghost use Rattle.std.specs.Prelude.{◌≡◌, ◌∷◌, [], List, map, option_map, option_and_then, slice_get, IfOk};
ghost use Rattle.smv_core.specs.Types.{find_name};
ghost use Rattle.smv_core.specs.declared.tree.Part.{Part, Field, At};
ghost use Rattle.smv_core.specs.declared.tree.Expr.{Expr};
ghost use Rattle.smv_scope.specs.declared.tables.Tables.{Tables as ScopeTables};
ghost use Rattle.smv_core.specs.declared.tree.Word.{Word};
ghost use Rattle.smv_mentions.specs.Mentions.{instance};
ghost use Rattle.smv_scope.specs.Held.{own_of};
ghost use Rattle.law_designs.specs.Types.{Types, leads};
ghost use Rattle.law_designs.specs.References as references;
ghost use Rattle.law_designs.specs.References.{modules_from};
ghost use Rattle.smv_expression_kinds.specs.Forms.{kind_of, form_leads, types_before, module_in, AreKindTables};
ghost use Rattle.smv_expression_kinds.specs.Found.{whole_of, reached_leads, inner_leads, whole_in};

use crate::kinds::ValueKind;
use crate::tables::{Form, Tables, form_of};
use smv_core::name::Name;
use smv_core::tree::{Part, Top, TypeExpr, Word};
use smv_mentions::mentions::What;
use smv_scope::fields::field_named;
use smv_scope::paths::Inner;
use smv_scope::tables::{Own, item_at, own_name};
use std::alloc::{AllocError, Global};

/// A whole reference to a single value: the kinds of its index types, in their order, and of the value.
#[derive(Drop)]
pub struct Whole<'a> {
    pub over: Vec<ValueKind<'a>>,
    pub value: ValueKind<'a>,
}

/// What stands behind some parts of a path, and the kinds of the index types on the way.
#[derive(Drop)]
pub struct Reached<'a> {
    pub over: Vec<ValueKind<'a>>,
    pub form: Form<'a>,
}

/// What stands behind a signal of a type that stands in the top of a number.
pub(crate) fn form_in<'a>(of: &'a TypeExpr, tables: &Tables<'a, '_>, place: usize) -> Form<'a>
    requires { AreKindTables tables.now }
    ensures { (parts : List Part) → leads (types_before tables.now.names.text.now place) of.now parts ≡ form_leads tables.now.names result parts }
{
    form_of(
        of,
        &tables.names,
        &tables.types,
        tables.forms.as_slice(),
        place,
    )
}

/// A single value of this kind.
pub fn single<'a>(over: Vec<ValueKind<'a>>, value: ValueKind<'a>) -> Whole<'a>
    ensures { (names : ScopeTables) → whole_of names result ≡ whole_in (map (kind_of names) over.entry.items) (kind_of names value.entry) }
{
    Whole { over, value }
}

// What a form leads to with nothing behind it.
fn alone<'a>(reached: Reached<'a>) -> Option<Whole<'a>>
    ensures { (names : ScopeTables) → option_map (whole_of names) result ≡ reached_leads names reached.entry [] }
{
    let Reached { over, form } = reached;
    match form {
        Form::Single { kind } => Some(single(over, kind)),
        Form::Array { .. } => None,
        Form::Struct { .. } => None,
        Form::Nothing => None,
    }
}

// Behind a field.
fn behind_field<'a>(
    word: &'a Word,
    tables: &Tables<'a, '_>,
    reached: Reached<'a>,
) -> Option<Reached<'a>>
    requires { AreKindTables tables.now }
    ensures { (parts : List Part) → reached_leads tables.now.names reached.entry (Field word.now ∷ parts) ≡ option_and_then (λ r. reached_leads tables.now.names r parts) result }
{
    let Reached { over, form } = reached;
    match form {
        Form::Struct { fields, place } => match field_named(fields, &word.name) {
            Some(field) => Some(Reached {
                over,
                form: form_in(&field.of, tables, place),
            }),
            None => None,
        },
        Form::Single { .. } => None,
        Form::Array { .. } => None,
        Form::Nothing => None,
    }
}

// Behind an index.
fn behind_index<'a>(
    tables: &Tables<'a, '_>,
    reached: Reached<'a>,
) -> Result<Option<Reached<'a>>, AllocError>
    requires { AreKindTables tables.now }
    ensures { IfOk result (λ found. (e : Expr) (parts : List Part) → reached_leads tables.now.names reached.entry (At e ∷ parts) ≡ option_and_then (λ r. reached_leads tables.now.names r parts) found) }
{
    let Reached { over, form } = reached;
    match form {
        Form::Array { index, of, place } => {
            let mut over = over;
            over.push(index)?;
            Ok(Some(Reached {
                over,
                form: form_in(of, tables, place),
            }))
        }
        Form::Single { .. } => Ok(None),
        Form::Struct { .. } => Ok(None),
        Form::Nothing => Ok(None),
    }
}

// Behind a part of a path.
fn behind_part<'a>(
    part: &'a Part,
    tables: &Tables<'a, '_>,
    reached: Reached<'a>,
) -> Result<Option<Reached<'a>>, AllocError>
    requires { AreKindTables tables.now }
    ensures { IfOk result (λ found. (parts : List Part) → reached_leads tables.now.names reached.entry (part.now ∷ parts) ≡ option_and_then (λ r. reached_leads tables.now.names r parts) found) }
{
    match part {
        Part::Field { name } => Ok(behind_field(name, tables, reached)),
        Part::At { .. } => behind_index(tables, reached),
    }
}

/// Behind all of these parts.
pub fn walk<'a>(
    parts: &'a [Part],
    tables: &Tables<'a, '_>,
    reached: Reached<'a>,
) -> Result<Option<Whole<'a>>, AllocError>
    requires { AreKindTables tables.now }
    ensures { IfOk result (λ whole. option_map (whole_of tables.now.names) whole ≡ reached_leads tables.now.names reached.entry parts.now) }
{
    match parts {
        [] => Ok(alone(reached)),
        [part, more @ ..] => match behind_part(part, tables, reached)? {
            Some(next) => walk(more, tables, next),
            None => Ok(None),
        },
    }
}

/// A name of the module that the top of a number is.
pub fn own_in<'a>(name: &Name, tables: &Tables<'a, '_>, place: usize) -> Option<Own<'a>>
    requires { AreKindTables tables.now }
    ensures { (types : Types) → find_name (module_in types (slice_get tables.now.names.text.now.tops place)).own name.now ≡ option_map own_of result }
{
    match item_at(tables.names.text.tops.as_slice(), place) {
        Some(Top::Module { .. }) => own_name(&tables.names, place, name),
        Some(Top::SetType { .. }) => None,
        Some(Top::Alias { .. }) => None,
        None => None,
    }
}

// A name of the module of a name.
fn inside<'a>(named: &Name, part: &Part, tables: &Tables<'a, '_>) -> Option<Inner<'a>>
    requires { AreKindTables tables.now }
    ensures { (types : Types) (word : Word) (parts : List Part) → word.name ≡ named.now → references.behind (modules_from [] tables.now.names.text.now.tops) types (instance word) (part.now ∷ parts) ≡ option_and_then (λ inner. inner_leads tables.now.names.text.now inner parts) result }
{
    match part {
        Part::At { .. } => None,
        Part::Field { name } => match tables.modules.find(named) {
            None => None,
            Some(place) => match own_in(&name.name, tables, *place) {
                None => None,
                Some(own) => Some(Inner { place: *place, own }),
            },
        },
    }
}

/// Behind a name of a module, where it is a signal or an instance.
pub fn behind<'a>(
    parts: &'a [Part],
    tables: &Tables<'a, '_>,
    inner: Inner<'a>,
    alloc: Global,
) -> Result<Option<Whole<'a>>, AllocError>
    requires { AreKindTables tables.now }
    ensures { IfOk result (λ whole. option_map (whole_of tables.now.names) whole ≡ inner_leads tables.now.names.text.now inner.entry parts.now) }
{
    match inner.own.what {
        What::Goal => Ok(None),
        What::Signal { of, .. } => walk(
            parts,
            tables,
            Reached {
                over: Vec::new(alloc),
                form: form_in(of, tables, inner.place),
            },
        ),
        What::Instance { module } => match parts {
            [] => Ok(None),
            [part, more @ ..] => match inside(&module.name, part, tables) {
                Some(next) => behind(more, tables, next, alloc),
                None => Ok(None),
            },
        },
    }
}
