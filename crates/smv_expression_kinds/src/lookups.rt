// What names lead to.
ghost use Rattle.std.specs.Prelude.{◌≡◌, [], option_map, IfOk};
ghost use Rattle.smv_core.specs.Types.{find_name};
ghost use Rattle.smv_scope.specs.declared.tables.Tables.{Tables as ScopeTables};
ghost use Rattle.smv_mentions.specs.Scopes.{constants, pieces};
ghost use Rattle.smv_scope.specs.Held.{AreTables};
ghost use Rattle.law_designs.specs.Kinds as kinds;
ghost use Rattle.law_designs.specs.Types as types;
ghost use Rattle.law_designs.specs.References as references;
ghost use Rattle.smv_expression_kinds.specs.Forms.{kind_of, form_leads, AreKindTables};
ghost use Rattle.law_designs.specs.Owned.{IsOwned};
ghost use Rattle.smv_expression_kinds.specs.Found.{vars_of, whole_of, scope_of, moved, lone};

use crate::kinds::ValueKind;
use crate::lists::{numbered, numbered_by_first};
use crate::paths::{Whole, behind, form_in, own_in, single};
use crate::tables::{Form, Tables, kind_of_form};
use smv_core::name::Name;
use smv_core::tree::{Part, Top, TypeExpr, Word};
use smv_scope::paths::Inner;
use smv_scope::tables::{Tables as ScopeTables, item_at};
use std::alloc::{AllocError, Global};

/// A variable that is bound, with its kind.
#[derive(Clone, Copy)]
pub struct Var<'a> {
    pub name: &'a Name,
    pub kind: ValueKind<'a>,
}

/// Where something stands: in the top of a number.
#[derive(Clone, Copy)]
pub struct Scope<'a, 't> {
    pub tables: &'t Tables<'a, 't>,
    pub place: usize,
}

// The name of a path that is a name alone.
fn lone_name(parts: &[Part]) -> Option<&Word>
    ensures { option_map (λ word. word.now) result ≡ lone parts.now }
{
    match parts {
        [Part::Field { name }] => Some(name),
        _ => None,
    }
}

// The kind of a variable, the innermost of its name.
#[tactic(auto, unfolding(crate::specs::Found::vars_of))]
fn variable_kind<'a>(vars: &[Var<'a>], name: &Name) -> Option<ValueKind<'a>>
    ensures { (names : ScopeTables) → option_map (kind_of names) result ≡ find_name (vars_of names vars.now) name.now }
{
    for var in vars {
        if *var.name == *name {
            return Some(var.kind);
        }
    }
    None
}

// The kind of a constant, by the list in which it stands first.
fn constant_kind<'a>(name: &Name, names: &ScopeTables<'a, '_>) -> Option<ValueKind<'a>>
    requires { AreTables names.now }
    ensures { option_map (kind_of names.now) result ≡ option_map (λ c. kinds.enumeration c.names) (find_name (constants (pieces names.now.text.now)) name.now) }
{
    match names.constants.find(name) {
        None => None,
        Some(constant) => Some(ValueKind::Listed {
            list: constant.list,
        }),
    }
}

// What a path leads to, where it is a variable.
fn variable_reference<'a>(parts: &[Part], vars: &[Var<'a>], alloc: Global) -> Option<Whole<'a>>
    ensures { (names : ScopeTables) (from : references.Scope) → option_map (whole_of names) result ≡ references.variable_at from (vars_of names vars.now) parts.now }
{
    match lone_name(parts) {
        None => None,
        Some(word) => match variable_kind(vars, &word.name) {
            None => None,
            Some(kind) => Some(single(Vec::new(alloc), kind)),
        },
    }
}

// What a path leads to, where it is a constant.
fn constant_reference<'a>(parts: &[Part], scope: &Scope<'a, '_>, alloc: Global) -> Option<Whole<'a>>
    requires { AreKindTables scope.now.tables.now }
    ensures { option_map (whole_of scope.now.tables.now.names) result ≡ references.constant_at (scope_of scope.now) parts.now }
{
    match lone_name(parts) {
        None => None,
        Some(word) => match constant_kind(&word.name, &scope.tables.names) {
            None => None,
            Some(kind) => Some(single(Vec::new(alloc), kind)),
        },
    }
}

// What a path leads to from its module on.
fn found_signal<'a>(
    parts: &'a [Part],
    scope: &Scope<'a, '_>,
    alloc: Global,
) -> Result<Option<Whole<'a>>, AllocError>
    requires { AreKindTables scope.now.tables.now }
    ensures { IfOk result (λ whole. option_map (whole_of scope.now.tables.now.names) whole ≡ references.signal_at (scope_of scope.now) parts.now) }
{
    match parts {
        [] => Ok(None),
        [part, more @ ..] => match part {
            Part::At { .. } => Ok(None),
            Part::Field { name } => match own_in(&name.name, scope.tables, scope.place) {
                None => Ok(None),
                Some(own) => behind(
                    more,
                    scope.tables,
                    Inner {
                        place: scope.place,
                        own,
                    },
                    alloc,
                ),
            },
        },
    }
}

// The same reference, by the number of its value's list.
fn numbered_whole<'a>(names: &ScopeTables<'a, '_>, whole: Whole<'a>) -> Whole<'a>
    requires tables { AreTables names.now }
    requires owned { IsOwned (constants (pieces names.now.text.now)) (kind_of names.now whole.value) }
    ensures { whole_of names.now result ≡ whole_of names.now whole.entry }
{
    let Whole { over, value } = whole;
    let value = numbered_by_first(names, value);
    single(over, value)
}

/// What a path leads to from its module on, by the number of its list where it has one.
#[tactic(auto, using(crate::proofs::OwnedLaws::values))]
pub fn signal_reference<'a>(
    parts: &'a [Part],
    scope: &Scope<'a, '_>,
    alloc: Global,
) -> Result<Option<Whole<'a>>, AllocError>
    requires { AreKindTables scope.now.tables.now }
    ensures { IfOk result (λ whole. option_map (whole_of scope.now.tables.now.names) whole ≡ references.signal_at (scope_of scope.now) parts.now) }
{
    match found_signal(parts, scope, alloc)? {
        None => Ok(None),
        Some(whole) => {
            let whole = numbered_whole(&scope.tables.names, whole);
            Ok(Some(whole))
        }
    }
}

/// What a path leads to.
pub fn whole_reference<'a>(
    parts: &'a [Part],
    scope: &Scope<'a, '_>,
    vars: &[Var<'a>],
    alloc: Global,
) -> Result<Option<Whole<'a>>, AllocError>
    requires { AreKindTables scope.now.tables.now }
    ensures { IfOk result (λ whole. option_map (whole_of scope.now.tables.now.names) whole ≡ references.reference_at (scope_of scope.now) (vars_of scope.now.tables.now.names vars.now) parts.now) }
{
    match variable_reference(parts, vars, alloc) {
        Some(whole) => Ok(Some(whole)),
        None => match signal_reference(parts, scope, alloc)? {
            Some(whole) => Ok(Some(whole)),
            None => Ok(constant_reference(parts, scope, alloc)),
        },
    }
}

// The kind of a form without indexes and fields.
fn alone<'a>(form: Form<'a>) -> Option<ValueKind<'a>>
    ensures { (names : ScopeTables) → option_map (kind_of names) result ≡ option_map (λ (w : types.Whole). w.value) (form_leads names form.entry []) }
{
    match form {
        Form::Single { kind } => Some(kind),
        Form::Array { .. } => None,
        Form::Struct { .. } => None,
        Form::Nothing => None,
    }
}

/// The kind of a type of single values.
#[tactic(auto, using(crate::proofs::ScopeLaws::here))]
pub fn single_kind<'a>(of: &'a TypeExpr, scope: &Scope<'a, '_>) -> Option<ValueKind<'a>>
    requires { AreKindTables scope.now.tables.now }
    ensures { option_map (kind_of scope.now.tables.now.names) result ≡ option_map (λ (w : types.Whole). w.value) (types.leads (scope_of scope.now).here.types of.now []) }
{
    match alone(form_in(of, scope.tables, scope.place)) {
        None => None,
        Some(kind) => Some(numbered(&scope.tables.names, kind)),
    }
}

/// The kind of an index of a type whose first constant belongs to no other list, by the number of that list. It takes one step.
#[tactic(auto, using(crate::proofs::ScopeLaws::here))]
pub fn kind_by_first<'a>(of: &'a TypeExpr, scope: &Scope<'a, '_>) -> ValueKind<'a>
    requires tables { AreKindTables scope.now.tables.now }
    requires owned { IsOwned (constants (pieces scope.now.tables.now.names.text.now)) (types.index_kind (scope_of scope.now).here.types of.now) }
    ensures { kind_of scope.now.tables.now.names result ≡ types.index_kind (scope_of scope.now).here.types of.now }
{
    let kind = kind_of_form(form_in(of, scope.tables, scope.place));
    numbered_by_first(&scope.tables.names, kind)
}

/// The number of the top of the module of a name.
pub fn module_named(name: &Name, scope: &Scope) -> Option<usize>
    requires { AreKindTables scope.now.tables.now }
    ensures { option_map (λ place. (scope_of (moved scope.now place)).here) result ≡ find_name (scope_of scope.now).modules name.now }
{
    scope.tables.modules.find(name).copied()
}

/// The formals of a module.
pub fn formals_of<'a>(scope: &Scope<'a, '_>) -> &'a [Word]
    requires { AreKindTables scope.now.tables.now }
    ensures { result.now ≡ (scope_of scope.now).here.formals }
{
    let tables = scope.tables;
    match item_at(tables.names.text.tops.as_slice(), scope.place) {
        Some(Top::Module { formals, .. }) => formals.as_slice(),
        Some(Top::SetType { .. }) => &[],
        Some(Top::Alias { .. }) => &[],
        None => &[],
    }
}
