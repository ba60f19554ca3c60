// The tables in which types, modules and names are looked up.
ghost use Rattle.std.specs.Prelude.{◌≡◌, ◌≤◌, ◌<◌, ◌++◌, ◌∷◌, [], List, length, slice_get, min, Some, None, IfOk, OnOk};
ghost use Rattle.smv_core.specs.declared.tree.Part.{Part};
ghost use Rattle.smv_scope.specs.Held.{AreTables};
ghost use Rattle.smv_scope.specs.declared.tables.Tables.{Tables as ScopeTables};
ghost use Rattle.smv_mentions.specs.FirstFault.{first_fault};
ghost use Rattle.law_designs.specs.Types.{leads, value_kind};
ghost use Rattle.smv_mentions.specs.Said.{AreNoted};
ghost use Rattle.smv_expression_kinds.specs.Forms.{kind_of, types_before, type_before, types_in, modules_in, leads_at, form_leads, AreForms, AreKindTables};

use crate::kinds::ValueKind;
use crate::lists::numbered;
use law_designs::enumerations::signals_are_owned;
use name_index::map::NameMap;
use smv_core::name::Name;
use smv_core::tree::{Field, Text, Top, TypeExpr};
use smv_mentions::pieces::Piece;
use smv_scope::build::tables as scope_tables;
use smv_scope::tables::{Tables as ScopeTables, item_at};
use std::alloc::{AllocError, Global};

/// What stands behind a signal of a type.
#[derive(Clone, Copy)]
pub enum Form<'a> {
    /// A single value of this kind.
    Single {
        kind: ValueKind<'a>,
    },
    /// For each index of this kind, what stands behind a type in the top of a number.
    Array {
        index: ValueKind<'a>,
        of: &'a TypeExpr,
        place: usize,
    },
    /// Fields, whose types stand in the top of a number.
    Struct {
        fields: &'a [Field],
        place: usize,
    },
    /// What is no type.
    Nothing,
}

/// A text with what is looked up in it.
#[derive(Drop)]
pub struct Tables<'a, 't> {
    /// The names of modules, and the constants.
    pub names: ScopeTables<'a, 't>,
    /// The number of the top of each type.
    pub types: NameMap<'a, usize>,
    /// The number of the top of each module.
    pub modules: NameMap<'a, usize>,
    /// For each top what stands behind a signal of this type.
    pub forms: Vec<Form<'a>>,
}

// The number of a top, where it is a type.
fn add_type<'a>(
    types: &mut NameMap<'a, usize>,
    top: &'a Top,
    place: usize,
) -> Result<(), AllocError>
    ensures { OnOk result (types.new ≡ types.old ++ types_in place (top.now ∷ [])) }
{
    match top {
        Top::SetType { name, .. } => {
            types.push(&name.name, place)?;
            Ok(())
        }
        Top::Alias { name, .. } => {
            types.push(&name.name, place)?;
            Ok(())
        }
        Top::Module { .. } => Ok(()),
    }
}

// The number of each type.
#[tactic(auto, using(smv_mentions::proofs::Notes::noting, crate::proofs::PlaceLaws::steps))]
fn types_of<'a>(alloc: Global, tops: &'a [Top]) -> Result<NameMap<'a, usize>, AllocError>
    ensures { IfOk result (λ types. types ≡ types_in 0 tops.now) }
{
    let mut types = NameMap::new(alloc);
    for place in 0..tops.len() {
        add_type(&mut types, &tops[place], place)?;
    }
    Ok(types)
}

// The number of a top, where it is a module.
fn add_module<'a>(
    modules: &mut NameMap<'a, usize>,
    top: &'a Top,
    place: usize,
) -> Result<(), AllocError>
    ensures { OnOk result (modules.new ≡ modules.old ++ modules_in place (top.now ∷ [])) }
{
    match top {
        Top::SetType { .. } => Ok(()),
        Top::Alias { .. } => Ok(()),
        Top::Module { name, .. } => {
            modules.push(&name.name, place)?;
            Ok(())
        }
    }
}

// The number of each module.
#[tactic(auto, using(smv_mentions::proofs::Notes::noting, crate::proofs::PlaceLaws::steps))]
fn modules_of<'a>(alloc: Global, tops: &'a [Top]) -> Result<NameMap<'a, usize>, AllocError>
    ensures { IfOk result (λ modules. modules ≡ modules_in 0 tops.now) }
{
    let mut modules = NameMap::new(alloc);
    for place in 0..tops.len() {
        add_module(&mut modules, &tops[place], place)?;
    }
    Ok(modules)
}

// The number of the type of a name that is declared before the top of a number.
fn type_named(types: &NameMap<usize>, place: usize, name: &Name) -> Option<usize>
    ensures { result ≡ type_before types.now place name.now }
{
    match types.find(name) {
        Some(found) => { if *found < place { Some(*found) } else { None } }
        None => None,
    }
}

/// The kind of a single value.
pub(crate) fn kind_of_form<'a>(form: Form<'a>) -> ValueKind<'a>
    ensures { (names : ScopeTables) → kind_of names result ≡ value_kind (form_leads names form.entry []) }
{
    match form {
        Form::Single { kind } => kind,
        Form::Array { .. } => ValueKind::Unknown,
        Form::Struct { .. } => ValueKind::Unknown,
        Form::Nothing => ValueKind::Unknown,
    }
}

// The form of a number, if there is one.
fn form_at<'a>(forms: &[Form<'a>], place: usize) -> Form<'a>
    requires { place < length forms.now }
    ensures { slice_get forms.now place ≡ Some result }
{
    forms[place]
}

/// What stands behind a signal of a type that stands in the top of a number.
pub fn form_of<'a>(
    of: &'a TypeExpr,
    names: &ScopeTables<'a, '_>,
    types: &NameMap<'a, usize>,
    forms: &[Form<'a>],
    place: usize,
) -> Form<'a>
    requires types { types.now ≡ types_in 0 names.now.text.now.tops }
    requires forms { AreForms names.now forms.now }
    requires enough { min place (length names.now.text.now.tops) ≤ length forms.now }
    ensures { (parts : List Part) → leads (types_before names.now.text.now place) of.now parts ≡ form_leads names.now result parts }
{
    match of {
        TypeExpr::Boolean => Form::Single {
            kind: ValueKind::Number,
        },
        TypeExpr::Range { .. } => Form::Single {
            kind: ValueKind::Number,
        },
        TypeExpr::Enum { names: words, .. } => Form::Single {
            kind: ValueKind::Enumeration {
                names: words.as_slice(),
            },
        },
        TypeExpr::Named { name, .. } => match type_named(types, place, &name.name) {
            Some(found) => form_at(forms, found),
            None => Form::Nothing,
        },
        TypeExpr::Array { index, of } => Form::Array {
            index: kind_of_form(form_of(index.get(), names, types, forms, place)),
            of: of.get(),
            place,
        },
        TypeExpr::Struct { fields } => Form::Struct {
            fields: fields.as_slice(),
            place,
        },
    }
}

// What stands behind a signal of the type that the top of a number is, where the tops before it have their forms.
fn form_of_top<'a>(
    names: &ScopeTables<'a, '_>,
    types: &NameMap<'a, usize>,
    forms: &[Form<'a>],
    place: usize,
) -> Form<'a>
    requires types { types.now ≡ types_in 0 names.now.text.now.tops }
    requires forms { AreForms names.now forms.now }
    requires enough { min place (length names.now.text.now.tops) ≤ length forms.now }
    ensures { (parts : List Part) → leads_at names.now.text.now place parts ≡ form_leads names.now result parts }
{
    match item_at(names.text.tops.as_slice(), place) {
        Some(Top::SetType { name, .. }) => Form::Single {
            kind: ValueKind::SetType { name: &name.name },
        },
        Some(Top::Alias { of, .. }) => form_of(of, names, types, forms, place),
        Some(Top::Module { .. }) => Form::Nothing,
        None => Form::Nothing,
    }
}

// The same form, with the number of its list where it has one.
fn numbered_form<'a>(names: &ScopeTables<'a, '_>, form: Form<'a>) -> Form<'a>
    requires { AreTables names.now }
    ensures { (parts : List Part) → form_leads names.now form.entry parts ≡ form_leads names.now result parts }
{
    match form {
        Form::Single { kind } => {
            let kind = numbered(names, kind);
            Form::Single { kind }
        }
        Form::Array { .. } => form,
        Form::Struct { .. } => form,
        Form::Nothing => form,
    }
}

// The same of the type that the top of a number is.
fn numbered_top<'a>(
    names: &ScopeTables<'a, '_>,
    types: &NameMap<'a, usize>,
    forms: &[Form<'a>],
    place: usize,
) -> Form<'a>
    requires names { AreTables names.now }
    requires types { types.now ≡ types_in 0 names.now.text.now.tops }
    requires forms { AreForms names.now forms.now }
    requires enough { min place (length names.now.text.now.tops) ≤ length forms.now }
    ensures { (parts : List Part) → leads_at names.now.text.now place parts ≡ form_leads names.now result parts }
{
    let form = form_of_top(names, types, forms, place);
    numbered_form(names, form)
}

// The form of each top.
fn forms_of<'a>(
    alloc: Global,
    names: &ScopeTables<'a, '_>,
    types: &NameMap<'a, usize>,
) -> Result<Vec<Form<'a>>, AllocError>
    requires names { AreTables names.now }
    requires types { types.now ≡ types_in 0 names.now.text.now.tops }
    ensures forms { IfOk result (λ forms. AreForms names.now forms.items) }
    ensures all { IfOk result (λ forms. length forms.items ≡ length names.now.text.now.tops) }
{
    let mut forms = Vec::new(alloc);
    for place in 0..names.text.tops.len() {
        let form = numbered_top(names, types, forms.as_slice(), place);
        forms.push(form)?;
    }
    Ok(forms)
}

/// The tables of a text without faults of names, whose tops were noted.
#[tactic(auto, using(crate::proofs::OwnedLaws::owned))]
pub fn tables_of<'a, 't>(
    alloc: Global,
    text: &'a Text,
    pieces: &'t [Piece<'a>],
) -> Result<Tables<'a, 't>, AllocError>
    requires noted { AreNoted pieces.now text.now }
    requires named { first_fault text.now ≡ None }
    ensures text { IfOk result (λ tables. tables.names.text.now ≡ text.now) }
    ensures tables { IfOk result (λ tables. AreKindTables tables) }
{
    signals_are_owned();
    let names = scope_tables(alloc, text, pieces)?;
    let types = types_of(alloc, text.tops.as_slice())?;
    let modules = modules_of(alloc, text.tops.as_slice())?;
    let forms = forms_of(alloc, &names, &types)?;
    Ok(Tables {
        names,
        types,
        modules,
        forms,
    })
}
