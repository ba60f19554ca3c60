// The faults in types, and variables over them.
ghost use Rattle.std.specs.Prelude.{◌≡◌, ◌++◌, ◌∷◌, [], flat_map, is_none, not, IfOk, OnOk};
ghost use Rattle.smv_core.specs.declared.tree.Field.{out-Field};
ghost use Rattle.smv_mentions.specs.NameFaults.{place_if};
ghost use Rattle.smv_mentions.specs.FirstFault.{faults_at};
ghost use Rattle.law_designs.specs.Types as spec;
ghost use Rattle.smv_scope.specs.declared.tables.Tables.{Tables as ScopeTables};
ghost use Rattle.law_designs.specs.Operands as operands;
ghost use Rattle.smv_expression_kinds.specs.Forms.{kind_of, AreKindTables};
ghost use Rattle.smv_expression_kinds.specs.Found.{vars_of, scope_of};

use smv_core::fault::Fault;
use smv_core::tree::{Field, Span, TypeExpr, Word};
use smv_expression_kinds::kinds::{ValueKind, fault_if, is_index};
use smv_expression_kinds::lookups::{Scope, Var, single_kind};
use std::alloc::{AllocError, Global};

/// The kind of an index of this type.
pub fn index_kind<'a>(of: &'a TypeExpr, scope: &Scope<'a, '_>) -> ValueKind<'a>
    requires { AreKindTables scope.now.tables.now }
    ensures { kind_of scope.now.tables.now.names result ≡ spec.index_kind (scope_of scope.now).here.types of.now }
{
    match single_kind(of, scope) {
        Some(kind) => kind,
        None => ValueKind::Unknown,
    }
}

/// One more variable inside these, of this kind.
#[tactic(auto, unfolding(smv_expression_kinds::specs::Found::vars_of))]
pub fn inside<'a>(
    alloc: Global,
    vars: &[Var<'a>],
    var: &'a Word,
    kind: ValueKind<'a>,
) -> Result<Vec<Var<'a>>, AllocError>
    ensures { (names : ScopeTables) → IfOk result (λ inner. vars_of names inner.items ≡ (var.now.name, kind_of names kind.entry) ∷ vars_of names vars.now) }
{
    let mut inner = Vec::new(alloc);
    inner.push(Var {
        name: &var.name,
        kind,
    })?;
    inner.extend_from_slice(vars)?;
    Ok(inner)
}

/// One more variable is bound, over an index type.
pub fn bind<'a>(
    over: &'a TypeExpr,
    var: &'a Word,
    scope: &Scope<'a, '_>,
    vars: &[Var<'a>],
    alloc: Global,
) -> Result<Vec<Var<'a>>, AllocError>
    requires { AreKindTables scope.now.tables.now }
    ensures { IfOk result (λ inner. vars_of scope.now.tables.now.names inner.items ≡ operands.bind (scope_of scope.now) (vars_of scope.now.tables.now.names vars.now) var.now over.now) }
{
    let kind = index_kind(over, scope);
    inside(alloc, vars, var, kind)
}

/// Fault 13 at a range in a type that is reversed or goes past 255.
fn range_faults(out: &mut Vec<Fault>, span: Span, at: u32) -> Result<(), AllocError>
    ensures { OnOk result (out.new.items ≡ out.old.items ++ spec.range_faults span at) }
{
    fault_if(out, span.high < span.low || 255 < span.high, 13, at)
}

/// The faults in the declared size of a set type.
pub fn size_faults(out: &mut Vec<Fault>, span: Option<Span>, at: u32) -> Result<(), AllocError>
    ensures { OnOk result (out.new.items ≡ out.old.items ++ spec.size_faults span at) }
{
    match span {
        None => Ok(()),
        Some(span) => range_faults(out, span, at),
    }
}

/// The faults in an index type.
#[tactic(auto, unfolding(law_designs::specs::Types::index_faults))]
pub fn index_faults<'a>(
    over: &'a TypeExpr,
    scope: &Scope<'a, '_>,
    out: &mut Vec<Fault>,
) -> Result<(), AllocError>
    requires { AreKindTables scope.now.tables.now }
    ensures { OnOk result (out.new.items ≡ out.old.items ++ spec.index_faults (scope_of scope.now).here.types over.now) }
{
    match over {
        TypeExpr::Boolean => Ok(()),
        TypeExpr::Range { span, at } => range_faults(out, *span, *at),
        TypeExpr::Enum { .. } => Ok(()),
        TypeExpr::Named { at, .. } => {
            let kind = index_kind(over, scope);
            fault_if(out, !is_index(kind), 12, *at)
        }
        TypeExpr::Array { .. } => Ok(()),
        TypeExpr::Struct { .. } => Ok(()),
    }
}

/// The faults in a type.
#[cycle(types)]
#[tactic(auto, using(smv_mentions::proofs::Notes::noting, crate::proofs::TypeLaws::equations))]
pub fn type_faults<'a>(
    of: &'a TypeExpr,
    scope: &Scope<'a, '_>,
    out: &mut Vec<Fault>,
) -> Result<(), AllocError>
    requires { AreKindTables scope.now.tables.now }
    ensures { OnOk result (out.new.items ≡ out.old.items ++ spec.type_faults (scope_of scope.now).here.types of.now) }
{
    match of {
        TypeExpr::Boolean => Ok(()),
        TypeExpr::Range { span, at } => range_faults(out, *span, *at),
        TypeExpr::Enum { .. } => Ok(()),
        TypeExpr::Named { .. } => Ok(()),
        TypeExpr::Array { index, of } => {
            index_faults(index.get(), scope, out)?;
            type_faults(of.get(), scope, out)
        }
        TypeExpr::Struct { fields } => field_faults(fields.as_slice(), scope, out),
    }
}

// The faults in the types of these fields.
#[cycle(types)]
#[tactic(auto, using(smv_mentions::proofs::Notes::noting))]
fn field_faults<'a>(
    fields: &'a [Field],
    scope: &Scope<'a, '_>,
    out: &mut Vec<Fault>,
) -> Result<(), AllocError>
    requires { AreKindTables scope.now.tables.now }
    ensures { OnOk result (out.new.items ≡ out.old.items ++ flat_map (λ field. spec.type_faults (scope_of scope.now).here.types (out-Field field).of) fields.now) }
{
    for field in fields {
        type_faults(&field.of, scope, out)?;
    }
    Ok(())
}

/// Fault 12 at each of these formals, unless their type is one of single values.
#[tactic(auto, using(smv_mentions::proofs::Notes::noting))]
pub fn formal_faults<'a>(
    of: &'a TypeExpr,
    words: &'a [Word],
    scope: &Scope<'a, '_>,
    out: &mut Vec<Fault>,
) -> Result<(), AllocError>
    requires { AreKindTables scope.now.tables.now }
    ensures { OnOk result (out.new.items ≡ out.old.items ++ flat_map (λ word. faults_at (12, place_if (is_none (spec.leads (scope_of scope.now).here.types of.now [])) word.at)) words.now) }
{
    let kind = single_kind(of, scope);
    faults_unless(out, kind.is_some(), words)
}

// Fault 12 at each of these words, unless they are simple.
#[tactic(auto, using(smv_mentions::proofs::Notes::noting))]
fn faults_unless(out: &mut Vec<Fault>, simple: bool, words: &[Word]) -> Result<(), AllocError>
    ensures { OnOk result (out.new.items ≡ out.old.items ++ flat_map (λ word. faults_at (12, place_if (not simple) word.at)) words.now) }
{
    for word in words {
        fault_if(out, !simple, 12, word.at)?;
    }
    Ok(())
}
