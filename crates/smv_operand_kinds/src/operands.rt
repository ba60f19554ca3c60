// The kind of each expression, and the faults in it.
ghost use Rattle.std.specs.Prelude.{◌≡◌, ◌++◌, [], map, flat_map, option_map, IfOk, OnOk};
ghost use Rattle.smv_core.specs.Walk.{indexes_of};
ghost use Rattle.smv_core.specs.declared.tree.Path.{out-Path};
ghost use Rattle.law_designs.specs.Kinds as kinds;
ghost use Rattle.law_designs.specs.References as references;
ghost use Rattle.smv_core.specs.declared.tree.Part.{At};
ghost use Rattle.smv_core.specs.declared.tree.Expr.{Expr};
ghost use Rattle.law_designs.specs.Operands as spec;
ghost use Rattle.smv_scope.specs.declared.tables.Tables.{Tables as ScopeTables};
ghost use Rattle.smv_expression_kinds.specs.Forms.{kind_of, misfit, AreKindTables};
ghost use Rattle.smv_expression_kinds.specs.Found.{vars_of, scope_of, whole_of};
ghost use Rattle.smv_operand_kinds.specs.Found.{order_faults, kinds_left, left_behind, part_faults, next_faults, path_faults, addend, begins_at, or_zero, member as member_in};

use crate::types::{bind, index_faults};
use smv_core::fault::Fault;
use smv_core::tree::{Expr, Member, Op, Part, Path, Signed, TypeExpr, Word};
use smv_expression_kinds::kinds::{
    Operand, ValueKind, fault_if, fits, number_at, takes, takes_number, takes_order,
};
use smv_expression_kinds::lookups::{Scope, Var, whole_reference};
use smv_expression_kinds::paths::Whole;
use smv_scope::tables::{Tables as ScopeTables, item_at};
use std::alloc::{AllocError, Global};

/// An expression where no set may stand.
#[cycle(operands)]
#[tactic(auto, using(smv_mentions::proofs::Notes::noting, crate::proofs::OperandLaws::kinds, crate::proofs::OperandLaws::ats, crate::proofs::OperandLaws::faults, crate::proofs::KindLaws::first_fits, crate::proofs::KindLaws::sides_fit))]
pub fn operand<'a>(
    x: &'a Expr,
    scope: &Scope<'a, '_>,
    vars: &[Var<'a>],
    alloc: Global,
    out: &mut Vec<Fault>,
) -> Result<Operand<'a>, AllocError>
    requires { AreKindTables scope.now.tables.now }
    ensures kind { IfOk result (λ found. kind_of scope.now.tables.now.names found.kind ≡ (spec.operand (scope_of scope.now) (vars_of scope.now.tables.now.names vars.now) x.now).kind) }
    ensures at { IfOk result (λ found. found.at ≡ (spec.operand (scope_of scope.now) (vars_of scope.now.tables.now.names vars.now) x.now).at) }
    ensures faults { OnOk result (out.new.items ≡ out.old.items ++ (spec.operand (scope_of scope.now) (vars_of scope.now.tables.now.names vars.now) x.now).faults) }
{
    match x {
        Expr::Number { at, .. } => Ok(number_at(*at)),
        Expr::Signal { path } => {
            let whole = whole_reference(path.parts.as_slice(), scope, vars, alloc)?;
            referred(path, scope, vars, alloc, out, whole)
        }
        Expr::Not { of, at } => {
            number(of.get(), scope, vars, alloc, out)?;
            Ok(number_at(*at))
        }
        Expr::And { parts } => numbers(parts.as_slice(), scope, vars, alloc, out),
        Expr::Or { parts } => numbers(parts.as_slice(), scope, vars, alloc, out),
        Expr::Implies { parts } => numbers(parts.as_slice(), scope, vars, alloc, out),
        Expr::Iff { left, right } => {
            let at = number(left.get(), scope, vars, alloc, out)?;
            number(right.get(), scope, vars, alloc, out)?;
            Ok(number_at(at))
        }
        Expr::Compare { op, left, right } => {
            let left = operand(left.get(), scope, vars, alloc, out)?;
            let right = operand(right.get(), scope, vars, alloc, out)?;
            compared(&scope.tables.names, *op, left, right, out)
        }
        Expr::Within { left, set } => {
            let left = operand(left.get(), scope, vars, alloc, out)?;
            looked_through(set.get(), scope, vars, alloc, out, left.kind)?;
            Ok(number_at(left.at))
        }
        Expr::Sum { first, more } => {
            let at = number(first.get(), scope, vars, alloc, out)?;
            summands(more.as_slice(), scope, vars, alloc, out)?;
            Ok(number_at(at))
        }
        Expr::Modulo { of, by, at } => {
            let first = number(of.get(), scope, vars, alloc, out)?;
            fault_if(out, *by == 0, 12, *at)?;
            Ok(number_at(first))
        }
        Expr::Choose { cond, yes, no } => {
            let at = number(cond.get(), scope, vars, alloc, out)?;
            let yes = operand(yes.get(), scope, vars, alloc, out)?;
            let no = operand(no.get(), scope, vars, alloc, out)?;
            chosen(&scope.tables.names, at, yes, no, out)
        }
        Expr::All {
            body,
            var,
            over,
            at,
        } => reduced(body.get(), var, over, scope, vars, alloc, out, *at),
        Expr::Any {
            body,
            var,
            over,
            at,
        } => reduced(body.get(), var, over, scope, vars, alloc, out, *at),
        Expr::List { at, .. } => stray_set(*at, out),
        Expr::Each { at, .. } => stray_set(*at, out),
    }
}

/// An expression where a number is wanted, and where it begins.
#[cycle(operands)]
#[tactic(auto, using(smv_mentions::proofs::Notes::noting, crate::proofs::KindLaws::number_fits))]
pub fn number<'a>(
    x: &'a Expr,
    scope: &Scope<'a, '_>,
    vars: &[Var<'a>],
    alloc: Global,
    out: &mut Vec<Fault>,
) -> Result<u32, AllocError>
    requires { AreKindTables scope.now.tables.now }
    ensures at { IfOk result (λ at. at ≡ (spec.operand (scope_of scope.now) (vars_of scope.now.tables.now.names vars.now) x.now).at) }
    ensures faults { OnOk result (out.new.items ≡ out.old.items ++ kinds.takes_number (spec.operand (scope_of scope.now) (vars_of scope.now.tables.now.names vars.now) x.now)) }
{
    let e = operand(x, scope, vars, alloc, out)?;
    takes_number(out, e)?;
    Ok(e.at)
}

// A number made of numbers.
#[cycle(operands)]
#[tactic(auto, using(smv_mentions::proofs::Notes::noting, crate::proofs::KindLaws::begins))]
fn numbers<'a>(
    parts: &'a [Expr],
    scope: &Scope<'a, '_>,
    vars: &[Var<'a>],
    alloc: Global,
    out: &mut Vec<Fault>,
) -> Result<Operand<'a>, AllocError>
    requires { AreKindTables scope.now.tables.now }
    ensures kind { IfOk result (λ found. kind_of scope.now.tables.now.names found.kind ≡ (kinds.of_numbers (map (spec.operand (scope_of scope.now) (vars_of scope.now.tables.now.names vars.now)) parts.now)).kind) }
    ensures at { IfOk result (λ found. found.at ≡ begins_at (map (spec.operand (scope_of scope.now) (vars_of scope.now.tables.now.names vars.now)) parts.now)) }
    ensures faults { OnOk result (out.new.items ≡ out.old.items ++ (kinds.of_numbers (map (spec.operand (scope_of scope.now) (vars_of scope.now.tables.now.names vars.now)) parts.now)).faults) }
{
    let mut first = None;
    for x in parts {
        let at = number(x, scope, vars, alloc, out)?;
        first = Some(first.unwrap_or(at));
    }
    Ok(number_at(begin_of(first)))
}

// What a sum adds.
#[cycle(operands)]
#[tactic(auto, using(smv_mentions::proofs::Notes::noting), unfolding(crate::specs::Found::addend))]
fn summands<'a>(
    more: &'a [Signed],
    scope: &Scope<'a, '_>,
    vars: &[Var<'a>],
    alloc: Global,
    out: &mut Vec<Fault>,
) -> Result<(), AllocError>
    requires { AreKindTables scope.now.tables.now }
    ensures { OnOk result (out.new.items ≡ out.old.items ++ flat_map kinds.takes_number (map (addend (scope_of scope.now) (vars_of scope.now.tables.now.names vars.now)) more.now)) }
{
    for x in more {
        number(&x.of, scope, vars, alloc, out)?;
    }
    Ok(())
}

// A number made of a number at each value of a type.
#[cycle(operands)]
#[tactic(auto, using(smv_mentions::proofs::Notes::noting, crate::proofs::KindLaws::number_fits))]
fn reduced<'a>(
    body: &'a Expr,
    var: &'a Word,
    over: &'a TypeExpr,
    scope: &Scope<'a, '_>,
    vars: &[Var<'a>],
    alloc: Global,
    out: &mut Vec<Fault>,
    at: u32,
) -> Result<Operand<'a>, AllocError>
    requires { AreKindTables scope.now.tables.now }
    ensures kind { IfOk result (λ found. kind_of scope.now.tables.now.names found.kind ≡ (spec.reduced (scope_of scope.now) at (spec.operand (scope_of scope.now) (spec.bind (scope_of scope.now) (vars_of scope.now.tables.now.names vars.now) var.now over.now) body.now) over.now).kind) }
    ensures at { IfOk result (λ found. found.at ≡ (spec.reduced (scope_of scope.now) at (spec.operand (scope_of scope.now) (spec.bind (scope_of scope.now) (vars_of scope.now.tables.now.names vars.now) var.now over.now) body.now) over.now).at) }
    ensures faults { OnOk result (out.new.items ≡ out.old.items ++ (spec.reduced (scope_of scope.now) at (spec.operand (scope_of scope.now) (spec.bind (scope_of scope.now) (vars_of scope.now.tables.now.names vars.now) var.now over.now) body.now) over.now).faults) }
{
    let inner = bind(over, var, scope, vars, alloc)?;
    number(body, scope, inner.as_slice(), alloc, out)?;
    index_faults(over, scope, out)?;
    Ok(number_at(at))
}

// What stands right of `in`, beside this kind.
#[cycle(operands)]
#[tactic(auto, using(smv_mentions::proofs::Notes::noting, crate::proofs::OperandLaws::through, crate::proofs::KindLaws::stray_fits))]
fn looked_through<'a>(
    set: &'a Expr,
    scope: &Scope<'a, '_>,
    vars: &[Var<'a>],
    alloc: Global,
    out: &mut Vec<Fault>,
    kind: ValueKind<'a>,
) -> Result<(), AllocError>
    requires { AreKindTables scope.now.tables.now }
    ensures { OnOk result (out.new.items ≡ out.old.items ++ kinds.alike_with (kind_of scope.now.tables.now.names kind.entry) (spec.looked_through (scope_of scope.now) (vars_of scope.now.tables.now.names vars.now) set.now)) }
{
    match set {
        Expr::List { members, .. } => {
            all_members(members.as_slice(), scope, vars, alloc, out, kind)?;
            Ok(())
        }
        Expr::Each { at, .. } => {
            stray_set(*at, out)?;
            Ok(())
        }
        Expr::Number { .. } => Ok(()),
        Expr::Signal { .. } => Ok(()),
        Expr::Not { .. } => Ok(()),
        Expr::And { .. } => Ok(()),
        Expr::Or { .. } => Ok(()),
        Expr::Implies { .. } => Ok(()),
        Expr::Iff { .. } => Ok(()),
        Expr::Compare { .. } => Ok(()),
        Expr::Within { .. } => Ok(()),
        Expr::Sum { .. } => Ok(()),
        Expr::Modulo { .. } => Ok(()),
        Expr::Choose { .. } => Ok(()),
        Expr::All { .. } => Ok(()),
        Expr::Any { .. } => Ok(()),
    }
}

/// The members of a listed set, beside this kind, and the kind of all together.
#[cycle(operands)]
#[tactic(auto, using(smv_mentions::proofs::Notes::noting), unfolding(law_designs::specs::Kinds::alike_with, law_designs::specs::Kinds::kind_with, law_designs::specs::Kinds::unless, smv_expression_kinds::specs::Forms::misfit))]
pub fn all_members<'a>(
    members: &'a [Member],
    scope: &Scope<'a, '_>,
    vars: &[Var<'a>],
    alloc: Global,
    out: &mut Vec<Fault>,
    kind: ValueKind<'a>,
) -> Result<ValueKind<'a>, AllocError>
    requires { AreKindTables scope.now.tables.now }
    ensures kind { IfOk result (λ all. kind_of scope.now.tables.now.names all ≡ kinds.kind_with (kind_of scope.now.tables.now.names kind.entry) (map (member_in (scope_of scope.now) (vars_of scope.now.tables.now.names vars.now)) members.now)) }
    ensures faults { OnOk result (out.new.items ≡ out.old.items ++ kinds.alike_with (kind_of scope.now.tables.now.names kind.entry) (map (member_in (scope_of scope.now) (vars_of scope.now.tables.now.names vars.now)) members.now)) }
{
    let mut all = kind;
    for x in members {
        all = member(x, scope, vars, alloc, out, all)?;
    }
    Ok(all)
}

// A member of a listed set, beside this kind, and the kind of both.
#[cycle(operands)]
#[tactic(auto, using(smv_mentions::proofs::Notes::noting))]
fn member<'a>(
    x: &'a Member,
    scope: &Scope<'a, '_>,
    vars: &[Var<'a>],
    alloc: Global,
    out: &mut Vec<Fault>,
    kind: ValueKind<'a>,
) -> Result<ValueKind<'a>, AllocError>
    requires { AreKindTables scope.now.tables.now }
    ensures kind { IfOk result (λ all. kind_of scope.now.tables.now.names all ≡ kinds.joined (kind_of scope.now.tables.now.names kind.entry) (member_in (scope_of scope.now) (vars_of scope.now.tables.now.names vars.now) x.now).kind) }
    ensures faults { OnOk result (out.new.items ≡ out.old.items ++ (member_in (scope_of scope.now) (vars_of scope.now.tables.now.names vars.now) x.now).faults ++ misfit (kinds.joins (kind_of scope.now.tables.now.names kind.entry) (member_in (scope_of scope.now) (vars_of scope.now.tables.now.names vars.now) x.now).kind) (member_in (scope_of scope.now) (vars_of scope.now.tables.now.names vars.now) x.now).at) }
{
    match x {
        Member::One { of } => fitting(of, scope, vars, alloc, out, kind),
        Member::Span { span, at } => {
            fault_if(out, span.high < span.low, 13, *at)?;
            fits(&scope.tables.names, out, kind, number_at(*at))
        }
    }
}

/// An expression beside this kind, and the kind of both.
#[cycle(operands)]
#[tactic(auto, using(smv_mentions::proofs::Notes::noting))]
pub fn fitting<'a>(
    x: &'a Expr,
    scope: &Scope<'a, '_>,
    vars: &[Var<'a>],
    alloc: Global,
    out: &mut Vec<Fault>,
    kind: ValueKind<'a>,
) -> Result<ValueKind<'a>, AllocError>
    requires { AreKindTables scope.now.tables.now }
    ensures kind { IfOk result (λ all. kind_of scope.now.tables.now.names all ≡ kinds.joined (kind_of scope.now.tables.now.names kind.entry) (spec.operand (scope_of scope.now) (vars_of scope.now.tables.now.names vars.now) x.now).kind) }
    ensures faults { OnOk result (out.new.items ≡ out.old.items ++ (spec.operand (scope_of scope.now) (vars_of scope.now.tables.now.names vars.now) x.now).faults ++ misfit (kinds.joins (kind_of scope.now.tables.now.names kind.entry) (spec.operand (scope_of scope.now) (vars_of scope.now.tables.now.names vars.now) x.now).kind) (spec.operand (scope_of scope.now) (vars_of scope.now.tables.now.names vars.now) x.now).at) }
{
    let e = operand(x, scope, vars, alloc, out)?;
    fits(&scope.tables.names, out, kind, e)
}

/// A path that leads to this, or nowhere.
#[cycle(operands)]
#[tactic(auto, using(smv_mentions::proofs::Notes::noting, crate::proofs::KindLaws::references))]
pub fn referred<'a>(
    path: &'a Path,
    scope: &Scope<'a, '_>,
    vars: &[Var<'a>],
    alloc: Global,
    out: &mut Vec<Fault>,
    whole: Option<Whole<'a>>,
) -> Result<Operand<'a>, AllocError>
    requires { AreKindTables scope.now.tables.now }
    ensures kind { IfOk result (λ found. kind_of scope.now.tables.now.names found.kind ≡ (references.reference (out-Path path.now).at (option_map (whole_of scope.now.tables.now.names) whole.entry) (map (spec.operand (scope_of scope.now) (vars_of scope.now.tables.now.names vars.now)) (indexes_of (out-Path path.now).parts))).kind) }
    ensures at { IfOk result (λ found. found.at ≡ (references.reference (out-Path path.now).at (option_map (whole_of scope.now.tables.now.names) whole.entry) (map (spec.operand (scope_of scope.now) (vars_of scope.now.tables.now.names vars.now)) (indexes_of (out-Path path.now).parts))).at) }
    ensures faults { OnOk result (out.new.items ≡ out.old.items ++ (references.reference (out-Path path.now).at (option_map (whole_of scope.now.tables.now.names) whole.entry) (map (spec.operand (scope_of scope.now) (vars_of scope.now.tables.now.names vars.now)) (indexes_of (out-Path path.now).parts))).faults) }
{
    let parts = path.parts.as_slice();
    match whole {
        None => {
            fault_if(out, true, 12, path.at)?;
            indexes(parts, scope, vars, alloc, out, None)?;
            Ok(operand_at(ValueKind::Unknown, path.at))
        }
        Some(whole) => {
            indexes(parts, scope, vars, alloc, out, Some(whole.over.as_slice()))?;
            Ok(operand_at(whole.value, path.at))
        }
    }
}

// The indexes of a path, behind a reference over these kinds or one that leads nowhere.
#[cycle(operands)]
#[tactic(auto, using(smv_mentions::proofs::Notes::noting))]
fn indexes<'a>(
    parts: &'a [Part],
    scope: &Scope<'a, '_>,
    vars: &[Var<'a>],
    alloc: Global,
    out: &mut Vec<Fault>,
    over: Option<&[ValueKind<'a>]>,
) -> Result<(), AllocError>
    requires { AreKindTables scope.now.tables.now }
    ensures { OnOk result (out.new.items ≡ out.old.items ++ path_faults (scope_of scope.now) (vars_of scope.now.tables.now.names vars.now) (kinds_left scope.now.tables.now.names over.entry) parts.now) }
{
    let mut left = over;
    for part in parts {
        index(part, scope, vars, alloc, out, left)?;
        left = behind(part, left);
    }
    Ok(())
}

// A part of a path, where these kinds are left.
#[cycle(operands)]
#[tactic(auto, using(smv_mentions::proofs::Notes::noting, crate::proofs::KindLaws::value_fits))]
fn index<'a>(
    part: &'a Part,
    scope: &Scope<'a, '_>,
    vars: &[Var<'a>],
    alloc: Global,
    out: &mut Vec<Fault>,
    over: Option<&[ValueKind<'a>]>,
) -> Result<(), AllocError>
    requires { AreKindTables scope.now.tables.now }
    ensures { OnOk result (out.new.items ≡ out.old.items ++ part_faults (scope_of scope.now) (vars_of scope.now.tables.now.names vars.now) (kinds_left scope.now.tables.now.names over.entry) part.now) }
{
    match part {
        Part::Field { .. } => Ok(()),
        Part::At { index } => match next_kind(over) {
            None => {
                operand(index, scope, vars, alloc, out)?;
                Ok(())
            }
            Some(None) => Ok(()),
            Some(Some(kind)) => {
                let e = operand(index, scope, vars, alloc, out)?;
                takes(&scope.tables.names, out, kind, e)
            }
        },
    }
}

// A place, or 0 where there is none.
#[tactic(auto, unfolding(crate::specs::Found::or_zero))]
fn begin_of(place: Option<u32>) -> u32
    ensures { result ≡ or_zero place }
{
    match place {
        None => 0,
        Some(at) => at,
    }
}

// What is left of these kinds behind a part of a path.
fn behind<'k, 'a>(part: &Part, over: Option<&'k [ValueKind<'a>]>) -> Option<&'k [ValueKind<'a>]>
    ensures { (names : ScopeTables) → kinds_left names result ≡ left_behind (kinds_left names over.entry) part.now }
{
    match part {
        Part::Field { .. } => over,
        Part::At { .. } => match over {
            None => None,
            Some([]) => over,
            Some([_, more @ ..]) => Some(more),
        },
    }
}

// The kind of the next index, if there is a whole reference and then if it has that many indexes.
#[tactic(auto, using(crate::proofs::KindLaws::next_kinds))]
fn next_kind<'a>(over: Option<&[ValueKind<'a>]>) -> Option<Option<ValueKind<'a>>>
    ensures { (names : ScopeTables) (from : references.Scope) (around : references.Vars) (e : Expr) → part_faults from around (kinds_left names over.entry) (At e) ≡ next_faults names result (spec.operand from around e) }
{
    match over {
        None => None,
        Some(kinds) => match item_at(kinds, 0) {
            None => Some(None),
            Some(kind) => Some(Some(*kind)),
        },
    }
}

/// An operand of this kind at this place.
pub fn operand_at<'a>(kind: ValueKind<'a>, at: u32) -> Operand<'a>
    ensures kind { result.kind ≡ kind.entry }
    ensures at { result.at ≡ at }
{
    Operand { kind, at }
}

/// The two branches of a choice whose condition begins at this place.
#[tactic(auto, using(smv_mentions::proofs::Notes::noting))]
pub fn chosen<'a>(
    names: &ScopeTables<'a, '_>,
    at: u32,
    yes: Operand<'a>,
    no: Operand<'a>,
    out: &mut Vec<Fault>,
) -> Result<Operand<'a>, AllocError>
    ensures kind { IfOk result (λ found. kind_of names.now found.kind ≡ kinds.joined (kind_of names.now yes.entry.kind) (kind_of names.now no.entry.kind)) }
    ensures at { IfOk result (λ found. found.at ≡ at) }
    ensures faults { OnOk result (out.new.items ≡ out.old.items ++ misfit (kinds.joins (kind_of names.now yes.entry.kind) (kind_of names.now no.entry.kind)) no.entry.at) }
{
    let kind = fits(names, out, yes.kind, no)?;
    Ok(operand_at(kind, at))
}

// A comparison of these sides.
#[tactic(auto, using(smv_mentions::proofs::Notes::noting))]
fn compared<'a>(
    names: &ScopeTables<'a, '_>,
    op: Op,
    left: Operand<'a>,
    right: Operand<'a>,
    out: &mut Vec<Fault>,
) -> Result<Operand<'a>, AllocError>
    ensures kind { IfOk result (λ found. kind_of names.now found.kind ≡ kinds.number) }
    ensures at { IfOk result (λ found. found.at ≡ left.entry.at) }
    ensures faults { OnOk result (out.new.items ≡ out.old.items ++ misfit (kinds.joins (kind_of names.now left.entry.kind) (kind_of names.now right.entry.kind)) right.entry.at ++ order_faults op (kind_of names.now left.entry.kind) left.entry.at (kind_of names.now right.entry.kind) right.entry.at) }
{
    fits(names, out, left.kind, right)?;
    ordered(op, left, right, out)?;
    Ok(number_at(left.at))
}

// Both sides have an order, where there is one between them.
#[tactic(auto, using(smv_mentions::proofs::Notes::noting))]
fn ordered<'a>(
    op: Op,
    left: Operand<'a>,
    right: Operand<'a>,
    out: &mut Vec<Fault>,
) -> Result<(), AllocError>
    ensures { (names : ScopeTables) → OnOk result (out.new.items ≡ out.old.items ++ order_faults op (kind_of names left.entry.kind) left.entry.at (kind_of names right.entry.kind) right.entry.at) }
{
    match op {
        Op::Equal => Ok(()),
        Op::Differ => Ok(()),
        Op::Less | Op::AtMost | Op::Greater | Op::AtLeast => {
            takes_order(out, left)?;
            takes_order(out, right)
        }
    }
}

// Fault 14 at a set that may not stand where it does.
fn stray_set<'a>(at: u32, out: &mut Vec<Fault>) -> Result<Operand<'a>, AllocError>
    ensures kind { (names : ScopeTables) → IfOk result (λ found. kind_of names found.kind ≡ (kinds.stray_set at).kind) }
    ensures at { IfOk result (λ found. found.at ≡ (kinds.stray_set at).at) }
    ensures faults { OnOk result (out.new.items ≡ out.old.items ++ (kinds.stray_set at).faults) }
{
    fault_if(out, true, 14, at)?;
    Ok(operand_at(ValueKind::Unknown, at))
}
