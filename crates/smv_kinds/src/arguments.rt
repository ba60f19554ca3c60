// The arguments of instances.
ghost use Rattle.std.specs.Prelude.{◌≡◌, ◌++◌, ◌∷◌, [], flat_map, zip, OnOk};
ghost use Rattle.std.specs.List.{list_all};
ghost use Rattle.smv_core.specs.Types.{find_name};
ghost use Rattle.smv_core.specs.declared.tree.Path.{out-Path};
ghost use Rattle.smv_core.specs.declared.tree.Signed.{out-Signed};
ghost use Rattle.smv_mentions.specs.FirstFault.{faults_at};
ghost use Rattle.law_designs.specs.Operands as operands;
ghost use Rattle.law_designs.specs.KindFaults as spec;
ghost use Rattle.smv_expression_kinds.specs.Forms.{kind_of, AreKindTables};
ghost use Rattle.smv_expression_kinds.specs.Found.{scope_of};
ghost use Rattle.smv_kinds.specs.Found.{argument_faults, is_constant, part_constant, words_left};

use crate::formals::{Formal, formal_named};
use crate::values::{target, value};
use smv_core::fault::Fault;
use smv_core::tree::{Expr, Part, Path, Signed, Word};
use smv_expression_kinds::kinds::{ValueKind, fault_if, takes};
use smv_expression_kinds::lookups::{Scope, formals_of, module_named};
use smv_operand_kinds::operands::{operand, operand_at};
use std::alloc::{AllocError, Global};

// The index can be worked out from the text alone.
#[cycle(constants)]
#[tactic(auto, using(crate::proofs::ConstantLaws::equations))]
fn is_constant_index(x: &Expr) -> bool
    ensures { result ≡ is_constant x.now }
{
    match x {
        Expr::Number { .. } => true,
        Expr::Sum { first, more } => {
            is_constant_index(first.get()) && are_constant_summands(more.as_slice())
        }
        Expr::Modulo { of, .. } => is_constant_index(of.get()),
        Expr::Signal { .. } => false,
        Expr::Not { .. } => false,
        Expr::And { .. } => false,
        Expr::Or { .. } => false,
        Expr::Implies { .. } => false,
        Expr::Iff { .. } => false,
        Expr::Compare { .. } => false,
        Expr::Within { .. } => false,
        Expr::Choose { .. } => false,
        Expr::All { .. } => false,
        Expr::Any { .. } => false,
        Expr::List { .. } => false,
        Expr::Each { .. } => false,
    }
}

// All of these can be worked out from the text alone.
#[cycle(constants)]
fn are_constant_summands(more: &[Signed]) -> bool
    ensures { result ≡ list_all (λ x. is_constant (out-Signed x).of) more.now }
{
    for x in more {
        if !is_constant_index(&x.of) {
            return false;
        }
    }
    true
}

// All indexes of a path can be worked out from the text alone.
fn are_constant(parts: &[Part]) -> bool
    ensures { result ≡ spec.are_constant parts.now }
{
    parts_are_constant(parts)
}

// The same, part by part.
fn parts_are_constant(parts: &[Part]) -> bool
    ensures { result ≡ list_all part_constant parts.now }
{
    for part in parts {
        if !is_constant_part(part) {
            return false;
        }
    }
    true
}

// A part of a path, where it is an index, can be worked out from the text alone.
fn is_constant_part(part: &Part) -> bool
    ensures { result ≡ part_constant part.now }
{
    match part {
        Part::Field { .. } => true,
        Part::At { index } => is_constant_index(index),
    }
}

// An output's argument is a path with constant indexes, which takes a value of this kind.
#[tactic(auto, using(smv_mentions::proofs::Notes::noting, crate::proofs::ArgumentLaws::equations, smv_operand_kinds::proofs::KindLaws::value_fits, smv_operand_kinds::proofs::KindLaws::no_vars))]
fn given<'a>(
    path: &'a Path,
    scope: &Scope<'a, '_>,
    alloc: Global,
    out: &mut Vec<Fault>,
    kind: ValueKind<'a>,
) -> Result<(), AllocError>
    requires { AreKindTables scope.now.tables.now }
    ensures { OnOk result (out.new.items ≡ out.old.items ++ spec.given (scope_of scope.now) (kind_of scope.now.tables.now.names kind.entry) (out-Path path.now).parts (operands.target (scope_of scope.now) [] path.now)) }
{
    if are_constant(path.parts.as_slice()) {
        let left = target(path, scope, &[], alloc, out)?;
        takes(
            &scope.tables.names,
            out,
            left.kind,
            operand_at(kind, left.at),
        )
    } else {
        fault_if(out, true, 12, path.at)
    }
}

// An output's argument, which takes a value of this kind.
#[tactic(auto, using(smv_mentions::proofs::Notes::noting, crate::proofs::ArgumentLaws::equations, smv_operand_kinds::proofs::KindLaws::no_vars))]
fn gives<'a>(
    x: &'a Expr,
    scope: &Scope<'a, '_>,
    alloc: Global,
    out: &mut Vec<Fault>,
    kind: ValueKind<'a>,
) -> Result<(), AllocError>
    requires { AreKindTables scope.now.tables.now }
    ensures { OnOk result (out.new.items ≡ out.old.items ++ spec.gives (scope_of scope.now) (kind_of scope.now.tables.now.names kind.entry) x.now) }
{
    match x {
        Expr::Signal { path } => given(path, scope, alloc, out, kind),
        Expr::Number { .. } => no_path(x, scope, alloc, out),
        Expr::Not { .. } => no_path(x, scope, alloc, out),
        Expr::And { .. } => no_path(x, scope, alloc, out),
        Expr::Or { .. } => no_path(x, scope, alloc, out),
        Expr::Implies { .. } => no_path(x, scope, alloc, out),
        Expr::Iff { .. } => no_path(x, scope, alloc, out),
        Expr::Compare { .. } => no_path(x, scope, alloc, out),
        Expr::Within { .. } => no_path(x, scope, alloc, out),
        Expr::Sum { .. } => no_path(x, scope, alloc, out),
        Expr::Modulo { .. } => no_path(x, scope, alloc, out),
        Expr::Choose { .. } => no_path(x, scope, alloc, out),
        Expr::All { .. } => no_path(x, scope, alloc, out),
        Expr::Any { .. } => no_path(x, scope, alloc, out),
        Expr::List { .. } => no_path(x, scope, alloc, out),
        Expr::Each { .. } => no_path(x, scope, alloc, out),
    }
}

// An output's argument that is no path.
#[tactic(auto, using(smv_mentions::proofs::Notes::noting, smv_operand_kinds::proofs::KindLaws::no_vars))]
fn no_path<'a>(
    x: &'a Expr,
    scope: &Scope<'a, '_>,
    alloc: Global,
    out: &mut Vec<Fault>,
) -> Result<(), AllocError>
    requires { AreKindTables scope.now.tables.now }
    ensures { OnOk result (out.new.items ≡ out.old.items ++ faults_at (12, (operands.operand (scope_of scope.now) [] x.now).at ∷ [])) }
{
    let mut apart = Vec::new(alloc);
    let e = operand(x, scope, &[], alloc, &mut apart)?;
    fault_if(out, true, 12, e.at)
}

// An argument of a formal.
#[tactic(auto, using(smv_mentions::proofs::Notes::noting, smv_operand_kinds::proofs::KindLaws::value_fits, smv_operand_kinds::proofs::KindLaws::no_vars))]
fn argument<'a>(
    x: &'a Expr,
    scope: &Scope<'a, '_>,
    alloc: Global,
    out: &mut Vec<Fault>,
    formal: Formal<'a>,
) -> Result<(), AllocError>
    requires { AreKindTables scope.now.tables.now }
    ensures { OnOk result (out.new.items ≡ out.old.items ++ argument_faults scope.now.tables.now.names (scope_of scope.now) formal.entry x.now) }
{
    match formal {
        Formal::Input { kind } => {
            let e = value(x, scope, &[], alloc, out)?;
            takes(&scope.tables.names, out, kind, e)
        }
        Formal::Output { kind } => gives(x, scope, alloc, out, kind),
        Formal::Other => Ok(()),
    }
}

// An argument of the first of these formals of a module, if there is one.
#[tactic(auto, using(smv_mentions::proofs::Notes::noting, crate::proofs::ArgumentLaws::zips))]
fn connected<'a>(
    x: &'a Expr,
    scope: &Scope<'a, '_>,
    alloc: Global,
    out: &mut Vec<Fault>,
    inner: &Scope<'a, '_>,
    formals: &[Word],
) -> Result<(), AllocError>
    requires scope { AreKindTables scope.now.tables.now }
    requires inner { AreKindTables inner.now.tables.now }
    requires same { inner.now.tables ≡ scope.now.tables }
    ensures { OnOk result (out.new.items ≡ out.old.items ++ flat_map (λ (word, e). spec.connected (scope_of scope.now) (scope_of inner.now).here.types (find_name (scope_of inner.now).here.own word.name) e) (zip formals.now (x.now ∷ []))) }
{
    match formals {
        [] => Ok(()),
        [word, ..] => {
            let formal = formal_named(&word.name, inner);
            argument(x, scope, alloc, out, formal)
        }
    }
}

// All but the first of these words.
fn behind_first(words: &[Word]) -> &[Word]
    ensures { result.now ≡ words_left words.now }
{
    match words {
        [] => words,
        [_, more @ ..] => more,
    }
}

// The arguments of these formals of a module.
#[tactic(auto, using(smv_mentions::proofs::Notes::noting, crate::proofs::ArgumentLaws::zips))]
fn all_connected<'a>(
    args: &'a [Expr],
    scope: &Scope<'a, '_>,
    alloc: Global,
    out: &mut Vec<Fault>,
    inner: &Scope<'a, '_>,
    formals: &[Word],
) -> Result<(), AllocError>
    requires scope { AreKindTables scope.now.tables.now }
    requires inner { AreKindTables inner.now.tables.now }
    requires same { inner.now.tables ≡ scope.now.tables }
    ensures { OnOk result (out.new.items ≡ out.old.items ++ flat_map (λ (word, e). spec.connected (scope_of scope.now) (scope_of inner.now).here.types (find_name (scope_of inner.now).here.own word.name) e) (zip formals.now args.now)) }
{
    let mut left = formals;
    for x in args {
        connected(x, scope, alloc, out, inner, left)?;
        left = behind_first(left);
    }
    Ok(())
}

/// The arguments of an instance of the module of a name.
#[tactic(auto, using(smv_mentions::proofs::Notes::noting))]
pub fn arguments<'a>(
    args: &'a [Expr],
    name: &'a Word,
    scope: &Scope<'a, '_>,
    alloc: Global,
    out: &mut Vec<Fault>,
) -> Result<(), AllocError>
    requires { AreKindTables scope.now.tables.now }
    ensures { OnOk result (out.new.items ≡ out.old.items ++ spec.in_arguments (scope_of scope.now) (find_name (scope_of scope.now).modules name.now.name) args.now) }
{
    match module_named(&name.name, scope) {
        None => Ok(()),
        Some(place) => {
            let inner = Scope {
                tables: scope.tables,
                place,
            };
            let formals = formals_of(&inner);
            all_connected(args, scope, alloc, out, &inner, formals)
        }
    }
}
