// Nodes of trees, each made of its parts.
ghost use Rattle.std.specs.Prelude.{◌≡◌, IfOk, IfErr};
ghost use Rattle.smv_core.specs.declared.tree.Field.{roll-Field};
ghost use Rattle.smv_core.specs.Grammar.{chain, named, place_of, sum_of};
ghost use Rattle.smv_parse_expressions.specs.Tails.{quantified};

use crate::stop::Stop;
use smv_core::boxed::Boxed;
use smv_core::seq::Seq;
use smv_core::tree::{Expr, Field, Op, Part, Path, Signed, TypeExpr, Word};
use std::alloc::Global;

pub(crate) fn array_of(alloc: Global, index: TypeExpr, of: TypeExpr) -> Result<TypeExpr, Stop>
    ensures found { IfOk result (λ found. found ≡ TypeExpr.Array index of) }
    ensures stop { IfErr result (λ stop. stop ≡ Stop.OutOfMemory) }
{
    let index = Boxed::new(alloc, index)?;
    let of = Boxed::new(alloc, of)?;
    Ok(TypeExpr::Array { index, of })
}

/// Where there is no name, the offset is 0.
pub(crate) fn field_of(names: Vec<Word>, of: TypeExpr) -> Field
    ensures { result ≡ roll-Field (record { names = names.items; of = of; at = place_of names.items }) }
{
    let at = match names.first() {
        Some(name) => name.at,
        None => 0,
    };
    let names = Seq::from_vec(names);
    Field { names, of, at }
}

pub fn path_of(name: Word, more: Vec<Part>) -> Result<Path, Stop>
    ensures found { IfOk result (λ found. found ≡ named name more.items) }
    ensures stop { IfErr result (λ stop. stop ≡ Stop.OutOfMemory) }
{
    let at = name.at;
    let mut parts = more;
    parts.insert(0, Part::Field { name })?;
    let parts = Seq::from_vec(parts);
    Ok(Path { parts, at })
}

pub(crate) fn not_of(alloc: Global, of: Expr, at: u32) -> Result<Expr, Stop>
    ensures found { IfOk result (λ found. found ≡ Expr.Not of at) }
    ensures stop { IfErr result (λ stop. stop ≡ Stop.OutOfMemory) }
{
    let of = Boxed::new(alloc, of)?;
    Ok(Expr::Not { of, at })
}

pub(crate) fn sum_of_parts(alloc: Global, first: Expr, more: Vec<Signed>) -> Result<Expr, Stop>
    ensures found { IfOk result (λ found. found ≡ sum_of first more.items) }
    ensures stop { IfErr result (λ stop. stop ≡ Stop.OutOfMemory) }
{
    if more.is_empty() {
        return Ok(first);
    }
    let first = Boxed::new(alloc, first)?;
    let more = Seq::from_vec(more);
    Ok(Expr::Sum { first, more })
}

pub(crate) fn modulo_of(alloc: Global, of: Expr, by: u16, at: u32) -> Result<Expr, Stop>
    ensures found { IfOk result (λ found. found ≡ Expr.Modulo of by at) }
    ensures stop { IfErr result (λ stop. stop ≡ Stop.OutOfMemory) }
{
    let of = Boxed::new(alloc, of)?;
    Ok(Expr::Modulo { of, by, at })
}

pub(crate) fn compare_of(alloc: Global, op: Op, left: Expr, right: Expr) -> Result<Expr, Stop>
    ensures found { IfOk result (λ found. found ≡ Expr.Compare op left right) }
    ensures stop { IfErr result (λ stop. stop ≡ Stop.OutOfMemory) }
{
    let left = Boxed::new(alloc, left)?;
    let right = Boxed::new(alloc, right)?;
    Ok(Expr::Compare { op, left, right })
}

pub fn within_of(alloc: Global, left: Expr, set: Expr) -> Result<Expr, Stop>
    ensures found { IfOk result (λ found. found ≡ Expr.Within left set) }
    ensures stop { IfErr result (λ stop. stop ≡ Stop.OutOfMemory) }
{
    let left = Boxed::new(alloc, left)?;
    let set = Boxed::new(alloc, set)?;
    Ok(Expr::Within { left, set })
}

pub(crate) fn and_of(first: Expr, more: Vec<Expr>) -> Result<Expr, Stop>
    ensures found { IfOk result (λ found. found ≡ chain (λ parts. Expr.And parts) first more.items) }
    ensures stop { IfErr result (λ stop. stop ≡ Stop.OutOfMemory) }
{
    if more.is_empty() {
        return Ok(first);
    }
    let mut parts = more;
    parts.insert(0, first)?;
    let parts = Seq::from_vec(parts);
    Ok(Expr::And { parts })
}

pub(crate) fn or_of(first: Expr, more: Vec<Expr>) -> Result<Expr, Stop>
    ensures found { IfOk result (λ found. found ≡ chain (λ parts. Expr.Or parts) first more.items) }
    ensures stop { IfErr result (λ stop. stop ≡ Stop.OutOfMemory) }
{
    if more.is_empty() {
        return Ok(first);
    }
    let mut parts = more;
    parts.insert(0, first)?;
    let parts = Seq::from_vec(parts);
    Ok(Expr::Or { parts })
}

pub(crate) fn implies_of(first: Expr, more: Vec<Expr>) -> Result<Expr, Stop>
    ensures found { IfOk result (λ found. found ≡ chain (λ parts. Expr.Implies parts) first more.items) }
    ensures stop { IfErr result (λ stop. stop ≡ Stop.OutOfMemory) }
{
    if more.is_empty() {
        return Ok(first);
    }
    let mut parts = more;
    parts.insert(0, first)?;
    let parts = Seq::from_vec(parts);
    Ok(Expr::Implies { parts })
}

pub(crate) fn iff_of(alloc: Global, left: Expr, right: Expr) -> Result<Expr, Stop>
    ensures found { IfOk result (λ found. found ≡ Expr.Iff left right) }
    ensures stop { IfErr result (λ stop. stop ≡ Stop.OutOfMemory) }
{
    let left = Boxed::new(alloc, left)?;
    let right = Boxed::new(alloc, right)?;
    Ok(Expr::Iff { left, right })
}

pub(crate) fn choose_of(alloc: Global, cond: Expr, yes: Expr, no: Expr) -> Result<Expr, Stop>
    ensures found { IfOk result (λ found. found ≡ Expr.Choose cond yes no) }
    ensures stop { IfErr result (λ stop. stop ≡ Stop.OutOfMemory) }
{
    let cond = Boxed::new(alloc, cond)?;
    let yes = Boxed::new(alloc, yes)?;
    let no = Boxed::new(alloc, no)?;
    Ok(Expr::Choose { cond, yes, no })
}

/// The reduction of a conjunction, or else of a disjunction.
#[tactic(auto, unfolding(crate::specs::Tails::quantified))]
pub(crate) fn reduction_of(
    alloc: Global,
    all: bool,
    body: Expr,
    var: Word,
    over: TypeExpr,
    at: u32,
) -> Result<Expr, Stop>
    ensures found { IfOk result (λ found. found ≡ quantified all body var over at) }
    ensures stop { IfErr result (λ stop. stop ≡ Stop.OutOfMemory) }
{
    let body = Boxed::new(alloc, body)?;
    if all {
        return Ok(Expr::All {
            body,
            var,
            over,
            at,
        });
    }
    Ok(Expr::Any {
        body,
        var,
        over,
        at,
    })
}

pub(crate) fn each_of(
    alloc: Global,
    var: Word,
    over: TypeExpr,
    cond: Option<Expr>,
    at: u32,
) -> Result<Expr, Stop>
    ensures found { IfOk result (λ found. found ≡ Expr.Each var over cond at) }
    ensures stop { IfErr result (λ stop. stop ≡ Stop.OutOfMemory) }
{
    let cond = match cond {
        Some(cond) => Some(Boxed::new(alloc, cond)?),
        None => None,
    };
    Ok(Expr::Each {
        var,
        over,
        cond,
        at,
    })
}
