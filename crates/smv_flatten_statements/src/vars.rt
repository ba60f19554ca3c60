// The variables that are bound around an expression or a statement.
ghost use Rattle.std.specs.Prelude.{◌≡◌, ◌∷◌, option_map, IfOk};
ghost use Rattle.smv_core.specs.Outcome.{fields_of};
ghost use Rattle.law_designs.specs.Numbers as numbers;
ghost use Rattle.smv_flatten_statements.specs.Around.{around_of, bound_of, only, reference_of};

use smv_core::flat::FlatExpr;
use smv_core::name::Name;
use smv_core::tree::Part;
use std::alloc::{AllocError, Global};

/// How a variable is bound.
#[derive(Clone, Copy)]
pub enum Bound {
    /// By a `for`, at this number.
    Loop { value: u16 },
    /// By a `forall`, a reduction or a comprehension.
    Any,
}

/// A variable that is bound around.
#[derive(Clone, Copy)]
pub struct Var<'a> {
    pub name: &'a Name,
    pub bound: Bound,
}

/// These variables with one more, the innermost.
#[tactic(auto, unfolding(crate::specs::Around::around_of))]
pub fn inside<'a>(alloc: Global, vars: &[Var<'a>], var: Var<'a>) -> Result<Vec<Var<'a>>, AllocError>
    ensures { IfOk result (λ inner. around_of inner.items ≡ (var.entry.name.now, bound_of var.entry.bound) ∷ around_of vars.now) }
{
    let mut inner = Vec::new(alloc);
    inner.push(var)?;
    inner.extend_from_slice(vars)?;
    Ok(inner)
}

/// How many variables are bound around: a `for` is written out, so it binds none.
#[tactic(auto, using(crate::proofs::VarLaws::counting), unfolding(crate::specs::Around::around_of))]
pub(crate) fn bound_in(vars: &[Var]) -> Result<u16, AllocError>
    ensures { IfOk result (λ n. n ≡ numbers.bound_in (around_of vars.now)) }
{
    let mut count = 0;
    for var in vars {
        if let Bound::Any = var.bound {
            count += 1;
        }
    }
    number_of(count)
}

// A number in a field.
fn number_of(count: usize) -> Result<u16, AllocError>
    ensures { IfOk result (λ n. n ≡ count) }
{
    match u16::try_from(count) {
        Ok(n) => Ok(n),
        Err(_) => Err(AllocError),
    }
}

/// The variable that a path is.
pub fn variable_at(vars: &[Var], parts: &[Part], at: u32) -> Result<Option<FlatExpr>, AllocError>
    ensures { IfOk result (λ found. found ≡ numbers.variable_at (around_of vars.now) (fields_of parts.now) at) }
{
    match only_name(parts) {
        None => Ok(None),
        Some(name) => variable(vars, name, at),
    }
}

// The name of a path of one name.
fn only_name(parts: &[Part]) -> Option<&Name>
    ensures { option_map (λ name. name.now) result ≡ only (fields_of parts.now) }
{
    let mut found = None;
    for part in parts {
        if let Part::Field { name } = part {
            if found.is_some() {
                return None;
            }
            found = Some(&name.name);
        }
    }
    found
}

// The innermost variable of a name.
#[tactic(auto, using(crate::proofs::VarLaws::looking_up), unfolding(crate::specs::Around::around_of))]
fn variable(vars: &[Var], name: &Name, at: u32) -> Result<Option<FlatExpr>, AllocError>
    ensures { IfOk result (λ found. found ≡ numbers.variable (around_of vars.now) name.now at) }
{
    match vars {
        [] => Ok(None),
        [var, outer @ ..] => {
            if *var.name == *name {
                let read = reference(var.bound, outer, at)?;
                return Ok(Some(read));
            }
            variable(outer, name, at)
        }
    }
}

// A variable that is bound inside these.
fn reference(bound: Bound, outer: &[Var], at: u32) -> Result<FlatExpr, AllocError>
    ensures { IfOk result (λ read. read ≡ reference_of (bound_of bound) (around_of outer.now) at) }
{
    match bound {
        Bound::Loop { value } => Ok(FlatExpr::Loop { value, at }),
        Bound::Any => Ok(FlatExpr::Var {
            var: bound_in(outer)?,
            at,
        }),
    }
}
