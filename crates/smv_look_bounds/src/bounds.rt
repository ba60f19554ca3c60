// The least and the greatest number that an expression can have.
ghost use Rattle.std.specs.Prelude.{◌≡◌, map, option_copied, slice_get};
ghost use Rattle.smv_look_bounds.specs.Bounds as spec;
ghost use Rattle.smv_look_bounds.specs.Held.{bounds_all, given_of, target_of};

use crate::narrowing::{Given, narrowed};
use crate::numbers::{Bounds, added, numbers_of, one_of, remainder_of};
use crate::targets::Target;
use smv_core::flat::{Family, FlatExpr, FlatSigned, Simple};

// What a reference can be that has a type.
fn read_bounds(givens: &[Given], t: Target, over: Option<Simple>) -> Option<Bounds>
    ensures { result ≡ spec.read_bounds (map given_of givens.now) (target_of t.entry) over }
{
    match numbers_of(over) {
        None => None,
        Some(b) => Some(narrowed(givens, t, b)),
    }
}

// The type of a family's values, by its number.
fn value_type(families: &[Family], family: u16) -> Option<Simple>
    ensures { result ≡ spec.value_type (slice_get families.now family) }
{
    match families.get(family as usize) {
        None => None,
        Some(family) => Some(family.value),
    }
}

// The type of a variable, by its number.
fn variable_type(vars: &[Simple], var: u16) -> Option<Simple>
    ensures { result ≡ slice_get vars.now var }
{
    match vars.get(var as usize) {
        None => None,
        Some(over) => Some(*over),
    }
}

/// What an expression can be, if it is a number: the variables that are bound around have these types, and these conditions stand around.
#[cycle(bounds)]
#[tactic(auto, using(crate::proofs::BoundEquations::equations))]
pub(crate) fn bounds(
    families: &[Family],
    vars: &[Simple],
    givens: &[Given],
    x: &FlatExpr,
) -> Option<Bounds>
    ensures { result ≡ spec.bounds families.now vars.now (map given_of givens.now) x.now }
{
    match x {
        FlatExpr::Number { value, .. } => Some(just(*value)),
        FlatExpr::Loop { value, .. } => Some(just(*value)),
        FlatExpr::Read {
            family,
            indexes,
            ..
        } => {
            let t = Target::Element {
                family: *family,
                indexes: indexes.as_slice(),
            };
            read_bounds(givens, t, value_type(families, *family))
        }
        FlatExpr::Var { var, .. } => {
            let t = Target::Variable { var: *var };
            read_bounds(givens, t, variable_type(vars, *var))
        }
        FlatExpr::Sum { first, more } => {
            let b = bounds(families, vars, givens, first.get());
            sum_bounds(families, vars, givens, b, more.as_slice())
        }
        FlatExpr::Modulo { of, by, .. } => {
            remainder_of(*by, bounds(families, vars, givens, of.get()))
        }
        FlatExpr::Choose { yes, no, .. } => {
            let one = bounds(families, vars, givens, yes.get());
            one_of(one, bounds(families, vars, givens, no.get()))
        }
        FlatExpr::Constant { .. } => None,
        FlatExpr::List { .. } => None,
        FlatExpr::Each { .. } => None,
        FlatExpr::Not { .. } => Some(bit()),
        FlatExpr::And { .. } => Some(bit()),
        FlatExpr::Or { .. } => Some(bit()),
        FlatExpr::Implies { .. } => Some(bit()),
        FlatExpr::Iff { .. } => Some(bit()),
        FlatExpr::Compare { .. } => Some(bit()),
        FlatExpr::Within { .. } => Some(bit()),
        FlatExpr::All { .. } => Some(bit()),
        FlatExpr::Any { .. } => Some(bit()),
    }
}

// A sum or a difference, from the left.
#[cycle(bounds)]
fn sum_bounds(
    families: &[Family],
    vars: &[Simple],
    givens: &[Given],
    first: Option<Bounds>,
    more: &[FlatSigned],
) -> Option<Bounds>
    ensures { result ≡ bounds_all families.now vars.now (map given_of givens.now) first more.now }
{
    let mut total = first;
    for signed in more {
        let b = bounds(families, vars, givens, &signed.of);
        total = added(signed.minus, total, b);
    }
    total
}

// A number alone.
fn just(k: u16) -> Bounds
    ensures { result ≡ spec.just k }
{
    Bounds { low: k, high: k }
}

// What logic gives.
fn bit() -> Bounds
    ensures { result ≡ spec.a_bit }
{
    Bounds { low: 0, high: 1 }
}
