// Where an expression stands.
ghost use Rattle.std.specs.Prelude.{◌≡◌};
ghost use Rattle.smv_look_bounds.specs.Places.{first_place, place};

use smv_core::flat::FlatExpr;

/// The place of an expression: its first token other than `(`.
#[cycle(places)]
#[tactic(auto, using(crate::proofs::PlaceEquations::equations))]
pub fn first_at(x: &FlatExpr) -> u32
    ensures { result ≡ place x.now }
{
    match x {
        FlatExpr::Number { at, .. } => *at,
        FlatExpr::Read { at, .. } => *at,
        FlatExpr::Var { at, .. } => *at,
        FlatExpr::Loop { at, .. } => *at,
        FlatExpr::Constant { at, .. } => *at,
        FlatExpr::Not { at, .. } => *at,
        FlatExpr::And { parts } => first_place(parts.as_slice()),
        FlatExpr::Or { parts } => first_place(parts.as_slice()),
        FlatExpr::Implies { parts } => first_place(parts.as_slice()),
        FlatExpr::Iff { left, .. } => first_at(left.get()),
        FlatExpr::Compare { left, .. } => first_at(left.get()),
        FlatExpr::Within { left, .. } => first_at(left.get()),
        FlatExpr::Sum { first, .. } => first_at(first.get()),
        FlatExpr::Modulo { of, .. } => first_at(of.get()),
        FlatExpr::Choose { cond, .. } => first_at(cond.get()),
        FlatExpr::All { at, .. } => *at,
        FlatExpr::Any { at, .. } => *at,
        FlatExpr::List { at, .. } => *at,
        FlatExpr::Each { at, .. } => *at,
    }
}

#[cycle(places)]
fn first_place(parts: &[FlatExpr]) -> u32
    ensures { result ≡ first_place parts.now }
{
    match parts {
        [first, ..] => first_at(first),
        [] => 0,
    }
}
