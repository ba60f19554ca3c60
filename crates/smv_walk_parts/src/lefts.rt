// Left sides that are known to be elsewhere.
ghost use Rattle.std.specs.Prelude.{◌≡◌, map, slice_get};
ghost use Rattle.law_obligations.specs.Places.{World};
ghost use Rattle.smv_spots.specs.Spots.{place_in, outcome_in};
ghost use Rattle.smv_problem_spots.specs.Worlds.{IsWorldOf};
ghost use Rattle.smv_walk_parts.specs.Elsewhere as spec;
ghost use Rattle.smv_walk_parts.specs.Elsewhere.{known_place};

use smv_core::flat::FlatExpr;
use smv_problem::Problem;
use smv_problem_spots::places::constant_at;
use smv_problem_spots::same::is_same;
use smv_spots::spots::Spot;

// The place of a variable, if it is bound.
fn variable(b: &[Spot], var: u16) -> Option<Spot>
    ensures { result ≡ slice_get b.now var }
{
    b.get(var as usize).copied()
}

// Where an index is known to be.
#[tactic(auto, using(crate::proofs::KnownLaws::equations))]
fn known(problem: &Problem, e: &FlatExpr, b: &[Spot]) -> Option<Spot>
    ensures { (w : World) → IsWorldOf problem.entry.now w → outcome_in w.classes result ≡ known_place w (map (place_in w.classes) b.now) e.now }
{
    match e {
        FlatExpr::Number { value, .. } => Some(Spot::Number { value: *value }),
        FlatExpr::Loop { value, .. } => Some(Spot::Number { value: *value }),
        FlatExpr::Var { var, .. } => variable(b, *var),
        FlatExpr::Constant { list, value, .. } => constant_at(problem, *list, *value),
        FlatExpr::Read { .. } => None,
        FlatExpr::Not { .. } => None,
        FlatExpr::And { .. } => None,
        FlatExpr::Or { .. } => None,
        FlatExpr::Implies { .. } => None,
        FlatExpr::Iff { .. } => None,
        FlatExpr::Compare { .. } => None,
        FlatExpr::Within { .. } => None,
        FlatExpr::Sum { .. } => None,
        FlatExpr::Modulo { .. } => None,
        FlatExpr::Choose { .. } => None,
        FlatExpr::All { .. } => None,
        FlatExpr::Any { .. } => None,
        FlatExpr::List { .. } => None,
        FlatExpr::Each { .. } => None,
    }
}

// Whether it is known to be at another place.
fn is_other(problem: &Problem, q: Spot, known: Option<Spot>) -> bool
    ensures { (w : World) → IsWorldOf problem.entry.now w → result ≡ spec.is_other (place_in w.classes q) (outcome_in w.classes known) }
{
    match known {
        Some(p) => !is_same(problem, p, q),
        None => false,
    }
}

/// Whether one of these indexes of a left side is known to be at another place than the element's.
pub fn is_elsewhere(problem: &Problem, indexes: &[Spot], left: &[FlatExpr], b: &[Spot]) -> bool
    ensures { (w : World) → IsWorldOf problem.entry.now w → result ≡ spec.is_elsewhere w (map (place_in w.classes) indexes.now) left.now (map (place_in w.classes) b.now) }
{
    let Some((e, others)) = left.split_first() else {
        return false;
    };
    let Some((q, rest)) = indexes.split_first() else {
        return false;
    };
    if is_other(problem, *q, known(problem, e, b)) {
        return true;
    }
    is_elsewhere(problem, rest, others, b)
}
