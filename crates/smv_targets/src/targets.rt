// The element whose value is asked about.
ghost use Rattle.std.specs.Prelude.{◌≡◌, IfSome};
ghost use Rattle.law_obligations.specs.Sets.{Has};
ghost use Rattle.law_obligations.specs.Places.{World};
ghost use Rattle.smv_spots.specs.Spots.{place_in, outcome_in};
ghost use Rattle.smv_problem_spots.specs.Worlds.{IsWorldOf};
ghost use Rattle.smv_targets.specs.Targets.{at_place, given_at, within, beyond, conditions_at, conditions_of};

use smv_core::seq::Seq;
use smv_problem::Problem;
use smv_problem_spots::same::is_same;
use smv_spots::spots::Spot;

/// A place of a type, and the condition under which the value is there.
#[derive(Clone, Copy)]
pub struct At<C> {
    pub spot: Spot,
    pub when: C,
}

/// An element: its indexes, each place of its type with the condition under which its value is there, and the conditions that always and never hold.
#[derive(Drop)]
pub struct Target<C> {
    pub indexes: Seq<Spot>,
    pub table: Seq<At<C>>,
    pub always: C,
    pub never: C,
}

/// What is asked of an outcome: whether it may give the value, gives it for certain, is exactly the value, is in the type, or is outside it.
#[derive(Clone, Copy)]
pub enum Sense {
    May,
    Surely,
    Exactly,
    Inside,
    Outside,
}

// The condition at a place, where the type has it.
fn held<C: Copy>(problem: &Problem, table: &[At<C>], spot: Spot) -> Option<C>
    ensures is { (w : World) → IsWorldOf problem.entry.now w → result ≡ at_place w.classes table.now (place_in w.classes spot) }
    ensures among { IfSome result (λ c. Has (conditions_at table.now) c) }
{
    let Some((first, others)) = table.split_first() else {
        return None;
    };
    if is_same(problem, spot, first.spot) {
        return Some(first.when);
    }
    held(problem, others, spot)
}

// What an outcome outside the type gives.
fn outside<C: Copy>(target: &Target<C>, sense: Sense) -> C
    ensures { result ≡ beyond target.now sense }
{
    match sense {
        Sense::May => target.always,
        Sense::Surely => target.always,
        Sense::Exactly => target.never,
        Sense::Inside => target.never,
        Sense::Outside => target.always,
    }
}

// What one at a place of the type gives.
fn inside<C: Copy>(target: &Target<C>, sense: Sense, spot: Spot, when: C) -> C
    ensures { (w : World) → result ≡ within target.now sense (place_in w.classes spot) when }
{
    match sense {
        Sense::May => when,
        Sense::Surely => match spot {
            Spot::Rest { .. } => target.never,
            _ => when,
        },
        Sense::Exactly => when,
        Sense::Inside => target.always,
        Sense::Outside => target.never,
    }
}

/// The condition under which an outcome gives the value.
#[tactic(auto, unfolding(crate::specs::Targets::given_at))]
pub fn given<C: Copy>(
    problem: &Problem,
    target: &Target<C>,
    sense: Sense,
    outcome: Option<Spot>,
) -> C
    ensures is { (w : World) → IsWorldOf problem.entry.now w → result ≡ given_at w.classes target.now sense (outcome_in w.classes outcome) }
    ensures among { Has (conditions_of target.now) result }
{
    let Some(spot) = outcome else {
        return outside(target, sense);
    };
    match held(problem, target.table.as_slice(), spot) {
        Some(when) => inside(target, sense, spot, when),
        None => outside(target, sense),
    }
}
