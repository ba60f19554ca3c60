// What comparisons of spots may give.
ghost use Rattle.std.specs.Prelude.{◌≡◌, ◌∷◌, [], slice_get, Some};
ghost use Rattle.smv_core.specs.Values.{below};
ghost use Rattle.law_obligations.specs.Places.{World, unsure, equal_places, below_places, may_compare};
ghost use Rattle.smv_spots.specs.Spots.{place_in, outcome_in, of_set};
ghost use Rattle.smv_spots.specs.Answers.{answers_of, turned_of};
ghost use Rattle.smv_problem_spots.specs.Worlds.{IsWorldOf};

use crate::numbers::{is_one_set, is_ordered};
use crate::same::is_same;
use smv_core::tree::Op;
use smv_problem::Problem;
use smv_spots::answers::Answers;
use smv_spots::spots::Spot;

// One answer.
fn one(t: Option<bool>) -> Answers
    ensures { result ≡ answers_of (t ∷ []) }
{
    Answers {
        no: t == Some(false),
        yes: t == Some(true),
        neither: t.is_none(),
    }
}

// Both truth values, where there is one.
fn open(t: Option<bool>) -> Answers
    ensures { result ≡ answers_of (unsure t) }
{
    Answers {
        no: t.is_some(),
        yes: t.is_some(),
        neither: t.is_none(),
    }
}

// `~` of the answers.
fn turned(a: Answers) -> Answers
    ensures { result ≡ turned_of a }
{
    Answers {
        no: a.yes,
        yes: a.no,
        neither: a.neither,
    }
}

/// `=` of two spots: only a rest with itself is not known.
pub fn equal(problem: &Problem, p: Spot, q: Spot) -> Answers
    ensures { (w : World) → IsWorldOf problem.entry.now w → result ≡ answers_of (equal_places (place_in w.classes p) (place_in w.classes q)) }
{
    let same = is_same(problem, p, q);
    match p {
        Spot::Rest { .. } => Answers {
            no: true,
            yes: same,
            neither: false,
        },
        _ => Answers {
            no: !same,
            yes: same,
            neither: false,
        },
    }
}

// `<` of two values of set types.
#[tactic(auto, using(crate::proofs::WorldLaws::below_where, crate::proofs::WorldLaws::below_nowhere))]
fn is_below(problem: &Problem, set: u16, value: u16, other: u16, bound: u16) -> Option<bool>
    ensures { (w : World) → IsWorldOf problem.entry.now w → result ≡ below (Some (of_set (slice_get w.classes.sets set) value)) (Some (of_set (slice_get w.classes.sets other) bound)) }
{
    if is_ordered(problem, set) && is_one_set(problem, set, other) {
        Some(value < bound)
    } else {
        None
    }
}

/// `<` of two spots: a gap lies below the class of its number, and only a gap with itself is not known.
pub fn less(problem: &Problem, p: Spot, q: Spot) -> Answers
    ensures { (w : World) → IsWorldOf problem.entry.now w → result ≡ answers_of (below_places (place_in w.classes p) (place_in w.classes q)) }
{
    match (p, q) {
        (Spot::Number { value: a }, Spot::Number { value: b }) => one(Some(a < b)),
        (Spot::Class { set: s, class: a }, Spot::Class { set: t, class: b }) => one(is_below(
            problem, s, a, t, b,
        )),
        (Spot::Class { set: s, class: a }, Spot::Rest { set: t, rest: b }) => one(is_below(
            problem, s, a, t, b,
        )),
        (Spot::Rest { set: s, rest: a }, Spot::Class { set: t, class: b }) => turned(one(is_below(
            problem, t, b, s, a,
        ))),
        (Spot::Rest { set: s, rest: a }, Spot::Rest { set: t, rest: b }) => {
            let below = is_below(problem, s, a, t, b);
            if is_same(problem, p, q) {
                open(below)
            } else {
                one(below)
            }
        }
        _ => one(None),
    }
}

/// What a comparison of two outcomes may give.
pub fn compared(problem: &Problem, op: Op, u: Option<Spot>, v: Option<Spot>) -> Answers
    ensures { (w : World) → IsWorldOf problem.entry.now w → result ≡ answers_of (may_compare op (outcome_in w.classes u) (outcome_in w.classes v)) }
{
    let (Some(p), Some(q)) = (u, v) else {
        return one(None);
    };
    match op {
        Op::Equal => equal(problem, p, q),
        Op::Differ => turned(equal(problem, p, q)),
        Op::Less => less(problem, p, q),
        Op::AtMost => turned(less(problem, q, p)),
        Op::Greater => less(problem, q, p),
        Op::AtLeast => turned(less(problem, p, q)),
    }
}
