// When two assignments clash.
ghost use Rattle.std.specs.Prelude.{◌≡◌};
ghost use Rattle.std.specs.List.{list_all};
ghost use Rattle.smv_core.specs.Walk as walk;
ghost use Rattle.law_designs.specs.WholeText.{is_one_layer};
ghost use Rattle.law_designs.specs.SingleFaults as spec;
ghost use Rattle.smv_single_assignment.specs.Held.{standing_of};
ghost use Rattle.smv_single_assignment.specs.Clashes.{clash_by};

use crate::assignments::Assignment;
use crate::left_sides::{differ, share};
use smv_core::tree::Kind;

/// When an earlier and a later assignment clash: where they meet, where they cross in branches inside these `forall` variables, or where `:=` stands beside `init` or `next`.
#[derive(Clone, Copy)]
pub enum Clash<'v> {
    Meet,
    Cross { around: &'v [u16] },
    Mixed,
}

/// Whether two kinds are the same.
pub fn same_kind(a: Kind, b: Kind) -> bool
    ensures { result ≡ walk.same_kind a b }
{
    matches!(
        (a, b),
        (Kind::Comb, Kind::Comb) | (Kind::Init, Kind::Init) | (Kind::Next, Kind::Next)
    )
}

// Two layers are one, or both are none.
fn same_layer(a: Option<u16>, b: Option<u16>) -> bool
    ensures { result ≡ is_one_layer a b }
{
    match (a, b) {
        (Some(a), Some(b)) => a == b,
        (None, None) => true,
        (Some(_), None) => false,
        (None, Some(_)) => false,
    }
}

// Of one definition set and family, and not told apart by two constants.
fn may_meet(a: &Assignment, b: &Assignment) -> bool
    ensures { result ≡ spec.may_meet (standing_of a.now) (standing_of b.now) }
{
    same_layer(a.layer, b.layer) && a.family == b.family && !differ(a.left, b.left)
}

// The same, and of one kind.
fn meet(a: &Assignment, b: &Assignment) -> bool
    ensures { result ≡ spec.meet (standing_of a.now) (standing_of b.now) }
{
    same_kind(a.kind, b.kind) && may_meet(a, b)
}

// Each variable stands bare at one index of both.
fn share_all(around: &[u16], a: &Assignment, b: &Assignment) -> bool
    ensures { result ≡ list_all (spec.share (standing_of a.now) (standing_of b.now)) around.now }
{
    for var in around {
        if !share(*var, a.left, b.left) {
            return false;
        }
    }
    true
}

// A `:=` and an `init` or `next`.
fn are_mixed(a: &Assignment, b: &Assignment) -> bool
    ensures { result ≡ spec.are_mixed (standing_of a.now) (standing_of b.now) }
{
    same_kind(a.kind, Kind::Comb) != same_kind(b.kind, Kind::Comb) && may_meet(a, b)
}

/// Whether an earlier and a later assignment clash.
pub fn do_clash(by: Clash, a: &Assignment, b: &Assignment) -> bool
    ensures { result ≡ clash_by by.entry (standing_of a.now) (standing_of b.now) }
{
    match by {
        Clash::Meet => meet(a, b),
        Clash::Cross { around } => meet(a, b) && !share_all(around, a, b),
        Clash::Mixed => are_mixed(a, b),
    }
}
