// Earlier assignments that clash with later ones.
ghost use Rattle.std.specs.Prelude.{◌≡◌, ◌≤◌, ◌<◌, ℕ, length, slice_get, Some, false};
ghost use Rattle.std.specs.List.{list_any};
ghost use Rattle.smv_first_fault.specs.Firsts.{least};
ghost use Rattle.law_designs.specs.Standing.{Standing};
ghost use Rattle.law_designs.specs.SingleFaults.{later_places, cross, meet};
ghost use Rattle.smv_single_assignment.specs.Clashes.{clash_by, clashes_of};
ghost use Rattle.smv_single_assignment.specs.Links.{IsTable, held, between};
ghost use Rattle.smv_single_assignment.specs.Shared.{AreApart, AreInside};

use crate::clashes::{Clash, do_clash, same_kind};
use crate::links::{Table, links_of};
use smv_core::tree::Kind;
use smv_first_fault::places::{first_of, place_if};

// Whether an assignment is of a kind and clashes with a later one.
fn is_clash(table: &Table, kind: Kind, by: Clash, earlier: usize, later: usize) -> bool
    requires earlier { earlier < length (held table.now) }
    requires later { later < length (held table.now) }
    ensures { (a b : Standing) → slice_get (held table.now) earlier ≡ Some a → slice_get (held table.now) later ≡ Some b → result ≡ clashes_of kind by.entry b a }
{
    let first = &table.all[earlier];
    same_kind(first.kind, kind) && do_clash(by, first, &table.all[later])
}

// Whether an assignment of a kind, from one place on and before another, clashes with a later one.
fn has_earlier_of(
    table: &Table,
    kind: Kind,
    by: Clash,
    start: usize,
    middle: usize,
    place: usize,
) -> bool
    requires table { (count : ℕ) × IsTable table.now count }
    requires order { middle ≤ place }
    requires within { place < length (held table.now) }
    ensures { (b : Standing) → slice_get (held table.now) place ≡ Some b → result ≡ list_any (clashes_of kind by.entry b) (between start middle (held table.now)) }
{
    let links = links_of(table, kind);
    let mut end = links[place];
    while end > start {
        let earlier = end - 1;
        if earlier < middle && is_clash(table, kind, by, earlier, place) {
            return true;
        }
        end = links[earlier];
    }
    false
}

// Whether any assignment there clashes with a later one.
fn has_earlier(table: &Table, by: Clash, start: usize, middle: usize, place: usize) -> bool
    requires table { (count : ℕ) × IsTable table.now count }
    requires order { middle ≤ place }
    requires within { place < length (held table.now) }
    ensures { (b : Standing) → slice_get (held table.now) place ≡ Some b → result ≡ list_any (λ a. clash_by by.entry a b) (between start middle (held table.now)) }
{
    let kind = table.all[place].kind;
    match by {
        Clash::Mixed => match kind {
            Kind::Comb => {
                has_earlier_of(table, Kind::Init, by, start, middle, place)
                    || has_earlier_of(table, Kind::Next, by, start, middle, place)
            }
            Kind::Init => has_earlier_of(table, Kind::Comb, by, start, middle, place),
            Kind::Next => has_earlier_of(table, Kind::Comb, by, start, middle, place),
        },
        Clash::Meet => has_earlier_of(table, kind, by, start, middle, place),
        Clash::Cross { .. } => has_earlier_of(table, kind, by, start, middle, place),
    }
}

/// The first place of an assignment between the last two places that clashes with one between the first two. There is none behind the last assignment.
pub(crate) fn first_clash(
    table: &Table,
    by: Clash,
    start: usize,
    middle: usize,
    end: usize,
) -> Option<u32>
    requires { (count : ℕ) × IsTable table.now count }
    ensures { middle ≤ end → end ≤ length (held table.now) → result ≡ least (later_places (clash_by by.entry) (between start middle (held table.now)) (between middle end (held table.now))) }
{
    let mut found = None;
    for place in middle..end.min(table.all.len()) {
        let clashes = has_earlier(table, by, start, middle, place);
        found = first_of(found, place_if(clashes, table.all[place].at));
    }
    found
}

// Whether an assignment between the last two places has the last one before it of its class and kind between the first two.
fn do_touch(table: &Table, start: usize, middle: usize, end: usize) -> bool
    requires { (count : ℕ) × IsTable table.now count }
    ensures { result ≡ false → AreApart (held table.now) start middle end }
{
    if middle <= start {
        return false;
    }
    for place in middle..end.min(table.all.len()) {
        let last = links_of(table, table.all[place].kind)[place];
        if start < last && last <= middle {
            return true;
        }
    }
    false
}

/// The same, where they clash because they meet.
pub(crate) fn first_meeting(table: &Table, start: usize, middle: usize, end: usize) -> Option<u32>
    requires { (count : ℕ) × IsTable table.now count }
    ensures { middle ≤ end → end ≤ length (held table.now) → result ≡ least (later_places meet (between start middle (held table.now)) (between middle end (held table.now))) }
{
    if !do_touch(table, start, middle, end) {
        return None;
    }
    first_clash(table, Clash::Meet, start, middle, end)
}

/// The same for branches inside these `forall` variables. Inside none every two branches are excused, and so they are where each two assignments share their variables.
pub(crate) fn first_cross(
    table: &Table,
    around: &[u16],
    start: usize,
    middle: usize,
    end: usize,
) -> Option<u32>
    requires { (count : ℕ) × IsTable table.now count }
    ensures { middle ≤ end → end ≤ length (held table.now) → AreInside around.now (between start middle (held table.now)) → AreInside around.now (between middle end (held table.now)) → result ≡ least (later_places (cross around.now) (between start middle (held table.now)) (between middle end (held table.now))) }
{
    if around.is_empty() || table.shared {
        return None;
    }
    if !do_touch(table, start, middle, end) {
        return None;
    }
    first_clash(table, Clash::Cross { around }, start, middle, end)
}
