// Which formula each claim over several times has, and which monitors.
ghost use Rattle.std.specs.Prelude.{◌≡◌, ℕ, nat_eq, map, take, drop, option_map, slice_get, OnOk, IfOk};
ghost use Rattle.law_formulas.specs.Formulas.{at_place};
ghost use Rattle.law_formulas.specs.Monitors as monitors;
ghost use Rattle.law_formulas.specs.Steps as steps;
ghost use Rattle.smv_parse_formulas.specs.Trees.{meant, meanings};
ghost use Rattle.smv_ltl.specs.Plans.{entry_of, watched_of, noted, found_or, place_in};

use crate::formulas::places_of;
use smv_core::name::Name;
use smv_parse_formulas::tree::{Formula, Placed};
use std::alloc::{AllocError, Global};
use std::collections::HashMap;

/// A formula with the names of its monitors.
#[derive(Clone, Copy)]
pub struct Watched<'a> {
    pub formula: &'a Formula,
    pub monitors: &'a [Name],
}

/// A formula with the names of its monitors. `at`: its first token.
#[derive(Clone, Copy)]
pub struct Entry<'a> {
    pub at: u32,
    pub watched: Watched<'a>,
}

/// The formulas of a text with their monitors, each found by its offset.
#[derive(Drop)]
pub struct Plan<'a> {
    pub entries: Vec<Entry<'a>>,
    pub places: HashMap<u32, usize>,
    ghost are_noted: { (at : ℕ) → noted places at ≡ place_in 0 entries.items at },
}

// An offset has its place, unless it had one.
fn note(places: &mut HashMap<u32, usize>, at: u32, place: usize) -> Result<(), AllocError>
    ensures { OnOk result ((other : ℕ) → noted places.new other ≡ found_or (noted places.old other) (nat_eq at other) place) }
{
    if !places.contains_key(&at) {
        places.insert(at, place)?;
    }
    Ok(())
}

// The first place of each offset.
#[tactic(auto, using(crate::proofs::PlanLaws::noting))]
fn places_of_entries(alloc: Global, entries: &[Entry]) -> Result<HashMap<u32, usize>, AllocError>
    ensures { IfOk result (λ places. (at : ℕ) → noted places at ≡ place_in 0 entries.now at) }
{
    let mut places = HashMap::new(alloc);
    for (n, entry) in entries.iter().enumerate() {
        note(&mut places, entry.at, n)?;
    }
    Ok(places)
}

// A formula with the first names, as many as it has monitors, and the names that are left.
#[tactic(auto, using(crate::proofs::PlanLaws::least))]
fn next_entry<'a>(placed: &'a Placed, names: &'a [Name]) -> (Entry<'a>, &'a [Name])
    ensures entry { entry_of result.0 ≡ (placed.now.at, record { formula = meant placed.now.formula; monitors = take (steps.places_of (meant placed.now.formula)) names.now }) }
    ensures left { result.1.now ≡ drop (steps.places_of (meant placed.now.formula)) names.now }
{
    let count = places_of(&placed.formula).min(names.len());
    let (monitors, left) = names.split_at(count);
    let formula = &placed.formula;
    let watched = Watched { formula, monitors };
    let entry = Entry {
        at: placed.at,
        watched,
    };
    (entry, left)
}

// Each formula with the next names.
fn entries_of<'a>(
    alloc: Global,
    formulas: &'a [Placed],
    names: &'a [Name],
) -> Result<Vec<Entry<'a>>, AllocError>
    ensures { IfOk result (λ entries. map entry_of entries.items ≡ monitors.watched (meanings formulas.now) names.now) }
{
    let mut entries = Vec::new(alloc);
    let mut left = names;
    for placed in formulas {
        let (entry, more) = next_entry(placed, left);
        entries.push(entry)?;
        left = more;
    }
    Ok(entries)
}

/// The formulas with their monitors, which have the names in their order.
pub fn make_plan<'a>(
    alloc: Global,
    formulas: &'a [Placed],
    names: &'a [Name],
) -> Result<Plan<'a>, AllocError>
    ensures { IfOk result (λ plan. map entry_of plan.entries.items ≡ monitors.watched (meanings formulas.now) names.now) }
{
    let entries = entries_of(alloc, formulas, names)?;
    let places = places_of_entries(alloc, entries.as_slice())?;
    Ok(Plan { entries, places })
}

// The place that is noted of an offset.
fn place_at(places: &HashMap<u32, usize>, at: u32) -> Option<usize>
    ensures { result ≡ noted places.now at }
{
    places.get(&at).copied()
}

// The formula at a place, with its monitors.
fn watched_at<'a>(entries: &[Entry<'a>], place: usize) -> Option<Watched<'a>>
    ensures { option_map watched_of result ≡ option_map (λ e. watched_of e.watched) (slice_get entries.now place) }
{
    match entries.get(place) {
        Some(entry) => Some(entry.watched),
        None => None,
    }
}

impl<'a> Plan<'a> {
    /// The formula at an offset, with its monitors.
    pub fn find(&self, at: u32) -> Option<Watched<'a>>
        ensures { option_map watched_of result ≡ at_place (map entry_of self.now.entries.items) at }
    {
        match place_at(&self.places, at) {
            Some(place) => watched_at(self.entries.as_slice(), place),
            None => None,
        }
    }
}
