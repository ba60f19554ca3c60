//! The functions of a case, each beside what the evaluator finds in the states that bits are read as.

ghost use Rattle.bdd_store.specs.Diagram.{AreLive};
ghost use Rattle.smv_rings.specs.Lists.{IsRel};
ghost use Rattle.smv_problem.specs.WellFormed.{IsProblem};

use bdd_store::{Ref, Store};
use smv_cells::Cell;
use smv_core::flat::Element;
use smv_elements::order::is_same;
use smv_eval::cells_of;
use smv_eval::demands::{demand_met, is_broken_by};
use smv_posed::bits::{Bits, value_at};
use smv_posed::functions::Functions;
use smv_problem::{Demand, Problem};
use smv_readings::{family_bits, read_state, state_bits, values};
use std::alloc::{AllocError, Global};

/// How many functions were met and how many were not, and how many of them the evaluator finds otherwise.
#[derive(Clone, Copy)]
pub struct Seen {
    pub met: u32,
    pub unmet: u32,
    pub otherwise: u32,
}

/// Nothing yet.
pub const NOTHING: Seen = Seen {
    met: 0,
    unmet: 0,
    otherwise: 0,
};

impl Seen {
    fn add(&mut self, found: bool, want: bool) {
        if found {
            self.met = self.met.saturating_add(1);
        } else {
            self.unmet = self.unmet.saturating_add(1);
        }
        if found != want {
            self.otherwise = self.otherwise.saturating_add(1);
        }
    }
}

/// What was seen of the functions of one time: of what holds now, of what held before, and of whether the target is broken.
#[derive(Clone, Copy)]
pub struct Time {
    pub now: Seen,
    pub before: Seen,
    pub broken: Seen,
}

/// The same of time 0 and of a step.
#[derive(Clone, Copy)]
pub struct Tally {
    pub first: Time,
    pub step: Time,
}

const NO_TIME: Time = Time {
    now: NOTHING,
    before: NOTHING,
    broken: NOTHING,
};

/// Nothing yet.
pub const NO_TALLY: Tally = Tally {
    first: NO_TIME,
    step: NO_TIME,
};

// The bits of an element of a family.
fn bits_of(problem: &Problem, family: u16) -> usize {
    family_bits(
        problem.families.as_slice(),
        problem.lists.as_slice(),
        problem.types.as_slice(),
        family,
    ) as usize
}

// How many values a family has.
fn values_of(problem: &Problem, family: u16) -> u32 {
    match problem.families.as_slice().get(family as usize) {
        Some(family) => values(
            problem.lists.as_slice(),
            problem.types.as_slice(),
            family.value,
        ),
        None => 0,
    }
}

// The number that bits spell.
fn code_of(bits: &[bool]) -> u32 {
    let mut code: u32 = 0;
    for bit in bits {
        code = code.wrapping_mul(2).wrapping_add(u32::from(*bit));
    }
    code
}

// Whether a demand is the definition of an element.
fn defines(demand: &Demand, x: &Element) -> bool {
    match demand {
        Demand::Defined { element, .. } => is_same(x, element),
        Demand::Holds { .. } => false,
    }
}

// Whether what is demanded now of an element is met.
fn is_met_now(
    alloc: Global,
    problem: &Problem,
    old: Option<&[Cell<bool>]>,
    new: &[Cell<bool>],
    x: &Element,
) -> Result<bool, AllocError> {
    for demand in problem.now.as_slice() {
        if defines(demand, x) {
            return demand_met(alloc, problem, old, new, demand);
        }
    }
    Ok(true)
}

// What the evaluator says of each element: its code is that of a value, and what is demanded of it now is met.
fn elements_held(
    alloc: Global,
    problem: &Problem,
    old: Option<&[Cell<bool>]>,
    new: &[Cell<bool>],
    bits: &[bool],
) -> Result<Vec<bool>, AllocError> {
    let mut held = Vec::new(alloc);
    let mut rest = bits;
    for x in problem.elements.as_slice() {
        let (own, others) = rest.split_at(bits_of(problem, x.family).min(rest.len()));
        let is_value = code_of(own) < values_of(problem, x.family);
        rest = others;
        let met = is_met_now(alloc, problem, old, new, x)?;
        held.push(is_value && met)?;
    }
    Ok(held)
}

// What it says of what is demanded before.
fn before_held(
    alloc: Global,
    problem: &Problem,
    old: Option<&[Cell<bool>]>,
    new: &[Cell<bool>],
) -> Result<Vec<bool>, AllocError> {
    let mut held = Vec::new(alloc);
    for demand in problem.before.as_slice() {
        let met = demand_met(alloc, problem, old, new, demand)?;
        held.push(met)?;
    }
    Ok(held)
}

// What the evaluator finds at one time.
#[derive(Drop)]
struct Held {
    now: Vec<bool>,
    before: Vec<bool>,
    broken: bool,
}

// What it finds in the states of these cells.
fn held_in(
    alloc: Global,
    problem: &Problem,
    old: Option<&[Cell<bool>]>,
    new: &[Cell<bool>],
    bits: &[bool],
) -> Result<Held, AllocError> {
    let broken = is_broken_by(alloc, problem, old, new)?;
    let before = before_held(alloc, problem, old, new)?;
    let now = elements_held(alloc, problem, old, new, bits)?;
    Ok(Held {
        now,
        before,
        broken,
    })
}

// Looks at the functions of a list; one is otherwise where there are more or fewer of them than wanted.
fn look_at(seen: &mut Seen, store: &Store, functions: &[Ref], wants: &[bool], bits: &Bits)
    requires { AreLive store.now functions.now }
{
    if functions.len() != wants.len() {
        seen.otherwise = seen.otherwise.saturating_add(1);
    }
    for i in 0..functions.len() {
        let want = wants.get(i) == Some(&true);
        seen.add(value_at(store, functions[i], bits), want);
    }
}

// Looks at the functions of the elements that move, or of those that do not, from a place on; they end where this says.
fn look_at_those(
    seen: &mut Seen,
    store: &Store,
    functions: &[Ref],
    wants: &[bool],
    moves: &[bool],
    bits: &Bits,
    moving: bool,
    start: usize,
) -> usize
    requires { AreLive store.now functions.now }
{
    let mut place = start;
    for (want, moves) in wants.iter().zip(moves) {
        if *moves == moving && place < functions.len() {
            seen.add(value_at(store, functions[place], bits), *want);
            place += 1;
        }
    }
    place
}

// The same of all: those of elements that move come first.
fn look_at_moved(
    seen: &mut Seen,
    store: &Store,
    functions: &[Ref],
    wants: &[bool],
    moves: &[bool],
    bits: &Bits,
)
    requires { AreLive store.now functions.now }
{
    let start = look_at_those(seen, store, functions, wants, moves, bits, true, 0);
    let end = look_at_those(seen, store, functions, wants, moves, bits, false, start);
    if end != functions.len() || end != wants.len() {
        seen.otherwise = seen.otherwise.saturating_add(1);
    }
}

// Looks at the functions of time 0, in the state of these cells.
#[tactic(auto, using(smv_posed::proofs::LiveFunctions::now_first_live, smv_posed::proofs::LiveFunctions::before_first_live, smv_posed::proofs::LiveFunctions::broken_first_live))]
fn look_at_first(
    alloc: Global,
    problem: &Problem,
    functions: &Functions,
    bits: &Bits,
    cells: &[Cell<bool>],
    time: &mut Time,
) -> Result<(), AllocError>
    requires { IsRel functions.now.store functions.now.rel }
{
    let held = held_in(alloc, problem, None, cells, bits.current.as_slice())?;
    let store = &functions.store;
    let rel = &functions.rel;
    let now = rel.now_first.as_slice();
    look_at(&mut time.now, store, now, held.now.as_slice(), bits);
    let before = rel.before_first.as_slice();
    look_at(
        &mut time.before,
        store,
        before,
        held.before.as_slice(),
        bits,
    );
    time.broken
        .add(value_at(store, rel.broken_first, bits), held.broken);
    Ok(())
}

// Looks at those of a step, from the state of these cells to that of those.
#[tactic(auto, using(smv_posed::proofs::LiveFunctions::now_step_live, smv_posed::proofs::LiveFunctions::before_step_live, smv_posed::proofs::LiveFunctions::broken_step_live))]
fn look_at_step(
    alloc: Global,
    problem: &Problem,
    moves: &[bool],
    functions: &Functions,
    bits: &Bits,
    old: &[Cell<bool>],
    new: &[Cell<bool>],
    time: &mut Time,
) -> Result<(), AllocError>
    requires { IsRel functions.now.store functions.now.rel }
{
    let held = held_in(alloc, problem, Some(old), new, bits.next.as_slice())?;
    let store = &functions.store;
    let rel = &functions.rel;
    let now = rel.now_step.as_slice();
    look_at_moved(&mut time.now, store, now, held.now.as_slice(), moves, bits);
    let before = rel.before_step.as_slice();
    look_at(
        &mut time.before,
        store,
        before,
        held.before.as_slice(),
        bits,
    );
    time.broken
        .add(value_at(store, rel.broken_step, bits), held.broken);
    Ok(())
}

// The cells of the state that these bits are read as, or none where there are more bits or fewer than the problem has.
fn cells_at(
    alloc: Global,
    problem: &Problem,
    bits: &[bool],
) -> Result<Option<Vec<Cell<bool>>>, AllocError>
    requires { IsProblem problem.now }
{
    if bits.len() != state_bits(problem) as usize {
        return Ok(None);
    }
    let state = read_state(alloc, problem, bits)?;
    let cells = cells_of(alloc, problem, &state)?;
    Ok(Some(cells))
}

// Looks at those of a step from the state of these cells; at none where there are more bits or fewer than the problem has.
fn look_from(
    alloc: Global,
    problem: &Problem,
    moves: &[bool],
    functions: &Functions,
    bits: &Bits,
    old: &[Cell<bool>],
    time: &mut Time,
) -> Result<(), AllocError>
    requires well_formed { IsProblem problem.now }
    requires rel { IsRel functions.now.store functions.now.rel }
{
    let Some(new) = cells_at(alloc, problem, bits.next.as_slice())? else {
        return Ok(());
    };
    look_at_step(
        alloc,
        problem,
        moves,
        functions,
        bits,
        old,
        new.as_slice(),
        time,
    )
}

/// Looks at each function of a problem at these bits, where these elements move by `next`; at none where there are more bits or fewer than the problem has.
pub fn look(
    alloc: Global,
    problem: &Problem,
    moves: &[bool],
    functions: &Functions,
    bits: &Bits,
    tally: &mut Tally,
) -> Result<(), AllocError>
    requires well_formed { IsProblem problem.now }
    requires rel { IsRel functions.now.store functions.now.rel }
{
    let Some(old) = cells_at(alloc, problem, bits.current.as_slice())? else {
        return Ok(());
    };
    let cells = old.as_slice();
    look_at_first(alloc, problem, functions, bits, cells, &mut tally.first)?;
    look_from(
        alloc,
        problem,
        moves,
        functions,
        bits,
        cells,
        &mut tally.step,
    )
}
