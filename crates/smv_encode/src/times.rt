// Demands, the target and guards by cells that are made.
ghost use Rattle.std.specs.Prelude.{◌≡◌, ℕ, Bool, true, false, Some, None, IfOk};
ghost use Rattle.std.specs.List.{list_all};
ghost use Rattle.bdd_store.specs.Diagram.{IsLive, Keeps, table};
ghost use Rattle.law_obligations.specs.Sets.{Has};
ghost use Rattle.law_obligations.specs.Obligations.{Demanded, is_broken, may_hold as may_hold_in};
ghost use Rattle.smv_core.specs.declared.flat.Guard.{Guard as GuardData};
ghost use Rattle.law_arrangements.specs.Arrangements.{Arrangement};
ghost use Rattle.law_arrangements.specs.ArrangedLists.{met_first, met_step};
ghost use Rattle.smv_problem.specs.Written.{written_demand};
ghost use Rattle.smv_problem.specs.WellFormed.{OfCases, IsFit};
ghost use Rattle.smv_cells.specs.Cells.{AreCellsMade};
ghost use Rattle.smv_cells.specs.Seen.{IsSeen};
ghost use Rattle.smv_outcomes.specs.Remembered.{AreKnown};
ghost use Rattle.smv_encode.specs.Coded.{AreStates, view_at, state_at};
ghost use Rattle.smv_encode.specs.Encoded.{met_at as met_function, broken_at, IsKept, AreLiveCells, AreCellsOf, AreKnownOfCase};

use crate::cells::{CaseKnown, Cells};
use bdd_ops::and;
use bdd_store::{Ref, Store};
use smv_cells::Cell;
use smv_conditions::chances::Chances;
use smv_core::flat::Guard;
use smv_outcomes::{Known, nothing_known};
use smv_problem::{Demand, Problem};
use smv_walks::demands::{broken, may_hold, met};
use std::alloc::{AllocError, Global};

/// Where a demand is met at time 0, by the cells of the current bits.
pub(crate) fn first_by<'a>(
    alloc: Global,
    problem: &Problem,
    current: &[Cell<Ref>],
    known: &mut Known<'a, Chances<Ref>>,
    demand: &'a Demand,
    store: &mut Store,
) -> Result<Ref, AllocError>
    requires live { AreCellsMade (IsLive store.old) current.now }
    requires known { AreKnown IsLive table store.old problem.now current.now known.old.entries.items }
    ensures keeps { Keeps store.old store.new }
    ensures live { IfOk result (λ r. IsLive store.new r) }
    ensures known { IfOk result (λ r. AreKnown IsLive table store.new problem.entry.now current.now known.new.entries.items) }
    ensures means { IfOk result (λ r. OfCases problem.entry.now (λ c. (o : Arrangement) → AreStates c o → IsSeen table store.old problem.entry.now current.now (view_at c o false) → (d : Demanded) → demand.now ≡ written_demand c.problem.world.classes d → IsFit c d → IsKept c d → table store.new r ≡ met_first c o d)) }
{
    let _ = store.vars();
    let mut past = nothing_known(alloc);
    let r = met(
        store, alloc, problem, None, &mut past, current, known, demand,
    );
    let _ = store.vars();
    r
}

/// Where it is met in a step, by those of the current and of the next bits.
pub(crate) fn step_by<'a>(
    alloc: Global,
    problem: &Problem,
    cells: &Cells,
    known: &mut CaseKnown<'a>,
    demand: &'a Demand,
    store: &mut Store,
) -> Result<Ref, AllocError>
    requires live { AreLiveCells store.old cells.now }
    requires known { AreKnownOfCase store.old problem.now cells.now known.old }
    ensures keeps { Keeps store.old store.new }
    ensures live { IfOk result (λ r. IsLive store.new r) }
    ensures known { IfOk result (λ r. AreKnownOfCase store.new problem.entry.now cells.now known.new) }
    ensures means { IfOk result (λ r. OfCases problem.entry.now (λ c. (o : Arrangement) → AreCellsOf c o store.old problem.entry.now cells.now → (d : Demanded) → demand.now ≡ written_demand c.problem.world.classes d → IsFit c d → IsKept c d → table store.new r ≡ met_step c o d)) }
{
    let _ = store.vars();
    let old = cells.current.as_slice();
    let r = met(
        store,
        alloc,
        problem,
        Some(old),
        &mut known.current,
        cells.next.as_slice(),
        &mut known.next,
        demand,
    );
    let _ = store.vars();
    r
}

/// Where it is met: at time 0, or in a step.
pub(crate) fn met_at<'a>(
    alloc: Global,
    problem: &Problem,
    cells: &Cells,
    known: &mut CaseKnown<'a>,
    step: bool,
    demand: &'a Demand,
    store: &mut Store,
) -> Result<Ref, AllocError>
    requires live { AreLiveCells store.old cells.now }
    requires known { AreKnownOfCase store.old problem.now cells.now known.old }
    ensures keeps { Keeps store.old store.new }
    ensures live { IfOk result (λ r. IsLive store.new r) }
    ensures known { IfOk result (λ r. AreKnownOfCase store.new problem.entry.now cells.now known.new) }
    ensures means { IfOk result (λ r. OfCases problem.entry.now (λ c. (o : Arrangement) → AreCellsOf c o store.old problem.entry.now cells.now → (d : Demanded) → demand.now ≡ written_demand c.problem.world.classes d → IsFit c d → IsKept c d → table store.new r ≡ met_function c o step d)) }
{
    if step {
        let r = step_by(alloc, problem, cells, known, demand, store)?;
        Ok(r)
    } else {
        let current = cells.current.as_slice();
        let r = first_by(alloc, problem, current, &mut known.current, demand, store)?;
        Ok(r)
    }
}

// Where a guard may hold in the state of these cells.
fn guard_by<'a>(
    alloc: Global,
    problem: &Problem,
    now: &[Cell<Ref>],
    known: &mut Known<'a, Chances<Ref>>,
    guard: &'a Guard,
    store: &mut Store,
) -> Result<Ref, AllocError>
    requires live { AreCellsMade (IsLive store.old) now.now }
    requires known { AreKnown IsLive table store.old problem.now now.now known.old.entries.items }
    ensures keeps { Keeps store.old store.new }
    ensures live { IfOk result (λ r. IsLive store.new r) }
    ensures known { IfOk result (λ r. AreKnown IsLive table store.new problem.entry.now now.now known.new.entries.items) }
    ensures means { IfOk result (λ r. OfCases problem.entry.now (λ c. (o : Arrangement) (next : Bool) → AreStates c o → IsSeen table store.old problem.entry.now now.now (view_at c o next) → Has c.problem.guards guard.now → (a : ℕ → Bool) → table store.new r a ≡ may_hold_in c.problem (state_at c o next a) guard.now)) }
{
    let _ = store.vars();
    let r = may_hold(store, alloc, problem, now, known, guard);
    let _ = store.vars();
    r
}

// Where each of these guards may hold.
fn guards_by<'a>(
    alloc: Global,
    problem: &Problem,
    now: &[Cell<Ref>],
    known: &mut Known<'a, Chances<Ref>>,
    guards: &'a [Guard],
    store: &mut Store,
) -> Result<Ref, AllocError>
    requires live { AreCellsMade (IsLive store.old) now.now }
    requires known { AreKnown IsLive table store.old problem.now now.now known.old.entries.items }
    ensures keeps { Keeps store.old store.new }
    ensures live { IfOk result (λ r. IsLive store.new r) }
    ensures known { IfOk result (λ r. AreKnown IsLive table store.new problem.entry.now now.now known.new.entries.items) }
    ensures means { IfOk result (λ r. OfCases problem.entry.now (λ c. (o : Arrangement) (next : Bool) → AreStates c o → IsSeen table store.old problem.entry.now now.now (view_at c o next) → ((g : GuardData) → Has guards.now g → Has c.problem.guards g) → (a : ℕ → Bool) → table store.new r a ≡ list_all (may_hold_in c.problem (state_at c o next a)) guards.now)) }
{
    let Some((guard, others)) = guards.split_first() else {
        return Ok(store.constant(true));
    };
    let held = guard_by(alloc, problem, now, known, guard, store)?;
    let all_held = guards_by(alloc, problem, now, known, others, store)?;
    let r = and(alloc, store, held, all_held)?;
    Ok(r)
}

// Where the target is broken at time 0.
fn target_first<'a>(
    alloc: Global,
    problem: &'a Problem,
    current: &[Cell<Ref>],
    known: &mut Known<'a, Chances<Ref>>,
    store: &mut Store,
) -> Result<Ref, AllocError>
    requires live { AreCellsMade (IsLive store.old) current.now }
    requires known { AreKnown IsLive table store.old problem.now current.now known.old.entries.items }
    ensures keeps { Keeps store.old store.new }
    ensures live { IfOk result (λ r. IsLive store.new r) }
    ensures known { IfOk result (λ r. AreKnown IsLive table store.new problem.entry.now current.now known.new.entries.items) }
    ensures means { IfOk result (λ r. OfCases problem.entry.now (λ c. (o : Arrangement) → AreStates c o → IsSeen table store.old problem.entry.now current.now (view_at c o false) → (a : ℕ → Bool) → table store.new r a ≡ is_broken c.problem None (state_at c o false a) c.problem.target)) }
{
    let _ = store.vars();
    let mut past = nothing_known(alloc);
    let target = &problem.target;
    let r = broken(
        store, alloc, problem, None, &mut past, current, known, target,
    );
    let _ = store.vars();
    r
}

// Where it is broken in a step.
fn target_step<'a>(
    alloc: Global,
    problem: &'a Problem,
    cells: &Cells,
    known: &mut CaseKnown<'a>,
    store: &mut Store,
) -> Result<Ref, AllocError>
    requires live { AreLiveCells store.old cells.now }
    requires known { AreKnownOfCase store.old problem.now cells.now known.old }
    ensures keeps { Keeps store.old store.new }
    ensures live { IfOk result (λ r. IsLive store.new r) }
    ensures known { IfOk result (λ r. AreKnownOfCase store.new problem.entry.now cells.now known.new) }
    ensures means { IfOk result (λ r. OfCases problem.entry.now (λ c. (o : Arrangement) → AreCellsOf c o store.old problem.entry.now cells.now → (a : ℕ → Bool) → table store.new r a ≡ is_broken c.problem (Some (state_at c o false a)) (state_at c o true a) c.problem.target)) }
{
    let _ = store.vars();
    let old = cells.current.as_slice();
    let r = broken(
        store,
        alloc,
        problem,
        Some(old),
        &mut known.current,
        cells.next.as_slice(),
        &mut known.next,
        &problem.target,
    );
    let _ = store.vars();
    r
}

/// Where the target is broken at time 0, and each guard may hold.
pub(crate) fn broken_first_by<'a>(
    alloc: Global,
    problem: &'a Problem,
    current: &[Cell<Ref>],
    known: &mut Known<'a, Chances<Ref>>,
    store: &mut Store,
) -> Result<Ref, AllocError>
    requires live { AreCellsMade (IsLive store.old) current.now }
    requires known { AreKnown IsLive table store.old problem.now current.now known.old.entries.items }
    ensures keeps { Keeps store.old store.new }
    ensures live { IfOk result (λ r. IsLive store.new r) }
    ensures known { IfOk result (λ r. AreKnown IsLive table store.new problem.entry.now current.now known.new.entries.items) }
    ensures means { IfOk result (λ r. OfCases problem.entry.now (λ c. (o : Arrangement) → AreStates c o → IsSeen table store.old problem.entry.now current.now (view_at c o false) → table store.new r ≡ broken_at c o false)) }
{
    let guards = problem.guards.as_slice();
    let held = guards_by(alloc, problem, current, known, guards, store)?;
    let broken = target_first(alloc, problem, current, known, store)?;
    let r = and(alloc, store, held, broken)?;
    Ok(r)
}

/// Where it is broken in a step, and each guard may hold.
pub(crate) fn broken_step_by<'a>(
    alloc: Global,
    problem: &'a Problem,
    cells: &Cells,
    known: &mut CaseKnown<'a>,
    store: &mut Store,
) -> Result<Ref, AllocError>
    requires live { AreLiveCells store.old cells.now }
    requires known { AreKnownOfCase store.old problem.now cells.now known.old }
    ensures keeps { Keeps store.old store.new }
    ensures live { IfOk result (λ r. IsLive store.new r) }
    ensures known { IfOk result (λ r. AreKnownOfCase store.new problem.entry.now cells.now known.new) }
    ensures means { IfOk result (λ r. OfCases problem.entry.now (λ c. (o : Arrangement) → AreCellsOf c o store.old problem.entry.now cells.now → table store.new r ≡ broken_at c o true)) }
{
    let guards = problem.guards.as_slice();
    let next = cells.next.as_slice();
    let held = guards_by(alloc, problem, next, &mut known.next, guards, store)?;
    let broken = target_step(alloc, problem, cells, known, store)?;
    let r = and(alloc, store, held, broken)?;
    Ok(r)
}
