// Demands, targets and guards in states that are read by cells.
ghost use Rattle.std.specs.Prelude.{◌≡◌, List, Option, IfOk, map, option_copied};
ghost use Rattle.std.specs.List.{list_all};
ghost use Rattle.law_obligations.specs.Sets.{Has};
ghost use Rattle.law_obligations.specs.May.{AbsState as Abstract};
ghost use Rattle.law_obligations.specs.Obligations.{AbstractProblem as Case, Demanded, is_met, is_broken, may_hold, obligation};
ghost use Rattle.smv_problem.specs.Written.{written_demand};
ghost use Rattle.smv_problem.specs.WellFormed.{OfCases};
ghost use Rattle.smv_core.specs.declared.flat.Guard.{Guard as GuardOf};
ghost use Rattle.smv_walks.specs.Demands.{IsDemand, IsTargetOf, IsGuard};
ghost use Rattle.smv_eval.specs.Held.{IsNowBy, AreReadBy};

use smv_cells::Cell;
use smv_conditions::stores::Plain;
use smv_core::flat::Guard;
use smv_outcomes::nothing_known;
use smv_problem::{Demand, Problem};
use smv_walks::demands;
use std::alloc::{AllocError, Global};

/// A demand is met.
#[tactic(auto, using(crate::proofs::HeldLaws::cells_made, crate::proofs::HeldLaws::old_made, smv_outcomes::proofs::KnownLaws::none_known, crate::proofs::KnownLaws::none_past))]
pub fn demand_met(
    alloc: Global,
    problem: &Problem,
    old: Option<&[Cell<bool>]>,
    cells: &[Cell<bool>],
    demand: &Demand,
) -> Result<bool, AllocError>
    ensures { IfOk result (λ met. (p : Case) (before : Option Abstract) (now : Abstract) → AreReadBy problem.entry.now (option_copied old.entry) cells.now p before now → (d : Demanded) → IsDemand p d → demand.now ≡ written_demand p.world.classes d → met ≡ is_met p before now d) }
{
    let mut plain = Plain {};
    let mut past = nothing_known(alloc);
    let mut known = nothing_known(alloc);
    let met = demands::met(
        &mut plain, alloc, problem, old, &mut past, cells, &mut known, demand,
    )?;
    Ok(met)
}

/// All these demands are met.
pub fn all_met(
    alloc: Global,
    problem: &Problem,
    old: Option<&[Cell<bool>]>,
    cells: &[Cell<bool>],
    demands: &[Demand],
) -> Result<bool, AllocError>
    ensures { IfOk result (λ met. (p : Case) (before : Option Abstract) (now : Abstract) → AreReadBy problem.entry.now (option_copied old.entry) cells.now p before now → (ds : List Demanded) → ((d : Demanded) → Has ds d → IsDemand p d) → demands.now ≡ map (written_demand p.world.classes) ds → met ≡ list_all (is_met p before now) ds) }
{
    let Some((demand, others)) = demands.split_first() else {
        return Ok(true);
    };
    if !demand_met(alloc, problem, old, cells, demand)? {
        return Ok(false);
    }
    let met = all_met(alloc, problem, old, cells, others)?;
    Ok(met)
}

// Each of these guards may hold.
#[tactic(auto, using(crate::proofs::HeldLaws::cells_made, smv_outcomes::proofs::KnownLaws::none_known))]
fn all_may_hold(
    alloc: Global,
    problem: &Problem,
    cells: &[Cell<bool>],
    guards: &[Guard],
) -> Result<bool, AllocError>
    ensures { IfOk result (λ hold. (p : Case) (now : Abstract) → IsNowBy problem.entry.now cells.now p now → ((g : GuardOf) → Has guards.now g → IsGuard p problem.entry.now.bindings g) → hold ≡ list_all (may_hold p now) guards.now) }
{
    let Some((guard, others)) = guards.split_first() else {
        return Ok(true);
    };
    let mut plain = Plain {};
    let mut known = nothing_known(alloc);
    if !demands::may_hold(&mut plain, alloc, problem, cells, &mut known, guard)? {
        return Ok(false);
    }
    let hold = all_may_hold(alloc, problem, cells, others)?;
    Ok(hold)
}

// The target is broken.
#[tactic(auto, using(crate::proofs::HeldLaws::cells_made, crate::proofs::HeldLaws::old_made, smv_outcomes::proofs::KnownLaws::none_known, crate::proofs::KnownLaws::none_past))]
fn target_broken(
    alloc: Global,
    problem: &Problem,
    old: Option<&[Cell<bool>]>,
    cells: &[Cell<bool>],
    target: &Demand,
) -> Result<bool, AllocError>
    ensures { IfOk result (λ broken. (p : Case) (before : Option Abstract) (now : Abstract) → AreReadBy problem.entry.now (option_copied old.entry) cells.now p before now → (d : Demanded) → IsTargetOf p d → target.now ≡ written_demand p.world.classes d → broken ≡ is_broken p before now d) }
{
    let mut plain = Plain {};
    let mut past = nothing_known(alloc);
    let mut known = nothing_known(alloc);
    let broken = demands::broken(
        &mut plain, alloc, problem, old, &mut past, cells, &mut known, target,
    )?;
    Ok(broken)
}

/// The target is broken, and each guard may hold.
pub fn is_broken_by(
    alloc: Global,
    problem: &Problem,
    old: Option<&[Cell<bool>]>,
    cells: &[Cell<bool>],
) -> Result<bool, AllocError>
    ensures { IfOk result (λ broken. OfCases problem.entry.now (λ c. (before : Option Abstract) (now : Abstract) → AreReadBy problem.entry.now (option_copied old.entry) cells.now c.problem before now → broken ≡ (obligation c.problem).broken before now)) }
{
    if !all_may_hold(alloc, problem, cells, problem.guards.as_slice())? {
        return Ok(false);
    }
    let broken = target_broken(alloc, problem, old, cells, &problem.target)?;
    Ok(broken)
}
