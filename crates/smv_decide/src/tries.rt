// A problem is tried over more than one order of its bits.
ghost use Rattle.std.specs.Prelude.{◌≡◌, ◌≤◌, ℕ, false, IfOk};
ghost use Rattle.smv_rings.specs.Lists.{IsRel, lists_of};
ghost use Rattle.law_obligations.specs.Readings.{state_bits as bits_of_case};
ghost use Rattle.smv_core.specs.Values.{numbers_from};
ghost use Rattle.law_events.specs.Events.{IsFirstEvent};
ghost use Rattle.law_reports.specs.CaseLists.{case_lists};
ghost use Rattle.law_reports.specs.Verdicts.{MayBeTold};
ghost use Rattle.law_arrangements.specs.Orders.{IsOrder};
ghost use Rattle.smv_problem.specs.WellFormed.{IsProblem, OfCases};
ghost use Rattle.smv_trace.specs.Wired.{AreWired};
ghost use Rattle.smv_decide.specs.Decisions.{IsFound};
ghost use Rattle.smv_decide.specs.Tries.{IsTried, is_out};

use crate::near::try_near;
use crate::room::relations_within;
use bdd_store::Store;
use smv_core::Seq;
use smv_core::flat::Element;
use smv_orders::declared_order;
use smv_problem::{AbsState, Budgets, Problem};
use smv_readings::state_bits;
use smv_rings::Rel;
use smv_search::{Outcome, search};
use smv_trace::path;
use std::alloc::{AllocError, Global};

/// What is found of a problem over an order of its bits.
#[derive(Drop)]
pub enum Tried {
    /// It has no violating path.
    Safe,
    /// It has one: a shortest.
    Broken { path: Seq<AbsState> },
    /// The budget of nodes was passed by this count of beads.
    OutOfNodes { count: usize },
    /// The budget of images was used up.
    OutOfSteps,
    /// Its functions have no room over this order.
    NoRoom,
}

/// The first tries are made under this part of the budget of nodes.
const PART: u32 = 16;

/// Whether the budget of nodes was passed, or there was no room for the functions.
pub(crate) fn is_out_of_nodes(tried: &Tried) -> bool
    ensures { result ≡ is_out tried.now }
{
    match tried {
        Tried::Safe => false,
        Tried::Broken { .. } => false,
        Tried::OutOfNodes { .. } => true,
        Tried::OutOfSteps => false,
        Tried::NoRoom => true,
    }
}

// What the outcome of a search over an order of the bits, with these elements worked out, says of the problem, with a shortest path where it reaches a violation.
fn found_over(
    alloc: Global,
    problem: &Problem,
    order: &[u16],
    wires: &[Element],
    rel: &Rel,
    store: &mut Store,
    outcome: Outcome,
    budgets: Budgets,
) -> Result<Tried, AllocError>
    requires well_formed { IsProblem problem.now }
    requires order { OfCases problem.now (λ c. IsOrder (bits_of_case c) order.now) }
    requires rel { IsRel store.old rel.now }
    requires lists { OfCases problem.now (AreWired order.now wires.now (lists_of store.old rel.now)) }
    requires found { IsFound store.old (lists_of store.old rel.now) budgets.nodes budgets.steps outcome }
    ensures { IfOk result (λ tried. OfCases problem.entry.now (λ c. IsTried (IsFirstEvent (lists_of store.old rel.now) budgets.nodes budgets.steps) c tried)) }
{
    match outcome {
        Outcome::Closed { set: _ } => Ok(Tried::Safe),
        Outcome::Reaches { depth, rings } => {
            let states = path(alloc, problem, rel, store, order, wires, &rings, depth)?;
            Ok(Tried::Broken { path: states })
        }
        Outcome::OutOfNodes { count } => Ok(Tried::OutOfNodes { count }),
        Outcome::OutOfSteps => Ok(Tried::OutOfSteps),
    }
}

/// What a search over functions finds of their problem.
pub(crate) fn search_over(
    alloc: Global,
    problem: &Problem,
    order: &[u16],
    wires: &[Element],
    rel: &Rel,
    store: &mut Store,
    budgets: Budgets,
) -> Result<Tried, AllocError>
    requires well_formed { IsProblem problem.now }
    requires steps { 1 ≤ budgets.steps }
    requires order { OfCases problem.now (λ c. IsOrder (bits_of_case c) order.now) }
    requires rel { IsRel store.old rel.now }
    requires lists { OfCases problem.now (AreWired order.now wires.now (lists_of store.old rel.now)) }
    ensures { IfOk result (λ tried. OfCases problem.entry.now (λ c. IsTried (IsFirstEvent (lists_of store.old rel.now) budgets.nodes budgets.steps) c tried)) }
{
    let outcome = search(alloc, rel, store, budgets.nodes, budgets.steps)?;
    let tried = found_over(alloc, problem, order, wires, rel, store, outcome, budgets)?;
    Ok(tried)
}

// A try over the declared order, with a store of its own.
fn try_declared(
    alloc: Global,
    problem: &Problem,
    declared: &[u16],
    budgets: Budgets,
) -> Result<Tried, AllocError>
    requires well_formed { IsProblem problem.now }
    requires declared { OfCases problem.now (λ c. declared.now ≡ numbers_from 0 (bits_of_case c)) }
    requires steps { 1 ≤ budgets.steps }
    ensures { IfOk result (λ tried. OfCases problem.entry.now (λ c. IsTried (IsFirstEvent (case_lists c) budgets.nodes budgets.steps) c tried)) }
{
    let bits = state_bits(problem);
    let mut store = Store::new(alloc, 2 * u32::from(bits))?;
    let Some(rel) = relations_within(alloc, problem, &mut store, budgets.nodes)? else {
        return Ok(Tried::NoRoom);
    };
    let tried = search_over(alloc, problem, declared, &[], &rel, &mut store, budgets)?;
    Ok(tried)
}

// Tries over the declared order and then over the near one, under a budget of nodes: what is found first that is not that this is passed, or else what comes of the declared order.
fn try_both(
    alloc: Global,
    problem: &Problem,
    declared: &[u16],
    budgets: Budgets,
) -> Result<Tried, AllocError>
    requires well_formed { IsProblem problem.now }
    requires declared { OfCases problem.now (λ c. declared.now ≡ numbers_from 0 (bits_of_case c)) }
    requires steps { 1 ≤ budgets.steps }
    ensures tried { IfOk result (λ tried. OfCases problem.entry.now (λ c. (nodes : ℕ) → is_out tried ≡ false → IsTried (MayBeTold nodes budgets.steps c) c tried)) }
    ensures whole { IfOk result (λ tried. OfCases problem.entry.now (λ c. IsTried (MayBeTold budgets.nodes budgets.steps c) c tried)) }
{
    let first = try_declared(alloc, problem, declared, budgets)?;
    let tried = try_near(alloc, problem, declared, budgets, first)?;
    Ok(tried)
}

/// What may be told of a problem: what a try finds first that is not that its budget of nodes is passed; else the count over the declared order under all nodes, or that there was no room. The declared order is tried
/// before the near one, both under a part of the nodes and then under all.
pub(crate) fn tries(alloc: Global, problem: &Problem, budgets: Budgets) -> Result<Tried, AllocError>
    requires well_formed { IsProblem problem.now }
    requires steps { 1 ≤ budgets.steps }
    ensures { IfOk result (λ tried. OfCases problem.entry.now (λ c. IsTried (MayBeTold budgets.nodes budgets.steps c) c tried)) }
{
    let declared = declared_order(alloc, problem)?;
    let part = budgets.nodes / PART;
    if part > 0 {
        let few = Budgets {
            nodes: part,
            steps: budgets.steps,
        };
        let tried = try_both(alloc, problem, declared.as_slice(), few)?;
        if !is_out_of_nodes(&tried) {
            return Ok(tried);
        }
    }
    let tried = try_both(alloc, problem, declared.as_slice(), budgets)?;
    Ok(tried)
}
