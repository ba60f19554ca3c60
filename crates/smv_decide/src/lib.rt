//! A case of a leaf is decided by its problem, the lists of functions of the problem, the search over them and, where the search reaches a violation, the trace of its rings.
//!
//! For the call that decides the units of a plan. `tasks` says what it passes in, `leaves` goes through the cases of a leaf in order. A reader begins with `specs/Decisions`; to know what a verdict rests on,
//! read on in `law_reports`. Each case has a store of diagrams of its own, which is given back with the case.
#![tactic(auto)]

ghost use Rattle.std.specs.Prelude.{◌≡◌, ◌≤◌, IfOk, None};
ghost use Rattle.smv_rings.specs.Lists.{IsRel, lists_of};
ghost use Rattle.law_reports.specs.CaseLists.{IsListsOf};
ghost use Rattle.smv_problem.specs.WellFormed.{IsProblem, IsProblemOf, OfCases};
ghost use Rattle.law_problems.specs.Parts.{IsCaseOf, width_fault};
ghost use Rattle.smv_obligations.specs.Shared.{IsShared, shared_in};
ghost use Rattle.smv_bits.specs.declared.Bits.TheVariants.{Near, Declared};
ghost use Rattle.smv_decide.specs.declared.Decision.TheVariants.{False};
ghost use Rattle.smv_decide.specs.Decisions.{IsDecided, IsFound};
ghost use Rattle.law_reports.specs.Verdicts.{MayBeTold};
ghost use Rattle.smv_decide.specs.Tries.{IsTried};
ghost use Rattle.smv_decide.specs.Tasks.{IsTask, case_in};

pub mod leaves;
mod near;
pub mod room;
pub mod tasks;
pub mod tries;

use bdd_store::Store;
use room::relations_in_room;
use smv_bits::Bits;
use smv_core::Seq;
use smv_core::flat::{Case, Element};
pub use smv_encode::relations;
use smv_obligations::{ProblemParts, Shared, problem_with, taken_apart, taken_back};
use smv_orders::declared_order;
use smv_problem::{AbsState, Budgets, Problem};
use smv_readings::state_bits;
use smv_rings::Rel;
use smv_search::{Outcome, search};
use smv_trace::path;
use std::alloc::{AllocError, Global};
use tasks::Task;
use tries::{Tried, tries};

/// What is decided of a case.
#[derive(Drop)]
pub enum Decision {
    /// It has no violating path.
    True,
    /// It has one: a shortest, by the values of these elements.
    False {
        elements: Seq<Element>,
        path: Seq<AbsState>,
    },
    /// The budget of nodes was passed by this count of beads.
    UnknownNodes {
        count: usize,
    },
    /// The budget of images was used up.
    UnknownSteps,
}

/// What is decided of a case. What the problems of all cases of the design have in common is given back with it.
#[derive(Drop)]
pub struct Decided {
    pub decision: Decision,
    pub shared: Shared,
}

/// What the outcome of a search over the declared lists says of the problem, with a shortest path where it reaches a violation. What the problems of all cases of the design have in common is given back with it.
pub fn tell(
    alloc: Global,
    problem: Problem,
    rel: &Rel,
    store: &mut Store,
    outcome: Outcome,
    budgets: Budgets,
) -> Result<Decided, AllocError>
    requires well_formed { IsProblem problem }
    requires rel { IsRel store.old rel.now }
    requires lists { OfCases problem (λ c. IsListsOf c (lists_of store.old rel.now)) }
    requires found { IsFound store.old (lists_of store.old rel.now) budgets.nodes budgets.steps outcome }
    ensures decided { IfOk result (λ decided. OfCases problem (λ c. IsDecided Declared budgets.nodes budgets.steps c decided.decision)) }
    ensures shared { IfOk result (λ decided. decided.shared ≡ shared_in problem) }
{
    match outcome {
        Outcome::Closed { set: _ } => Ok(Decided {
            decision: Decision::True,
            shared: taken_back(problem),
        }),
        Outcome::Reaches { depth, rings } => {
            let order = declared_order(alloc, &problem)?;
            let order = order.as_slice();
            let states = path(alloc, &problem, rel, store, order, &[], &rings, depth)?;
            Ok(shown(problem, states))
        }
        Outcome::OutOfNodes { count } => Ok(Decided {
            decision: Decision::UnknownNodes { count },
            shared: taken_back(problem),
        }),
        Outcome::OutOfSteps => Ok(Decided {
            decision: Decision::UnknownSteps,
            shared: taken_back(problem),
        }),
    }
}

// That a problem has a violating path.
fn shown(problem: Problem, states: Seq<AbsState>) -> Decided
    ensures { result ≡ record { decision = False problem.elements states; shared = shared_in problem } }
{
    let ProblemParts { elements, shared } = taken_apart(problem);
    Decided {
        decision: Decision::False {
            elements,
            path: states,
        },
        shared,
    }
}

/// The problem of a case that has not too many state bits. What the problems of all cases of the design have in common is moved in.
pub fn problem_of(
    alloc: Global,
    shared: Shared,
    task: &Task,
    case: &Case,
) -> Result<Problem, AllocError>
    requires shared { IsShared task.now.design.now shared }
    requires task { IsTask task.now }
    requires case { IsCaseOf task.now.design.now task.now.leaf.now task.now.choice.now case.now.classes }
    requires width { width_fault task.now.design.now task.now.leaf.now task.now.choice.now case.now.classes ≡ None }
    ensures problem { IfOk result (λ p. IsProblemOf (case_in task.now case.now.classes) p) }
    ensures shared { IfOk result (λ p. IsShared task.now.design.now (shared_in p)) }
{
    match problem_with(
        alloc,
        shared,
        task.design,
        task.units,
        task.leaf,
        case,
        task.choice,
        task.timed,
        task.table,
    ) {
        Ok(made) => Ok(made),
        Err(_) => Err(AllocError),
    }
}

/// Decides a problem over bits that stand so, under budgets of nodes and of images. What the problems of all cases of the design have in common is given back with it.
pub fn decide_problem(
    alloc: Global,
    problem: Problem,
    bits: Bits,
    budgets: Budgets,
) -> Result<Decided, AllocError>
    requires problem { IsProblem problem }
    requires steps { 1 ≤ budgets.steps }
    ensures decided { IfOk result (λ decided. OfCases problem (λ c. IsDecided bits budgets.nodes budgets.steps c decided.decision)) }
    ensures shared { IfOk result (λ decided. decided.shared ≡ shared_in problem) }
{
    match bits {
        Bits::Near => over_near(alloc, problem, budgets),
        Bits::Declared => over_declared(alloc, problem, budgets),
    }
}

// Decides a problem by tries over more than one order of its bits.
fn over_near(alloc: Global, problem: Problem, budgets: Budgets) -> Result<Decided, AllocError>
    requires problem { IsProblem problem }
    requires steps { 1 ≤ budgets.steps }
    ensures decided { IfOk result (λ decided. OfCases problem (λ c. IsDecided Near budgets.nodes budgets.steps c decided.decision)) }
    ensures shared { IfOk result (λ decided. decided.shared ≡ shared_in problem) }
{
    let tried = tries(alloc, &problem, budgets)?;
    decided_by(problem, tried, budgets)
}

// What is decided by what tries find; want of memory where there was no room.
fn decided_by(problem: Problem, tried: Tried, budgets: Budgets) -> Result<Decided, AllocError>
    requires tried { OfCases problem (λ c. IsTried (MayBeTold budgets.nodes budgets.steps c) c tried) }
    ensures decided { IfOk result (λ decided. OfCases problem (λ c. IsDecided Near budgets.nodes budgets.steps c decided.decision)) }
    ensures shared { IfOk result (λ decided. decided.shared ≡ shared_in problem) }
{
    let _ = budgets;
    match tried {
        Tried::Safe => Ok(Decided {
            decision: Decision::True,
            shared: taken_back(problem),
        }),
        Tried::Broken { path } => Ok(shown(problem, path)),
        Tried::OutOfNodes { count } => Ok(Decided {
            decision: Decision::UnknownNodes { count },
            shared: taken_back(problem),
        }),
        Tried::OutOfSteps => Ok(Decided {
            decision: Decision::UnknownSteps,
            shared: taken_back(problem),
        }),
        Tried::NoRoom => Err(AllocError),
    }
}

// Decides a problem over its declared lists.
fn over_declared(alloc: Global, problem: Problem, budgets: Budgets) -> Result<Decided, AllocError>
    requires problem { IsProblem problem }
    requires steps { 1 ≤ budgets.steps }
    ensures decided { IfOk result (λ decided. OfCases problem (λ c. IsDecided Declared budgets.nodes budgets.steps c decided.decision)) }
    ensures shared { IfOk result (λ decided. decided.shared ≡ shared_in problem) }
{
    let bits = state_bits(&problem);
    let mut store = Store::new(alloc, 2 * u32::from(bits))?;
    let rel = relations_in_room(alloc, &problem, &mut store, budgets.nodes)?;
    let outcome = search(alloc, &rel, &mut store, budgets.nodes, budgets.steps)?;
    let decided = tell(alloc, problem, &rel, &mut store, outcome, budgets)?;
    Ok(decided)
}

/// Decides a case of a leaf that has not too many state bits, over bits that stand so, under budgets of nodes and of images. What the problems of all cases of the design have in common is
/// moved in, and given back.
pub(crate) fn decide_case(
    alloc: Global,
    shared: Shared,
    task: &Task,
    case: &Case,
    bits: Bits,
    budgets: Budgets,
) -> Result<Decided, AllocError>
    requires shared { IsShared task.now.design.now shared }
    requires task { IsTask task.now }
    requires case { IsCaseOf task.now.design.now task.now.leaf.now task.now.choice.now case.now.classes }
    requires width { width_fault task.now.design.now task.now.leaf.now task.now.choice.now case.now.classes ≡ None }
    requires steps { 1 ≤ budgets.steps }
    ensures decided { IfOk result (λ decided. IsDecided bits budgets.nodes budgets.steps (case_in task.now case.now.classes) decided.decision) }
    ensures shared { IfOk result (λ decided. IsShared task.now.design.now decided.shared) }
{
    let made = problem_of(alloc, shared, task, case)?;
    let decided = decide_problem(alloc, made, bits, budgets)?;
    Ok(decided)
}
