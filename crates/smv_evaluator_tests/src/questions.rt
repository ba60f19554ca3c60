//! Questions about a case of a text, each with its answer.

ghost use Rattle.smv_rings.specs.Lists.{IsRel};
ghost use Rattle.smv_problem.specs.WellFormed.{IsProblem};

use crate::cones::is_cone;
use crate::demands::{Asked, is_answered};
use crate::late::{Counts, is_along};
use crate::lists::{Lists, are_lists};
use crate::machine::{are_as_found, is_told};
use crate::orders::is_near;
use crate::searches::{Found, is_found};
use smv_core::Refusal;
use smv_core::flat::Design;
use smv_posed::functions::{Functions, functions_of};
use smv_posed::problems::{plan_of, problem_at};
use smv_problem::Problem;
use std::alloc::{AllocError, Global};
use std::test::Fail;

/// What is asked of a case, and the answer.
#[derive(Clone, Copy)]
pub enum Question {
    /// What is so in a state, behind the state before, where there is one.
    InState {
        old: Option<&'static str>,
        new: &'static str,
        asked: Asked,
    },
    /// Its elements, and how many bits they have.
    Cone {
        elements: &'static str,
        bits: u16,
    },
    /// The order in which its bits stand near those that they meet.
    Near {
        bits: &'static str,
    },
    /// Its elements with the bits of each, the classes of its parameters, and how many definitions hold up to the time before.
    Told {
        classes: &'static str,
        elements: &'static str,
        bits: u16,
        before: u32,
    },
    /// What a search finds under budgets of nodes and steps.
    Finds {
        nodes: u32,
        steps: u32,
        found: Found,
    },
    /// The lists of time 0 and of a step.
    Has {
        first: Lists,
        step: Lists,
    },
    /// That its functions are what the evaluator finds; its elements, and how many definitions hold up to the time before.
    IsAsFound {
        elements: &'static str,
        before: u32,
    },
    /// What is counted along the path of `late`.
    IsAlong {
        counts: &'static [Counts],
    },
}

// Whether the answer to a question about the functions of a case is right.
fn is_right_of(
    alloc: Global,
    problem: &Problem,
    functions: &Functions,
    question: Question,
) -> Result<bool, AllocError>
    requires well_formed { IsProblem problem.now }
    requires rel { IsRel functions.now.store functions.now.rel }
{
    match question {
        Question::Has { first, step } => are_lists(alloc, functions, first, step),
        Question::IsAsFound { elements, before } => {
            are_as_found(alloc, problem, functions, elements, before)
        }
        Question::IsAlong { counts } => is_along(alloc, problem, functions, counts),
        _ => Ok(false),
    }
}

// The same, with functions made for it.
fn is_right_with(alloc: Global, problem: &Problem, question: Question) -> Result<bool, AllocError>
    requires { IsProblem problem.now }
{
    let functions = functions_of(alloc, problem)?;
    is_right_of(alloc, problem, &functions, question)
}

// Whether the answer to a question about a case is right.
fn is_right(
    alloc: Global,
    design: &Design,
    problem: &Problem,
    question: Question,
) -> Result<bool, AllocError>
    requires { IsProblem problem.now }
{
    match question {
        Question::InState { old, new, asked } => is_answered(alloc, problem, old, new, asked),
        Question::Cone { elements, bits } => is_cone(alloc, design, problem, elements, bits),
        Question::Near { bits } => is_near(alloc, design, problem, bits),
        Question::Told {
            classes,
            elements,
            bits,
            before,
        } => is_told(alloc, design, problem, classes, elements, bits, before),
        Question::Finds {
            nodes,
            steps,
            found,
        } => is_found(alloc, problem, nodes, steps, found),
        _ => is_right_with(alloc, problem, question),
    }
}

/// Whether the answer to a question about a case of a unit of a text is right; not where there is no such case.
pub fn holds(
    alloc: Global,
    text: &str,
    unit: usize,
    case: usize,
    question: Question,
) -> Result<bool, Refusal> {
    let plan = plan_of(alloc, text)?;
    let Some(problem) = problem_at(alloc, &plan, unit, case)? else {
        return Ok(false);
    };
    let is_right = is_right(alloc, &plan.design, &problem, question)?;
    Ok(is_right)
}

/// Fails with the text where it does not hold.
pub fn hold(
    alloc: Global,
    text: &'static str,
    unit: usize,
    case: usize,
    question: Question,
) -> Result<(), Fail> {
    if holds(alloc, text, unit, case, question)? {
        Ok(())
    } else {
        Err(Fail::new(text))
    }
}
