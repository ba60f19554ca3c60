//! A plan as a line of text: of each unit the name of its leaf, the cases of the leaf, and the uses with their times.

ghost use Rattle.std.specs.Prelude.{◌≡◌, IfOk};
ghost use Rattle.law_obligations.specs.Units.{units_of};

use smv_cases::calls::cases;
use smv_core::flat::{Assumed, Case, Choice, Class, Design, Leaf, Pick, Timing};
use smv_core::{Fault, Refusal, Seq};
use smv_front::read_plan;
use smv_parse::parse;
use smv_problem::Plan;
use std::alloc::{AllocError, Global};

/// The plan of a text, or its first fault.
pub fn plan_of(alloc: Global, text: &[u8]) -> Result<Plan, Refusal>
    ensures { IfOk result (λ plan. plan.units ≡ units_of plan.design) }
{
    if text.len() > 1_048_576 {
        return Err(Refusal::OutOfMemory);
    }
    let tree = parse(alloc, text)?;
    let plan = read_plan(alloc, &tree)?;
    Ok(plan)
}

/// The first fault of a text, by its number and its offset, or `(0, 0)` where it has a plan.
pub fn fault_of(alloc: Global, text: &[u8]) -> Result<(u8, u32), AllocError> {
    match plan_of(alloc, text) {
        Ok(_) => Ok((0, 0)),
        Err(Refusal::Fault(Fault { number, at })) => Ok((number, at)),
        Err(Refusal::OutOfMemory) => Err(AllocError),
    }
}

/// The plan of a text, as it is told here.
pub fn told(alloc: Global, text: &[u8]) -> Result<Vec<u8>, Refusal> {
    let plan = plan_of(alloc, text)?;
    told_plan(alloc, &plan)
}

fn told_plan(alloc: Global, plan: &Plan) -> Result<Vec<u8>, Refusal>
    requires { plan.now.units ≡ units_of plan.now.design }
{
    let mut line = Vec::new(alloc);
    let leaves = plan.leaves.as_slice().iter();
    let choices = plan.choices.as_slice().iter();
    let timed = plan.timed.as_slice().iter();
    for ((leaf, choice), timed) in leaves.zip(choices).zip(timed) {
        tell_cases(alloc, &mut line, plan, leaf, choice)?;
        tell_picks(&mut line, &plan.design, &choice.picks, &timed.picks)?;
        tell_claims(&mut line, &plan.design, &choice.claims, &timed.claims)?;
        line.extend_from_slice(b"; ")?;
    }
    Ok(line)
}

// The name of a leaf and its cases.
fn tell_cases(
    alloc: Global,
    line: &mut Vec<u8>,
    plan: &Plan,
    leaf: &Leaf,
    choice: &Choice,
) -> Result<(), Refusal>
    requires { plan.now.units ≡ units_of plan.now.design }
{
    line.extend_from_slice(leaf.name.as_bytes())?;
    let cases = cases(alloc, &plan.design, plan.units.as_slice(), leaf, choice)?;
    for case in cases.as_slice() {
        tell_case(line, case)?;
    }
    Ok(())
}

// A class for each parameter.
fn tell_case(line: &mut Vec<u8>, case: &Case) -> Result<(), AllocError> {
    line.push(b' ')?;
    if case.classes.as_slice().is_empty() {
        line.push(b'-')?;
    }
    for class in case.classes.as_slice() {
        tell_class(line, *class)?;
    }
    Ok(())
}

// A number behind `=`, a named class behind `#`, a rest behind `*`. All are below 10 here.
fn tell_class(line: &mut Vec<u8>, class: Class) -> Result<(), AllocError> {
    let (sign, number) = match class {
        Class::Number { value } => (b'=', value),
        Class::Named { class } => (b'#', class),
        Class::Rest { gap } => (b'*', gap),
    };
    line.push(sign)?;
    line.push(b'0' + number % 10)?;
    Ok(())
}

fn tell_picks(
    line: &mut Vec<u8>,
    design: &Design,
    picks: &Seq<Pick>,
    times: &Seq<Timing>,
) -> Result<(), AllocError> {
    for (pick, time) in picks.as_slice().iter().zip(times.as_slice().iter()) {
        line.push(b' ')?;
        if let Some(family) = design.families.as_slice().get(pick.family as usize) {
            line.extend_from_slice(family.name.as_bytes())?;
        }
        line.extend_from_slice(b"//")?;
        tell_layer(line, design, pick.layer)?;
        tell_time(line, *time)?;
    }
    Ok(())
}

// A layer's name, or `free`.
fn tell_layer(line: &mut Vec<u8>, design: &Design, layer: Option<u16>) -> Result<(), AllocError> {
    let Some(layer) = layer else {
        line.extend_from_slice(b"free")?;
        return Ok(());
    };
    if let Some(name) = design.layers.as_slice().get(layer as usize) {
        line.extend_from_slice(name.as_bytes())?;
    }
    Ok(())
}

fn tell_claims(
    line: &mut Vec<u8>,
    design: &Design,
    claims: &Seq<Assumed>,
    times: &Seq<Timing>,
) -> Result<(), AllocError> {
    for (used, time) in claims.as_slice().iter().zip(times.as_slice().iter()) {
        line.push(b' ')?;
        if let Some(claim) = design.claims.as_slice().get(used.claim as usize) {
            line.extend_from_slice(claim.name.as_bytes())?;
        }
        tell_time(line, *time)?;
    }
    Ok(())
}

// `!` for a use that holds now, `?` for one that holds before.
fn tell_time(line: &mut Vec<u8>, time: Timing) -> Result<(), AllocError> {
    let sign = match time {
        Timing::Now => b'!',
        Timing::Before => b'?',
    };
    line.push(sign)?;
    Ok(())
}
