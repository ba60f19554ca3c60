// The answer to a query and its text.
ghost use Rattle.std.specs.Prelude.{◌≡◌, ◌≤◌, ◌<◌, ◌-◌, ℕ, List, length, option_copied, slice_get, IfOk};
ghost use Rattle.law_answers.specs.Dues.{limit};
ghost use Rattle.law_obligations.specs.LeafCases.{leaf_cases};
ghost use Rattle.law_obligations.specs.Units.{units_of};
ghost use Rattle.law_problems.specs.Parts.{IsCaseOf, IsPart};
ghost use Rattle.law_valid_texts.specs.Rooms.{HasRoom, IsWholePlan};
ghost use Rattle.smv_cases.specs.Slots.{classes_of};
ghost use Rattle.smv_look_command.specs.Queries.{IsInRange};
ghost use Rattle.smv_look_command.specs.declared.queries.Query.TheVariants as variant;
ghost use Rattle.smv_read_design.specs.Answers.{HasPlan};
ghost use Rattle.smv_look_run.specs.Cases.{IsShownAt, case_numbered, case_text, cone_status, cone_text};
ghost use Rattle.smv_look_run.specs.Dues.{IsDue, IsRefusal, lint_status};

use crate::models::modelled;
use crate::reports::reported;
use crate::sets::{fronted, sought};
use crate::{Status, too_long};
use law_valid_texts::parts_of_texts::cases_are_of_leaves;
use smv_cases::abs_types;
use smv_cases::calls::cases;
use smv_chosen_table::chosen_defs;
use smv_cone::bits::list_lengths;
use smv_cone::cone;
use smv_core::flat::{Case, Choice, Design, Leaf, Unit};
use smv_core::{Fault, Name, Refusal};
use smv_look_command::Query;
use smv_look_faults::explained;
use smv_look_lines::{Look, cone_lines, count_line, list_lines};
use smv_look_lint::lint_lines;
use smv_parse::parse;
use smv_problem::Plan;
use smv_read_design::{place_named, plans_of_valid_texts_are_whole, read_design};
use smv_report::fault_line;
use std::alloc::{AllocError, Global};

// The most bytes that a text has.
const LIMIT: usize = 1_048_576;

/// A status with the bytes that are written under it.
#[derive(Drop)]
pub(crate) struct Answer {
    pub status: Status,
    pub bytes: Vec<u8>,
}

/// The answer to a query and its text.
pub(crate) fn answer_to(alloc: Global, query: &Query, text: &[u8]) -> Result<Answer, AllocError>
    requires { IsInRange query.now }
    ensures { IfOk result (λ answer. IsDue query.now text.now answer.status answer.bytes.items) }
{
    if text.len() > LIMIT {
        return long(alloc, query);
    }
    looked(alloc, query, text)
}

// The answer to a text that is too long.
fn long(alloc: Global, query: &Query) -> Result<Answer, AllocError>
    ensures status { IfOk result (λ answer. answer.status ≡ Status.Refused) }
    ensures bytes { IfOk result (λ answer. (text : List ℕ) → IsRefusal query.now text 31 0 answer.bytes.items) }
{
    let bytes = Vec::from_slice(alloc, too_long(query))?;
    let status = Status::Refused;
    Ok(Answer { status, bytes })
}

// The same of a text that is short enough.
fn looked(alloc: Global, query: &Query, text: &[u8]) -> Result<Answer, AllocError>
    requires short { length text.now ≤ limit }
    requires range { IsInRange query.now }
    ensures { IfOk result (λ answer. IsDue query.now text.now answer.status answer.bytes.items) }
{
    plans_of_valid_texts_are_whole();
    match read_design(alloc, text) {
        Ok(plan) => told(alloc, query, text, &plan),
        Err(Refusal::Fault(fault)) => refused(alloc, query, text, fault),
        Err(Refusal::OutOfMemory) => Err(AllocError),
    }
}

// What a query asks of the plan of its text.
fn told(alloc: Global, query: &Query, text: &[u8], plan: &Plan) -> Result<Answer, AllocError>
    requires short { length text.now ≤ limit }
    requires range { IsInRange query.now }
    requires plan { HasPlan text.now plan.now }
    requires whole { IsWholePlan plan.now }
    ensures { IfOk result (λ answer. IsDue query.now text.now answer.status answer.bytes.items) }
{
    match query {
        Query::List => listed(alloc, query, text, plan),
        Query::Cone { name, case } => named(alloc, query, text, plan, name, *case),
        Query::Lint => linted(alloc, query, text, plan),
        Query::Explain => reported(alloc, query, text, plan),
        Query::Sets {
            name,
            case,
            budgets,
        } => sought(alloc, query, text, plan, name, *case, *budgets),
        Query::Front => fronted(alloc, query, text, plan),
        Query::Aiger { name, case } => modelled(alloc, query, text, plan, name, *case),
    }
}

// The units of a plan.
fn listed(alloc: Global, query: &Query, text: &[u8], plan: &Plan) -> Result<Answer, AllocError>
    requires asks { query.now ≡ variant.List }
    requires plan { HasPlan text.now plan.now }
    requires whole { IsWholePlan plan.now }
    ensures { IfOk result (λ answer. IsDue query.now text.now answer.status answer.bytes.items) }
{
    let bytes = list_lines(alloc, text, plan)?;
    let status = Status::Written;
    Ok(Answer { status, bytes })
}

// The status under which these warnings are written.
fn lint_status(lines: &[u8]) -> Status
    ensures { result ≡ lint_status lines.now }
{
    match lines {
        [] => Status::Written,
        _ => Status::Warned,
    }
}

// What is warned of in a text.
fn linted(alloc: Global, query: &Query, text: &[u8], plan: &Plan) -> Result<Answer, AllocError>
    requires short { length text.now ≤ limit }
    requires asks { query.now ≡ variant.Lint }
    requires plan { HasPlan text.now plan.now }
    ensures { IfOk result (λ answer. IsDue query.now text.now answer.status answer.bytes.items) }
{
    match parse(alloc, text) {
        Ok(tree) => {
            let bytes = lint_lines(alloc, text, &tree, plan)?;
            let status = lint_status(bytes.as_slice());
            Ok(Answer { status, bytes })
        }
        Err(_) => Err(AllocError),
    }
}

// The case of a number of the unit of a name.
fn named(
    alloc: Global,
    query: &Query,
    text: &[u8],
    plan: &Plan,
    name: &Name,
    case: usize,
) -> Result<Answer, AllocError>
    requires short { length text.now ≤ limit }
    requires asks { query.now ≡ variant.Cone name.now case }
    requires plan { HasPlan text.now plan.now }
    requires whole { IsWholePlan plan.now }
    ensures { IfOk result (λ answer. IsDue query.now text.now answer.status answer.bytes.items) }
{
    let place = place_named(alloc, &plan.design, plan.units.as_slice(), name.as_bytes())?;
    match place {
        Some(u) => at_place(alloc, plan, u, case),
        None => refused(alloc, query, text, Fault { number: 26, at: 0 }),
    }
}

// The case of a number of the unit at a place of a plan.
fn at_place(alloc: Global, plan: &Plan, u: usize, number: usize) -> Result<Answer, AllocError>
    requires whole { IsWholePlan plan.now }
    requires there { u < length plan.now.units }
    ensures { IfOk result (λ answer. IsShownAt plan.now u number answer.status answer.bytes.items) }
{
    let units = plan.units.as_slice();
    let leaf = &plan.leaves.as_slice()[u];
    let choice = &plan.choices.as_slice()[u];
    shown(alloc, &plan.design, units, units[u], leaf, choice, number)
}

// The case of a number of a unit, or how many there are.
fn shown(
    alloc: Global,
    design: &Design,
    units: &[Unit],
    unit: Unit,
    leaf: &Leaf,
    choice: &Choice,
    number: usize,
) -> Result<Answer, AllocError>
    requires units { units.now ≡ units_of design.now }
    requires part { IsPart design.now leaf.now choice.now }
    requires room { HasRoom design.now leaf.now choice.now }
    ensures status { IfOk result (λ answer. answer.status ≡ cone_status (case_numbered design.now leaf.now choice.now number)) }
    ensures bytes { IfOk result (λ answer. answer.bytes.items ≡ cone_text design.now unit leaf.now choice.now number (case_numbered design.now leaf.now choice.now number)) }
{
    match cases(alloc, design, units, leaf, choice) {
        Ok(cases) => numbered(
            alloc,
            design,
            units,
            unit,
            leaf,
            choice,
            cases.as_slice(),
            number,
        ),
        Err(_) => Err(AllocError),
    }
}

// The case of a number from 1 on.
fn case_at(cases: &[Case], number: usize) -> Option<&Case>
    ensures { option_copied result ≡ slice_get cases.now (number - 1) }
{
    cases.get(number.saturating_sub(1))
}

// The same, among the cases of the unit.
fn numbered(
    alloc: Global,
    design: &Design,
    units: &[Unit],
    unit: Unit,
    leaf: &Leaf,
    choice: &Choice,
    cases: &[Case],
    number: usize,
) -> Result<Answer, AllocError>
    requires units { units.now ≡ units_of design.now }
    requires part { IsPart design.now leaf.now choice.now }
    requires room { HasRoom design.now leaf.now choice.now }
    requires cases { classes_of cases.now ≡ leaf_cases design.now.sets leaf.now.params choice.now.keeps }
    ensures status { IfOk result (λ answer. answer.status ≡ cone_status (case_numbered design.now leaf.now choice.now number)) }
    ensures bytes { IfOk result (λ answer. answer.bytes.items ≡ cone_text design.now unit leaf.now choice.now number (case_numbered design.now leaf.now choice.now number)) }
{
    cases_are_of_leaves();
    let count = cases.len();
    match case_at(cases, number) {
        Some(case) => {
            let bytes = of_case(
                alloc, design, units, unit, leaf, choice, case, number, count,
            )?;
            let status = Status::Written;
            Ok(Answer { status, bytes })
        }
        None => {
            let bytes = count_line(alloc, design, unit, count)?;
            let status = Status::NoCase;
            Ok(Answer { status, bytes })
        }
    }
}

// The lines of a case.
fn of_case(
    alloc: Global,
    design: &Design,
    units: &[Unit],
    unit: Unit,
    leaf: &Leaf,
    choice: &Choice,
    case: &Case,
    number: usize,
    count: usize,
) -> Result<Vec<u8>, AllocError>
    requires units { units.now ≡ units_of design.now }
    requires part { IsPart design.now leaf.now choice.now }
    requires case { IsCaseOf design.now leaf.now choice.now case.now.classes }
    requires count { count ≡ length (leaf_cases design.now.sets leaf.now.params choice.now.keeps) }
    ensures { IfOk result (λ bytes. bytes.items ≡ case_text design.now unit leaf.now choice.now number case.now.classes) }
{
    let lists = list_lengths(alloc, design)?;
    let types = abs_types(alloc, design, case, choice, leaf)?;
    let table = chosen_defs(alloc, design, units, choice.picks.as_slice())?;
    match cone(alloc, design, units, leaf, case, choice, table.as_slice()) {
        Ok(elements) => {
            let look = Look {
                design,
                units,
                lists: lists.as_slice(),
                unit,
                leaf,
                choice,
                case,
                number,
                count,
                types: types.as_slice(),
            };
            cone_lines(alloc, &look, elements.as_slice())
        }
        Err(_) => Err(AllocError),
    }
}

// The lines of a fault under a query.
fn refusal(alloc: Global, query: &Query, text: &[u8], fault: Fault) -> Result<Vec<u8>, AllocError>
    requires { length text.now ≤ limit }
    ensures { IfOk result (λ lines. IsRefusal query.now text.now fault.number fault.at lines.items) }
{
    match query {
        Query::List => fault_line(alloc, text, fault),
        Query::Cone { name: _, case: _ } => fault_line(alloc, text, fault),
        Query::Lint => fault_line(alloc, text, fault),
        Query::Sets {
            name: _,
            case: _,
            budgets: _,
        } => fault_line(alloc, text, fault),
        Query::Front => fault_line(alloc, text, fault),
        Query::Aiger { name: _, case: _ } => fault_line(alloc, text, fault),
        Query::Explain => explained(alloc, text, fault),
    }
}

/// The answer to a text that is refused.
pub(crate) fn refused(
    alloc: Global,
    query: &Query,
    text: &[u8],
    fault: Fault,
) -> Result<Answer, AllocError>
    requires { length text.now ≤ limit }
    ensures status { IfOk result (λ answer. answer.status ≡ Status.Refused) }
    ensures bytes { IfOk result (λ answer. IsRefusal query.now text.now fault.number fault.at answer.bytes.items) }
{
    let bytes = refusal(alloc, query, text, fault)?;
    let status = Status::Refused;
    Ok(Answer { status, bytes })
}
