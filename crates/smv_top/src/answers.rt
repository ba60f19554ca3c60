// The answer that a command and its text call for.
ghost use Rattle.std.specs.Prelude.{◌≡◌, false, true, IfOk};
ghost use Rattle.smv_problem.specs.declared.report.Report.{Report};
ghost use Rattle.smv_command.specs.Ranges.{IsInRange, AreInRange};
ghost use Rattle.smv_command.specs.declared.commands.Command.TheVariants as variant;
ghost use Rattle.smv_answers.specs.Reports.{IsRightReport};
ghost use Rattle.smv_answers.specs.Dues.{IsDue, IsReportFor, decides, is_of_own, default_nodes, default_steps};

use crate::confirmations::confirmed;
use crate::documents::{checked, documented, resumed};
use crate::formulas::translated;
use crate::inductions::inducted;
use crate::limits::{LIMIT, TOO_LONG};
use smv_answers::{Answer, printed, refused, reported};
use smv_bits::Bits;
use smv_command::Command;
use smv_core::{Fault, Name, Refusal};
use smv_parse::parse;
use smv_problem::Budgets;
use smv_prove::{prove, prove_one};
use std::alloc::{AllocError, Global};

/// The answer to a command and its text, which is the one that was read or generated.
pub fn answer_to(alloc: Global, command: &Command, text: &[u8]) -> Result<Answer, AllocError>
    requires { IsInRange command.now }
    ensures { IfOk result (λ answer. IsDue command.now text.now answer.status answer.bytes.items) }
{
    match command {
        Command::Prove { bits, budgets } => decided(alloc, command, text, *bits, *budgets),
        Command::Only {
            name,
            bits,
            budgets,
        } => one_decided(alloc, command, text, name, *bits, *budgets),
        Command::Print => spelled(alloc, text),
        Command::Generated { copies: _ } => decided(alloc, command, text, Bits::Near, defaults()),
        Command::Proof { budgets } => documented(alloc, text, *budgets),
        Command::Check => checked(alloc, text),
        Command::Resume { budgets } => resumed(alloc, text, *budgets),
        Command::Confirm {
            name,
            sizes,
            bits,
            budgets,
        } => confirmed(alloc, text, name, sizes.as_slice(), *bits, *budgets),
        Command::Induct { name, var, budgets } => inducted(
            alloc, command, text, name, var, *budgets,
        ),
        Command::Ltl { bits, budgets } => translated(alloc, command, text, *bits, *budgets),
    }
}

// The budgets of a command that names none.
fn defaults() -> Budgets
    ensures { result ≡ record { nodes = default_nodes; steps = default_steps } }
{
    Budgets {
        nodes: 1_000_000,
        steps: 1_000,
    }
}

// The answer to a command that decides all units over bits that stand so, under these budgets.
fn decided(
    alloc: Global,
    command: &Command,
    text: &[u8],
    bits: Bits,
    budgets: Budgets,
) -> Result<Answer, AllocError>
    requires decides { decides command.now ≡ true }
    requires own { is_of_own command.now ≡ false }
    requires asks { (report : Report) → IsRightReport text.now bits budgets.nodes budgets.steps report → IsReportFor command.now text.now report }
    requires in_range { AreInRange budgets }
    ensures { IfOk result (λ answer. IsDue command.now text.now answer.status answer.bytes.items) }
{
    if text.len() > LIMIT {
        return refused(alloc, text, TOO_LONG);
    }
    match prove(alloc, text, bits, budgets) {
        Ok(report) => reported(alloc, command, &report),
        Err(Refusal::Fault(fault)) => refused(alloc, text, fault),
        Err(Refusal::OutOfMemory) => Err(AllocError),
    }
}

// The answer to a command that decides the unit of a name.
fn one_decided(
    alloc: Global,
    command: &Command,
    text: &[u8],
    name: &Name,
    bits: Bits,
    budgets: Budgets,
) -> Result<Answer, AllocError>
    requires asks { command.now ≡ variant.Only name.now bits budgets }
    requires in_range { AreInRange budgets }
    ensures { IfOk result (λ answer. IsDue command.now text.now answer.status answer.bytes.items) }
{
    if text.len() > LIMIT {
        return refused(alloc, text, TOO_LONG);
    }
    match prove_one(alloc, text, name.as_bytes(), bits, budgets) {
        Ok(Some(report)) => reported(alloc, command, &report),
        Ok(None) => refused(alloc, text, Fault { number: 26, at: 0 }),
        Err(Refusal::Fault(fault)) => refused(alloc, text, fault),
        Err(Refusal::OutOfMemory) => Err(AllocError),
    }
}

// The answer to a text that is spelled anew.
fn spelled(alloc: Global, text: &[u8]) -> Result<Answer, AllocError>
    ensures { IfOk result (λ answer. IsDue variant.Print text.now answer.status answer.bytes.items) }
{
    if text.len() > LIMIT {
        return refused(alloc, text, TOO_LONG);
    }
    match parse(alloc, text) {
        Ok(tree) => printed(alloc, &tree),
        Err(Refusal::Fault(fault)) => refused(alloc, text, fault),
        Err(Refusal::OutOfMemory) => Err(AllocError),
    }
}
