//! All cases of a text are decided, and the sets that close them are kept as a proof document: `keep` from nothing, `resume` from an old document whose sets stand for their cases where they still serve.
//!
//! For the commands that write documents. What is kept and resumed is said in `law_checked_proofs` (`specs/Kept`, `specs/Resumed`). The cases of a leaf are those of
//! `smv_kept_cases`; here `leaf` makes them, `units` goes through the units of a plan, and `specs/Units` says what these come to.
#![tactic(auto)]

ghost use Rattle.std.specs.Prelude.{◌≡◌, ◌≤◌, ◌↔◌, [], true, IfOk, IsTrue, length};
ghost use Rattle.smv_lex.specs.Answers.{IfFault};
ghost use Rattle.smv_read_design.specs.Dues.{IsFault, decides, limit};
ghost use Rattle.smv_command.specs.declared.commands.Command.{Command};
ghost use Rattle.smv_proof.specs.Documents.{is_proof};
ghost use Rattle.law_kept_proofs.specs.Laws.{HaveFewLines};
ghost use Rattle.smv_resume.specs.Resumed.{IsResumed, CanBeWritten};

mod leaf;
mod units;

use law_kept_proofs::laws::kept_proofs_are_proofs;
use smv_core::{Refusal, Seq};
use smv_kept_cases::old_sets::OldSets;
use smv_problem::{Budgets, Report};
use smv_proof::{KeptSet, Proof};
use smv_prove::plan_of;
use std::alloc::{AllocError, Global};
use units::{all_true, try_units};

// The greatest number of a document.
const MOST: usize = 4_294_967_295;

/// What is kept of a text.
#[derive(Drop)]
pub enum Kept {
    /// Each unit is true: the text, with a set for each case.
    All { proof: Proof },
    /// Some unit is not.
    Open { report: Report },
}

/// The proof of a text, where an old set that still serves stands for its case, or the report of a text of which some unit is not true; or the text's first fault.
pub fn resume(alloc: Global, old: &Proof, text: &[u8], budgets: Budgets) -> Result<Kept, Refusal>
    requires within { length text.now ≤ limit }
    requires steps { 1 ≤ budgets.steps }
    requires old { is_proof old.now ≡ true }
    ensures kept { IfOk result (IsResumed old.now.sets budgets.nodes budgets.steps text.now) }
    ensures written { IfOk result CanBeWritten }
    ensures fault { IfFault result (λ fault. (command : Command) → decides command ≡ true → IsFault command text.now fault.number fault.at) }
{
    let plan = plan_of(alloc, text)?;
    let sets = OldSets::of(alloc, old.sets.as_slice())?;
    let tried = try_units(alloc, &plan, &sets, budgets)?;
    if all_true(tried.results.as_slice()) {
        kept_proofs_are_proofs();
        let proof = proof_of(alloc, text, tried.sets)?;
        Ok(Kept::All { proof })
    } else {
        Ok(Kept::Open {
            report: Report {
                design: plan.design,
                units: tried.results,
            },
        })
    }
}

/// The same from nothing.
pub fn keep(alloc: Global, text: &[u8], budgets: Budgets) -> Result<Kept, Refusal>
    requires within { length text.now ≤ limit }
    requires steps { 1 ≤ budgets.steps }
    ensures kept { IfOk result (IsResumed [] budgets.nodes budgets.steps text.now) }
    ensures written { IfOk result CanBeWritten }
    ensures fault { IfFault result (λ fault. (command : Command) → decides command ≡ true → IsFault command text.now fault.number fault.at) }
{
    let nothing = Proof {
        design: Seq::new(alloc),
        sets: Seq::new(alloc),
    };
    resume(alloc, &nothing, text, budgets)
}

// The proof of a text, of these sets. A set of so many lines that they cannot be numbered is want of memory.
fn proof_of(alloc: Global, text: &[u8], sets: Seq<KeptSet>) -> Result<Proof, AllocError>
    ensures design { IfOk result (λ proof. proof.design ≡ text.now) }
    ensures sets { IfOk result (λ proof. proof.sets ≡ sets) }
    ensures few { IfOk result (λ proof. HaveFewLines proof.sets) }
{
    if !have_few_lines(sets.as_slice()) {
        return Err(AllocError);
    }
    let design = Vec::from_slice(alloc, text)?;
    Ok(Proof {
        design: Seq::from_vec(design),
        sets,
    })
}

// Whether each set has few enough lines to be numbered.
fn have_few_lines(sets: &[KeptSet]) -> bool
    ensures { IsTrue result ↔ HaveFewLines sets.now }
{
    for set in sets {
        if set.nodes.len() >= MOST {
            return false;
        }
    }
    true
}
