// What is counted of formulas: their X, and the monitors that they have.
ghost use Rattle.std.specs.Prelude.{◌≡◌, ◌≤◌, ◌<◌, ◌+◌, ◌^◌, length, IfOk};
ghost use Rattle.smv_lex.specs.Answers.{IfFault};
ghost use Rattle.law_formulas.specs.Ninths as ninths;
ghost use Rattle.law_formulas.specs.Steps as steps;
ghost use Rattle.law_formulas.specs.Monitors as monitors;
ghost use Rattle.smv_parse_formulas.specs.Trees.{meant, meanings, innermost};

use smv_core::Refusal;
use smv_parse_formulas::tree::{End, Formula, Placed, Step};

/// How many X a formula may have.
const MOST: usize = 8;

// Where the X behind so many others stands.
fn ninth(formula: &Formula) -> Option<u32>
    ensures { result ≡ ninths.after_eight (ninths.nexts (meant formula.now)) }
{
    let mut count = 0;
    for step in formula.steps.as_slice() {
        match step {
            Step::Later { at } => {
                if count == MOST {
                    return Some(*at);
                }
                count += 1;
            }
            Step::Under { .. } => {}
        }
    }
    None
}

/// The first X that is the ninth of its formula.
pub fn first_ninth(formulas: &[Placed]) -> Option<u32>
    ensures { result ≡ ninths.first_ninth (meanings formulas.now) }
{
    for placed in formulas {
        let found = ninth(&placed.formula);
        if found.is_some() {
            return found;
        }
    }
    None
}

fn end_places(end: &End) -> usize
    ensures places { result ≡ steps.places_of (innermost end.now) }
    ensures within { result ≤ 1 }
{
    match end {
        End::Single { .. } => 0,
        End::Unless { .. } => 1,
    }
}

/// How many monitors a formula has.
pub fn places_of(formula: &Formula) -> usize
    ensures places { result ≡ steps.places_of (meant formula.now) }
    ensures within { result < 2 ^ 63 }
{
    let mut count = 0;
    for step in formula.steps.as_slice() {
        match step {
            Step::Later { .. } => count += 1,
            Step::Under { .. } => {}
        }
    }
    count + end_places(&formula.end)
}

/// How many monitors formulas have. More than any memory holds are refused.
pub fn count_monitors(formulas: &[Placed]) -> Result<usize, Refusal>
    ensures count { IfOk result (λ count. count ≡ monitors.monitors_of (meanings formulas.now)) }
    ensures within { IfOk result (λ count. count ≤ 2 ^ 32) }
    ensures fault { IfFault result (λ fault. ⊥) }
{
    let mut count: usize = 0;
    for placed in formulas {
        count += places_of(&placed.formula);
        if count > 1 << 32 {
            return Err(Refusal::OutOfMemory);
        }
    }
    Ok(count)
}
