// What codes mean: for each code the state in which every element has the value of that code.
ghost use Rattle.std.specs.Prelude.{◌≡◌, OnOk, IfOk, length};
ghost use Rattle.law_obligations.specs.Readings.{state_bits as bits_of_case};
ghost use Rattle.smv_problem.specs.WellFormed.{IsProblem, OfCases};
ghost use Rattle.smv_look_aiger.specs.Models.{IsCommented};

use smv_core::Seq;
use smv_core::flat::{Case, Design, Param};
use smv_obligations::{ProblemParts, taken_apart};
use smv_problem::{AbsState, Problem, Verdict};
use smv_readings::{family_bits, read_state, state_bits};
use smv_report_lines::push_details;
use std::alloc::{AllocError, Global};

// The most bits of an element whose codes are all shown.
const WIDEST: u32 = 12;

/// Writes, as a comment of the file, the classes of the case, and like a path of a report a line for each code: what each element has where that is its code. The bits of an element spell its code, the highest first;
/// of a code with more bits than an element has it is the lower ones that count.
pub(crate) fn push_codes(
    alloc: Global,
    out: &mut Vec<u8>,
    design: &Design,
    params: &[Param],
    case: &Case,
    problem: Problem,
) -> Result<(), AllocError>
    requires { IsProblem problem }
    ensures { OnOk result (IsCommented out.old.items out.new.items) }
{
    let path = states(alloc, &problem)?;
    let ProblemParts {
        elements,
        shared: _,
    } = taken_apart(problem);
    let classes = Vec::from_slice(alloc, case.classes.as_slice())?;
    let case = Case {
        classes: Seq::from_vec(classes),
    };
    let verdict = Verdict::False {
        case,
        elements,
        path,
    };
    push_comment(out, design, params, &verdict)?;
    Ok(())
}

// Writes what a report says of a verdict, as a comment.
fn push_comment(
    out: &mut Vec<u8>,
    design: &Design,
    params: &[Param],
    verdict: &Verdict,
) -> Result<(), AllocError>
    ensures { OnOk result (IsCommented out.old.items out.new.items) }
{
    out.extend_from_slice(b"c\n")?;
    push_details(out, design, params, verdict)?;
    Ok(())
}

// The bits of the elements, in order, so far as their codes are shown.
fn widths(alloc: Global, problem: &Problem) -> Result<Vec<u32>, AllocError> {
    let mut widths = Vec::new(alloc);
    for x in problem.elements.as_slice() {
        let width = family_bits(
            problem.families.as_slice(),
            problem.lists.as_slice(),
            problem.types.as_slice(),
            x.family,
        );
        widths.push(width)?;
    }
    Ok(widths)
}

// How many codes so many bits have, as far as they are shown.
fn count_of(width: u32) -> u32 {
    let mut count: u32 = 1;
    for _ in 0..width.min(WIDEST) {
        count = count.saturating_mul(2);
    }
    count
}

// The states of all codes.
fn states(alloc: Global, problem: &Problem) -> Result<Seq<AbsState>, AllocError>
    requires { IsProblem problem.now }
{
    let widths = widths(alloc, problem)?;
    let mut most = 1;
    for width in &widths {
        most = count_of(*width).max(most);
    }
    let mut states = Seq::new(alloc);
    for code in 0..most {
        let bits = bits_of(alloc, problem, widths.as_slice(), code)?;
        let state = read_state(alloc, problem, bits.as_slice())?;
        states.push(state)?;
    }
    Ok(states)
}

// The bits of the state in which every element has this code.
fn bits_of(
    alloc: Global,
    problem: &Problem,
    widths: &[u32],
    code: u32,
) -> Result<Vec<bool>, AllocError>
    requires { IsProblem problem.now }
    ensures { IfOk result (λ bits. OfCases problem.entry.now (λ c. length bits.items ≡ bits_of_case c)) }
{
    let count = usize::from(state_bits(problem));
    let mut bits = vec![in alloc; false; count]?;
    let mut place: usize = 0;
    for width in widths {
        place = place.saturating_add(*width as usize);
        put_code(&mut bits, place, *width, code);
    }
    Ok(bits)
}

// Puts the lowest bits of a code, so many, before a place.
fn put_code(bits: &mut Vec<bool>, end: usize, width: u32, code: u32)
    ensures { length bits.new.items ≡ length bits.old.items }
{
    let mut place = end;
    let mut rest = code;
    for _ in 0..width {
        place = place.saturating_sub(1);
        put(bits, place, rest % 2 == 1);
        rest /= 2;
    }
}

// Puts a bit, where it has a place.
fn put(bits: &mut Vec<bool>, place: usize, bit: bool)
    ensures { length bits.new.items ≡ length bits.old.items }
{
    if place < bits.len() {
        bits[place] = bit;
    }
}
