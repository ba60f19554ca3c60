//! All designs of one signal with an `init`, a `next` and a claim of a few forms.

use crate::calls::{answered, is_so};
use std::alloc::{AllocError, Global};
use std::test::Fail;

const TRUE: &str = "p: true\nproved 1 of 1\n";

// False at time 0, where x is 0 or 1.
const LOW: &str = "p: false at 0\n time 0: x = 0\nproved 0 of 1\n";

const HIGH: &str = "p: false at 0\n time 0: x = 1\nproved 0 of 1\n";

// False at time 1, to which x rises or falls.
const RISES: &str = "p: false at 1\n time 0: x = 0\n time 1: x = 1\nproved 0 of 1\n";

const FALLS: &str = "p: false at 1\n time 0: x = 1\n time 1: x = 0\nproved 0 of 1\n";

const CLAIMS: &[&'static str] = &["x", "~x", "x | ~x", "x & ~x", "x -> ~x"];

// The answers where x is 0 or 1 at time 0, and then 0 or 1.
const AT_00: &[&'static str] = &[LOW, TRUE, TRUE, LOW, TRUE];

const AT_01: &[&'static str] = &[LOW, RISES, TRUE, LOW, RISES];

const AT_10: &[&'static str] = &[FALLS, HIGH, TRUE, HIGH, HIGH];

const AT_11: &[&'static str] = &[TRUE, HIGH, TRUE, HIGH, HIGH];

// The signal at time 0 reads itself.
const ITSELF: &[&'static str] = &["fault 18 at line 1 column 30\n"; 5];

// An `init` and a `next`, with the answers to the claims.
type Toggle = (&'static str, &'static str, &'static [&'static str]);

const TOGGLES: &[Toggle] = &[
    ("0", "0", AT_00),
    ("0", "1", AT_01),
    ("0", "x", AT_00),
    ("0", "~x", AT_01),
    ("1", "0", AT_10),
    ("1", "1", AT_11),
    ("1", "x", AT_11),
    ("1", "~x", AT_10),
    ("~0 & 1", "0", AT_10),
    ("~0 & 1", "1", AT_11),
    ("~0 & 1", "x", AT_11),
    ("~0 & 1", "~x", AT_10),
    ("x", "~x", ITSELF),
];

// Whether this is written of a text.
fn is_written(alloc: Global, text: &str, answer: &str) -> Result<bool, AllocError> {
    let (_, written) = answered(alloc, "prove", text.as_bytes())?;
    Ok(written.as_slice() == answer.as_bytes())
}

// Whether both forms of a toggle are answered so. Where the declaration stands does not matter; the place of a fault does.
fn is_answered_so(
    alloc: Global,
    init: &str,
    next: &str,
    claim: &str,
    answer: &str,
) -> Result<bool, AllocError> {
    let text = toggle(alloc, init, next, claim)?;
    let first = is_written(alloc, text.as_str(), answer)?;
    if !first || answer.starts_with("fault") {
        return Ok(first);
    }
    let text = toggle_declared_last(alloc, init, next, claim)?;
    is_written(alloc, text.as_str(), answer)
}

// The first claim about this toggle that is answered otherwise.
fn first_other(
    alloc: Global,
    init: &str,
    next: &str,
    answers: &[&'static str],
) -> Result<Option<&'static str>, AllocError> {
    for (claim, answer) in CLAIMS.iter().zip(answers.iter()) {
        if !is_answered_so(alloc, init, next, claim, answer)? {
            return Ok(Some(*claim));
        }
    }
    Ok(None)
}

// Fails with the first claim about a toggle that is answered otherwise.
fn all_toggles_are_so(alloc: Global, rows: &[Toggle]) -> Result<(), Fail> {
    for (init, next, answers) in rows {
        if let Some(claim) = first_other(alloc, init, next, answers)? {
            return Err(Fail::new(claim));
        }
    }
    Ok(())
}

#[test]
fn all_small_toggles(rt: HostRuntime) -> Result<(), Fail> {
    all_toggles_are_so(rt.alloc(), TOGGLES)
}

fn toggle(alloc: Global, init: &str, next: &str, claim: &str) -> Result<String, AllocError> {
    format!(in alloc;
        "module main() {{ x : boolean; init(x) := {init}; next(x) := {next}; p : assert G ({claim}); }}"
    )
}

// The same with the declaration behind the assignments.
fn toggle_declared_last(
    alloc: Global,
    init: &str,
    next: &str,
    claim: &str,
) -> Result<String, AllocError> {
    format!(in alloc;
        "module main() {{ init(x) := {init}; next(x) := {next}; x : boolean; p : assert G ({claim}); }}"
    )
}

// A 1, and behind it this part 100,000 times.
fn long(alloc: Global, part: &str) -> Result<String, AllocError> {
    let mut text = String::from_str(alloc, "1")?;
    for _ in 0..100_000 {
        text.push_str(part)?;
    }
    Ok(text)
}

fn is_long_chain_decided(alloc: Global) -> Result<bool, AllocError> {
    let chain = long(alloc, " & 1")?;
    let text = toggle_declared_last(alloc, "0", "0", chain.as_str())?;
    is_written(alloc, text.as_str(), TRUE)
}

// A long chain is no deep recursion.
#[test]
fn a_long_chain_is_decided(rt: HostRuntime) -> Result<(), Fail> {
    is_so(is_long_chain_decided(rt.alloc()))
}

fn are_long_lists_decided(alloc: Global) -> Result<bool, AllocError> {
    let list = long(alloc, ", 0")?;
    let members = list.as_str();
    let text = format!(in alloc;
        "module main() {{ x : boolean; y : boolean; y := {{{members}}}; p : assert G (x in {{{members}}} & (y = 0 | y = 1)); }}"
    )?;
    is_written(alloc, text.as_str(), TRUE)
}

// Nor is a long list, on a right side and behind `in`.
#[test]
fn long_lists_are_decided(rt: HostRuntime) -> Result<(), Fail> {
    is_so(are_long_lists_decided(rt.alloc()))
}
