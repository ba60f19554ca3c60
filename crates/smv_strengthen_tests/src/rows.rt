//! `TEXTS` has texts that are strengthened, `REFUSED` such that are not, `PLACES` offsets that are carried back.

use smv_core::{Name, Refusal};
use smv_strengthen::{Stronger, back, strengthen};
use std::alloc::{AllocError, Global};
use std::test::Fail;

const LIMIT: usize = 1_048_576;

// The text before the expression, the expression, and what stands behind it; the offset of the claim's name, and what is written in place of the expression. The claim is `p`, and the variable `i`.
const TEXTS: &[(&'static str, &'static str, &'static str, u32, &'static str)] = &[
    (
        "ordset I undefined; module main() { x : array I of boolean; forall (i in I) p[i] : assert G ",
        "x[i]",
        "; }",
        76,
        "& [ below0 < i -> ( x[below0] ) : below0 in I ] -> ( x[i] )",
    ),
    // A field keeps its name and a comment its text, an index has the new name, and so has a type. Names that stand in the text are not new.
    (
        "ordset I undefined; module main() { forall (i in I) { p[i] : assert G /* i */ ",
        "a.i[i] /* i */ < i & below0.i = below1 & (& [ x : x in i ])",
        " -- i ;\n; q : assert G 1; } }",
        54,
        "& [ below2 < i -> ( a.i[below2] /* i */ < below2 & below0.i = below1 & (& [ x : x in below2 ]) ) : below2 in I ] -> ( a.i[i] /* i */ < i & below0.i = below1 & (& [ x : x in i ]) )",
    ),
    // The innermost binder of the variable counts, and a claim of another module does not.
    (
        "module sub() { p : assert G 1; } ordset J undefined; module main() { forall (i in boolean) { forall (i in J) forall (j in boolean) p[j][i]:assert G",
        "(1)",
        ";} }",
        131,
        "& [ below0 < i -> ( (1) ) : below0 in J ] -> ( (1) )",
    ),
    // Without blanks.
    (
        "ordset I undefined;module main(){forall(i in I)p[i]:assert G",
        "(i)",
        ";}",
        47,
        "& [ below0 < i -> ( (below0) ) : below0 in I ] -> ( (i) )",
    ),
    // A number and a word at the end of the expression.
    (
        "ordset I undefined; module main() { forall (i in I) p[i] : assert G ",
        "i_i + 100",
        "  ; }",
        52,
        "& [ below0 < i -> ( i_i + 100 ) : below0 in I ] -> ( i_i + 100 )",
    ),
    (
        "ordset I undefined; module main() { forall (i in I) p[i] : assert G ",
        "below00 & i",
        "; }",
        52,
        "& [ below0 < i -> ( below00 & below0 ) : below0 in I ] -> ( below00 & i )",
    ),
];

// A text, the names of the claim and of the variable, and the fault with its offset.
const REFUSED: &[(&'static str, &'static str, &'static str, u8, u32)] = &[
    (
        "ordset I undefined; module main() { forall (i in I) p[i] : assert G 1; }",
        "q",
        "i",
        36,
        0,
    ),
    (
        "ordset I undefined; module main() { forall (i in I) p[i] : assert G 1; }",
        "p",
        "j",
        36,
        0,
    ),
    // A binder of the variable that is not in the claim's brackets; a claim that stands twice.
    (
        "ordset I undefined; module main() { forall (i in I) p : assert G 1; }",
        "p",
        "i",
        36,
        0,
    ),
    (
        "ordset I undefined; module main() { forall (i in I) { p[i] : assert G 1; { p[i] : assert G 1; } } }",
        "p",
        "i",
        36,
        0,
    ),
    // A scalarset, a typedef of an ordset, a range, and a binder inside that of the ordset.
    (
        "scalarset I 0..3; module main() { forall (i in I) p[i] : assert G 1; }",
        "p",
        "i",
        36,
        0,
    ),
    (
        "ordset I undefined; typedef J I; module main() { forall (i in J) p[i] : assert G 1; }",
        "p",
        "i",
        36,
        0,
    ),
    (
        "ordset I undefined; module main() { forall (i in 0..3) p[i] : assert G 1; }",
        "p",
        "i",
        36,
        0,
    ),
    (
        "ordset I undefined; module main() { forall (i in I) forall (i in boolean) p[i] : assert G 1; }",
        "p",
        "i",
        36,
        0,
    ),
    // A claim of another module, and a layer's name.
    (
        "ordset I undefined; module sub() { forall (i in I) p[i] : assert G 1; } module main() { layer p : { } }",
        "p",
        "i",
        36,
        0,
    ),
    // The text's own faults come first.
    ("module main() { p : assert G ; }", "q", "i", 5, 29),
    ("module main() { p : assert G 600; }", "q", "i", 2, 29),
];

// Offsets of the first strengthened text, and where they stand in the text that was read.
const PLACES: &[(u32, u32)] = &[(0, 0), (91, 91), (92, 76), (150, 76), (151, 96), (154, 99)];

fn name_of(alloc: Global, name: &str) -> Result<Name, AllocError> {
    Ok(Name::from_vec(Vec::from_slice(alloc, name.as_bytes())?))
}

// What is answered: the offsets and the text, or the fault.
fn told(alloc: Global, text: &str, name: &str, var: &str) -> Result<String, AllocError> {
    let name = name_of(alloc, name)?;
    let var = name_of(alloc, var)?;
    if text.len() > LIMIT {
        return format!(in alloc; "too long");
    }
    match strengthen(alloc, text.as_bytes(), &name, &var) {
        Ok(s) => {
            let Stronger {
                text,
                from,
                old,
                new,
                at,
            } = s;
            match String::from_utf8(text.into_vec()) {
                Ok(written) => format!(in alloc; "{from} {old} {new} {at} {written}"),
                Err(_) => format!(in alloc; "no text"),
            }
        }
        Err(Refusal::Fault(fault)) => format!(in alloc; "fault {} at {}", fault.number, fault.at),
        Err(Refusal::OutOfMemory) => format!(in alloc; "out of memory"),
    }
}

// Fails with the first answer that is another.
fn all_are(answer: String, wanted: String) -> Result<(), Fail> {
    if answer.as_str() == wanted.as_str() {
        return Ok(());
    }
    Err(Fail::new(answer))
}

#[test]
fn texts_are_strengthened(rt: HostRuntime) -> Result<(), Fail> {
    let alloc = rt.alloc();
    for row in TEXTS {
        let (front, body, behind, at, written) = *row;
        let text = format!(in alloc; "{front}{body}{behind}")?;
        let (from, old, new) = (front.len(), body.len(), written.len());
        let wanted = format!(in alloc; "{from} {old} {new} {at} {front}{written}{behind}")?;
        all_are(told(alloc, &text, "p", "i")?, wanted)?;
    }
    Ok(())
}

#[test]
fn texts_are_refused(rt: HostRuntime) -> Result<(), Fail> {
    let alloc = rt.alloc();
    for row in REFUSED {
        let (text, name, var, number, at) = *row;
        let wanted = format!(in alloc; "fault {number} at {at}")?;
        all_are(told(alloc, text, name, var)?, wanted)?;
    }
    Ok(())
}

#[test]
fn places_are_carried_back(rt: HostRuntime) -> Result<(), Fail> {
    let alloc = rt.alloc();
    let [(front, body, behind, _, _), ..] = TEXTS else {
        return Ok(());
    };
    let text = format!(in alloc; "{front}{body}{behind}")?;
    if text.len() > LIMIT {
        return Ok(());
    }
    let s = strengthen(
        alloc,
        text.as_bytes(),
        &name_of(alloc, "p")?,
        &name_of(alloc, "i")?,
    )?;
    for row in PLACES {
        let (at, place) = *row;
        if at as usize > s.text.len() || back(&s, at) != place {
            return Err(Fail::new(at));
        }
    }
    Ok(())
}
