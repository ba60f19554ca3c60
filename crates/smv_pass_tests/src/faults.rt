//! The first fault of single assignment, of loops and of layers. Each row is the body of a module, in which `@` marks the
//! place of its fault, with the number of the fault, or 0 where there is none.

use crate::texts::{designed, flattened, marked};
use smv_core::{Fault, Refusal};
use smv_layers::layer_fault;
use smv_loops::loops::loop_fault;
use smv_single_assignment::single_fault;
use std::alloc::Global;
use std::test::Fail;

#[derive(Clone, Copy)]
enum Pass {
    SingleAssignment,
    Loops,
    Layers,
}

fn first_fault(alloc: Global, pass: Pass, text: &str) -> Result<Option<Fault>, Refusal> {
    match pass {
        Pass::SingleAssignment => {
            let flat_text = flattened(alloc, text)?;
            Ok(single_fault(alloc, &flat_text)?)
        }
        Pass::Loops => {
            let design = designed(alloc, text)?;
            Ok(loop_fault(alloc, &design)?)
        }
        Pass::Layers => {
            let design = designed(alloc, text)?;
            Ok(layer_fault(&design))
        }
    }
}

const ASSIGNED: &str =
    "scalarset P undefined; module main() { s, c, e : boolean; d : P; a : array 0..5 of boolean; b : array 0..5 of array 0..5 of boolean; t : array P of array P of array P of boolean; ";

const ASSIGNMENTS: &[(&'static str, u8)] = &[
    ("s := 0; @s := 1;", 15),
    ("s := 0; layer L : { s := 1; }", 0),
    ("next(s) := 0; @s := 1;", 16),
    ("next(s) := 0; init(s) := 1;", 0),
    // Constants, and one that has no value.
    ("if (c) { a[0] := 0; a[1] := 0; }", 0),
    ("if (c) { a[2] := 0; @a[5 - 3] := 0; }", 15),
    ("if (c) { a[0] := 0; @a[0 - 1] := 0; }", 15),
    // Branches.
    ("if (c) s := 0; else s := 1;", 0),
    ("if (c) s := 0; else @init(s) := 1;", 16),
    // Each variable that is bound around both has to stand bare at one index of both.
    (
        "forall (i in P) default { forall (j in P) b[i][j] := 0; } in { forall (j in P) @b[j][i] := 1; }",
        15,
    ),
    (
        "forall (i in P) if (c) t[i][i][d] := 0; else if (e) t[i][d][i] := 1; else t[d][i][i] := 0;",
        0,
    ),
    (
        "forall (i in P) if (c) b[i][0] := 0; else b[i][1] := 1; b[0][2] := 0;",
        0,
    ),
    (
        "b[0][2] := 0; forall (i in P) if (c) b[i][0] := 0; else @b[i][2] := 1;",
        15,
    ),
    // A variable that is bound around an assignment or a claim, and only such a one.
    ("forall (i in P) @a[1] := 0;", 17),
    ("forall (i in P) forall (j in P) @a[i] := 0;", 17),
    ("@p[i] : assert G 1;", 17),
    // The first by its place, and then by its number.
    ("a[1] := 0; forall (i in P) @a[1] := 0;", 15),
    ("forall (i in P) @a[1] := 0; a[1] := 0;", 17),
];

const LOOPING: &str = "module main() { a, b : boolean; x : array 0..1 of boolean; ";

const LOOPS: &[(&'static str, u8)] = &[
    // The first assignment with which there is a loop.
    ("b := a; @a := b;", 18),
    ("if (a) @a := 0;", 18),
    // Constants keep cells apart, and an index that is none may be each number.
    ("x[0] := x[1]; x[1] := 0;", 0),
    ("x[0] := x[1]; forall (i in 0..1) @x[1] := x[i];", 18),
    ("init(a) := 0; next(a) := a;", 0),
];

const LAYERED: &str = "module main() { abstract s : boolean; x : boolean; ";

const LAYERS: &[(&'static str, u8)] = &[
    ("x := 1;", 0),
    ("@s := 1;", 20),
    ("layer L : { s := 1; }", 0),
    ("if (@s) x := 1;", 19),
    ("x := 1; if (s) { }", 0),
    ("if (@s) s := 1;", 19),
];

// Whether the first fault of a body is this one, where its mark is, or there is none for 0.
fn has_fault(
    alloc: Global,
    pass: Pass,
    front: &str,
    body: &str,
    number: u8,
) -> Result<bool, Refusal> {
    let (text, at) = marked(alloc, front, body, " }")?;
    match first_fault(alloc, pass, text.as_str())? {
        Some(fault) => Ok(fault.number == number && fault.at == at),
        None => Ok(number == 0),
    }
}

// Fails with the first body that has another fault.
fn all_have_faults(
    alloc: Global,
    pass: Pass,
    front: &str,
    rows: &[(&'static str, u8)],
) -> Result<(), Fail> {
    for (body, number) in rows {
        if !has_fault(alloc, pass, front, body, *number)? {
            return Err(Fail::new(*body));
        }
    }
    Ok(())
}

#[test]
fn faults_of_single_assignment(rt: HostRuntime) -> Result<(), Fail> {
    all_have_faults(rt.alloc(), Pass::SingleAssignment, ASSIGNED, ASSIGNMENTS)
}

#[test]
fn faults_of_loops(rt: HostRuntime) -> Result<(), Fail> {
    all_have_faults(rt.alloc(), Pass::Loops, LOOPING, LOOPS)
}

#[test]
fn faults_of_layers(rt: HostRuntime) -> Result<(), Fail> {
    all_have_faults(rt.alloc(), Pass::Layers, LAYERED, LAYERS)
}
