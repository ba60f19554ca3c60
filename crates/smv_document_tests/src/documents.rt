//! Proof documents: what is written, and what is resumed.

use crate::calls::{Row, all_are_answered};
use std::test::Fail;

const WRITTEN: &[Row] = &[
    (
        "proof",
        "module main() { x : boolean; init(x) := 0; next(x) := ~x; p : assert G (x | ~x); }",
        0,
        "smv proof 1\ndesign 82\nmodule main() { x : boolean; init(x) := 0; next(x) := ~x; p : assert G (x | ~x); }\nset p 0 1 0\n",
    ),
    (
        "proof",
        "module main() { x : boolean; init(x) := 0; next(x) := ~x; p : assert G ~x; }",
        1,
        "p: false at 1\n time 0: x = 0\n time 1: x = 1\nproved 0 of 1\n",
    ),
    (
        "proof --nodes 1",
        "module main() { x : boolean; init(x) := 0; next(x) := ~x; p : assert G (x | ~x); }",
        2,
        "p: unknown nodes 4\nproved 0 of 1\n",
    ),
    (
        "proof --steps 8",
        "module main() { x : 0..7; init(x) := 0; next(x) := (x + 1) mod 8; p : assert G (x <= 7); }",
        0,
        "smv proof 1\ndesign 90\nmodule main() { x : 0..7; init(x) := 0; next(x) := (x + 1) mod 8; p : assert G (x <= 7); }\nset p 0 1 0\n",
    ),
    (
        "proof --steps 7",
        "module main() { x : 0..7; init(x) := 0; next(x) := (x + 1) mod 8; p : assert G (x <= 7); }",
        2,
        "p: unknown steps\nproved 0 of 1\n",
    ),
    (
        "proof",
        "module main() { }",
        0,
        "smv proof 1\ndesign 17\nmodule main() { }\n",
    ),
    ("proof", "", 3, "fault 9 at line 1 column 1\n"),
    (
        "proof",
        "module main() { x : boolean; x := y; }",
        3,
        "fault 7 at line 1 column 35\n",
    ),
    (
        "proof",
        "module main() { x : boolean; init(x) := 0; next(x) := x; p : assert G ~x; }",
        0,
        "smv proof 1\ndesign 75\nmodule main() { x : boolean; init(x) := 0; next(x) := x; p : assert G ~x; }\nset p 0 2 1\n0 1 0\n",
    ),
    (
        "proof",
        "module main() { x, y : boolean; init(x) := 0; next(x) := x; init(y) := 1; next(y) := y; p : assert G ~x; q : assert G y; }",
        0,
        "smv proof 1\ndesign 122\nmodule main() { x, y : boolean; init(x) := 0; next(x) := x; init(y) := 1; next(y) := y; p : assert G ~x; q : assert G y; }\nset p 0 2 1\n0 1 0\nset q 0 2 1\n0 0 1\n",
    ),
];

const RESUMED: &[Row] = &[
    (
        "resume --steps 1",
        "old 125\nsmv proof 1\ndesign 90\nmodule main() { x : 0..7; init(x) := 0; next(x) := (x + 1) mod 8; p : assert G (x <= 7); }\nset p 0 1 0\n\nmodule main() { x : 0..7; init(x) := 0; next(x) := (x + 1) mod 8; p : assert G (x <= 7); }",
        0,
        "smv proof 1\ndesign 90\nmodule main() { x : 0..7; init(x) := 0; next(x) := (x + 1) mod 8; p : assert G (x <= 7); }\nset p 0 1 0\n",
    ),
    (
        "resume --steps 1",
        "old 125\nsmv proof 1\ndesign 90\nmodule main() { x : 0..7; init(x) := 0; next(x) := (x + 1) mod 8; p : assert G (x <= 7); }\nset p 0 0 0\n\nmodule main() { x : 0..7; init(x) := 0; next(x) := (x + 1) mod 8; p : assert G (x <= 7); }",
        2,
        "p: unknown steps\nproved 0 of 1\n",
    ),
    (
        "resume --steps 8",
        "old 125\nsmv proof 1\ndesign 90\nmodule main() { x : 0..7; init(x) := 0; next(x) := (x + 1) mod 8; p : assert G (x <= 7); }\nset p 0 0 0\n\nmodule main() { x : 0..7; init(x) := 0; next(x) := (x + 1) mod 8; p : assert G (x <= 7); }",
        0,
        "smv proof 1\ndesign 90\nmodule main() { x : 0..7; init(x) := 0; next(x) := (x + 1) mod 8; p : assert G (x <= 7); }\nset p 0 1 0\n",
    ),
    ("resume", "", 9, "rejected form\n"),
    ("resume", "old 3\nabc", 9, "rejected form\n"),
    ("resume", "old 03\nabc\n", 9, "rejected form\n"),
    (
        "resume",
        "old 116\nsmv proof 1\ndesign 82\nmodule main() { x : boolean; init(x) := 0; next(x) := ~x; p : assert G (x | ~x); }\nset p 0 1 0\nmodule main() { x : boolean; init(x) := 0; next(x) := ~x; p : assert G (x | ~x); }",
        9,
        "rejected form\n",
    ),
    (
        "resume",
        "old 117\nsmv proof 1\ndesign 82\nmodule main() { x : boolean; init(x) := 0; next(x) := ~x; p : assert G (x | ~x); }\nset p 0 1 0\n\nmodule main() { x : boolean; x := y; }",
        3,
        "fault 7 at line 1 column 35\n",
    ),
    (
        "resume",
        "old 117\nsmv proof 1\ndesign 82\nmodule main() { x : boolean; init(x) := 0; next(x) := ~x; p : assert G (x | ~x); }\nset p 0 1 0\n\nmodule main() { x : boolean; init(x) := 0; next(x) := ~x; p : assert G ~x; }",
        1,
        "p: false at 1\n time 0: x = 0\n time 1: x = 1\nproved 0 of 1\n",
    ),
    (
        "resume --steps 1",
        "old 149\nsmv proof 1\ndesign 90\nmodule main() { x : 0..7; init(x) := 0; next(x) := (x + 1) mod 8; p : assert G (x <= 7); }\nset q 0 0 0\nset p 1 0 0\nset p 0 1 0\n\nmodule main() { x : 0..7; init(x) := 0; next(x) := (x + 1) mod 8; p : assert G (x <= 7); }",
        0,
        "smv proof 1\ndesign 90\nmodule main() { x : 0..7; init(x) := 0; next(x) := (x + 1) mod 8; p : assert G (x <= 7); }\nset p 0 1 0\n",
    ),
    (
        "resume --steps 1",
        "old 137\nsmv proof 1\ndesign 90\nmodule main() { x : 0..7; init(x) := 0; next(x) := (x + 1) mod 8; p : assert G (x <= 7); }\nset p 0 0 0\nset p 0 1 0\n\nmodule main() { x : 0..7; init(x) := 0; next(x) := (x + 1) mod 8; p : assert G (x <= 7); }",
        2,
        "p: unknown steps\nproved 0 of 1\n",
    ),
    (
        "resume --steps 1",
        "old 131\nsmv proof 1\ndesign 90\nmodule main() { x : 0..7; init(x) := 0; next(x) := (x + 1) mod 8; p : assert G (x <= 7); }\nset p 0 2 1\n6 1 0\n\nmodule main() { x : 0..7; init(x) := 0; next(x) := (x + 1) mod 8; p : assert G (x <= 7); }",
        2,
        "p: unknown steps\nproved 0 of 1\n",
    ),
    // One of two stations changed: the set of the other's unit still serves; that of its own does not, and one image is too few to search.
    (
        "resume --steps 1",
        "old 252\nsmv proof 1\ndesign 180\nmodule main() { a, b : 0..3; init(a) := 0; next(a) := a = 2 ? 2 : (a + 1) mod 4; init(b) := 0; next(b) := b = 2 ? 2 : (b + 1) mod 4; p : assert G ~(a = 3); q : assert G ~(b = 3); }\nset p 0 3 2\n2 1 0\n0 1 2\nset q 0 3 2\n2 1 0\n0 1 2\n\nmodule main() { a, b : 0..3; init(a) := 0; next(a) := a = 2 ? 2 : (a + 1) mod 4; init(b) := 0; next(b) := b = 1 ? 1 : (b + 1) mod 4; p : assert G ~(a = 3); q : assert G ~(b = 3); }",
        2,
        "p: true\nq: unknown steps\nproved 1 of 2\n",
    ),
    (
        "resume --steps 1",
        "old 252\nsmv proof 1\ndesign 180\nmodule main() { a, b : 0..3; init(a) := 0; next(a) := a = 2 ? 2 : (a + 1) mod 4; init(b) := 0; next(b) := b = 2 ? 2 : (b + 1) mod 4; p : assert G ~(a = 3); q : assert G ~(b = 3); }\nset p 0 3 2\n2 1 0\n0 1 2\nset q 0 3 2\n2 1 0\n0 1 2\n\nmodule main() { a, b : 0..3; init(a) := 0; next(a) := a = 2 ? 2 : (a + 1) mod 4; init(b) := 0; next(b) := b = 2 ? 2 : (b + 1) mod 4; p : assert G ~(a = 3); q : assert G ~(b = 3); }",
        0,
        "smv proof 1\ndesign 180\nmodule main() { a, b : 0..3; init(a) := 0; next(a) := a = 2 ? 2 : (a + 1) mod 4; init(b) := 0; next(b) := b = 2 ? 2 : (b + 1) mod 4; p : assert G ~(a = 3); q : assert G ~(b = 3); }\nset p 0 3 2\n2 1 0\n0 1 2\nset q 0 3 2\n2 1 0\n0 1 2\n",
    ),
    (
        "resume --steps 8",
        "old 252\nsmv proof 1\ndesign 180\nmodule main() { a, b : 0..3; init(a) := 0; next(a) := a = 2 ? 2 : (a + 1) mod 4; init(b) := 0; next(b) := b = 2 ? 2 : (b + 1) mod 4; p : assert G ~(a = 3); q : assert G ~(b = 3); }\nset p 0 3 2\n2 1 0\n0 1 2\nset q 0 3 2\n2 1 0\n0 1 2\n\nmodule main() { a, b : 0..3; init(a) := 0; next(a) := a = 2 ? 2 : (a + 1) mod 4; init(b) := 0; next(b) := b = 1 ? 1 : (b + 1) mod 4; p : assert G ~(a = 3); q : assert G ~(b = 3); }",
        0,
        "smv proof 1\ndesign 180\nmodule main() { a, b : 0..3; init(a) := 0; next(a) := a = 2 ? 2 : (a + 1) mod 4; init(b) := 0; next(b) := b = 1 ? 1 : (b + 1) mod 4; p : assert G ~(a = 3); q : assert G ~(b = 3); }\nset p 0 3 2\n2 1 0\n0 1 2\nset q 0 2 1\n0 1 0\n",
    ),
];

#[test]
fn documents_are_written(rt: HostRuntime) -> Result<(), Fail> {
    all_are_answered(rt.alloc(), WRITTEN)
}

#[test]
fn documents_are_resumed(rt: HostRuntime) -> Result<(), Fail> {
    all_are_answered(rt.alloc(), RESUMED)
}
