//! Texts with what is told of them, and what happens where a source or a sink fails.

use smv_io::{Bytes, Taken};
use smv_look_run::run;
use std::alloc::{AllocError, Global};
use std::test::Fail;

// A claim for each of two clients, with a claim that it uses: one is named by its scalarset's parameter.
const TEXT: &str =
    "scalarset ID 0..2;\nmodule main() {\n  x, y : 0..5;\n  who : ID;\n  init(x) := 0;\n  next(x) := y;\n  small : assert G x < 6;\n  forall (i in ID) other : assert G (who = i | x < 6);\n  using small, y//free prove other;\n}\n";

const CASES: &str =
    "module main() {\n  x : array 0..1 of boolean;\n  forall (i in 0..1) init(x[i]) := 1;\n  forall (i in 0..1) next(x[i]) := x[i];\n  forall (i in 0..1) p[i] : assert G x[i];\n}\n";

// The words, the text, the exit status and what is written.
pub type Row = (&'static str, &'static str, u8, &'static str);

const ROWS: &[Row] = &[
    ("list", "module main() { x : boolean; }\n", 0, ""),
    (
        "list",
        "module main() {\n  x : boolean;\n  p : assert G x;\n}\n",
        0,
        "p: claim at line 3 column 3\n leaf p\n cases 1\n",
    ),
    (
        "cone p",
        "module main() {\n  x : boolean;\n  y : 0..4;\n  next(x) := y = 2;\n  p : assert G x;\n}\n",
        0,
        "p: case 1 of 1, bits 4\n x: bits 1, base, state\n y: bits 3, free\n",
    ),
    (
        "cone p 2",
        "module main() { x : boolean; p : assert G x; }\n",
        1,
        "p: cases 1\n",
    ),
    (
        "cone q",
        "module main() { x : boolean; p : assert G x; }\n",
        3,
        "fault 26 at line 1 column 1\n",
    ),
    // Where nothing is claimed there is nothing to explain.
    (
        "explain",
        "module main() { x : boolean; }\n",
        0,
        "proved 0 of 0\n",
    ),
    (
        "explain",
        "module main() { x : boolean; x := 1; p : assert G x; }\n",
        0,
        "proved 1 of 1\n",
    ),
    // A map, with an abstract signal.
    (
        "explain",
        "module main() { x, y : boolean; x := 0; abstract a : boolean; layer L : { a := y; x := a; } }\n",
        1,
        "x//L: false at 0\n             0\n x target    0\n y           1\n a abstract  1\n the map allows 1\nproved 0 of 1\n",
    ),
    // A map that allows other values at the last time than before.
    (
        "explain",
        "module main() { c : 0..3; init(c) := 0; next(c) := 0; layer L : { init(c) := 0; next(c) := c + 1; } }\n",
        1,
        "c//L: false at 1\n           0  1\n c target  0  .\n the map allows 1\nproved 0 of 1\n",
    ),
    // One that allows several, in the order of the type.
    (
        "explain",
        "module main() { x : {red, green, blue}; x := blue; layer L : { x := {green, red}; } }\n",
        1,
        "x//L: false at 0\n              0\n x target  blue\n the map allows red, green\nproved 0 of 1\n",
    ),
    // One of what the case does not show.
    (
        "explain",
        "scalarset P undefined; module main() { a : P; x : array P of boolean; y : boolean; layer L : { y := x[a]; } }\n",
        1,
        "y//L: false at 0\n           0\n a         *\n y target  0\n the map allows no value for certain\nproved 0 of 1\n",
    ),
    // A claim, and one that is true if the other is.
    (
        "explain",
        "module main() { x, y : boolean; y := x; p : assert G x; q : assert G y; using p prove q; }\n",
        1,
        "p: false at 0\n    0\n x  0\nq: true\n leans on p, which is false\nproved 1 of 2\n",
    ),
    // A claim over a value of a scalarset, with the case.
    (
        "explain",
        "scalarset ID undefined;\nmodule main() { who : ID; on : boolean; next(who) := who; init(on) := 0; next(on) := 1; forall (i in ID) p[i] : assert G (who = i -> ~on); }\n",
        1,
        "p: false at 1\n case #0\n       0   1\n who  #0   .\n on    0   1\nproved 0 of 1\n",
    ),
    (
        "sets p",
        "module main() {\n  x : boolean;\n  init(x) := 1;\n  next(x) := x;\n  p : assert G x;\n}\n",
        0,
        "set p 0 2 1\n0 0 1\n",
    ),
    (
        "sets p",
        "module main() { x : boolean; p : assert G x; }\n",
        1,
        "p: false at 0\n time 0: x = 0\n",
    ),
    (
        "sets p 1 --steps 1 --nodes 1000",
        "module main() { x : boolean; init(x) := 0; next(x) := ~x; p : assert G (x | ~x); }\n",
        2,
        "p: unknown steps\n",
    ),
    (
        "sets p 2",
        "module main() { x : boolean; p : assert G x; }\n",
        1,
        "p: cases 1\n",
    ),
    (
        "sets q",
        "module main() { x : boolean; p : assert G x; }\n",
        3,
        "fault 26 at line 1 column 1\n",
    ),
    // A case for each number, of which the second is looked at alone.
    (
        "sets p",
        CASES,
        0,
        "set p 0 2 1\n0 0 1\nset p 1 2 1\n0 0 1\n",
    ),
    ("sets p 2", CASES, 0, "set p 1 2 1\n0 0 1\n"),
    (
        "front",
        "module main() { x : boolean; }\n",
        0,
        "smv proof 1\ndesign 31\nmodule main() { x : boolean; }\n\n",
    ),
    // A state bit that is free: no gate is needed.
    (
        "aiger p",
        "module main() { x : boolean; p : assert G x; }\n",
        0,
        "aig 3 1 2 1 0\n2\n1\n3\ni0 n0\nl0 s0\nl1 started\no0 broken\nc\n time 0: x = 0\n time 1: x = 1\n",
    ),
    // A state bit that stays: gates for the step, and one for each latch.
    (
        "aiger p 1",
        "module main() { x : boolean; init(x) := 1; next(x) := x; p : assert G x; }\n",
        0,
        "aig 12 1 2 1 9\n24\n21\n22\n\x04\x02\x05\x02\x01\x02\x01\n\x03\x07\x0b\x05\x01\x02\x08\x08\x03\x13i0 n0\nl0 s0\nl1 started\no0 broken\nc\n time 0: x = 0\n time 1: x = 1\n",
    ),
    (
        "aiger p 2",
        "module main() { x : boolean; p : assert G x; }\n",
        1,
        "p: cases 1\n",
    ),
    (
        "aiger q",
        "module main() { x : boolean; p : assert G x; }\n",
        3,
        "fault 26 at line 1 column 1\n",
    ),
    (
        "list",
        "module main() {\n  x := 1;\n}\n",
        3,
        "fault 7 at line 2 column 3\n",
    ),
];

// The call of the source that fails, and the room of the sink.
type Streams = (Option<u64>, usize);

// Where no call fails, and the sink has room.
const WHOLE: Streams = (None, 4000);

const CLAIM: &str = "module main() { x : boolean; p : assert G x; }\n";

const USAGE: &str =
    "usage: smv_look list|cone NAME [CASE]|lint|explain|sets NAME [CASE]|front|aiger NAME [CASE] < TEXT\n";

const STREAM_ROWS: &[(Streams, Row)] = &[
    // Where the words ask for nothing the source is not asked.
    ((Some(0), 4000), ("", CLAIM, 4, USAGE)),
    ((Some(0), 4000), ("list p", CLAIM, 4, USAGE)),
    ((Some(0), 4000), ("cone", CLAIM, 4, USAGE)),
    ((Some(0), 4000), ("lint p", CLAIM, 4, USAGE)),
    ((Some(0), 4000), ("explain 7", CLAIM, 4, USAGE)),
    ((Some(0), 4000), ("cone p 0", CLAIM, 4, USAGE)),
    ((Some(0), 4000), ("cone p 4097", CLAIM, 4, USAGE)),
    ((Some(0), 4000), ("sets", CLAIM, 4, USAGE)),
    ((Some(0), 4000), ("sets p 0", CLAIM, 4, USAGE)),
    ((Some(0), 4000), ("sets p --nodes 0", CLAIM, 4, USAGE)),
    ((Some(0), 4000), ("front p", CLAIM, 4, USAGE)),
    ((Some(0), 4000), ("aiger", CLAIM, 4, USAGE)),
    ((Some(0), 4000), ("list", CLAIM, 5, "")),
    ((None, 5), ("list", CLAIM, 6, "p: cl")),
    ((None, 7), ("list", "x\n", 6, "fault 5")),
];

// The words, parted by blanks.
fn words_of(alloc: Global, line: &str) -> Result<Vec<String>, AllocError> {
    let mut words = Vec::new(alloc);
    for word in line.split_ascii_whitespace() {
        words.push(String::from_str(alloc, word)?)?;
    }
    Ok(words)
}

// A source of a text of which a call may fail.
fn source_of(alloc: Global, text: &str, failing: Option<u64>) -> Result<Bytes, AllocError> {
    let mut calls = Vec::new(alloc);
    if let Some(call) = failing {
        calls.push(call)?;
    }
    Ok(Bytes::new(text.as_bytes().to_vec(alloc)?, calls))
}

// Whether a call has this exit status, and this is written.
fn is_answered(alloc: Global, streams: Streams, row: Row) -> Result<bool, AllocError> {
    let (line, text, want, written) = row;
    let words = words_of(alloc, line)?;
    let mut source = source_of(alloc, text, streams.0)?;
    let mut sink = Taken::with_room(alloc, streams.1, Vec::new(alloc))?;
    let status = run(alloc, &words, &mut source, &mut sink);
    Ok(status.number() == want && sink.taken() == written.as_bytes())
}

// Fails with the words of the first row that is answered otherwise.
pub fn all_are_answered(alloc: Global, rows: &[Row]) -> Result<(), Fail> {
    for row in rows {
        if !is_answered(alloc, WHOLE, *row)? {
            return Err(Fail::new(row.0));
        }
    }
    Ok(())
}

#[test]
fn texts_have_their_answers(rt: HostRuntime) -> Result<(), Fail> {
    all_are_answered(rt.alloc(), ROWS)
}

// Fails with the words of the first row that is answered otherwise.
fn all_streams_are_answered(alloc: Global, rows: &[(Streams, Row)]) -> Result<(), Fail> {
    for (streams, row) in rows {
        if !is_answered(alloc, *streams, *row)? {
            return Err(Fail::new(row.0));
        }
    }
    Ok(())
}

#[test]
fn words_and_faults_of_streams_are_told(rt: HostRuntime) -> Result<(), Fail> {
    all_streams_are_answered(rt.alloc(), STREAM_ROWS)
}
