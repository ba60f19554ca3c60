//! Reports with their answers, and what happens where a source or a sink fails.

use smv_io::{Bytes, Taken};
use smv_wave_run::run;
use std::alloc::{AllocError, Global};
use std::test::Fail;

const REPORT: &str =
    "p: false at 1\n case #0\n time 0: x = 0, y = red\n time 1: x = 1, y = red\nq: true\nproved 1 of 2\n";

const DUMP: &str =
    "$version smv_wave $end\n$timescale 1 ns $end\n$scope module p $end\n$comment case #0 $end\n$var wire 1 ! x $end\n$var string 1 \" y $end\n$upscope $end\n$enddefinitions $end\n#0\n$dumpvars\n0!\nsred \"\n$end\n#1\n1!\n#2\n";

const TABLE: &str = "p: false at 1\n case #0\n      0    1\n x    0    1\n y  red    .\n";

// Two units, of which one has neither a case nor elements; and names and values of several lengths.
const LONGER: &str =
    "p: false at 0\n time 0:\nq//l: false at 2\n case #0, *\n time 0: a = 9, long[#0] = 0\n time 1: a = 10, long[#0] = 0\n time 2: a = 9, long[#0] = 1\nproved 0 of 2\n";

const LONGER_TABLES: &str =
    "p: false at 0\n   0\nq//l: false at 2\n case #0, *\n            0   1   2\n a          9  10   9\n long[#0]   0   .   1\n";

// Ten times, the last of which has one digit.
const TEN: &str =
    "r: false at 9\n case #0\n time 0: x = 0\n time 1: x = 1\n time 2: x = 0\n time 3: x = 1\n time 4: x = 0\n time 5: x = 1\n time 6: x = 0\n time 7: x = 1\n time 8: x = 0\n time 9: x = 1\nproved 0 of 1\n";

const TEN_TABLE: &str =
    "r: false at 9\n case #0\n    0  1  2  3  4  5  6  7  8  9\n x  0  1  0  1  0  1  0  1  0  1\n";

// The words, the report, the exit status, what is dumped and what is noted.
pub type Row = (&'static str, &'static str, u8, &'static str, &'static str);

const ROWS: &[Row] = &[
    ("", REPORT, 0, DUMP, ""),
    ("table", REPORT, 0, TABLE, ""),
    ("table", LONGER, 0, LONGER_TABLES, ""),
    ("table", TEN, 0, TEN_TABLE, ""),
    ("table", "proved 0 of 0\n", 1, "", "no false unit\n"),
    ("table", "x\n", 3, "", "fault 1 at line 1\n"),
    (
        "",
        "p: true\nq: unknown steps\nproved 1 of 2\n",
        1,
        "",
        "no false unit\n",
    ),
    ("", "proved 0 of 0\n", 1, "", "no false unit\n"),
    ("", "", 3, "", "fault 3 at line 1\n"),
    ("", "p: true\n", 3, "", "fault 3 at line 2\n"),
    ("", "p: true\nproved 1 of 1", 3, "", "fault 3 at line 2\n"),
    ("", "module main() { }\n", 3, "", "fault 1 at line 1\n"),
    (
        "",
        "fault 5 at line 1 column 1\n",
        3,
        "",
        "fault 1 at line 1\n",
    ),
    (
        "",
        "p: false at 1\n time 0: x = 0\n time 2: x = 1\n",
        3,
        "",
        "fault 2 at line 3\n",
    ),
    ("", "p: true\nproved 1 of 2\n", 3, "", "fault 2 at line 2\n"),
];

// The call of the source that fails, and the room of each sink.
type Streams = (Option<u64>, usize);

// Where no call fails, and each sink has room.
const WHOLE: Streams = (None, 2000);

const STREAM_ROWS: &[(Streams, Row)] = &[
    // Where there are words the source is not asked.
    (
        (Some(0), 2000),
        (
            "report.txt",
            REPORT,
            4,
            "",
            "usage: smv_wave [table] < REPORT > FILE\n",
        ),
    ),
    (
        (Some(0), 2000),
        (
            "table table",
            REPORT,
            4,
            "",
            "usage: smv_wave [table] < REPORT > FILE\n",
        ),
    ),
    ((Some(0), 2000), ("", REPORT, 5, "", "")),
    ((Some(0), 2000), ("table", REPORT, 5, "", "")),
    ((None, 7), ("table", REPORT, 6, "p: fals", "")),
    ((None, 7), ("", REPORT, 6, "$versio", "")),
    ((None, 7), ("", "x\n", 6, "", "fault 1")),
];

// The words, parted by blanks.
fn words_of(alloc: Global, line: &str) -> Result<Vec<String>, AllocError> {
    let mut words = Vec::new(alloc);
    for word in line.split_ascii_whitespace() {
        words.push(String::from_str(alloc, word)?)?;
    }
    Ok(words)
}

// A source of a text of which a call may fail.
fn source_of(alloc: Global, text: &str, failing: Option<u64>) -> Result<Bytes, AllocError> {
    let mut calls = Vec::new(alloc);
    if let Some(call) = failing {
        calls.push(call)?;
    }
    Ok(Bytes::new(text.as_bytes().to_vec(alloc)?, calls))
}

// Whether a call has this exit status, and this is dumped and noted.
fn is_answered(alloc: Global, streams: Streams, row: Row) -> Result<bool, AllocError> {
    let (line, text, want, dumped, noted) = row;
    let words = words_of(alloc, line)?;
    let mut source = source_of(alloc, text, streams.0)?;
    let mut dump = Taken::with_room(alloc, streams.1, Vec::new(alloc))?;
    let mut notes = Taken::with_room(alloc, streams.1, Vec::new(alloc))?;
    let status = run(alloc, &words, &mut source, &mut dump, &mut notes);
    let are_taken = dump.taken() == dumped.as_bytes() && notes.taken() == noted.as_bytes();
    Ok(status.number() == want && are_taken)
}

// Fails with the report of the first row that is answered otherwise.
pub fn all_are_answered(alloc: Global, rows: &[Row]) -> Result<(), Fail> {
    for row in rows {
        if !is_answered(alloc, WHOLE, *row)? {
            return Err(Fail::new(row.1));
        }
    }
    Ok(())
}

#[test]
fn reports_have_their_answers(rt: HostRuntime) -> Result<(), Fail> {
    all_are_answered(rt.alloc(), ROWS)
}

// Fails with the exit status of the first row that is answered otherwise.
fn all_streams_are_answered(alloc: Global, rows: &[(Streams, Row)]) -> Result<(), Fail> {
    for (streams, row) in rows {
        if !is_answered(alloc, *streams, *row)? {
            return Err(Fail::new(row.2));
        }
    }
    Ok(())
}

#[test]
fn words_and_faults_of_streams_are_told(rt: HostRuntime) -> Result<(), Fail> {
    all_streams_are_answered(rt.alloc(), STREAM_ROWS)
}
