//! Proof documents that are checked: each rule of a document is broken once.

use crate::calls::{Judged, Row, all_are_answered, all_are_judged};
use std::test::Fail;

// A bit that changes at every step, of which each state is reached.
const TOGGLE: &str =
    "smv proof 1\ndesign 82\nmodule main() { x : boolean; init(x) := 0; next(x) := ~x; p : assert G (x | ~x); }\n";

const SETS_OF_TOGGLE: &[Judged] = &[
    // Every state; none; one of the two.
    ("set p 0 1 0\n", 0, "checked 1\n"),
    ("set p 0 0 0\n", 9, "rejected set 1\n"),
    ("set p 0 2 1\n0 0 1\n", 9, "rejected set 1\n"),
    // Every state, beside a line that nothing leads to.
    ("set p 0 1 1\n0 0 1\n", 0, "checked 1\n"),
    // Numbers, blanks and ends of lines.
    ("set p 0 1 00\n", 9, "rejected form\n"),
    ("set p 00 1 0\n", 9, "rejected form\n"),
    ("set p 0 +1 0\n", 9, "rejected form\n"),
    ("set p 0 1  0\n", 9, "rejected form\n"),
    (" set p 0 1 0\n", 9, "rejected form\n"),
    ("set p 0 1 0 \n", 9, "rejected form\n"),
    ("set p\t0 1 0\n", 9, "rejected form\n"),
    ("set p 0 1 0", 9, "rejected form\n"),
    ("set p 0 1 0\n\n", 9, "rejected form\n"),
    ("set p 0 1 0\r\n", 9, "rejected form\n"),
    ("set p 4294967296 1 0\n", 9, "rejected form\n"),
    ("set p 0 1 4294967296\n", 9, "rejected form\n"),
    ("Set p 0 1 0\n", 9, "rejected form\n"),
    // Names.
    ("set  0 1 0\n", 9, "rejected form\n"),
    ("set q 0 1 0\n", 9, "rejected form\n"),
    ("set pp 0 1 0\n", 9, "rejected form\n"),
    // Roots and how many lines there are.
    ("set p 0 2 0\n", 9, "rejected form\n"),
    ("set p 0 3 1\n0 0 1\n", 9, "rejected form\n"),
    ("set p 0 2 1\n", 9, "rejected form\n"),
    ("set p 0 2 2\n0 0 1\n", 9, "rejected form\n"),
    ("set p 0 1 0\n0 0 1\n", 9, "rejected form\n"),
    // Lines: equal branches, odd and too great variables, a line that is its own or a later one, equal lines, a branch whose variable is not greater.
    ("set p 0 2 1\n0 1 1\n", 9, "rejected form\n"),
    ("set p 0 2 1\n1 0 1\n", 9, "rejected form\n"),
    ("set p 0 2 1\n2048 0 1\n", 9, "rejected form\n"),
    ("set p 0 2 1\n0 2 1\n", 9, "rejected form\n"),
    ("set p 0 3 2\n0 3 1\n0 0 1\n", 9, "rejected form\n"),
    ("set p 0 3 2\n0 0 1\n0 0 1\n", 9, "rejected form\n"),
    ("set p 0 3 2\n0 0 1\n0 2 1\n", 9, "rejected form\n"),
    ("set p 0 3 2\n0 0 1\n2 2 1\n", 9, "rejected form\n"),
    ("set p 0 2 1\n0 0\n", 9, "rejected form\n"),
    ("set p 0 2 1\n0 0 1 1\n", 9, "rejected form\n"),
    // A bit that the case does not have.
    ("set p 0 2 1\n2 0 1\n", 9, "rejected form\n"),
    ("set p 0 2 1\n2046 0 1\n", 9, "rejected form\n"),
    // Sets that are not those of the cases.
    ("", 9, "rejected form\n"),
    ("set p 1 1 0\n", 9, "rejected form\n"),
    ("set p 0 1 0\nset p 0 1 0\n", 9, "rejected form\n"),
    ("set p 0 0 0\nset p 0 1 0\n", 9, "rejected form\n"),
];

// A bit that is 0 and stays so.
const STAYS: &str =
    "smv proof 1\ndesign 75\nmodule main() { x : boolean; init(x) := 0; next(x) := x; p : assert G ~x; }\n";

const SETS_OF_STAYS: &[Judged] = &[
    // The one state that is reached; every state; the other one.
    ("set p 0 2 1\n0 1 0\n", 0, "checked 1\n"),
    ("set p 0 1 0\n", 9, "rejected set 1\n"),
    ("set p 0 2 1\n0 0 1\n", 9, "rejected set 1\n"),
];

// Two bits that stay, one at 0 and one at 1.
const TWO: &str =
    "smv proof 1\ndesign 122\nmodule main() { x, y : boolean; init(x) := 0; next(x) := x; init(y) := 1; next(y) := y; p : assert G ~x; q : assert G y; }\n";

const SETS_OF_TWO: &[Judged] = &[
    // Both sets; exchanged; each that of the other unit.
    ("set p 0 2 1\n0 1 0\nset q 0 2 1\n0 0 1\n", 0, "checked 2\n"),
    (
        "set q 0 2 1\n0 0 1\nset p 0 2 1\n0 1 0\n",
        9,
        "rejected form\n",
    ),
    (
        "set p 0 2 1\n0 0 1\nset q 0 2 1\n0 1 0\n",
        9,
        "rejected set 1\n",
    ),
    (
        "set p 0 2 1\n0 0 1\nset q 0 2 1\n0 0 1\n",
        9,
        "rejected set 1\n",
    ),
    (
        "set p 0 2 1\n0 1 0\nset q 0 2 1\n0 1 0\n",
        9,
        "rejected set 2\n",
    ),
    // What is wrong with the form comes first, wherever it stands.
    (
        "set p 0 2 1\n0 0 1\nset q 0 2 1\n2 0 1\n",
        9,
        "rejected form\n",
    ),
    ("set p 0 2 1\n0 0 1\n", 9, "rejected form\n"),
    (
        "set p 0 2 1\n0 0 1\nset q 0 2 1\n0 0 1\nset q 0 2 1\n0 0 1\n",
        9,
        "rejected form\n",
    ),
];

const DOCUMENTS: &[Row] = &[
    // Nothing; a design without units.
    ("check", "", 9, "rejected form\n"),
    (
        "check",
        "smv proof 1\ndesign 17\nmodule main() { }\n",
        0,
        "checked 0\n",
    ),
    (
        "check",
        "smv proof 1\ndesign 17\nmodule main() { }",
        9,
        "rejected form\n",
    ),
    // The first line, and the length of the design.
    (
        "check",
        "smv proof 2\ndesign 82\nmodule main() { x : boolean; init(x) := 0; next(x) := ~x; p : assert G (x | ~x); }\nset p 0 1 0\n",
        9,
        "rejected form\n",
    ),
    (
        "check",
        "smv proof 1\ndesign 082\nmodule main() { x : boolean; init(x) := 0; next(x) := ~x; p : assert G (x | ~x); }\nset p 0 1 0\n",
        9,
        "rejected form\n",
    ),
    (
        "check",
        "smv proof 1\ndesign 81\nmodule main() { x : boolean; init(x) := 0; next(x) := ~x; p : assert G (x | ~x); }\nset p 0 1 0\n",
        9,
        "rejected form\n",
    ),
    (
        "check",
        "smv proof 1\ndesign 83\nmodule main() { x : boolean; init(x) := 0; next(x) := ~x; p : assert G (x | ~x); }\nset p 0 1 0\n",
        9,
        "rejected form\n",
    ),
    (
        "check",
        "smv proof 1\ndesign 4294967295\nmodule main() { x : boolean; init(x) := 0; next(x) := ~x; p : assert G (x | ~x); }\nset p 0 1 0\n",
        9,
        "rejected form\n",
    ),
    // A design whose claim is false, with every state and with those that are reached before.
    (
        "check",
        "smv proof 1\ndesign 76\nmodule main() { x : boolean; init(x) := 0; next(x) := ~x; p : assert G ~x; }\nset p 0 1 0\n",
        9,
        "rejected set 1\n",
    ),
    (
        "check",
        "smv proof 1\ndesign 76\nmodule main() { x : boolean; init(x) := 0; next(x) := ~x; p : assert G ~x; }\nset p 0 2 1\n0 1 0\n",
        9,
        "rejected set 1\n",
    ),
    // A design with a fault, which comes before what is wrong with the sets, and behind what is wrong with the form.
    (
        "check",
        "smv proof 1\ndesign 38\nmodule main() { x : boolean; x := y; }\nset p 0 1 0\n",
        3,
        "fault 7 at line 1 column 35\n",
    ),
    (
        "check",
        "smv proof 1\ndesign 38\nmodule main() { x : boolean; x := y; }\n",
        3,
        "fault 7 at line 1 column 35\n",
    ),
    (
        "check",
        "smv proof 1\ndesign 42\nmodule main() {\n  x : boolean;\n  x := y;\n}\n",
        3,
        "fault 7 at line 3 column 8\n",
    ),
    (
        "check",
        "smv proof 1\ndesign 38\nmodule main() { x : boolean; x := y; }\nset p 0 1 00\n",
        9,
        "rejected form\n",
    ),
];

#[test]
fn sets_of_toggle_are_judged(rt: HostRuntime) -> Result<(), Fail> {
    all_are_judged(rt.alloc(), TOGGLE, SETS_OF_TOGGLE)
}

#[test]
fn sets_of_stays_are_judged(rt: HostRuntime) -> Result<(), Fail> {
    all_are_judged(rt.alloc(), STAYS, SETS_OF_STAYS)
}

#[test]
fn sets_of_two_are_judged(rt: HostRuntime) -> Result<(), Fail> {
    all_are_judged(rt.alloc(), TWO, SETS_OF_TWO)
}

#[test]
fn documents_are_checked(rt: HostRuntime) -> Result<(), Fail> {
    all_are_answered(rt.alloc(), DOCUMENTS)
}
