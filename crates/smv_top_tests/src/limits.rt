//! Texts at each limit and past it.

use crate::calls::{Row, all_are_answered, is_answered};
use std::alloc::{AllocError, Global};
use std::test::Fail;

const NO_UNITS: &str = "proved 0 of 0\n";

const TOO_LARGE: &str = "fault 25 at line 1 column 8\n";

// A form of a text, which has as many parts as one likes.
#[derive(Clone, Copy)]
enum Form {
    /// A signal over this many constants.
    Constants,
    /// One list of constants three times, in a type and in a module that are not used too.
    EqualLists,
    /// One more constant, beside those of a type that is not used.
    UnusedType,
    /// The same of a module that is not used.
    UnusedModule,
    /// Signals.
    Signals,
    /// A loop of 255 loops of 255 blocks, and then a loop of this many blocks: 1 + 255 + 255 * 255 + 1 + count statements.
    Blocks,
    /// A `switch` with this many arms, each of which stands inside the one before.
    Arms,
    /// Names of types, each of a struct with the one before in it, and so two deep: itself and the type of its field; and
    /// a signal of the last.
    Types,
    /// Quantifiers over a boolean inside one another, of whose variables the body reads none.
    Quantifiers,
    /// The same over a scalarset of which one value is a class and the others are at the rest.
    QuantifiersOverRests,
    /// Quantifiers inside one another, each of which reads its own variable and that of the next around it: in a chain, and in the branch of a conditional.
    Chain,
    Branches,
    /// Blanks.
    Blanks,
}

fn text_of(alloc: Global, form: Form, count: u32) -> Result<String, AllocError> {
    match form {
        Form::Constants | Form::EqualLists | Form::UnusedType | Form::UnusedModule => {
            let names = enumeration(alloc, count)?;
            over_constants(alloc, form, names.as_str())
        }
        Form::Signals => signals(alloc, count),
        Form::Blocks => format!(in alloc;
            "module main() {{ for (a = 0; a < 255; a = a + 1) for (b = 0; b < 255; b = b + 1) {{ }} for (c = 0; c < {count}; c = c + 1) {{ }} }}"
        ),
        Form::Arms => arms(alloc, count),
        Form::Types => types(alloc, count),
        Form::Quantifiers => quantifiers(
            alloc,
            "module main() { x : boolean; p : assert G ",
            "boolean",
            count,
        ),
        Form::QuantifiersOverRests => quantifiers(
            alloc,
            "scalarset T undefined; module main() { x : boolean; forall (k in T) p[k] : assert G ",
            "T",
            count,
        ),
        Form::Chain => linked(alloc, " & ", "", count),
        Form::Branches => linked(alloc, " ? ", " : 0", count),
        Form::Blanks => repeated(alloc, " ", count),
    }
}

fn repeated(alloc: Global, part: &str, count: u32) -> Result<String, AllocError> {
    let mut text = String::new(alloc);
    for _ in 0..count {
        text.push_str(part)?;
    }
    Ok(text)
}

fn enumeration(alloc: Global, count: u32) -> Result<String, AllocError> {
    let mut text = String::from_str(alloc, "{c0")?;
    for number in 1..count {
        text.push_str(&format!(in alloc; ",c{number}")?)?;
    }
    text.push_str("}")?;
    Ok(text)
}

fn over_constants(alloc: Global, form: Form, names: &str) -> Result<String, AllocError> {
    match form {
        Form::EqualLists => format!(in alloc;
            "module main() {{ x : {names}; }} typedef t {names}; module u() {{ y : {names}; }}"
        ),
        Form::UnusedType => format!(in alloc; "module main() {{ x : {{d}}; }} typedef t {names};"),
        Form::UnusedModule => {
            format!(in alloc; "module main() {{ x : {{d}}; }} module u() {{ y : {names}; }}")
        }
        _ => format!(in alloc; "module main() {{ x : {names}; }}"),
    }
}

fn signals(alloc: Global, count: u32) -> Result<String, AllocError> {
    let mut text = String::from_str(alloc, "module main() { ")?;
    for number in 0..count {
        text.push_str(&format!(in alloc; "x{number} : boolean; ")?)?;
    }
    text.push_str("}")?;
    Ok(text)
}

fn arms(alloc: Global, count: u32) -> Result<String, AllocError> {
    let arms = repeated(alloc, " 0 : y := 0;", count)?;
    format!(in alloc; "module main() {{ x, y : boolean; switch (x) {{{arms} }} }}")
}

fn types(alloc: Global, count: u32) -> Result<String, AllocError> {
    let mut text = String::from_str(alloc, "typedef a0 struct {f : boolean;}; ")?;
    for number in 1..count {
        let before = number - 1;
        text.push_str(&format!(in alloc; "typedef a{number} struct {{f : a{before};}}; ")?)?;
    }
    let last = count.saturating_sub(1);
    text.push_str(&format!(in alloc; "module main() {{ x : a{last}; }}")?)?;
    Ok(text)
}

fn quantifiers(alloc: Global, head: &str, over: &str, count: u32) -> Result<String, AllocError> {
    let mut text = String::from_str(alloc, head)?;
    text.push_str(&repeated(alloc, "&[ ", count)?)?;
    text.push_str("(x | ~x)")?;
    for number in 0..count {
        text.push_str(&format!(in alloc; " : v{number} in {over} ]")?)?;
    }
    text.push_str("; }")?;
    Ok(text)
}

// Quantifiers inside one another, each behind what it reads and before what ends its part.
fn linked(alloc: Global, behind: &str, before: &str, count: u32) -> Result<String, AllocError> {
    let mut text = String::from_str(
        alloc,
        "module main() { b : array 0..1 of boolean; p : assert G &[ (b[v0] | ~b[v0])",
    )?;
    for number in 1..count {
        let last = number - 1;
        text.push_str(&format!(in alloc; "{behind}&[ (b[v{last}] & b[v{number}] -> b[v{last}])")?)?;
    }
    for number in 1..count {
        let var = count - number;
        text.push_str(&format!(in alloc; " : v{var} in 0..1 ]{before}")?)?;
    }
    text.push_str(" : v0 in 0..1 ]; }")?;
    Ok(text)
}

// A form with a number of parts, and its status and answer.
type FormRow = (Form, u32, u8, &'static str);

// Fails with the number of parts of the first of these texts that is answered otherwise.
fn all_forms_are_answered(alloc: Global, rows: &[FormRow]) -> Result<(), Fail> {
    for (form, count, want, answer) in rows {
        let text = text_of(alloc, *form, *count)?;
        if !is_answered(alloc, "prove", text.as_bytes(), *want, answer)? {
            return Err(Fail::new(*count));
        }
    }
    Ok(())
}

// Equal lists count once, and what is not used counts too.
const CONSTANTS: &[FormRow] = &[
    (Form::Constants, 4096, 0, NO_UNITS),
    (Form::Constants, 4097, 3, TOO_LARGE),
    (Form::EqualLists, 4096, 0, NO_UNITS),
    (Form::EqualLists, 4097, 3, TOO_LARGE),
    (Form::UnusedType, 4095, 0, NO_UNITS),
    (Form::UnusedType, 4096, 3, TOO_LARGE),
    (Form::UnusedModule, 4095, 0, NO_UNITS),
    (Form::UnusedModule, 4096, 3, TOO_LARGE),
];

const THINGS: &[FormRow] = &[
    (Form::Signals, 4096, 0, NO_UNITS),
    (Form::Signals, 4097, 3, TOO_LARGE),
    (Form::Blocks, 254, 0, NO_UNITS),
    (Form::Blocks, 255, 3, TOO_LARGE),
    (Form::Blanks, 1_048_576, 3, "fault 9 at line 1 column 1\n"),
    (Form::Blanks, 1_048_577, 3, "fault 31 at line 1 column 1\n"),
];

// Statements stand up to 1,000 deep inside one another, and the types that a text names up to 10,000 deep together; deeper
// ones want more stack than there may be.
const DEPTHS: &[FormRow] = &[
    (Form::Arms, 999, 0, NO_UNITS),
    (Form::Arms, 1000, 7, ""),
    (Form::Types, 5000, 0, NO_UNITS),
    (Form::Types, 5001, 7, ""),
];

const TRUE: &str = "p: true\nproved 1 of 1\n";

// A quantifier is walked and worked out once for each different binding of what it reads, however many there are around it.
const NESTS: &[FormRow] = &[
    (Form::Quantifiers, 60, 0, TRUE),
    (Form::QuantifiersOverRests, 60, 0, TRUE),
    (Form::Chain, 60, 0, TRUE),
    (Form::Branches, 30, 0, TRUE),
];

// A claim has up to 8 parameters, and up to 4,096 cases: 16 times 256, of which the last is looked at too, while 17 times 241
// are one more. Over a scalarset without an end it has as many as there are ways to part its parameters into classes: 877 for
// 7 parameters, and 4,140 for 8.
const LEAVES: &[Row] = &[
    (
        "prove",
        "module main() { x : boolean; forall (a in 0..0) forall (b in 0..0) forall (c in 0..0) forall (d in 0..0) forall (e in 0..0) forall (f in 0..0) forall (g in 0..0) forall (h in 0..0) p[a][b][c][d][e][f][g][h] : assert G (x | ~x); }",
        0,
        TRUE,
    ),
    (
        "prove",
        "module main() { x : boolean; forall (a in 0..0) forall (b in 0..0) forall (c in 0..0) forall (d in 0..0) forall (e in 0..0) forall (f in 0..0) forall (g in 0..0) forall (h in 0..0) forall (i in 0..0) p[a][b][c][d][e][f][g][h][i] : assert G (x | ~x); }",
        3,
        "fault 29 at line 1 column 201\n",
    ),
    (
        "prove",
        "module main() { x : boolean; forall (i in 0..15) forall (j in 0..255) p[i][j] : assert G (x | ~x); }",
        0,
        TRUE,
    ),
    (
        "prove",
        "module main() { x : boolean; x := 0; forall (i in 0..15) forall (j in 0..255) p[i][j] : assert G (x | i < 15 | j < 255); }",
        1,
        "p: false at 0\n case 15, 255\n time 0: x = 0\nproved 0 of 1\n",
    ),
    (
        "prove",
        "module main() { x : boolean; forall (i in 0..16) forall (j in 0..240) p[i][j] : assert G (x | ~x); }",
        3,
        "fault 29 at line 1 column 71\n",
    ),
    (
        "prove",
        "scalarset T undefined; module main() { y : T; forall (a in T) forall (b in T) forall (c in T) forall (d in T) forall (e in T) forall (f in T) forall (g in T) p[a][b][c][d][e][f][g] : assert G (y = a | ~(y = a)); }",
        0,
        TRUE,
    ),
    (
        "prove",
        "scalarset T undefined; module main() { y : T; forall (a in T) forall (b in T) forall (c in T) forall (d in T) forall (e in T) forall (f in T) forall (g in T) forall (h in T) p[a][b][c][d][e][f][g][h] : assert G (y = a | ~(y = a)); }",
        3,
        "fault 29 at line 1 column 175\n",
    ),
];

#[test]
fn as_many_parameters_and_cases_as_the_limit_and_one_more(rt: HostRuntime) -> Result<(), Fail> {
    all_are_answered(rt.alloc(), LEAVES)
}

#[test]
fn as_many_constants_as_the_limit_and_one_more(rt: HostRuntime) -> Result<(), Fail> {
    all_forms_are_answered(rt.alloc(), CONSTANTS)
}

#[test]
fn as_many_signals_statements_and_bytes_as_the_limit_and_one_more(
    rt: HostRuntime,
) -> Result<(), Fail> {
    all_forms_are_answered(rt.alloc(), THINGS)
}

#[test]
fn as_deep_as_the_limit_and_one_deeper(rt: HostRuntime) -> Result<(), Fail> {
    all_forms_are_answered(rt.alloc(), DEPTHS)
}

#[test]
fn sixty_quantifiers_inside_one_another(rt: HostRuntime) -> Result<(), Fail> {
    all_forms_are_answered(rt.alloc(), NESTS)
}
