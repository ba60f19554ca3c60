// What expressions, statements and types become when a text is flattened, in sixteenths of a node: a node is 16, and a byte of a name 1.
use name_index::map::NameMap;
use smv_core::name::Name;
use smv_core::tree::{Arm, Expr, Field, Member, Part, Signed, Stmt, TypeExpr};

/// What a node counts.
pub(crate) const NODE: u64 = 16;

pub(crate) fn plus(a: u64, b: u64) -> u64 {
    a.saturating_add(b)
}

pub(crate) fn times(a: u64, b: u64) -> u64 {
    a.saturating_mul(b)
}

/// The bytes of a name.
pub(crate) fn bytes_of(name: &Name) -> u64 {
    name.as_bytes().len() as u64
}

// ---- expressions

/// An expression.
#[cycle(expressions)]
pub(crate) fn expression(x: &Expr) -> u64 {
    match x {
        Expr::Number { .. } => NODE,
        Expr::Signal { path } => plus(NODE, indexes(path.parts.as_slice())),
        Expr::Not { of, .. } => plus(NODE, expression(of.get())),
        Expr::And { parts } => plus(NODE, expressions(parts.as_slice())),
        Expr::Or { parts } => plus(NODE, expressions(parts.as_slice())),
        Expr::Implies { parts } => plus(NODE, expressions(parts.as_slice())),
        Expr::Iff { left, right } => both(expression(left.get()), expression(right.get())),
        Expr::Compare { left, right, .. } => both(expression(left.get()), expression(right.get())),
        Expr::Within { left, set } => both(expression(left.get()), expression(set.get())),
        Expr::Sum { first, more } => plus(
            plus(NODE, expression(first.get())),
            summands(more.as_slice()),
        ),
        Expr::Modulo { of, .. } => plus(NODE, expression(of.get())),
        Expr::Choose { cond, yes, no } => plus(
            expression(cond.get()),
            both(expression(yes.get()), expression(no.get())),
        ),
        Expr::All { body, .. } => plus(NODE, expression(body.get())),
        Expr::Any { body, .. } => plus(NODE, expression(body.get())),
        Expr::List { members, .. } => plus(NODE, members_of(members.as_slice())),
        Expr::Each { cond, .. } => match cond {
            None => NODE,
            Some(cond) => plus(NODE, expression(cond.get())),
        },
    }
}

// A node over two.
fn both(left: u64, right: u64) -> u64 {
    plus(plus(NODE, left), right)
}

/// Some expressions.
#[cycle(expressions)]
pub(crate) fn expressions(parts: &[Expr]) -> u64 {
    let mut total = 0;
    for part in parts {
        total = plus(total, expression(part));
    }
    total
}

/// The indexes of a path.
#[cycle(expressions)]
pub(crate) fn indexes(parts: &[Part]) -> u64 {
    let mut total = 0;
    for part in parts {
        if let Part::At { index } = part {
            total = plus(total, expression(index));
        }
    }
    total
}

#[cycle(expressions)]
fn summands(more: &[Signed]) -> u64 {
    let mut total = 0;
    for part in more {
        total = plus(total, expression(&part.of));
    }
    total
}

#[cycle(expressions)]
fn members_of(members: &[Member]) -> u64 {
    let mut total = 0;
    for member in members {
        let one = match member {
            Member::One { of } => expression(of),
            Member::Span { .. } => NODE,
        };
        total = plus(total, one);
    }
    total
}

// ---- statements

/// A statement: a `for` is written out, and a `switch` is one `if` inside another, each with its value and labels.
#[cycle(statements)]
pub(crate) fn statement(act: &Stmt) -> u64 {
    match act {
        Stmt::Assign { left, value, .. } => plus(
            plus(NODE, indexes(left.parts.as_slice())),
            expression(value),
        ),
        Stmt::Block { parts } => plus(NODE, statements(parts.as_slice())),
        Stmt::If { cond, yes, no, .. } => {
            let first = plus(plus(NODE, expression(cond)), statement(yes.get()));
            match no {
                None => plus(first, NODE),
                Some(no) => plus(first, statement(no.get())),
            }
        }
        Stmt::Switch {
            on,
            arms,
            other,
            ..
        } => {
            let first = arms_of(arms.as_slice(), expression(on));
            match other {
                None => plus(first, NODE),
                Some(other) => plus(first, statement(other.get())),
            }
        }
        Stmt::Default { first, second, .. } => plus(
            plus(NODE, statement(first.get())),
            statement(second.get()),
        ),
        Stmt::For {
            from,
            to,
            closed,
            step,
            body,
            ..
        } => plus(
            NODE,
            times(turns(*from, *to, *closed, *step), statement(body.get())),
        ),
        Stmt::Forall { body, .. } => plus(NODE, statement(body.get())),
    }
}

/// Some statements.
#[cycle(statements)]
pub(crate) fn statements(parts: &[Stmt]) -> u64 {
    let mut total = 0;
    for part in parts {
        total = plus(total, statement(part));
    }
    total
}

// The arms of a `switch` on a value of this weight: for each an `if`, an `in` with the value, the list of its labels and its statement.
#[cycle(statements)]
fn arms_of(arms: &[Arm], on: u64) -> u64 {
    let mut total = 0;
    for arm in arms {
        let asked = plus(on, expressions(arm.labels.as_slice()));
        let arm = plus(plus(3 * NODE, asked), statement(&arm.body));
        total = plus(total, arm);
    }
    total
}

// How often a `for` runs its body.
fn turns(from: u16, to: u16, closed: bool, step: u16) -> u64 {
    let every = u64::from(to) + 1;
    let end = if closed { every } else { u64::from(to) };
    let from = u64::from(from);
    if from >= end {
        return 0;
    }
    if step == 0 {
        return every;
    }
    (end - from - 1) / u64::from(step) + 1
}

// ---- types

/// The families of a type: how many, and the bytes of their names behind the name of a signal.
#[derive(Clone, Copy)]
pub(crate) struct Families {
    pub(crate) count: u64,
    pub(crate) bytes: u64,
}

/// One family, with nothing behind the name of the signal.
pub(crate) const ONE_FAMILY: Families = Families { count: 1, bytes: 0 };

const NO_FAMILY: Families = Families { count: 0, bytes: 0 };

fn named(types: &NameMap<Families>, name: &Name) -> Families {
    match types.find(name) {
        Some(found) => *found,
        None => NO_FAMILY,
    }
}

/// The families of a type, where those of the types with names are known.
#[cycle(types)]
pub(crate) fn families_of(of: &TypeExpr, types: &NameMap<Families>) -> Families {
    match of {
        TypeExpr::Boolean => ONE_FAMILY,
        TypeExpr::Range { .. } => ONE_FAMILY,
        TypeExpr::Enum { .. } => ONE_FAMILY,
        TypeExpr::Named { name, .. } => named(types, &name.name),
        TypeExpr::Array { of, .. } => families_of(of.get(), types),
        TypeExpr::Struct { fields } => families_of_fields(fields.as_slice(), types),
    }
}

#[cycle(types)]
fn families_of_fields(fields: &[Field], types: &NameMap<Families>) -> Families {
    let mut all = NO_FAMILY;
    for field in fields {
        let inner = families_of(&field.of, types);
        for word in field.names.as_slice() {
            all = with_families(all, behind(&word.name, inner));
        }
    }
    all
}

/// The families behind a name and a dot.
pub(crate) fn behind(name: &Name, of: Families) -> Families {
    Families {
        count: of.count,
        bytes: plus(of.bytes, times(of.count, plus(1, bytes_of(name)))),
    }
}

fn with_families(a: Families, b: Families) -> Families {
    Families {
        count: plus(a.count, b.count),
        bytes: plus(a.bytes, b.bytes),
    }
}
