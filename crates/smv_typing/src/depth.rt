// How deep the statements of a flattened text stand inside one another.
use smv_core::tree::{Arm, Item, Stmt, Text, Top};

// As deep as they may stand: each pass over them takes stack for each, and the usual stack of 8 MiB holds about 3,000 arms of a `switch`.
const DEEPEST: usize = 1_000;

fn deeper(a: usize, b: usize) -> usize {
    if a < b { b } else { a }
}

// How deep the flattened form of a statement is: each arm of a `switch` stands inside the one before.
#[cycle(depths)]
fn statement_depth(act: &Stmt) -> usize {
    match act {
        Stmt::Assign { .. } => 1,
        Stmt::Block { parts } => block_depth(parts.as_slice()).saturating_add(1),
        Stmt::If { yes, no, .. } => match no {
            None => statement_depth(yes.get()).saturating_add(1),
            Some(no) => {
                deeper(statement_depth(yes.get()), statement_depth(no.get())).saturating_add(1)
            }
        },
        Stmt::Switch { arms, other, .. } => match other {
            None => arms_depth(arms.as_slice()).saturating_add(arms.len()),
            Some(other) => deeper(
                arms_depth(arms.as_slice()),
                statement_depth(other.get()),
            ).saturating_add(arms.len()),
        },
        Stmt::Default { first, second, .. } => {
            deeper(statement_depth(first.get()), statement_depth(second.get())).saturating_add(1)
        }
        Stmt::For { body, .. } => statement_depth(body.get()).saturating_add(1),
        Stmt::Forall { body, .. } => statement_depth(body.get()).saturating_add(1),
    }
}

#[cycle(depths)]
fn block_depth(parts: &[Stmt]) -> usize {
    let mut depth = 0;
    for part in parts {
        depth = deeper(depth, statement_depth(part));
    }
    depth
}

#[cycle(depths)]
fn arms_depth(arms: &[Arm]) -> usize {
    let mut depth = 0;
    for arm in arms {
        depth = deeper(depth, statement_depth(&arm.body));
    }
    depth
}

// The same of what an item says.
#[cycle(item_depths)]
fn item_depth(item: &Item) -> usize {
    match item {
        Item::Act { act } => statement_depth(act),
        Item::Layer { body, .. } => block_depth(body.as_slice()),
        Item::Forall { body, .. } => item_depth(body.get()).saturating_add(1),
        Item::Block { items } => items_depth(items.as_slice()),
        _ => 0,
    }
}

#[cycle(item_depths)]
fn items_depth(items: &[Item]) -> usize {
    let mut depth = 0;
    for item in items {
        depth = deeper(depth, item_depth(item));
    }
    depth
}

/// Whether statements of a text stand too deep inside one another for the stack.
pub(crate) fn is_too_deep(text: &Text) -> bool {
    for top in text.tops.as_slice() {
        if let Top::Module { body, .. } = top {
            if items_depth(body.as_slice()) > DEEPEST {
                return true;
            }
        }
    }
    false
}
