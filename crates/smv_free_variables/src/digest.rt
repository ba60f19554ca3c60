// A number for an expression and what is bound around it: the same where they are the same, whatever the places in the text.
use smv_core::flat::{FlatExpr, FlatMember, FlatSigned, Simple};
use smv_spots::spots::Spot;
use std::hash::{FoldHasher, Hasher};

// A type.
fn add_type(digest: &mut FoldHasher, over: Simple) {
    match over {
        Simple::Range { low, high } => {
            digest.write_u8(low);
            digest.write_u8(high);
        }
        Simple::Enum { list } => digest.write_u16(list),
        Simple::Set { set } => digest.write_u16(set),
    }
}

// A spot.
fn add_spot(digest: &mut FoldHasher, p: Spot) {
    match p {
        Spot::Number { value } => digest.write_u16(value),
        Spot::Constant { list, value } => {
            digest.write_u16(list);
            digest.write_u16(value);
        }
        Spot::Class { set, class } => {
            digest.write_u16(set);
            digest.write_u16(class);
        }
        Spot::Rest { set, rest } => {
            digest.write_u16(set);
            digest.write_u16(rest);
        }
    }
}

// A variable, and where it stands if it is bound around the expression.
fn add_variable(digest: &mut FoldHasher, b: &[Spot], var: u16) {
    digest.write_u16(var);
    if let Some(p) = b.get(var as usize) {
        add_spot(digest, *p);
    }
}

/// The number of an expression under bindings.
pub(crate) fn digest_of(e: &FlatExpr, b: &[Spot]) -> u64 {
    let mut digest = FoldHasher::default();
    add_expression(&mut digest, e, b);
    digest.finish()
}

// Each kind of expression begins with a number of its own.
#[cycle(digest)]
fn add_expression(digest: &mut FoldHasher, e: &FlatExpr, b: &[Spot]) {
    match e {
        FlatExpr::Number { value, .. } => {
            digest.write_u8(1);
            digest.write_u16(*value);
        }
        FlatExpr::Read {
            family,
            indexes,
            ..
        } => {
            digest.write_u8(2);
            digest.write_u16(*family);
            add_each(digest, indexes.as_slice(), b);
        }
        FlatExpr::Var { var, .. } => {
            digest.write_u8(3);
            add_variable(digest, b, *var);
        }
        FlatExpr::Loop { value, .. } => {
            digest.write_u8(4);
            digest.write_u16(*value);
        }
        FlatExpr::Constant { list, value, .. } => {
            digest.write_u8(5);
            digest.write_u16(*list);
            digest.write_u16(*value);
        }
        FlatExpr::Not { of, .. } => {
            digest.write_u8(6);
            add_expression(digest, of.get(), b);
        }
        FlatExpr::And { parts } => {
            digest.write_u8(7);
            add_each(digest, parts.as_slice(), b);
        }
        FlatExpr::Or { parts } => {
            digest.write_u8(8);
            add_each(digest, parts.as_slice(), b);
        }
        FlatExpr::Implies { parts } => {
            digest.write_u8(9);
            add_each(digest, parts.as_slice(), b);
        }
        FlatExpr::Iff { left, right } => {
            digest.write_u8(10);
            add_expression(digest, left.get(), b);
            add_expression(digest, right.get(), b);
        }
        FlatExpr::Compare { left, right, .. } => {
            digest.write_u8(11);
            add_expression(digest, left.get(), b);
            add_expression(digest, right.get(), b);
        }
        FlatExpr::Within { left, set } => {
            digest.write_u8(12);
            add_expression(digest, left.get(), b);
            add_expression(digest, set.get(), b);
        }
        FlatExpr::Sum { first, more } => {
            digest.write_u8(13);
            add_expression(digest, first.get(), b);
            add_terms(digest, more.as_slice(), b);
        }
        FlatExpr::Modulo { of, by, .. } => {
            digest.write_u8(14);
            digest.write_u16(*by);
            add_expression(digest, of.get(), b);
        }
        FlatExpr::Choose { cond, yes, no } => {
            digest.write_u8(15);
            add_expression(digest, cond.get(), b);
            add_expression(digest, yes.get(), b);
            add_expression(digest, no.get(), b);
        }
        FlatExpr::All { body, over, .. } => {
            digest.write_u8(16);
            add_type(digest, *over);
            add_expression(digest, body.get(), b);
        }
        FlatExpr::Any { body, over, .. } => {
            digest.write_u8(17);
            add_type(digest, *over);
            add_expression(digest, body.get(), b);
        }
        FlatExpr::List { members, .. } => {
            digest.write_u8(18);
            add_members(digest, members.as_slice(), b);
        }
        FlatExpr::Each { over, cond, .. } => {
            digest.write_u8(19);
            add_type(digest, *over);
            if let Some(cond) = cond {
                add_expression(digest, cond.get(), b);
            }
        }
    }
}

// The parts of an expression, one behind the other.
#[cycle(digest)]
fn add_each(digest: &mut FoldHasher, parts: &[FlatExpr], b: &[Spot]) {
    for part in parts {
        add_expression(digest, part, b);
    }
}

// What a sum adds and takes away.
#[cycle(digest)]
fn add_terms(digest: &mut FoldHasher, more: &[FlatSigned], b: &[Spot]) {
    for signed in more {
        digest.write_u8(u8::from(signed.minus));
        add_expression(digest, &signed.of, b);
    }
}

// The members of a listed set.
#[cycle(digest)]
fn add_members(digest: &mut FoldHasher, members: &[FlatMember], b: &[Spot]) {
    for member in members {
        match member {
            FlatMember::One { of } => add_expression(digest, of, b),
            FlatMember::Span { span, .. } => {
                digest.write_u16(span.low);
                digest.write_u16(span.high);
            }
        }
    }
}
