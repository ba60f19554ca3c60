// What expressions read: which elements decide, which are compared, and of which a value is made.
use crate::reader::{Read, Reader};
use smv_core::flat::{FlatExpr, FlatMember, FlatSigned, Simple};
use smv_problem_spots::places::{named_over, rests_over};
use smv_spots::spots::Spot;
use std::alloc::AllocError;

/// The values of a type, one behind the other; of an enumeration one that is not known, since no index is a constant.
pub(crate) fn turns_over(reader: &Reader, over: Simple) -> Result<Vec<Option<Spot>>, AllocError> {
    let mut turns = Vec::new(reader.alloc);
    if let Simple::Enum { .. } = over {
        turns.push(None)?;
        return Ok(turns);
    }
    let named = named_over(reader.alloc, reader.problem, over)?;
    for spot in named.as_slice() {
        turns.push(Some(*spot))?;
    }
    let rests = rests_over(reader.alloc, reader.problem, over)?;
    for spot in rests.as_slice() {
        turns.push(Some(*spot))?;
    }
    Ok(turns)
}

// The number that is written.
fn written(e: &FlatExpr) -> Option<u16> {
    match e {
        FlatExpr::Number { value, .. } => Some(*value),
        FlatExpr::Loop { value, .. } => Some(*value),
        _ => None,
    }
}

// The weight of a bit that is chosen between a power of two and 0.
fn weight_between(yes: &FlatExpr, no: &FlatExpr) -> Option<u32> {
    if written(no)? != 0 {
        return None;
    }
    let power = written(yes)?;
    if power.is_power_of_two() {
        Some(power.trailing_zeros())
    } else {
        None
    }
}

// The elements that a reference with these indexes reads.
fn elements_at(
    reader: &Reader,
    family: u16,
    indexes: &[FlatExpr],
) -> Result<Vec<usize>, AllocError> {
    let mut places = Vec::new(reader.alloc);
    for index in indexes {
        places.push(reader.known(index))?;
    }
    let mut found = Vec::new(reader.alloc);
    reader
        .elements
        .put_all_at(family, places.as_slice(), &mut found)?;
    Ok(found)
}

// The element of one bit that a choice between a power of two and 0 asks for, as the bit of that weight.
fn weighted(
    reader: &Reader,
    cond: &FlatExpr,
    yes: &FlatExpr,
    no: &FlatExpr,
) -> Result<Option<Read>, AllocError> {
    let FlatExpr::Read {
        family,
        indexes,
        ..
    } = cond
    else {
        return Ok(None);
    };
    let Some(weight) = weight_between(yes, no) else {
        return Ok(None);
    };
    let found = elements_at(reader, *family, indexes.as_slice())?;
    match found.as_slice() {
        [element] => {
            if reader.elements.width(*element) == 1 {
                Ok(Some(Read {
                    element: *element,
                    weight: Some(weight),
                }))
            } else {
                Ok(None)
            }
        }
        _ => Ok(None),
    }
}

/// Puts down what an expression compares and what decides in it, and puts what its value is made of behind `reads`.
#[cycle(expressions)]
pub(crate) fn read_value(
    reader: &mut Reader,
    e: &FlatExpr,
    reads: &mut Vec<Read>,
) -> Result<(), AllocError> {
    if !reader.goes_on() {
        return Ok(());
    }
    match e {
        FlatExpr::Read {
            family,
            indexes,
            ..
        } => read_reference(reader, *family, indexes.as_slice(), reads),
        FlatExpr::Sum { first, more } => {
            read_value(reader, first.get(), reads)?;
            read_terms(reader, more.as_slice(), reads)
        }
        FlatExpr::Modulo { of, .. } => read_value(reader, of.get(), reads),
        FlatExpr::Choose { cond, yes, no } => {
            if let Some(read) = weighted(reader, cond.get(), yes.get(), no.get())? {
                reads.push(read)?;
                return Ok(());
            }
            read_condition(reader, cond.get())?;
            read_value(reader, yes.get(), reads)?;
            read_value(reader, no.get(), reads)
        }
        FlatExpr::List { members, .. } => read_members(reader, members.as_slice(), reads),
        _ => read_truth(reader, e),
    }
}

// An expression that makes a truth value: all that it reads is compared or decides.
#[cycle(expressions)]
fn read_truth(reader: &mut Reader, e: &FlatExpr) -> Result<(), AllocError> {
    match e {
        FlatExpr::Not { of, .. } => read_condition(reader, of.get()),
        FlatExpr::And { parts } => read_conditions(reader, parts.as_slice()),
        FlatExpr::Or { parts } => read_conditions(reader, parts.as_slice()),
        FlatExpr::Implies { parts } => read_conditions(reader, parts.as_slice()),
        FlatExpr::Iff { left, right } => {
            let one = read_apart(reader, left.get())?;
            let other = read_apart(reader, right.get())?;
            reader.meet(one, other)
        }
        FlatExpr::Compare { left, right, .. } => {
            let one = read_apart(reader, left.get())?;
            let other = read_apart(reader, right.get())?;
            reader.meet(one, other)
        }
        FlatExpr::Within { left, set } => {
            let one = read_apart(reader, left.get())?;
            let other = read_apart(reader, set.get())?;
            reader.meet(one, other)
        }
        FlatExpr::All {
            body,
            var,
            over,
            ..
        } => read_turns(reader, *var, *over, body.get()),
        FlatExpr::Any {
            body,
            var,
            over,
            ..
        } => read_turns(reader, *var, *over, body.get()),
        FlatExpr::Each {
            var,
            over,
            cond: Some(cond),
            ..
        } => read_turns(reader, *var, *over, cond.get()),
        _ => Ok(()),
    }
}

// What the value of an expression is made of, by itself.
#[cycle(expressions)]
fn read_apart(reader: &mut Reader, e: &FlatExpr) -> Result<Vec<Read>, AllocError> {
    let mut reads = Vec::new(reader.alloc);
    read_value(reader, e, &mut reads)?;
    Ok(reads)
}

/// Puts down an expression whose value decides.
#[cycle(expressions)]
pub(crate) fn read_condition(reader: &mut Reader, e: &FlatExpr) -> Result<(), AllocError> {
    let reads = read_apart(reader, e)?;
    reader.decide(reads.as_slice())
}

#[cycle(expressions)]
fn read_conditions(reader: &mut Reader, parts: &[FlatExpr]) -> Result<(), AllocError> {
    for part in parts {
        read_condition(reader, part)?;
    }
    Ok(())
}

#[cycle(expressions)]
fn read_terms(
    reader: &mut Reader,
    more: &[FlatSigned],
    reads: &mut Vec<Read>,
) -> Result<(), AllocError> {
    for signed in more {
        read_value(reader, &signed.of, reads)?;
    }
    Ok(())
}

#[cycle(expressions)]
fn read_members(
    reader: &mut Reader,
    members: &[FlatMember],
    reads: &mut Vec<Read>,
) -> Result<(), AllocError> {
    for member in members {
        match member {
            FlatMember::One { of } => read_value(reader, of, reads)?,
            FlatMember::Span { .. } => (),
        }
    }
    Ok(())
}

// The body of a quantifier, at each value of its variable.
#[cycle(expressions)]
fn read_turns(
    reader: &mut Reader,
    var: u16,
    over: Simple,
    body: &FlatExpr,
) -> Result<(), AllocError> {
    let turns = turns_over(reader, over)?;
    for place in turns.as_slice() {
        reader.bind(var, *place)?;
        read_condition(reader, body)?;
    }
    reader.unbind(var);
    Ok(())
}

// A reference: indexes that are not known decide, and each element that it may be is read.
#[cycle(expressions)]
fn read_reference(
    reader: &mut Reader,
    family: u16,
    indexes: &[FlatExpr],
    reads: &mut Vec<Read>,
) -> Result<(), AllocError> {
    for index in indexes {
        if reader.known(index).is_none() {
            read_condition(reader, index)?;
        }
    }
    let found = elements_at(reader, family, indexes)?;
    for element in found.as_slice() {
        reader.goes_on();
        reads.push(Read {
            element: *element,
            weight: None,
        })?;
    }
    Ok(())
}
