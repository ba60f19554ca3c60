// What the definition of an element reads, as far as its assignments may be the element's own.
use crate::expressions::{read_condition, read_value, turns_over};
use crate::reader::{Part, Read, Reader, Role, each_once};
use smv_core::flat::{DefBody, FlatExpr, Simple};
use smv_spots::spots::Spot;
use std::alloc::AllocError;

// The indexes of a left side may be the element's: none is known to be another.
fn may_be_own(reader: &Reader, own: &[Spot], left: &[FlatExpr]) -> bool {
    for (index, spot) in left.iter().zip(own) {
        match reader.known(index) {
            Some(place) => {
                if !is_same(place, *spot) {
                    return false;
                }
            }
            None => (),
        }
    }
    true
}

// Two places of one type are the same.
fn is_same(p: Spot, q: Spot) -> bool {
    match (p, q) {
        (Spot::Number { value: a }, Spot::Number { value: b }) => a == b,
        (Spot::Class { set: _, class: a }, Spot::Class { set: _, class: b }) => a == b,
        (Spot::Rest { set: _, rest: a }, Spot::Rest { set: _, rest: b }) => a == b,
        _ => false,
    }
}

// The index of the element at which a variable stands alone in a left side.
fn own_index(var: u16, own: &[Spot], left: &[FlatExpr]) -> Option<Spot> {
    for (index, spot) in left.iter().zip(own) {
        if let FlatExpr::Var { var: other, .. } = index {
            if *other == var {
                return Some(*spot);
            }
        }
    }
    None
}

// The same of the first left side of a part that has the variable alone.
#[cycle(own)]
fn own_place(var: u16, own: &[Spot], part: &DefBody) -> Option<Spot> {
    match part {
        DefBody::Nothing => None,
        DefBody::Assign { left, .. } => own_index(var, own, left.as_slice()),
        DefBody::If { yes, no, .. } => match own_place(var, own, yes.get()) {
            Some(spot) => Some(spot),
            None => own_place(var, own, no.get()),
        },
        DefBody::First { parts } => own_place_in(var, own, parts.as_slice()),
        DefBody::Forall { body, .. } => own_place(var, own, body.get()),
    }
}

#[cycle(own)]
fn own_place_in(var: u16, own: &[Spot], parts: &[DefBody]) -> Option<Spot> {
    for part in parts {
        if let Some(spot) = own_place(var, own, part) {
            return Some(spot);
        }
    }
    None
}

// Whether some assignment of a part may be the element's.
#[cycle(concerns)]
fn concerns(reader: &mut Reader, own: &[Spot], part: &DefBody) -> Result<bool, AllocError> {
    if !reader.goes_on() {
        return Ok(false);
    }
    match part {
        DefBody::Nothing => Ok(false),
        DefBody::Assign { left, .. } => Ok(may_be_own(reader, own, left.as_slice())),
        DefBody::If { yes, no, .. } => {
            if concerns(reader, own, yes.get())? {
                return Ok(true);
            }
            concerns(reader, own, no.get())
        }
        DefBody::First { parts } => some_concerns(reader, own, parts.as_slice()),
        DefBody::Forall { var, body, .. } => {
            reader.bind(*var, own_place(*var, own, body.get()))?;
            let some = concerns(reader, own, body.get())?;
            reader.unbind(*var);
            Ok(some)
        }
    }
}

#[cycle(concerns)]
fn some_concerns(reader: &mut Reader, own: &[Spot], parts: &[DefBody]) -> Result<bool, AllocError> {
    for part in parts {
        if concerns(reader, own, part)? {
            return Ok(true);
        }
    }
    Ok(false)
}

// Puts down what a part compares and what decides in it, and puts what the element is given behind `reads`.
#[cycle(parts)]
fn read_part(
    reader: &mut Reader,
    own: &[Spot],
    part: &DefBody,
    reads: &mut Vec<Read>,
) -> Result<(), AllocError> {
    if !concerns(reader, own, part)? {
        return Ok(());
    }
    match part {
        DefBody::Nothing => Ok(()),
        DefBody::Assign { left, value, .. } => {
            read_left(reader, left.as_slice())?;
            read_value(reader, value, reads)
        }
        DefBody::If { cond, yes, no } => {
            read_condition(reader, cond)?;
            read_part(reader, own, yes.get(), reads)?;
            read_part(reader, own, no.get(), reads)
        }
        DefBody::First { parts } => read_parts(reader, own, parts.as_slice(), reads),
        DefBody::Forall { var, over, body } => {
            read_turns(reader, own, *var, *over, body.get(), reads)
        }
    }
}

#[cycle(parts)]
fn read_parts(
    reader: &mut Reader,
    own: &[Spot],
    parts: &[DefBody],
    reads: &mut Vec<Read>,
) -> Result<(), AllocError> {
    for part in parts {
        read_part(reader, own, part, reads)?;
    }
    Ok(())
}

// The body of a `forall`: at the element's own index, where its variable stands alone in a left side, and else at each value.
#[cycle(parts)]
fn read_turns(
    reader: &mut Reader,
    own: &[Spot],
    var: u16,
    over: Simple,
    body: &DefBody,
    reads: &mut Vec<Read>,
) -> Result<(), AllocError> {
    let turns = match own_place(var, own, body) {
        Some(spot) => one_turn(reader, spot)?,
        None => turns_over(reader, over)?,
    };
    for place in turns.as_slice() {
        reader.bind(var, *place)?;
        read_part(reader, own, body, reads)?;
    }
    reader.unbind(var);
    Ok(())
}

fn one_turn(reader: &Reader, spot: Spot) -> Result<Vec<Option<Spot>>, AllocError> {
    let mut turns = Vec::new(reader.alloc);
    turns.push(Some(spot))?;
    Ok(turns)
}

// Indexes of a left side that are not known decide.
fn read_left(reader: &mut Reader, left: &[FlatExpr]) -> Result<(), AllocError> {
    for index in left {
        if reader.known(index).is_none() {
            read_condition(reader, index)?;
        }
    }
    Ok(())
}

// What a definition reads at one time.
fn read_at_time(
    reader: &mut Reader,
    own: &[Spot],
    at_once: bool,
    body: &DefBody,
) -> Result<(), AllocError> {
    reader.at_once = at_once;
    let mut reads = Vec::new(reader.alloc);
    reader.bind_first(&[])?;
    read_part(reader, own, body, &mut reads)?;
    let once = each_once(reader.alloc, reads.as_slice())?;
    reader.put(Role::Gives, once)
}

/// The parts of the definition of the element with these indexes: those of `:=` first.
pub(crate) fn parts_of_definition(
    reader: &mut Reader,
    own: &[Spot],
    init: &DefBody,
    next: &DefBody,
    comb: &DefBody,
) -> Result<Vec<Part>, AllocError> {
    read_at_time(reader, own, true, comb)?;
    read_at_time(reader, own, false, init)?;
    read_at_time(reader, own, false, next)?;
    reader.at_once = true;
    Ok(reader.take_parts())
}
