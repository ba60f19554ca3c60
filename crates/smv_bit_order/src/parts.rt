// The parts of each element of a problem, and of what is asked of it.
use crate::definitions::parts_of_definition;
use crate::elements::{Elements, all_known};
use crate::expressions::read_condition;
use crate::reader::{Part, Read, Reader, Role, reader_of};
use smv_core::flat::{DefBody, Element};
use smv_problem::{Demand, Problem};
use smv_typed_spots::index_spots;
use std::alloc::{AllocError, Global};

/// The parts of each element, those of the target, the guards and the claims that are assumed, and the element that the target defines.
#[derive(Drop)]
pub(crate) struct Parts {
    pub(crate) each: Vec<Vec<Part>>,
    pub(crate) goal: Vec<Part>,
    pub(crate) target: Option<usize>,
}

// The place of an element among those of the problem.
fn place_of(reader: &Reader, element: &Element) -> Result<Option<usize>, AllocError> {
    let spots = index_spots(reader.alloc, reader.problem, element)?;
    let places = all_known(reader.alloc, spots.as_slice())?;
    Ok(reader.elements.find(element.family, places.as_slice()))
}

// Puts parts behind others.
fn put_behind(parts: &mut Vec<Part>, more: Vec<Part>) -> Result<(), AllocError> {
    for part in more {
        parts.push(part)?;
    }
    Ok(())
}

// Puts the parts of a definition behind those of its element.
fn add_definition(
    reader: &mut Reader,
    each: &mut Vec<Vec<Part>>,
    place: usize,
    init: &DefBody,
    next: &DefBody,
    comb: &DefBody,
) -> Result<(), AllocError> {
    let own = reader.elements.indexes(place);
    let more = parts_of_definition(reader, own, init, next, comb)?;
    match each.get_mut(place) {
        Some(parts) => put_behind(parts, more),
        None => Ok(()),
    }
}

// The same of each definition that is demanded.
fn add_definitions(
    reader: &mut Reader,
    each: &mut Vec<Vec<Part>>,
    demands: &[Demand],
) -> Result<(), AllocError> {
    for demand in demands {
        if let Demand::Defined {
            element,
            init,
            next,
            comb,
        } = demand
        {
            if let Some(place) = place_of(reader, element)? {
                add_definition(reader, each, place, init, next, comb)?;
            }
        }
    }
    Ok(())
}

// Reads the claims among these demands.
fn read_claims(reader: &mut Reader, demands: &[Demand]) -> Result<(), AllocError> {
    for demand in demands {
        if let Demand::Holds { body, bindings } = demand {
            reader.bind_first(bindings.as_slice())?;
            read_condition(reader, body)?;
        }
    }
    Ok(())
}

// An element and what it is given, which are to be the same.
fn met_by(alloc: Global, element: usize, part: Part) -> Result<Part, AllocError> {
    let Part {
        role,
        at_once,
        reads,
    } = part;
    if role != Role::Gives {
        return Ok(Part {
            role,
            at_once,
            reads,
        });
    }
    let mut both = Vec::new(alloc);
    both.push(Read {
        element,
        weight: None,
    })?;
    both.extend_from_slice(reads.as_slice())?;
    Ok(Part {
        role: Role::Meets,
        at_once,
        reads: both,
    })
}

// The parts of a map that is to be proved.
fn goal_of_map(
    reader: &mut Reader,
    place: usize,
    init: &DefBody,
    next: &DefBody,
    comb: &DefBody,
) -> Result<Vec<Part>, AllocError> {
    let own = reader.elements.indexes(place);
    let parts = parts_of_definition(reader, own, init, next, comb)?;
    let mut goal = Vec::new(reader.alloc);
    for part in parts {
        goal.push(met_by(reader.alloc, place, part)?)?;
    }
    Ok(goal)
}

// The parts of the target, and the element that it defines.
fn goal_of_target(
    reader: &mut Reader,
    target: &Demand,
) -> Result<(Vec<Part>, Option<usize>), AllocError> {
    match target {
        Demand::Holds { body, bindings } => {
            reader.bind_first(bindings.as_slice())?;
            read_condition(reader, body)?;
            Ok((reader.take_parts(), None))
        }
        Demand::Defined {
            element,
            init,
            next,
            comb,
        } => match place_of(reader, element)? {
            Some(place) => {
                let goal = goal_of_map(reader, place, init, next, comb)?;
                Ok((goal, Some(place)))
            }
            None => Ok((Vec::new(reader.alloc), None)),
        },
    }
}

// The guards, and the claims that are assumed.
fn goal_beside(reader: &mut Reader, problem: &Problem) -> Result<Vec<Part>, AllocError> {
    for guard in problem.guards.as_slice() {
        reader.bind_first(problem.bindings.as_slice())?;
        read_condition(reader, &guard.expr)?;
    }
    read_claims(reader, problem.now.as_slice())?;
    read_claims(reader, problem.before.as_slice())?;
    Ok(reader.take_parts())
}

// No parts for each element.
fn no_parts(alloc: Global, count: usize) -> Result<Vec<Vec<Part>>, AllocError> {
    let mut each = Vec::new(alloc);
    for _ in 0..count {
        each.push(Vec::new(alloc))?;
    }
    Ok(each)
}

/// What is read in a problem.
pub(crate) fn parts_of(
    alloc: Global,
    problem: &Problem,
    elements: &Elements,
) -> Result<Parts, AllocError> {
    let mut reader = reader_of(alloc, problem, elements);
    let (mut goal, target) = goal_of_target(&mut reader, &problem.target)?;
    let beside = goal_beside(&mut reader, problem)?;
    put_behind(&mut goal, beside)?;
    let mut each = no_parts(alloc, elements.count())?;
    add_definitions(&mut reader, &mut each, problem.now.as_slice())?;
    add_definitions(&mut reader, &mut each, problem.before.as_slice())?;
    Ok(Parts { each, goal, target })
}
