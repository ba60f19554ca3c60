// What expressions and definitions read, put down part by part.
use crate::elements::Elements;
use smv_core::flat::{FlatExpr, FlatSigned};
use smv_problem::Problem;
use smv_spots::spots::Spot;
use std::alloc::{AllocError, Global};
use std::collections::BTreeSet;
use std::mem;

// How many steps a reader goes: what would be read behind them counts as not read, so that no text is read for long.
const MOST_STEPS: u32 = 4_000_000;

/// An element that is read, or, where it has a weight, an element of one bit as the bit of that weight of a number.
#[derive(Clone, Copy)]
pub(crate) struct Read {
    pub(crate) element: usize,
    pub(crate) weight: Option<u32>,
}

/// What elements are read for: they decide; they are compared with one another; or an element is given their values.
#[derive(Clone, Copy, PartialEq, Eq)]
pub(crate) enum Role {
    Decides,
    Meets,
    Gives,
}

/// Elements that are read together, and whether it is for what holds at once, and not for a first or a next value.
#[derive(Drop)]
pub(crate) struct Part {
    pub(crate) role: Role,
    pub(crate) at_once: bool,
    pub(crate) reads: Vec<Read>,
}

/// Reads what is demanded, with the variables that are bound (one that is not known may be anything).
#[derive(Drop)]
pub(crate) struct Reader<'a> {
    pub(crate) alloc: Global,
    pub(crate) problem: &'a Problem,
    pub(crate) elements: &'a Elements,
    pub(crate) at_once: bool,
    bound: Vec<Option<Spot>>,
    steps: u32,
    parts: Vec<Part>,
    numbers: BTreeSet<u64>,
}

/// A reader that has read nothing.
pub(crate) fn reader_of<'a>(
    alloc: Global,
    problem: &'a Problem,
    elements: &'a Elements,
) -> Reader<'a> {
    Reader {
        alloc,
        problem,
        elements,
        at_once: true,
        bound: Vec::new(alloc),
        steps: MOST_STEPS,
        parts: Vec::new(alloc),
        numbers: BTreeSet::new(alloc),
    }
}

// A number of a read.
fn number_of(read: Read) -> u64 {
    let weight = match read.weight {
        Some(weight) => u64::from(weight) + 1,
        None => 0,
    };
    (read.element as u64).wrapping_mul(64).wrapping_add(weight)
}

// A number of a part; two parts with one number are taken for one.
fn number_of_part(role: Role, at_once: bool, reads: &[Read]) -> u64 {
    let mut number: u64 = match role {
        Role::Decides => 1,
        Role::Meets => 2,
        Role::Gives => 3,
    };
    if at_once {
        number += 3;
    }
    for read in reads {
        number = number
            .wrapping_mul(1_000_003)
            .wrapping_add(number_of(*read));
    }
    number
}

/// These reads, each once.
pub(crate) fn each_once(alloc: Global, reads: &[Read]) -> Result<Vec<Read>, AllocError> {
    let mut numbers = BTreeSet::new(alloc);
    let mut once = Vec::new(alloc);
    for read in reads {
        if numbers.insert(number_of(*read))? {
            once.push(*read)?;
        }
    }
    Ok(once)
}

// A number as an index.
fn spot_of(number: i64) -> Option<Spot> {
    match u16::try_from(number) {
        Ok(value) => Some(Spot::Number { value }),
        Err(_) => None,
    }
}

// A sum or a difference of numbers that are known.
fn added(minus: bool, left: Option<i64>, right: Option<i64>) -> Option<i64> {
    let left = left?;
    let right = right?;
    if minus {
        Some(left.saturating_sub(right))
    } else {
        Some(left.saturating_add(right))
    }
}

impl<'a> Reader<'a> {
    /// Whether one step more is left.
    pub(crate) fn goes_on(&mut self) -> bool {
        self.steps = self.steps.saturating_sub(1);
        self.steps > 0
    }

    /// Binds the first variables, and no others.
    pub(crate) fn bind_first(&mut self, spots: &[Spot]) -> Result<(), AllocError> {
        self.bound.clear();
        for spot in spots {
            self.bound.push(Some(*spot))?;
        }
        Ok(())
    }

    /// Binds a variable; those from its number on are no longer bound.
    pub(crate) fn bind(&mut self, var: u16, place: Option<Spot>) -> Result<(), AllocError> {
        self.bound.truncate(var as usize);
        for _ in self.bound.len()..(var as usize) {
            self.bound.push(None)?;
        }
        self.bound.push(place)?;
        Ok(())
    }

    /// Lets the variables go that are bound from this number on.
    pub(crate) fn unbind(&mut self, var: u16) {
        self.bound.truncate(var as usize);
    }

    /// Where a variable is known to be.
    pub(crate) fn variable(&self, var: u16) -> Option<Spot> {
        match self.bound.get(var as usize) {
            Some(place) => *place,
            None => None,
        }
    }

    // The number that an expression is known to be.
    #[cycle(numbers)]
    fn number(&self, e: &FlatExpr) -> Option<i64> {
        match e {
            FlatExpr::Number { value, .. } => Some(i64::from(*value)),
            FlatExpr::Loop { value, .. } => Some(i64::from(*value)),
            FlatExpr::Var { var, .. } => match self.variable(*var) {
                Some(Spot::Number { value }) => Some(i64::from(value)),
                _ => None,
            },
            FlatExpr::Sum { first, more } => self.sum(self.number(first.get()), more.as_slice()),
            FlatExpr::Modulo { of, by, .. } => {
                let number = self.number(of.get())?;
                number.checked_rem_euclid(i64::from(*by))
            }
            _ => None,
        }
    }

    // A number and such numbers.
    #[cycle(numbers)]
    fn sum(&self, first: Option<i64>, more: &[FlatSigned]) -> Option<i64> {
        let mut sum = first;
        for signed in more {
            sum = added(signed.minus, sum, self.number(&signed.of));
        }
        sum
    }

    /// Where an index is known to be.
    pub(crate) fn known(&self, e: &FlatExpr) -> Option<Spot> {
        match e {
            FlatExpr::Var { var, .. } => self.variable(*var),
            FlatExpr::Constant { list, value, .. } => Some(Spot::Constant {
                list: *list,
                value: *value,
            }),
            _ => spot_of(self.number(e)?),
        }
    }

    /// Puts a part down, unless it stands there.
    pub(crate) fn put(&mut self, role: Role, reads: Vec<Read>) -> Result<(), AllocError> {
        if reads.is_empty() {
            return Ok(());
        }
        let number = number_of_part(role, self.at_once, reads.as_slice());
        if self.numbers.insert(number)? {
            self.parts.push(Part {
                role,
                at_once: self.at_once,
                reads,
            })?;
        }
        Ok(())
    }

    /// Puts down that what one value and another are made of is compared.
    pub(crate) fn meet(&mut self, one: Vec<Read>, other: Vec<Read>) -> Result<(), AllocError> {
        let mut both = one;
        both.extend_from_slice(other.as_slice())?;
        self.put(Role::Meets, both)
    }

    /// Puts down that each of these elements decides.
    pub(crate) fn decide(&mut self, reads: &[Read]) -> Result<(), AllocError> {
        for read in reads {
            let mut one = Vec::new(self.alloc);
            one.push(Read {
                element: read.element,
                weight: None,
            })?;
            self.put(Role::Decides, one)?;
        }
        Ok(())
    }

    /// The parts that were put down; then none are there.
    pub(crate) fn take_parts(&mut self) -> Vec<Part> {
        self.numbers.clear();
        mem::replace(&mut self.parts, Vec::new(self.alloc))
    }
}
