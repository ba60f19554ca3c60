// Classes of assignments: two that may meet are of one class.
ghost use Rattle.std.specs.Prelude.{◌≡◌, ◌⊎◌, ℕ, Option, length, map, Some, IfOk, OnOk};
ghost use Rattle.smv_single_assignment.specs.Held.{standing_of};
ghost use Rattle.smv_single_assignment.specs.Links.{AreClassed};
ghost use Rattle.smv_single_assignment.specs.Classes.{number_at, value_by, kept_if, AreBelow, AreRefined, AreSteady};

use crate::assignments::Assignment;
use crate::left_sides::constant_at;
use crate::links::zeros;
use std::alloc::{AllocError, Global};
use std::collections::HashMap;

// How many indexes are looked at: no family has more.
const INDEXES: usize = 4;

// By what classes are told apart: by the family, the layer, or the constant at an index.
#[derive(Clone, Copy)]
enum Criterion {
    Family,
    Layer,
    Constant { index: usize },
}

// The value of an assignment, if it has one.
fn value_of(x: &Assignment, by: Criterion) -> Option<u16>
    ensures { result ≡ value_by by (standing_of x.now) }
{
    match by {
        Criterion::Family => Some(x.family),
        Criterion::Layer => x.layer,
        Criterion::Constant { index } => constant_at(x.left, index),
    }
}

// The values of these assignments.
fn values(alloc: Global, all: &[Assignment], by: Criterion) -> Result<Vec<Option<u16>>, AllocError>
    ensures { IfOk result (λ values. values.items ≡ map (value_by by) (map standing_of all.now)) }
{
    let mut values = Vec::new(alloc);
    for x in all {
        values.push(value_of(x, by))?;
    }
    Ok(values)
}

// A number of marks.
fn marks(alloc: Global, count: usize) -> Result<Vec<bool>, AllocError>
    ensures { IfOk result (λ marks. length marks.items ≡ count) }
{
    let mut marks = Vec::new(alloc);
    for step in 0..count {
        let _ = step;
        marks.push(true)?;
    }
    Ok(marks)
}

// The classes of which each assignment has a value.
fn steady(alloc: Global, classes: &[usize], values: &[Option<u16>]) -> Result<Vec<bool>, AllocError>
    requires below { AreBelow classes.now (length classes.now) }
    requires values { length values.now ≡ length classes.now }
    ensures length { IfOk result (λ marks. length marks.items ≡ length classes.now) }
    ensures steady { IfOk result (λ marks. AreSteady classes.now values.now marks.items (length classes.now)) }
{
    let mut marks = marks(alloc, classes.len())?;
    for place in 0..classes.len() {
        let class = classes[place];
        let mark = marks[class];
        marks[class] = mark && values[place].is_some();
    }
    Ok(marks)
}

// The number of a class and a value: that which they have, or else this place.
fn number_of(
    numbers: &mut HashMap<(usize, Option<u16>), usize>,
    key: (usize, Option<u16>),
    place: usize,
) -> Result<usize, AllocError>
    ensures here { IfOk result (λ number. number_at numbers.new key ≡ Some number) }
    ensures kept { OnOk result ((other : ℕ × Option ℕ) (number : ℕ) → number_at numbers.old other ≡ Some number → number_at numbers.new other ≡ Some number) }
    ensures from { OnOk result ((other : ℕ × Option ℕ) (number : ℕ) → number_at numbers.new other ≡ Some number → (number ≡ place) ⊎ (number_at numbers.old other ≡ Some number)) }
{
    match numbers.get(&key) {
        Some(number) => Ok(*number),
        None => {
            numbers.insert(key, place)?;
            Ok(place)
        }
    }
}

// The classes, each told apart by its values where each assignment of it has one.
fn refined(
    alloc: Global,
    classes: &[usize],
    values: &[Option<u16>],
    marks: &[bool],
) -> Result<Vec<usize>, AllocError>
    requires below { AreBelow classes.now (length classes.now) }
    requires values { length values.now ≡ length classes.now }
    requires marks { length marks.now ≡ length classes.now }
    ensures { IfOk result (λ refined. AreRefined classes.now values.now marks.now refined.items) }
{
    let mut numbers = HashMap::new(alloc);
    let mut refined = Vec::new(alloc);
    for place in 0..classes.len() {
        let class = classes[place];
        let value = kept(marks[class], values[place]);
        let number = number_of(&mut numbers, (class, value), place)?;
        refined.push(number)?;
    }
    Ok(refined)
}

// The value, where it counts.
fn kept(counts: bool, value: Option<u16>) -> Option<u16>
    ensures { result ≡ kept_if counts value }
{
    if counts { value } else { None }
}

// The classes, told apart by the values of one more criterion.
fn told_apart(
    alloc: Global,
    all: &[Assignment],
    classes: &[usize],
    by: Criterion,
) -> Result<Vec<usize>, AllocError>
    requires { AreClassed (map standing_of all.now) classes.now (length all.now) }
    ensures { IfOk result (λ refined. AreClassed (map standing_of all.now) refined.items (length all.now)) }
{
    let values = values(alloc, all, by)?;
    let marks = steady(alloc, classes, &values)?;
    refined(alloc, classes, &values, &marks)
}

// Whether no assignment has a value, so that nothing is told apart. Nothing rests on it.
fn has_none(all: &[Assignment], by: Criterion) -> bool {
    for x in all {
        if value_of(x, by).is_some() {
            return false;
        }
    }
    true
}

// The same, where there are values. The classes stay as they are where there are none.
fn round(
    alloc: Global,
    all: &[Assignment],
    classes: &[usize],
    by: Criterion,
) -> Result<Vec<usize>, AllocError>
    requires { AreClassed (map standing_of all.now) classes.now (length all.now) }
    ensures { IfOk result (λ refined. AreClassed (map standing_of all.now) refined.items (length all.now)) }
{
    if has_none(all, by) {
        return Vec::from_slice(alloc, classes);
    }
    told_apart(alloc, all, classes, by)
}

// The greatest number of indexes that a left side has, as far as they are looked at.
fn widest(all: &[Assignment]) -> usize {
    let mut most = 0;
    for x in all {
        most = x.left.len().max(most);
    }
    most.min(INDEXES)
}

/// The class of each assignment, by its family, its layer and its constants: each tells a class apart where each assignment of it has one.
pub fn classes(alloc: Global, all: &[Assignment]) -> Result<Vec<usize>, AllocError>
    ensures { IfOk result (λ classes. AreClassed (map standing_of all.now) classes.items (length all.now)) }
{
    let one = zeros(alloc, all.len())?;
    let families = round(alloc, all, &one, Criterion::Family)?;
    let mut classes = round(alloc, all, &families, Criterion::Layer)?;
    let widest = widest(all);
    for _ in 0..widest {
        for index in 0..widest {
            classes = round(alloc, all, &classes, Criterion::Constant { index })?;
        }
    }
    Ok(classes)
}
