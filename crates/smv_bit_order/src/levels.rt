// How many elements are worked out at once, one from the other, before an element is.
use crate::parts::Parts;
use std::alloc::{AllocError, Global};

// Notes the level of an element.
fn put(levels: &mut Vec<Option<usize>>, element: usize, level: usize) {
    if let Some(known) = levels.get_mut(element) {
        *known = Some(level);
    }
}

// The level of an element, one more than the greatest of those that it reads at once, where it reads any; at most so many elements stand one behind the other. An element that is looked at already has level 0.
fn level_of(parts: &Parts, element: usize, most: usize, levels: &mut Vec<Option<usize>>) -> usize {
    match levels.get(element) {
        None => return 0,
        Some(Some(level)) => return *level,
        Some(None) => (),
    }
    put(levels, element, 0);
    let Some(below) = most.checked_sub(1) else {
        return 0;
    };
    let mut level: usize = 0;
    if let Some(own) = parts.each.get(element) {
        for part in own.as_slice() {
            if part.at_once {
                for read in part.reads.as_slice() {
                    let other = level_of(parts, read.element, below, levels);
                    level = other.saturating_add(1).max(level);
                }
            }
        }
    }
    put(levels, element, level);
    level
}

/// The levels of all elements: 0 where one is not worked out at once from others.
pub(crate) fn levels(alloc: Global, parts: &Parts) -> Result<Vec<usize>, AllocError> {
    let count = parts.each.len();
    let mut known = Vec::new(alloc);
    for _ in 0..count {
        known.push(None)?;
    }
    let mut levels = Vec::new(alloc);
    for element in 0..count {
        levels.push(level_of(parts, element, count, &mut known))?;
    }
    Ok(levels)
}
