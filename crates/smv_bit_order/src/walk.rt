// The walk over the bits of a problem: which are met one behind the other.
use crate::elements::Elements;
use crate::levels::levels;
use crate::parts::Parts;
use crate::reader::{Part, Read, Role};
use std::alloc::{AllocError, Global};

/// The bit of an element with this weight; the lowest has weight 0.
#[derive(Clone, Copy)]
struct Slot {
    element: usize,
    weight: u32,
}

// What of a group of slots is gone through: what decides it at once, behind which slots that are not worked out at once take their places; what it is given at once, behind which the others do; and what decides and gives its first and next values.
#[derive(Clone, Copy)]
enum Stage {
    Deciding,
    Giving,
    Moving,
}

// A group of slots that is gone through: those that were new, which of them are the first of their elements, how many parts any of these has, the next part, and the groups that wait, the next one last.
#[derive(Drop)]
struct Turn {
    slots: Vec<Slot>,
    firsts: Vec<bool>,
    most: usize,
    stage: Stage,
    part: usize,
    waiting: Vec<Vec<Slot>>,
}

// A walk: which bits were seen, which elements were entered, the bits in the order in which they took their places, and the groups that are gone through, each inside the one before it.
#[derive(Drop)]
struct Walk<'a> {
    alloc: Global,
    elements: &'a Elements,
    parts: &'a Parts,
    seen: Vec<bool>,
    entered: Vec<bool>,
    levels: Vec<usize>,
    met: Vec<u32>,
    turns: Vec<Turn>,
}

// So many that are false.
fn none_of(alloc: Global, count: usize) -> Result<Vec<bool>, AllocError> {
    let mut none = Vec::new(alloc);
    for _ in 0..count {
        none.push(false)?;
    }
    Ok(none)
}

// Marks one of these, and says whether it was not marked.
fn is_new(marks: &mut Vec<bool>, place: usize) -> bool {
    match marks.get_mut(place) {
        Some(mark) => {
            let new = !*mark;
            *mark = true;
            new
        }
        None => false,
    }
}

// Whether two or more of these are numbers, which are gone through row by row.
fn are_numbers(elements: &Elements, reads: &[Read]) -> bool {
    let mut numbers = 0;
    for read in reads {
        if read.weight.is_some() || elements.width(read.element) > 1 {
            if numbers == 1 {
                return true;
            }
            numbers = 1;
        }
    }
    false
}

// Puts the slot of a read in a row behind a group, where it has one: a bit that has a weight stands in the row of this weight alone.
fn put_in_row(
    elements: &Elements,
    read: Read,
    weight: u32,
    group: &mut Vec<Slot>,
) -> Result<(), AllocError> {
    let own = match read.weight {
        Some(other) => {
            if other != weight {
                return Ok(());
            }
            0
        }
        None => weight,
    };
    if own < elements.width(read.element) {
        group.push(Slot {
            element: read.element,
            weight: own,
        })?;
    }
    Ok(())
}

// How many rows a read stands in or below.
fn height(elements: &Elements, read: Read) -> u32 {
    match read.weight {
        Some(weight) => weight.saturating_add(1),
        None => elements.width(read.element),
    }
}

// Puts the rows of these reads behind groups, the lowest first.
fn put_rows(
    alloc: Global,
    elements: &Elements,
    reads: &[Read],
    groups: &mut Vec<Vec<Slot>>,
) -> Result<(), AllocError> {
    let mut rows = 0;
    for read in reads {
        rows = height(elements, *read).max(rows);
    }
    for weight in 0..rows {
        let mut group = Vec::new(alloc);
        for read in reads {
            put_in_row(elements, *read, weight, &mut group)?;
        }
        groups.push(group)?;
    }
    Ok(())
}

// Puts all slots of an element behind a group, the highest first.
fn put_whole(elements: &Elements, element: usize, group: &mut Vec<Slot>) -> Result<(), AllocError> {
    for weight in (0..elements.width(element)).rev() {
        group.push(Slot { element, weight })?;
    }
    Ok(())
}

// The groups of a part of the goal, and of one that decides or meets: elements with all their slots, and numbers that meet row by row.
fn groups_of(
    alloc: Global,
    elements: &Elements,
    whole: &[Read],
    rows: &[Read],
) -> Result<Vec<Vec<Slot>>, AllocError> {
    let mut groups = Vec::new(alloc);
    let mut group = Vec::new(alloc);
    for read in whole {
        put_whole(elements, read.element, &mut group)?;
    }
    if !group.is_empty() {
        groups.push(group)?;
    }
    put_rows(alloc, elements, rows, &mut groups)?;
    Ok(groups)
}

// Puts the slot of the k-th read of a row behind the k-th group.
fn put_in_columns(
    alloc: Global,
    elements: &Elements,
    reads: &[Read],
    weight: u32,
    groups: &mut Vec<Vec<Slot>>,
) -> Result<(), AllocError> {
    for (column, read) in reads.iter().enumerate() {
        if groups.len() <= column {
            groups.push(Vec::new(alloc))?;
        }
        if let Some(group) = groups.get_mut(column) {
            put_in_row(elements, *read, weight, group)?;
        }
    }
    Ok(())
}

impl<'a> Walk<'a> {
    // The parts of an element.
    fn parts_of(&self, element: usize) -> &'a [Part] {
        match self.parts.each.get(element) {
            Some(parts) => parts.as_slice(),
            None => &[],
        }
    }

    // The slots of a group that were not seen; now they are.
    fn unseen(&mut self, group: &[Slot]) -> Result<Vec<Slot>, AllocError> {
        let mut slots = Vec::new(self.alloc);
        for slot in group {
            if let Some(bit) = self.elements.bit(slot.element, slot.weight) {
                if is_new(&mut self.seen, bit as usize) {
                    slots.push(*slot)?;
                }
            }
        }
        Ok(slots)
    }

    // Begins with what is new of a group.
    fn enter(&mut self, group: &[Slot]) -> Result<(), AllocError> {
        let slots = self.unseen(group)?;
        if slots.is_empty() {
            return Ok(());
        }
        let mut firsts = Vec::new(self.alloc);
        let mut most = 0;
        for slot in slots.as_slice() {
            firsts.push(is_new(&mut self.entered, slot.element))?;
            most = self.parts_of(slot.element).len().max(most);
        }
        self.turns.push(Turn {
            slots,
            firsts,
            most,
            stage: Stage::Deciding,
            part: 0,
            waiting: Vec::new(self.alloc),
        })?;
        Ok(())
    }

    // The groups that decide, and those of what meets, by the next part of each element that is new.
    fn deciding(&self, turn: &Turn, at_once: bool) -> Result<Vec<Vec<Slot>>, AllocError> {
        let mut whole = Vec::new(self.alloc);
        let mut rows = Vec::new(self.alloc);
        for (slot, first) in turn.slots.as_slice().iter().zip(turn.firsts.as_slice()) {
            let parts = self.parts_of(slot.element);
            if let Some(part) = parts.get(turn.part) {
                if *first && part.at_once == at_once && part.role != Role::Gives {
                    let reads = part.reads.as_slice();
                    if part.role == Role::Meets && are_numbers(self.elements, reads) {
                        rows.extend_from_slice(reads)?;
                    } else {
                        whole.extend_from_slice(reads)?;
                    }
                }
            }
        }
        groups_of(self.alloc, self.elements, whole.as_slice(), rows.as_slice())
    }

    // Puts the groups of what the slots are given by the next part of their elements behind others, each in the row of its slot.
    fn put_giving(
        &self,
        turn: &Turn,
        at_once: bool,
        groups: &mut Vec<Vec<Slot>>,
    ) -> Result<(), AllocError> {
        let mut columns = Vec::new(self.alloc);
        for slot in turn.slots.as_slice() {
            let parts = self.parts_of(slot.element);
            if let Some(part) = parts.get(turn.part) {
                if part.at_once == at_once && part.role == Role::Gives {
                    put_in_columns(
                        self.alloc,
                        self.elements,
                        part.reads.as_slice(),
                        slot.weight,
                        &mut columns,
                    )?;
                }
            }
        }
        for column in columns {
            groups.push(column)?;
        }
        Ok(())
    }

    // The groups of the next part at a stage, in order.
    fn groups_at(&self, turn: &Turn) -> Result<Vec<Vec<Slot>>, AllocError> {
        match turn.stage {
            Stage::Deciding => self.deciding(turn, true),
            Stage::Giving => {
                let mut groups = Vec::new(self.alloc);
                self.put_giving(turn, true, &mut groups)?;
                Ok(groups)
            }
            Stage::Moving => {
                let mut groups = self.deciding(turn, false)?;
                self.put_giving(turn, false, &mut groups)?;
                Ok(groups)
            }
        }
    }

    // The level of an element: 0 where it is not worked out at once.
    fn level(&self, element: usize) -> usize {
        match self.levels.get(element) {
            Some(level) => *level,
            None => 0,
        }
    }

    // A slot takes the next place.
    fn place(&mut self, slot: Slot) -> Result<(), AllocError> {
        if let Some(bit) = self.elements.bit(slot.element, slot.weight) {
            self.met.push(bit)?;
        }
        Ok(())
    }

    // The slots that are not worked out at once take the next places.
    fn place_kept(&mut self, slots: &[Slot]) -> Result<(), AllocError> {
        for slot in slots {
            if self.level(slot.element) == 0 {
                self.place(*slot)?;
            }
        }
        Ok(())
    }

    // The others do, each behind those from which it is worked out.
    fn place_wires(&mut self, slots: &[Slot]) -> Result<(), AllocError> {
        let mut wires = Vec::new(self.alloc);
        for slot in slots {
            let level = self.level(slot.element);
            if level > 0 {
                wires.push((level, *slot))?;
            }
        }
        wires.sort_by_key(|wire| wire.0)?;
        for (_, slot) in wires.as_slice() {
            self.place(*slot)?;
        }
        Ok(())
    }

    // Goes on with a group where none waits inside it, and says whether it is not yet at its end.
    fn advance(&mut self, turn: &mut Turn) -> Result<bool, AllocError> {
        if turn.part < turn.most {
            let mut groups = self.groups_at(turn)?;
            groups.reverse();
            turn.waiting = groups;
            turn.part += 1;
            return Ok(true);
        }
        turn.part = 0;
        match turn.stage {
            Stage::Deciding => {
                self.place_kept(turn.slots.as_slice())?;
                turn.stage = Stage::Giving;
                Ok(true)
            }
            Stage::Giving => {
                self.place_wires(turn.slots.as_slice())?;
                turn.stage = Stage::Moving;
                Ok(true)
            }
            Stage::Moving => Ok(false),
        }
    }

    // One step, and whether there was one.
    fn step(&mut self) -> Result<bool, AllocError> {
        let Some(mut turn) = self.turns.pop() else {
            return Ok(false);
        };
        match turn.waiting.pop() {
            Some(group) => {
                self.turns.push(turn)?;
                self.enter(group.as_slice())?;
            }
            None => {
                if self.advance(&mut turn)? {
                    self.turns.push(turn)?;
                }
            }
        }
        Ok(true)
    }

    // Goes through a group and all that is met from it. A walk has far fewer steps than it may have.
    fn visit(&mut self, group: &[Slot]) -> Result<(), AllocError> {
        self.enter(group)?;
        for _ in 0..u64::MAX {
            if !self.step()? {
                return Ok(());
            }
        }
        Ok(())
    }

    // Goes through a part of the goal.
    fn visit_part(&mut self, part: &Part) -> Result<(), AllocError> {
        let reads = part.reads.as_slice();
        let groups = if part.role == Role::Meets && are_numbers(self.elements, reads) {
            groups_of(self.alloc, self.elements, &[], reads)?
        } else {
            groups_of(self.alloc, self.elements, reads, &[])?
        };
        for group in groups.as_slice() {
            self.visit(group.as_slice())?;
        }
        Ok(())
    }

    // Goes through an element.
    fn visit_element(&mut self, element: usize) -> Result<(), AllocError> {
        let mut group = Vec::new(self.alloc);
        put_whole(self.elements, element, &mut group)?;
        self.visit(group.as_slice())
    }
}

// Which elements are read by others.
fn are_read(alloc: Global, parts: &Parts) -> Result<Vec<bool>, AllocError> {
    let mut marks = none_of(alloc, parts.each.len())?;
    for (element, own) in parts.each.as_slice().iter().enumerate() {
        for part in own.as_slice() {
            for read in part.reads.as_slice() {
                if read.element != element {
                    let _ = is_new(&mut marks, read.element);
                }
            }
        }
    }
    Ok(marks)
}

/// The bits of a problem in the order in which the walk meets them: from the goal, from the element that the target defines, from those that have parts and that no other reads, and from each that is left.
pub(crate) fn met_bits(
    alloc: Global,
    elements: &Elements,
    parts: &Parts,
    bits: usize,
) -> Result<Vec<u32>, AllocError> {
    let mut walk = Walk {
        alloc,
        elements,
        parts,
        seen: none_of(alloc, bits)?,
        entered: none_of(alloc, elements.count())?,
        levels: levels(alloc, parts)?,
        met: Vec::new(alloc),
        turns: Vec::new(alloc),
    };
    for part in parts.goal.as_slice() {
        walk.visit_part(part)?;
    }
    if let Some(element) = parts.target {
        walk.visit_element(element)?;
    }
    let read = are_read(alloc, parts)?;
    for (element, is_read) in read.as_slice().iter().enumerate() {
        if !*is_read && !walk.parts_of(element).is_empty() {
            walk.visit_element(element)?;
        }
    }
    for element in 0..elements.count() {
        walk.visit_element(element)?;
    }
    let Walk { met, .. } = walk;
    Ok(met)
}
