// The elements of a problem by their places among them: their bits, and which of them a reference reads.
use smv_core::Seq;
use smv_problem::Problem;
use smv_readings::family_bits;
use smv_spots::spots::Spot;
use smv_typed_spots::index_spots;
use std::alloc::{AllocError, Global};
use std::collections::BTreeMap;

/// An element: where it lies, the number of its lowest bit, and how many bits it has.
#[derive(Drop)]
struct Member {
    indexes: Seq<Spot>,
    lowest: u32,
    width: u32,
}

/// The elements of a problem, those of each family, and a table of them by their numbers.
#[derive(Drop)]
pub(crate) struct Elements {
    members: Vec<Member>,
    families: Vec<Vec<usize>>,
    numbers: BTreeMap<u64, usize>,
}

// A spot among those of one type.
fn code_of(spot: Spot) -> u64 {
    match spot {
        Spot::Number { value } => 3 * u64::from(value),
        Spot::Constant { list: _, value } => 3 * u64::from(value),
        Spot::Class { set: _, class } => 3 * u64::from(class) + 1,
        Spot::Rest { set: _, rest } => 3 * u64::from(rest) + 2,
    }
}

// A number of an element of a family, where each of its indexes is known. Two elements may have one number, and are then taken for one: an order is right whatever it is told.
fn number_of(family: u16, places: &[Option<Spot>]) -> Option<u64> {
    let mut number = u64::from(family);
    for place in places {
        match place {
            Some(spot) => number = number.wrapping_mul(1_000_003).wrapping_add(code_of(*spot)),
            None => return None,
        }
    }
    Some(number)
}

// Each index is the one that is known.
fn lies_at(indexes: &[Spot], places: &[Option<Spot>]) -> bool {
    for (index, place) in indexes.iter().zip(places) {
        match place {
            Some(spot) => {
                if code_of(*spot) != code_of(*index) {
                    return false;
                }
            }
            None => (),
        }
    }
    true
}

/// These spots, each of which is known.
pub(crate) fn all_known(alloc: Global, spots: &[Spot]) -> Result<Vec<Option<Spot>>, AllocError> {
    let mut places = Vec::new(alloc);
    for spot in spots {
        places.push(Some(*spot))?;
    }
    Ok(places)
}

// A list for each family.
fn no_members(alloc: Global, problem: &Problem) -> Result<Vec<Vec<usize>>, AllocError> {
    let mut families = Vec::new(alloc);
    for _ in problem.families.as_slice() {
        families.push(Vec::new(alloc))?;
    }
    Ok(families)
}

/// The elements of a problem.
pub(crate) fn elements_of(alloc: Global, problem: &Problem) -> Result<Elements, AllocError> {
    let mut elements = Elements {
        members: Vec::new(alloc),
        families: no_members(alloc, problem)?,
        numbers: BTreeMap::new(alloc),
    };
    let mut bits: u32 = 0;
    for element in problem.elements.as_slice() {
        let width = family_bits(
            problem.families.as_slice(),
            problem.lists.as_slice(),
            problem.types.as_slice(),
            element.family,
        );
        bits = bits.saturating_add(width);
        let member = Member {
            indexes: index_spots(alloc, problem, element)?,
            lowest: bits.saturating_sub(1),
            width,
        };
        elements.add(alloc, element.family, member)?;
    }
    Ok(elements)
}

impl Elements {
    // One element more.
    fn add(&mut self, alloc: Global, family: u16, member: Member) -> Result<(), AllocError> {
        let place = self.members.len();
        let places = all_known(alloc, member.indexes.as_slice())?;
        if let Some(number) = number_of(family, places.as_slice()) {
            self.numbers.insert(number, place)?;
        }
        if let Some(others) = self.families.get_mut(family as usize) {
            others.push(place)?;
        }
        self.members.push(member)?;
        Ok(())
    }

    /// How many there are.
    pub(crate) fn count(&self) -> usize {
        self.members.len()
    }

    /// The indexes of an element.
    pub(crate) fn indexes(&self, element: usize) -> &[Spot] {
        match self.members.get(element) {
            Some(member) => member.indexes.as_slice(),
            None => &[],
        }
    }

    /// How many bits an element has.
    pub(crate) fn width(&self, element: usize) -> u32 {
        match self.members.get(element) {
            Some(member) => member.width,
            None => 0,
        }
    }

    /// The bit of an element with this weight, where it has one: 0 is the weight of the lowest.
    pub(crate) fn bit(&self, element: usize, weight: u32) -> Option<u32> {
        let member = self.members.get(element)?;
        if weight < member.width {
            Some(member.lowest.saturating_sub(weight))
        } else {
            None
        }
    }

    /// The element of a family at these places, where each is known.
    pub(crate) fn find(&self, family: u16, places: &[Option<Spot>]) -> Option<usize> {
        let number = number_of(family, places)?;
        self.numbers.get(&number).copied()
    }

    /// Puts the elements of a family that may lie at these places behind others, in their order.
    pub(crate) fn put_all_at(
        &self,
        family: u16,
        places: &[Option<Spot>],
        found: &mut Vec<usize>,
    ) -> Result<(), AllocError> {
        if number_of(family, places).is_some() {
            if let Some(element) = self.find(family, places) {
                found.push(element)?;
            }
            return Ok(());
        }
        let Some(members) = self.families.get(family as usize) else {
            return Ok(());
        };
        for element in members {
            if lies_at(self.indexes(*element), places) {
                found.push(*element)?;
            }
        }
        Ok(())
    }
}
