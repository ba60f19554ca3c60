// The sets of an old proof, found by their units and cases.
ghost use Rattle.std.specs.Prelude.{◌≡◌, ◌&&◌, ℕ, List, true, nat_eq, IfOk, OnOk, option_copied};
ghost use Rattle.std.specs.List.{list_all};
ghost use Rattle.std.specs.Str.{bytes_eq};
ghost use Rattle.smv_proof.specs.Documents.{is_set};
ghost use Rattle.smv_kept_cases.specs.OldSets.{IsOld, AreFirst, noted, found_or};

use smv_core::Name;
use smv_proof::KeptSet;
use std::alloc::{AllocError, Global};
use std::collections::HashMap;

/// The sets of an old proof, and the first of each case by the name of its unit and its number.
#[derive(Drop)]
pub struct OldSets<'a> {
    pub sets: &'a [KeptSet],
    pub first: HashMap<(&'a [u8], u32), &'a KeptSet>,
}

impl<'a> OldSets<'a> {
    /// These sets.
    pub fn of(alloc: Global, sets: &'a [KeptSet]) -> Result<OldSets<'a>, AllocError>
        requires { list_all is_set sets.now ≡ true }
        ensures old { IfOk result IsOld }
        ensures sets { IfOk result (λ old. old.sets.now ≡ sets.now) }
    {
        let first = first_of(alloc, sets)?;
        Ok(OldSets { sets, first })
    }

    /// The first set of a case of a unit.
    pub(crate) fn find(&self, unit: &Name, number: u32) -> Option<&'a KeptSet>
        ensures { option_copied result ≡ noted self.now.first unit.now number }
    {
        self.first.get(&(unit.as_bytes(), number)).copied()
    }
}

// The first set of each case.
fn first_of<'a>(
    alloc: Global,
    sets: &'a [KeptSet],
) -> Result<HashMap<(&'a [u8], u32), &'a KeptSet>, AllocError>
    ensures { IfOk result (AreFirst sets.now) }
{
    let mut first = HashMap::new(alloc);
    for set in sets {
        note(&mut first, set)?;
    }
    Ok(first)
}

// A set is noted, unless one of its unit and case was.
fn note<'a>(
    first: &mut HashMap<(&'a [u8], u32), &'a KeptSet>,
    set: &'a KeptSet,
) -> Result<(), AllocError>
    ensures { OnOk result ((unit : List ℕ) (number : ℕ) → noted first.new unit number ≡ found_or (noted first.old unit number) (bytes_eq set.now.unit unit && nat_eq set.now.number number) set.now) }
{
    let key = (set.unit.as_bytes(), set.number);
    if !first.contains_key(&key) {
        first.insert(key, set)?;
    }
    Ok(())
}
