// Values beside names, each found by its name.
ghost use Rattle.std.specs.Prelude.{◌≡◌, List, [], ◌∷◌, ◌++◌, OnOk, OnErr, option_copied, option_and_then, slice_get};
ghost use Rattle.smv_core.specs.Types.{find_name};

use crate::NameIndex;
use smv_core::name::Name;
use std::alloc::{AllocError, Global};
use std::marker::Model;

/// Values beside names, each found by its name at its first place. Contracts see the list of the pairs.
#[derive(Drop)]
pub struct NameMap<'a, T> {
    names: NameIndex<'a>,
    values: Vec<T>,
}

impl<'a, T> Model for NameMap<'a, T> {
    ghost use Rattle.std.specs.Prelude.{◌≡◌, ℕ, List, zip, length};
    ghost use Rattle.std.specs.Coded.{coded_list, coded×, coded_ℕ};

    ghost Value = { List (List ℕ × T) };

    ghost coded = { coded_list (coded× (coded_list coded_ℕ) T.code) };

    ghost view = { λ m. zip m.names m.values.items };

    ghost invariant = { λ m. length m.names ≡ length m.values.items };
}

impl<'a, T> NameMap<'a, T> {
    /// No names.
    pub fn new(alloc: Global) -> NameMap<'a, T>
        ensures { result ≡ [] }
    {
        NameMap {
            names: NameIndex::new(alloc),
            values: Vec::new(alloc),
        }
    }

    /// What stands beside a name, at its first place.
    pub fn find(&self, name: &Name) -> Option<&T>
        ensures { option_copied result ≡ find_name self.now name.now }
    {
        value_at(self.values.as_slice(), self.names.find(name))
    }
}

impl<'a, T: Drop> NameMap<'a, T> {
    /// Puts a name and its value at the end. Where memory is refused, nothing changes.
    pub fn push(&mut self, name: &'a Name, value: T) -> Result<(), AllocError>
        ensures ok { OnOk result (self.new ≡ self.old ++ (name.now, value) ∷ []) }
        ensures err { OnErr result (self.new ≡ self.old) }
    {
        put(&mut self.names, &mut self.values, name, value)?;
        Ok(())
    }
}

// The value at a place, if there is one.
fn value_at<T>(values: &[T], place: Option<usize>) -> Option<&T>
    ensures { option_copied result ≡ option_and_then (λ i. slice_get values.now i) place }
{
    match place {
        Some(place) => values.get(place),
        None => None,
    }
}

// A name and a value at the end, or neither.
fn put<'a, T: Drop>(
    names: &mut NameIndex<'a>,
    values: &mut Vec<T>,
    name: &'a Name,
    value: T,
) -> Result<(), AllocError>
    ensures ok { OnOk result ((names.new ≡ names.old ++ name.now ∷ []) × (values.new.items ≡ values.old.items ++ value ∷ [])) }
    ensures err { OnErr result ((names.new ≡ names.old) × (values.new.items ≡ values.old.items)) }
{
    values.push(value)?;
    match names.push(name) {
        Ok(()) => Ok(()),
        Err(e) => {
            let _ = values.pop();
            Err(e)
        }
    }
}
