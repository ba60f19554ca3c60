//! Names in their order, each found by its first place.
//!
//! For every pass that looks names up. To change it: contracts speak of the first place of a name in the list of those that were given; the map, which
//! has each distinct name once, in the order of first places, is in the invariant.
#![tactic(auto)]

ghost use Rattle.std.specs.Prelude.{◌≡◌, List, [], ◌∷◌, ◌++◌, OnOk, OnErr, map, option_map, option_and_then, slice_get};
ghost use Rattle.smv_core.specs.Types.{find_name};
ghost use Rattle.name_index.specs.Position.{position, found_or, noted};
ghost use Rattle.std.specs.Str.{bytes_eq};
ghost use Rattle.smv_core.specs.Values.{Name};

pub mod map;

use indexmap::IndexMap;
use smv_core::name::Name;
use std::alloc::{AllocError, Global};
use std::marker::Model;

/// Names in the order in which they were given, each found by its first place. Contracts see the list of the names.
#[derive(Drop)]
pub struct NameIndex<'a> {
    names: Vec<&'a Name>,
    first_places: IndexMap<&'a [u8], usize>,
}

impl<'a> Model for NameIndex<'a> {
    ghost use Rattle.std.specs.Prelude.{◌≡◌, ℕ, List, map};
    ghost use Rattle.name_index.specs.Position.{position, noted};

    ghost Value = { List (List ℕ) };

    ghost view = { λ index. map (λ name. name.now) index.names.items };

    ghost invariant = { λ index. (name : List ℕ) → noted index.first_places name ≡ position (map (λ name. name.now) index.names.items) name };
}

impl<'a> NameIndex<'a> {
    /// No names.
    pub fn new(alloc: Global) -> NameIndex<'a>
        ensures { result ≡ [] }
    {
        NameIndex {
            names: Vec::new(alloc),
            first_places: IndexMap::new(alloc),
        }
    }

    /// Puts a name at the end. Where memory is refused, nothing changes.
    pub fn push(&mut self, name: &'a Name) -> Result<(), AllocError>
        ensures ok { OnOk result (self.new ≡ self.old ++ name.now ∷ []) }
        ensures err { OnErr result (self.new ≡ self.old) }
    {
        let place = self.names.len();
        self.names.push(name)?;
        match note_place(&mut self.first_places, name.as_bytes(), place) {
            Ok(()) => Ok(()),
            Err(e) => {
                let _ = self.names.pop();
                Err(e)
            }
        }
    }

    /// The first place of a name.
    pub fn find(&self, name: &Name) -> Option<usize>
        ensures { result ≡ position self.now name.now }
    {
        self.first_places.get(name.as_bytes()).copied()
    }
}

// A name has its place, unless it had one.
fn note_place<'a>(
    first_places: &mut IndexMap<&'a [u8], usize>,
    name: &'a [u8],
    place: usize,
) -> Result<(), AllocError>
    ensures ok { OnOk result ((other : Name) → noted first_places.new other ≡ found_or (noted first_places.old other) (bytes_eq name.now other) place) }
    ensures err { OnErr result ((other : Name) → noted first_places.new other ≡ noted first_places.old other) }
{
    first_places.entry(name)?.or_insert(place);
    Ok(())
}

/// What stands beside a name in a list of pairs is what stands at the name's first place.
pub fn found_at_first_place<T>()
    ensures { (pairs : List (Name × T)) (name : Name) → find_name pairs name ≡ option_and_then (λ place. option_map (λ pair. pair.1) (slice_get pairs place)) (position (map (λ pair. pair.0) pairs) name) }
{}
