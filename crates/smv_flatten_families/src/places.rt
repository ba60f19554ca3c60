// Lists of names, each found by its first place.
ghost use Rattle.std.specs.Prelude.{◌≡◌, OnOk};
ghost use Rattle.std.specs.HashMap.{get};
ghost use Rattle.std.specs.Hash as fed;
ghost use Rattle.std.specs.Cmp.Rules.{comparing};
ghost use Rattle.std.proofs.Common.{ap, rules};
ghost use Rattle.smv_core.specs.Values.{Path};
ghost use Rattle.smv_core.specs.Outcome.{same_path};
ghost use Rattle.smv_flatten_families.specs.Paths.{path_of, found_or, same_paths};

use smv_core::name::Name;
use std::alloc::AllocError;
use std::collections::HashMap;
use std::hash::{Hash, Hasher};
use std::marker::Model;

/// A list of names, which contracts see as the list of their bytes.
#[derive(Drop)]
pub struct Names<'a> {
    names: Vec<&'a Name>,
}

impl<'a> Model for Names<'a> {
    ghost use Rattle.std.specs.Prelude.{ℕ, List, map};

    ghost Value = { List (List ℕ) };

    ghost view = { λ names. map (λ name. name.now) names.names.items };
}

impl<'a> Names<'a> {
    /// The names of a vector, in their order.
    pub fn from_vec(names: Vec<&'a Name>) -> Names<'a>
        ensures { result ≡ path_of names.entry.items }
    {
        Names { names }
    }
}

impl<'a> PartialEq for Names<'a> {
    ghost eq = { λ a b. same_path a b };

    ghost laws = { Prim.search (comparing, rules) };

    #[tactic(auto, using(crate::proofs::PathLaws::keys))]
    fn eq(&self, other: &Names<'a>) -> bool {
        self.names == other.names
    }
}

impl<'a> Eq for Names<'a> {
    ghost laws = { Prim.search (comparing, rules) };
}

impl<'a> Hash for Names<'a> {
    ghost hash_input = { λ a. fed.slice (fed.slice fed.u8) a };

    ghost respects_eq = { λ x y e. ap (fed.slice (fed.slice fed.u8)) (same_paths x y e) };

    #[tactic(auto, using(crate::proofs::PathLaws::keys))]
    fn hash<H: Hasher>(&self, state: &mut H) {
        self.names.as_slice().hash(state);
    }
}

/// The first place of a list of names.
pub fn place_of(places: &HashMap<Names, usize>, names: &Names) -> Option<usize>
    ensures { result ≡ get same_path places.now names.now }
{
    places.get(names).copied()
}

/// A list of names has its place, unless it had one.
pub fn note_place<'a>(
    places: &mut HashMap<Names<'a>, usize>,
    names: Names<'a>,
    place: usize,
) -> Result<(), AllocError>
    ensures { OnOk result ((other : Path) → get same_path places.new other ≡ found_or (get same_path places.old other) (same_path names.entry other) place) }
{
    if !places.contains_key(&names) {
        places.insert(names, place)?;
    }
    Ok(())
}
