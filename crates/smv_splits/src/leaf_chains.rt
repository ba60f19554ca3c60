// The leaf of each unit of a design, the end of its chain of splits: `unit_leaves`, by `leaves_of` of `law_splits`.
ghost use Rattle.std.specs.Prelude.{◌≡◌, map, IfOk};
ghost use Rattle.law_obligations.specs.Outlines.{unit_in};
ghost use Rattle.law_obligations.specs.Units.{units_of};
ghost use Rattle.law_splits.specs.Leaves as spec;
ghost use Rattle.law_splits.specs.Leaves.{named_by};
ghost use Rattle.smv_splits.specs.Links.{held};
ghost use Rattle.smv_splits.specs.Links as ends;

use crate::chains::{Chain, follow};
use crate::guards::all_guards;
use crate::names::{index_of, names_split, unit_name};
use crate::params::{number, own_params};
use name_index::NameIndex;
use smv_copies::copy_name;
use smv_core::flat::{Design, Leaf, Unit};
use smv_core::seq::Seq;
use std::alloc::{AllocError, Global};

// The leaf at the end of a chain.
fn leaf_at_end(alloc: Global, unit: u16, chain: Chain) -> Result<Leaf, AllocError>
    ensures { IfOk result (λ leaf. leaf ≡ ends.leaf_at_end unit (held chain.entry)) }
{
    let Chain {
        params,
        name,
        links,
    } = chain;
    let guards = all_guards(alloc, &links, params.len())?;
    let name = copy_name(alloc, name)?;
    Ok(Leaf {
        unit,
        name,
        params: Seq::from_vec(params),
        guards: Seq::from_vec(guards),
    })
}

// The leaf of a unit.
fn leaf_of(
    alloc: Global,
    design: &Design,
    named: &NameIndex,
    place: usize,
    unit: Unit,
) -> Result<Leaf, AllocError>
    requires { named.now ≡ map (λ split. named_by split.of) design.now.splits }
    ensures { IfOk result (λ leaf. leaf ≡ spec.leaf_of design.now place (unit_in design.now unit)) }
{
    let number = number(place)?;
    let name = unit_name(alloc, design, unit)?;
    let params = own_params(alloc, design, unit)?;
    let links = Vec::new(alloc);
    let mut chain = Chain {
        params,
        name: &name,
        links,
    };
    follow(alloc, design, named, &mut chain)?;
    let leaf = leaf_at_end(alloc, number, chain)?;
    Ok(leaf)
}

// The leaves of these units.
fn leaves_in(
    alloc: Global,
    design: &Design,
    named: &NameIndex,
    units: &[Unit],
) -> Result<Vec<Leaf>, AllocError>
    requires { named.now ≡ map (λ split. named_by split.of) design.now.splits }
    ensures { IfOk result (λ leaves. leaves.items ≡ spec.leaves_from design.now 0 units.now) }
{
    let mut leaves = Vec::new(alloc);
    for (place, unit) in units.iter().enumerate() {
        let leaf = leaf_of(alloc, design, named, place, *unit)?;
        leaves.push(leaf)?;
    }
    Ok(leaves)
}

/// The leaves of a design's units, one for each. Also where a number does not fit its field, which no text within the limits of cases has, there is an error.
pub fn unit_leaves(alloc: Global, design: &Design, units: &[Unit]) -> Result<Seq<Leaf>, AllocError>
    requires { units.now ≡ units_of design.now }
    ensures { IfOk result (λ leaves. leaves ≡ spec.leaves_of design.now) }
{
    let names = names_split(alloc, design.splits.as_slice())?;
    let named = index_of(alloc, &names)?;
    let leaves = leaves_in(alloc, design, &named, units)?;
    Ok(Seq::from_vec(leaves))
}
