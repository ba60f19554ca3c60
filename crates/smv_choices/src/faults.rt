// The first fault of uses of a design.
ghost use Rattle.std.specs.Prelude.{◌≡◌, ◌++◌, [], map, flat_map, IfOk, OnOk};
ghost use Rattle.std.specs.Str.{bytes_eq};
ghost use Rattle.smv_first_fault.specs.Firsts.{least};
ghost use Rattle.smv_references.specs.Again.{again, placed};
ghost use Rattle.smv_choices.specs.Held.{AreTables};
ghost use Rattle.smv_choices.specs.Parts as parts;
ghost use Rattle.smv_choices.specs.Readings as readings;
ghost use Rattle.smv_choices.specs.Readings.{reading, pair_of};

use crate::misfits::misfit_in;
use crate::readings::{Proved, Reading};
use crate::tables::Tables;
use crate::twice::twice_in;
use smv_core::fault::Fault;
use smv_core::flat::Unit;
use smv_core::name::Name;
use smv_first_fault::faults::{earlier, fault_at};
use smv_first_fault::places::first_of;
use smv_references::again::first_name_again;
use std::alloc::{AllocError, Global};

// The first reference that names nothing which can be used or proved.
#[tactic(auto, using(smv_first_fault::proofs::LeastLaws::leasts))]
fn first_unknown(all: &[Reading]) -> Option<u32>
    ensures { result ≡ parts.first_among (map readings.unknown_in (map reading all.now)) }
{
    let mut found = None;
    for x in all {
        found = first_of(found, first_of(x.found.unknown, x.proved.no_leaf));
    }
    found
}

// The names of the leaves that these prove, more.
#[tactic(auto, using(smv_mentions::proofs::Notes::noting))]
fn add_leaves<'a>(out: &mut Vec<(u32, &'a Name)>, proved: &[Proved<'a>]) -> Result<(), AllocError>
    ensures { OnOk result (map placed out.new.items ≡ map placed out.old.items ++ map readings.leaf_key (map pair_of proved.now)) }
{
    for x in proved {
        out.push((x.of.at, &x.leaf.name))?;
    }
    Ok(())
}

// The names of the leaves that are proved, in flat order.
#[tactic(auto, using(smv_mentions::proofs::Notes::noting))]
fn leaf_names<'a>(alloc: Global, all: &[Reading<'a>]) -> Result<Vec<(u32, &'a Name)>, AllocError>
    ensures { IfOk result (λ names. map placed names.items ≡ flat_map readings.leaf_keys (map reading all.now)) }
{
    let mut names = Vec::new(alloc);
    for x in all {
        add_leaves(&mut names, &x.proved.leaves)?;
    }
    Ok(names)
}

// The first reference to a leaf that is proved before.
fn first_proved_again(alloc: Global, all: &[Reading]) -> Result<Option<u32>, AllocError>
    ensures { IfOk result (λ place. place ≡ least (again bytes_eq [] (flat_map readings.leaf_keys (map reading all.now)))) }
{
    let names = leaf_names(alloc, all)?;
    first_name_again(alloc, &names)
}

// The first place of what is said twice in one `using`.
#[tactic(auto, using(smv_first_fault::proofs::LeastLaws::leasts))]
fn first_twice(
    alloc: Global,
    units: &[Unit],
    tables: &Tables,
    all: &[Reading],
) -> Result<Option<u32>, AllocError>
    requires { AreTables tables.now }
    ensures { IfOk result (λ place. place ≡ parts.first_among (map (readings.twice_in tables.now.design.now units.now) (map reading all.now))) }
{
    let mut found = None;
    for x in all {
        let place = twice_in(alloc, units, tables, x)?;
        found = first_of(found, place);
    }
    Ok(found)
}

// The first place of a name that does not fit.
#[tactic(auto, using(smv_first_fault::proofs::LeastLaws::leasts))]
fn first_misfit(alloc: Global, tables: &Tables, all: &[Reading]) -> Result<Option<u32>, AllocError>
    requires { AreTables tables.now }
    ensures { IfOk result (λ place. place ≡ parts.first_among (map (readings.misfit_in tables.now.design.now) (map reading all.now))) }
{
    let mut found = None;
    for x in all {
        let place = misfit_in(alloc, tables, x)?;
        found = first_of(found, place);
    }
    Ok(found)
}

/// The first fault of uses, 26 to 28, by place and then by number.
pub(crate) fn uses_fault(
    alloc: Global,
    units: &[Unit],
    tables: &Tables,
    all: &[Reading],
) -> Result<Option<Fault>, AllocError>
    requires { AreTables tables.now }
    ensures { IfOk result (λ fault. fault ≡ readings.first_fault tables.now.design.now units.now (map reading all.now)) }
{
    let again = first_proved_again(alloc, all)?;
    let twice = first_twice(alloc, units, tables, all)?;
    let misfit = first_misfit(alloc, tables, all)?;
    let later = earlier(fault_at(27, first_of(again, twice)), fault_at(28, misfit));
    Ok(earlier(fault_at(26, first_unknown(all)), later))
}
