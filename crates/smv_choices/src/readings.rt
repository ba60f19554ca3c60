// Each `using` with what it uses and which leaves it proves.
ghost use Rattle.std.specs.Prelude.{◌≡◌, ◌++◌, map, flat_map, option_copied, IfOk, OnOk};
ghost use Rattle.smv_mentions.specs.Scopes.{first_of_places};
ghost use Rattle.smv_first_fault.specs.Firsts.{least};
ghost use Rattle.law_uses.specs.UseFaults.{leaf_named};
ghost use Rattle.smv_choices.specs.Held.{AreTables};
ghost use Rattle.smv_choices.specs.Parts as parts;
ghost use Rattle.smv_choices.specs.Readings.{reading, reading_in, pair_of};

use crate::found::{Found, all_uses};
use crate::keeps::{Kept, all_kept};
use crate::tables::Tables;
use name_index::NameIndex;
use smv_core::flat::{FlatUsing, Leaf};
use smv_core::tree::Ref;
use smv_first_fault::places::first_of;
use smv_references::names::name_of;
use std::alloc::{AllocError, Global};

/// A reference after `prove`, and the leaf that it names.
#[derive(Clone, Copy)]
pub struct Proved<'a> {
    pub of: &'a Ref,
    pub leaf: &'a Leaf,
}

/// What a `using` proves, and the first place of a reference that names no leaf.
#[derive(Drop)]
pub struct ProvedBy<'a> {
    pub leaves: Vec<Proved<'a>>,
    pub no_leaf: Option<u32>,
}

/// A `using` with what it uses and what it proves, and the names in its braces.
#[derive(Drop)]
pub struct Reading<'a> {
    pub using: &'a FlatUsing,
    pub found: Found,
    pub proved: ProvedBy<'a>,
    pub kept: Vec<Kept<'a>>,
}

// The names of the leaves.
#[tactic(auto, using(smv_mentions::proofs::Notes::noting))]
fn names_of_leaves<'a>(alloc: Global, leaves: &'a [Leaf]) -> Result<NameIndex<'a>, AllocError>
    ensures { IfOk result (λ names. names ≡ map (λ leaf. leaf.name) leaves.now) }
{
    let mut names = NameIndex::new(alloc);
    for leaf in leaves {
        names.push(&leaf.name)?;
    }
    Ok(names)
}

// The leaf at a place, if there is one.
fn leaf_at<'a>(leaves: &'a [Leaf], place: Option<usize>) -> Option<&'a Leaf>
    ensures { option_copied result ≡ parts.at_place leaves.now place }
{
    match place {
        Some(place) => leaves.get(place),
        None => None,
    }
}

// The leaf that a reference names, if there is one.
fn leaf_for<'a>(
    alloc: Global,
    leaves: &'a [Leaf],
    index: &NameIndex,
    of: &Ref,
) -> Result<Option<&'a Leaf>, AllocError>
    requires { index.now ≡ map (λ leaf. leaf.name) leaves.now }
    ensures { IfOk result (λ leaf. option_copied leaf ≡ leaf_named leaves.now of.now) }
{
    let name = name_of(alloc, of)?;
    Ok(leaf_at(leaves, index.find(&name)))
}

// One reference after `prove` more.
#[tactic(auto, using(smv_mentions::proofs::Notes::noting, smv_first_fault::proofs::LeastLaws::leasts))]
fn add_proved<'a>(
    out: &mut ProvedBy<'a>,
    of: &'a Ref,
    leaf: Option<&'a Leaf>,
) -> Result<(), AllocError>
    ensures leaves { OnOk result (map pair_of out.new.leaves.items ≡ map pair_of out.old.leaves.items ++ parts.proved_as of.now (option_copied leaf.entry)) }
    ensures no_leaf { OnOk result (out.new.no_leaf ≡ first_of_places out.old.no_leaf (least (parts.unknown_as of.now (option_copied leaf.entry)))) }
{
    match leaf {
        Some(leaf) => {
            out.leaves.push(Proved { of, leaf })?;
            Ok(())
        }
        None => {
            out.no_leaf = first_of(out.no_leaf, Some(of.at));
            Ok(())
        }
    }
}

// What some references after `prove` name.
#[tactic(auto, using(smv_mentions::proofs::Notes::noting, smv_first_fault::proofs::LeastLaws::leasts))]
fn proved_by<'a>(
    alloc: Global,
    leaves: &'a [Leaf],
    index: &NameIndex,
    proves: &'a [Ref],
) -> Result<ProvedBy<'a>, AllocError>
    requires { index.now ≡ map (λ leaf. leaf.name) leaves.now }
    ensures leaves { IfOk result (λ out. map pair_of out.leaves.items ≡ flat_map (parts.proved_one leaves.now) proves.now) }
    ensures no_leaf { IfOk result (λ out. out.no_leaf ≡ least (flat_map (parts.unknown_one leaves.now) proves.now)) }
{
    let mut out = ProvedBy {
        leaves: Vec::new(alloc),
        no_leaf: None,
    };
    for of in proves {
        let leaf = leaf_for(alloc, leaves, index, of)?;
        add_proved(&mut out, of, leaf)?;
    }
    Ok(out)
}

// One `using` with what it uses and what it proves.
fn read<'a>(
    alloc: Global,
    tables: &Tables<'a>,
    leaves: &'a [Leaf],
    index: &NameIndex,
    proving: &'a FlatUsing,
) -> Result<Reading<'a>, AllocError>
    requires tables { AreTables tables.now }
    requires index { index.now ≡ map (λ leaf. leaf.name) leaves.now }
    ensures { IfOk result (λ x. reading x ≡ reading_in tables.now.design.now leaves.now proving.now) }
{
    let found = all_uses(alloc, tables, proving.uses.as_slice())?;
    let proved = proved_by(alloc, leaves, index, proving.proves.as_slice())?;
    let kept = all_kept(alloc, &tables.sets, proving.uses.as_slice())?;
    Ok(Reading {
        using: proving,
        found,
        proved,
        kept,
    })
}

/// Each `using` of a design with what it uses and what it proves.
#[tactic(auto, using(smv_mentions::proofs::Notes::noting))]
pub fn all_readings<'a>(
    alloc: Global,
    tables: &Tables<'a>,
    leaves: &'a [Leaf],
) -> Result<Vec<Reading<'a>>, AllocError>
    requires { AreTables tables.now }
    ensures { IfOk result (λ all. map reading all.items ≡ map (reading_in tables.now.design.now leaves.now) tables.now.design.now.uses) }
{
    let index = names_of_leaves(alloc, leaves)?;
    let mut all = Vec::new(alloc);
    for using in tables.design.uses.as_slice() {
        all.push(read(alloc, tables, leaves, &index, using)?)?;
    }
    Ok(all)
}
