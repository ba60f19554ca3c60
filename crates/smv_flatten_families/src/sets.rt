// The set types of a text.
ghost use Rattle.std.specs.Prelude.{◌≡◌, ◌≤◌, ◌+◌, ◌-◌, ◌++◌, length, map, option_map, IfOk, OnOk};
ghost use Rattle.std.specs.List.{flat_map};
ghost use Rattle.law_designs.specs.Flattening.{set_of};

use crate::fits::short;
use name_index::NameIndex;
use smv_copies::copy_name;
use smv_core::flat::SetInfo;
use smv_core::seq::Seq;
use smv_core::tree::{Span, Top};
use std::alloc::{AllocError, Global};

// How many numbers a span has, where there is one.
fn size_of(span: Option<Span>) -> Result<Option<u16>, AllocError>
    ensures { IfOk result (λ size. size ≡ option_map (λ s. s.high + 1 - s.low) span) }
{
    match span {
        Some(span) => {
            let size = short((usize::from(span.high) + 1).saturating_sub(usize::from(span.low)))?;
            Ok(Some(size))
        }
        None => Ok(None),
    }
}

// One set type more, where a top is one.
#[tactic(auto, using(smv_mentions::proofs::Notes::noting))]
fn add_set(alloc: Global, sets: &mut Seq<SetInfo>, top: &Top) -> Result<(), AllocError>
    ensures { OnOk result (sets.new ≡ sets.old ++ set_of top.now) }
{
    match top {
        Top::SetType {
            name,
            ordered,
            span,
            ..
        } => {
            let size = size_of(*span)?;
            sets.push(SetInfo {
                name: copy_name(alloc, &name.name)?,
                ordered: *ordered,
                size,
            })?;
            Ok(())
        }
        Top::Alias { .. } => Ok(()),
        Top::Module { .. } => Ok(()),
    }
}

/// The set types, in the order of their tops.
#[tactic(auto, using(smv_mentions::proofs::Notes::noting))]
pub(crate) fn sets_of(alloc: Global, tops: &[Top]) -> Result<Seq<SetInfo>, AllocError>
    ensures { IfOk result (λ sets. sets ≡ flat_map set_of tops.now) }
{
    let mut sets = Seq::new(alloc);
    for top in tops {
        add_set(alloc, &mut sets, top)?;
    }
    Ok(sets)
}

// The name of one set type more, where a top is one.
#[tactic(auto, using(smv_mentions::proofs::Notes::noting))]
fn add_set_name<'a>(names: &mut NameIndex<'a>, top: &'a Top) -> Result<(), AllocError>
    ensures { OnOk result (names.new ≡ names.old ++ map (λ info. info.name) (set_of top.now)) }
{
    match top {
        Top::SetType { name, .. } => {
            names.push(&name.name)?;
            Ok(())
        }
        Top::Alias { .. } => Ok(()),
        Top::Module { .. } => Ok(()),
    }
}

/// The names of the set types.
#[tactic(auto, using(smv_mentions::proofs::Notes::noting))]
pub fn set_names<'a>(alloc: Global, tops: &'a [Top]) -> Result<NameIndex<'a>, AllocError>
    ensures { IfOk result (λ names. names ≡ flat_map (λ top. map (λ info. info.name) (set_of top)) tops.now) }
{
    let mut names = NameIndex::new(alloc);
    for top in tops {
        add_set_name(&mut names, top)?;
    }
    Ok(names)
}

// Whether a top is a set type, as a number.
fn one_if_set(top: &Top) -> usize
    ensures count { result ≡ length (set_of top.now) }
    ensures small { result ≤ 1 }
{
    match top {
        Top::SetType { .. } => 1,
        Top::Alias { .. } => 0,
        Top::Module { .. } => 0,
    }
}

/// How many set types there are.
#[tactic(auto, using(crate::proofs::BuildLaws::set_steps))]
pub(crate) fn count_sets(tops: &[Top]) -> usize
    ensures { result ≡ length (flat_map set_of tops.now) }
{
    let mut count = 0;
    for top in tops {
        count += one_if_set(top);
    }
    count
}
