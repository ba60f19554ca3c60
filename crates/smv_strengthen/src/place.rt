// The one claim of an induction, and its ordset.
ghost use Rattle.std.specs.Prelude.{◌≡◌, IfOk};
ghost use Rattle.std.specs.Option.{option_map};
ghost use Rattle.std.specs.List.{list_any};
ghost use Rattle.law_strengthened_texts.specs.Stronger as texts;
ghost use Rattle.law_strengthened_texts.specs.Stronger.{induction};
ghost use Rattle.smv_strengthen.specs.Place as spec;

use crate::claims::{Candidate, claims_of};
use smv_core::name::Name;
use smv_core::tree::Top;
use std::alloc::{AllocError, Global};

/// Where the claim's name stands, and the ordset over which the variable runs.
#[derive(Drop)]
pub struct Place {
    pub at: u32,
    pub set: Name,
}

fn is_ordset(top: &Top, name: &Name) -> bool
    ensures { result ≡ texts.is_ordset name.now top.now }
{
    match top {
        Top::SetType {
            name: word,
            ordered,
            ..
        } => *ordered && word.name.as_bytes() == name.as_bytes(),
        Top::Alias { .. } | Top::Module { .. } => false,
    }
}

fn is_declared(tops: &[Top], name: &Name) -> bool
    ensures { result ≡ list_any (texts.is_ordset name.now) tops.now }
{
    tops.iter().any(|top| is_ordset(top, name))
}

fn one_place(tops: &[Top], one: Candidate) -> Option<Place>
    ensures { result ≡ spec.one_place tops.now one }
{
    let Candidate { at, set } = one;
    match set {
        Some(set) => {
            if is_declared(tops, &set) {
                Some(Place { at, set })
            } else {
                None
            }
        }
        None => None,
    }
}

// The place of the only claim, if there is one alone.
fn only_place(tops: &[Top], found: Vec<Candidate>) -> Option<Place>
    ensures { result ≡ spec.only_place tops.now found.items }
{
    if found.len() != 1 {
        return None;
    }
    let mut found = found;
    match found.pop() {
        Some(one) => one_place(tops, one),
        None => None,
    }
}

/// The place of an induction. None: there is no such claim or more than one, the variable is none of its parameters, or runs over no ordset.
#[tactic(auto, using(crate::proofs::PlaceLaws::placed))]
pub(crate) fn place_of(
    alloc: Global,
    tops: &[Top],
    name: &Name,
    var: &Name,
) -> Result<Option<Place>, AllocError>
    ensures { IfOk result (λ place. place ≡ option_map spec.place_of (induction tops.now name.now var.now)) }
{
    let found = claims_of(alloc, tops, name, var)?;
    Ok(only_place(tops, found))
}
