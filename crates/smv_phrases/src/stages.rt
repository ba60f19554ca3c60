// Stages of a formula, and its claim.
ghost use Rattle.std.specs.Prelude.{◌≡◌, ◌++◌, ◌∷◌, [], flat_map, map, codes, List, option_copied, IfOk, OnOk};
ghost use Rattle.smv_core.specs.Values.{Name};
ghost use Rattle.law_translated_texts.specs.Parts.{Now};
ghost use Rattle.law_translated_texts.specs.Translation.{spaced};
ghost use Rattle.law_translated_texts.specs.Phrases as law;
ghost use Rattle.law_translated_texts.specs.Phrases.{claim_of, outset};
ghost use Rattle.smv_phrases.specs.Seen.{shown, names, lent, stage_of, end_phrase};
ghost use Rattle.smv_phrases.specs.Stages.{from_last, IsReachedBy};

use crate::monitors::Binder;
use crate::phrases::{Front, Last, Phrase};
use crate::pieces::{known, lasting, piece, whole};
use smv_core::name::Name;
use std::alloc::{AllocError, Global};

/// A place in a formula: the monitor of the X before it, or none, and the bytes of the conditions since.
#[derive(Drop)]
pub struct Stage<'a> {
    pub start: Option<&'a Name>,
    pub conditions: Vec<&'a [u8]>,
}

/// The place before the whole formula, or behind an X.
pub fn at_start<'a>(alloc: Global, start: Option<&'a Name>) -> Stage<'a>
    ensures { stage_of result ≡ (record { start = option_copied start.entry; conditions = [] }) }
{
    Stage {
        start,
        conditions: Vec::new(alloc),
    }
}

/// The stage behind one more condition.
pub fn add_condition<'a>(stage: &mut Stage<'a>, condition: &'a [u8]) -> Result<(), AllocError>
    ensures { OnOk result (stage_of stage.new ≡ law.under (stage_of stage.old) condition.now) }
{
    stage.conditions.push(condition)?;
    Ok(())
}

// One bracket of a monitor.
fn index(out: &mut Vec<u8>, var: &Name) -> Result<(), AllocError>
    ensures { OnOk result (out.new.items ≡ out.old.items ++ spaced (codes "[" ∷ var.now ∷ codes "]" ∷ [])) }
{
    known(out, b" [")?;
    piece(out, var.as_bytes())?;
    known(out, b" ]")
}

fn indexes(out: &mut Vec<u8>, binders: &[Binder]) -> Result<(), AllocError>
    ensures { OnOk result (out.new.items ≡ out.old.items ++ spaced (flat_map (λ var. codes "[" ∷ var ∷ codes "]" ∷ []) (names binders.now))) }
{
    for binder in binders {
        index(out, binder.name)?;
    }
    Ok(())
}

/// A monitor at the claim's parameters.
#[tactic(auto, using(crate::proofs::StageLaws::spaced_append))]
pub fn monitor(out: &mut Vec<u8>, binders: &[Binder], name: &Name) -> Result<(), AllocError>
    ensures { OnOk result (out.new.items ≡ out.old.items ++ spaced (law.monitor (names binders.now) name.now)) }
{
    piece(out, name.as_bytes())?;
    indexes(out, binders)
}

// 1, or the monitor of the X before the stage.
fn started(out: &mut Vec<u8>, binders: &[Binder], start: Option<&Name>) -> Result<(), AllocError>
    ensures { OnOk result (out.new.items ≡ out.old.items ++ spaced (law.started (names binders.now) (option_copied start.entry))) }
{
    match start {
        Some(name) => monitor(out, binders, name),
        None => known(out, b" 1"),
    }
}

// That none of the conditions is out, each behind `&`.
#[tactic(auto, using(crate::proofs::StageLaws::spaced_append))]
fn all_lasting(out: &mut Vec<u8>, conditions: &[&[u8]]) -> Result<(), AllocError>
    ensures { OnOk result (out.new.items ≡ out.old.items ++ spaced (flat_map (λ qs. codes "&" ∷ qs) (map law.lasting (lent conditions.now)))) }
{
    for condition in conditions {
        known(out, b" &")?;
        lasting(out, condition)?;
    }
    Ok(())
}

/// That the stage was reached, and none of its conditions is out.
#[tactic(auto, using(crate::proofs::StageLaws::spaced_append))]
pub fn reached(out: &mut Vec<u8>, binders: &[Binder], stage: &Stage) -> Result<(), AllocError>
    ensures { OnOk result (out.new.items ≡ out.old.items ++ spaced (law.reached (names binders.now) (stage_of stage.now))) }
{
    started(out, binders, stage.start)?;
    all_lasting(out, stage.conditions.as_slice())
}

/// That it was, or that the monitor of the W says so.
#[tactic(auto, using(crate::proofs::StageLaws::spaced_append))]
pub fn reached_or(
    out: &mut Vec<u8>,
    binders: &[Binder],
    waiting: &Name,
    stage: &Stage,
) -> Result<(), AllocError>
    ensures { OnOk result (out.new.items ≡ out.old.items ++ spaced (law.reached_or (names binders.now) waiting.now (stage_of stage.now))) }
{
    known(out, b" (")?;
    reached(out, binders, stage)?;
    known(out, b" |")?;
    monitor(out, binders, waiting)?;
    known(out, b" )")
}

// The monitor before the conditions of the last stage, where there is one, behind which `->` comes.
#[tactic(auto, using(crate::proofs::StageLaws::spaced_append))]
fn front(out: &mut Vec<u8>, binders: &[Binder], start: Option<&Name>) -> Result<(), AllocError>
    ensures { OnOk result (out.new.items ≡ out.old.items ++ flat_map (λ ps. spaced (ps ++ codes "->" ∷ [])) (law.front_of (names binders.now) (option_copied start.entry))) }
{
    match start {
        Some(name) => {
            monitor(out, binders, name)?;
            known(out, b" ->")
        }
        None => Ok(()),
    }
}

// Conditions, behind each of which `->` comes.
#[tactic(auto, using(crate::proofs::StageLaws::spaced_append))]
fn premises(out: &mut Vec<u8>, conditions: &[&[u8]]) -> Result<(), AllocError>
    ensures { OnOk result (out.new.items ≡ out.old.items ++ flat_map (λ ps. spaced (ps ++ codes "->" ∷ [])) (map law.whole (lent conditions.now))) }
{
    for condition in conditions {
        whole(out, condition)?;
        known(out, b" ->")?;
    }
    Ok(())
}

// What is claimed where the formula ends with an expression.
fn claim_single(
    out: &mut Vec<u8>,
    binders: &[Binder],
    stage: &Stage,
    body: &[u8],
) -> Result<(), AllocError>
    ensures { OnOk result (out.new.items ≡ out.old.items ++ spaced (claim_of (names binders.now) [] (stage_of stage.now) (Now body.now))) }
{
    front(out, binders, stage.start)?;
    premises(out, stage.conditions.as_slice())?;
    whole(out, body)?;
    Ok(())
}

// What is claimed where the formula ends with a W.
#[tactic(auto, using(crate::proofs::StageLaws::spaced_append))]
fn claim_unless(
    out: &mut Vec<u8>,
    binders: &[Binder],
    waiting: &Name,
    stage: &Stage,
    kept: &[u8],
    until: &[u8],
) -> Result<(), AllocError>
    ensures { OnOk result (out.new.items ≡ out.old.items ++ spaced (law.reached_or (names binders.now) waiting.now (stage_of stage.now) ++ codes "->" ∷ law.in_parens (law.whole until.now ++ codes "|" ∷ law.whole kept.now))) }
{
    reached_or(out, binders, waiting, stage)?;
    known(out, b" -> (")?;
    whole(out, until)?;
    known(out, b" |")?;
    whole(out, kept)?;
    known(out, b" )")
}

// The last stage of a formula, with the names that are left for it. None: there are too few names.
fn last_stage<'a>(
    alloc: Global,
    monitors: &'a [Name],
    fronts: &[Front<'a>],
) -> Result<Option<(Stage<'a>, &'a [Name])>, AllocError>
    ensures { IfOk result (λ last. IsReachedBy monitors.now fronts.now last) }
{
    let mut stage = at_start(alloc, None);
    let mut left = monitors;
    for front in fronts {
        match front {
            Front::Later => match left {
                [] => return Ok(None),
                [first, rest @ ..] => {
                    stage = at_start(alloc, Some(first));
                    left = rest;
                }
            },
            Front::Under(condition) => add_condition(&mut stage, condition)?,
        }
    }
    Ok(Some((stage, left)))
}

// What is claimed at the last stage.
fn claim_last(
    out: &mut Vec<u8>,
    binders: &[Binder],
    left: &[Name],
    stage: &Stage,
    last: &Last,
) -> Result<(), AllocError>
    ensures { OnOk result (out.new.items ≡ out.old.items ++ spaced (claim_of (names binders.now) left.now (stage_of stage.now) (end_phrase last.now))) }
{
    match last {
        Last::Single(body) => claim_single(out, binders, stage, body),
        Last::Unless { kept, until } => match left {
            [] => known(out, b" 1"),
            [waiting, ..] => claim_unless(out, binders, waiting, stage, kept, until),
        },
    }
}

/// What is claimed of each time.
pub fn claim<'a>(
    alloc: Global,
    out: &mut Vec<u8>,
    binders: &[Binder],
    monitors: &'a [Name],
    phrase: &Phrase<'a>,
) -> Result<(), AllocError>
    ensures { OnOk result (out.new.items ≡ out.old.items ++ spaced (claim_of (names binders.now) monitors.now outset (shown phrase.now))) }
{
    match last_stage(alloc, monitors, phrase.fronts.as_slice())? {
        Some((stage, left)) => claim_last(out, binders, left, &stage, &phrase.last),
        None => known(out, b" 1"),
    }
}
