// The declarations and the definitions of monitors.
ghost use Rattle.std.specs.Prelude.{◌≡◌, ◌++◌, ◌∷◌, [], flat_map, map, codes, take_while, not, IfOk, OnOk};
ghost use Rattle.std.specs.List.{AllByRecursion};
ghost use Rattle.smv_core.specs.Signs.{close_paren};
ghost use Rattle.smv_core.specs.Notation.{same_kind};
ghost use Rattle.law_translated_texts.specs.Parts.{spelled};
ghost use Rattle.law_translated_texts.specs.Translation.{spaced};
ghost use Rattle.law_translated_texts.specs.Phrases as law;
ghost use Rattle.law_translated_texts.specs.Phrases.{outset};
ghost use Rattle.smv_token_ends.specs.Fronts.{IsTokenAt};
ghost use Rattle.smv_phrases.specs.Seen.{shown, names, binder_of, binders_of, stage_of, end_phrase};
ghost use Rattle.smv_phrases.specs.Defined.{Stands, binding, defining_front};

use crate::parts::is_sign;
use crate::phrases::{Front, Last, Phrase};
use crate::pieces::{known, piece, whole};
use crate::stages::{Stage, add_condition, at_start, monitor, reached, reached_or};
use smv_core::name::Name;
use smv_core::signs::CLOSE_PAREN;
use smv_core::token::Token;
use smv_token_ends::bytes::between;
use smv_token_ends::ends::end_of;
use std::alloc::{AllocError, Global};

/// A name that is bound around a claim, and the tokens of the text from its type on, which ends before a `)`.
#[derive(Clone, Copy)]
pub struct Binder<'a> {
    pub name: &'a Name,
    pub types: &'a [Token],
}

// The bytes of a token.
fn token(out: &mut Vec<u8>, text: &[u8], token: &Token) -> Result<(), AllocError>
    requires token { IsTokenAt text.now token.now }
    ensures { OnOk result (out.new.items ≡ out.old.items ++ spaced (spelled text.now (token.now ∷ []))) }
{
    piece(out, between(text, token.at as usize, end_of(text, token)))
}

// The tokens of a type.
fn type_tokens(out: &mut Vec<u8>, text: &[u8], types: &[Token]) -> Result<(), AllocError>
    requires tokens { AllByRecursion (IsTokenAt text.now) types.now }
    ensures { OnOk result (out.new.items ≡ out.old.items ++ spaced (spelled text.now (take_while (λ t. not (same_kind t.kind close_paren)) types.now))) }
{
    for one in types {
        if is_sign(one, CLOSE_PAREN) {
            return Ok(());
        }
        token(out, text, one)?;
    }
    Ok(())
}

// `array T of` for each binder.
#[tactic(auto, using(crate::proofs::StageLaws::spacing))]
fn arrays(out: &mut Vec<u8>, text: &[u8], binders: &[Binder]) -> Result<(), AllocError>
    requires tokens { AllByRecursion (Stands text.now) binders.now }
    ensures { OnOk result (out.new.items ≡ out.old.items ++ spaced (flat_map (λ b. codes "array" ∷ b.1 ++ codes "of" ∷ []) (binders_of text.now binders.now))) }
{
    for binder in binders {
        known(out, b" array")?;
        type_tokens(out, text, binder.types)?;
        known(out, b" of")?;
    }
    Ok(())
}

#[tactic(auto, using(crate::proofs::StageLaws::spacing))]
fn declaration(
    out: &mut Vec<u8>,
    text: &[u8],
    binders: &[Binder],
    name: &Name,
) -> Result<(), AllocError>
    requires tokens { AllByRecursion (Stands text.now) binders.now }
    ensures { OnOk result (out.new.items ≡ out.old.items ++ spaced (law.declared (binders_of text.now binders.now) (name.now ∷ []))) }
{
    known(out, b" abstract")?;
    piece(out, name.as_bytes())?;
    known(out, b" :")?;
    arrays(out, text, binders)?;
    known(out, b" boolean ;")
}

/// The declarations of monitors under these binders.
#[tactic(auto, using(crate::proofs::StageLaws::spacing))]
pub fn declared(
    out: &mut Vec<u8>,
    text: &[u8],
    binders: &[Binder],
    monitors: &[Name],
) -> Result<(), AllocError>
    requires tokens { AllByRecursion (Stands text.now) binders.now }
    ensures { OnOk result (out.new.items ≡ out.old.items ++ spaced (law.declared (binders_of text.now binders.now) monitors.now)) }
{
    for name in monitors {
        declaration(out, text, binders, name)?;
    }
    Ok(())
}

// `forall ( i in T )` for each binder.
#[tactic(auto, using(crate::proofs::StageLaws::spacing))]
fn foralls(out: &mut Vec<u8>, text: &[u8], binders: &[Binder]) -> Result<(), AllocError>
    requires tokens { AllByRecursion (Stands text.now) binders.now }
    ensures { OnOk result (out.new.items ≡ out.old.items ++ spaced (binding (binders_of text.now binders.now))) }
{
    for binder in binders {
        known(out, b" forall (")?;
        piece(out, binder.name.as_bytes())?;
        known(out, b" in")?;
        type_tokens(out, text, binder.types)?;
        known(out, b" )")?;
    }
    Ok(())
}

// That a monitor is 0 at first, and what comes before the value that it has next.
fn begin_definition(
    out: &mut Vec<u8>,
    text: &[u8],
    binders: &[Binder],
    name: &Name,
) -> Result<(), AllocError>
    requires tokens { AllByRecursion (Stands text.now) binders.now }
    ensures { OnOk result (out.new.items ≡ out.old.items ++ spaced (defining_front (binders_of text.now binders.now) name.now)) }
{
    foralls(out, text, binders)?;
    known(out, b" init (")?;
    monitor(out, binders, name)?;
    known(out, b" ) := 0 ;")?;
    foralls(out, text, binders)?;
    known(out, b" next (")?;
    monitor(out, binders, name)?;
    known(out, b" ) :=")
}

// The definitions of the monitor of an X.
#[tactic(auto, using(crate::proofs::StageLaws::spacing))]
fn define_next(
    out: &mut Vec<u8>,
    text: &[u8],
    binders: &[Binder],
    name: &Name,
    stage: &Stage,
) -> Result<(), AllocError>
    requires tokens { AllByRecursion (Stands text.now) binders.now }
    ensures { OnOk result (out.new.items ≡ out.old.items ++ spaced (law.defining (binders_of text.now binders.now) (name.now, law.reached (names binders.now) (stage_of stage.now)))) }
{
    begin_definition(out, text, binders, name)?;
    reached(out, binders, stage)?;
    known(out, b" ;")
}

// The definitions of the monitor of a W.
fn define_unless(
    out: &mut Vec<u8>,
    text: &[u8],
    binders: &[Binder],
    name: &Name,
    stage: &Stage,
    until: &[u8],
) -> Result<(), AllocError>
    requires tokens { AllByRecursion (Stands text.now) binders.now }
    ensures { OnOk result (out.new.items ≡ out.old.items ++ spaced (law.defining (binders_of text.now binders.now) (name.now, law.reached_or (names binders.now) name.now (stage_of stage.now) ++ codes "&" ∷ codes "~" ∷ law.whole until.now))) }
{
    begin_definition(out, text, binders, name)?;
    reached_or(out, binders, name, stage)?;
    known(out, b" & ~")?;
    whole(out, until)?;
    known(out, b" ;")
}

// The definitions at the last stage.
#[tactic(auto, using(crate::proofs::StageLaws::spacing))]
fn define_last(
    out: &mut Vec<u8>,
    text: &[u8],
    binders: &[Binder],
    left: &[Name],
    stage: &Stage,
    last: &Last,
) -> Result<(), AllocError>
    requires tokens { AllByRecursion (Stands text.now) binders.now }
    ensures { OnOk result (out.new.items ≡ out.old.items ++ spaced (flat_map (law.defining (binders_of text.now binders.now)) (law.definitions (names binders.now) left.now (stage_of stage.now) (end_phrase last.now)))) }
{
    match last {
        Last::Single(_) => Ok(()),
        Last::Unless { until, .. } => match left {
            [] => Ok(()),
            [name, ..] => define_unless(out, text, binders, name, stage, until),
        },
    }
}

/// The definitions of a formula's monitors.
#[tactic(auto, using(crate::proofs::StageLaws::spacing))]
pub fn defined<'a>(
    alloc: Global,
    out: &mut Vec<u8>,
    text: &[u8],
    binders: &[Binder],
    monitors: &'a [Name],
    phrase: &Phrase<'a>,
) -> Result<(), AllocError>
    requires tokens { AllByRecursion (Stands text.now) binders.now }
    ensures { OnOk result (out.new.items ≡ out.old.items ++ spaced (law.defined (binders_of text.now binders.now) monitors.now (shown phrase.now))) }
{
    let mut stage = at_start(alloc, None);
    let mut left = monitors;
    for front in phrase.fronts.as_slice() {
        match front {
            Front::Later => match left {
                [] => return Ok(()),
                [name, rest @ ..] => {
                    define_next(out, text, binders, name, &stage)?;
                    stage = at_start(alloc, Some(name));
                    left = rest;
                }
            },
            Front::Under(condition) => add_condition(&mut stage, condition)?,
        }
    }
    define_last(out, text, binders, left, &stage, &phrase.last)
}
