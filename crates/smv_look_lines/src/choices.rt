// The lines of what a proof uses.
ghost use Rattle.std.specs.Prelude.{◌≡◌, ◌++◌, slice_get, OnOk};
ghost use Rattle.law_splits.specs.Leaves.{in_layer, name_of_family};
ghost use Rattle.smv_look_lines.specs.Lists.{choice_lines, claim_line, claim_lines, free_line, itself_line, keep_line, keep_lines, pick_line, pick_lines, use_line};
ghost use Rattle.smv_look_lines.specs.Parts.{name_of_claim};

use crate::parts::{push_numbers, push_time, set_name};
use smv_core::flat::{Assumed, Choice, Design, Keep, Pick, Timed, Timing};
use std::alloc::AllocError;

// The name of a family.
fn family_name(design: &Design, family: u16) -> &[u8]
    ensures { result.now ≡ name_of_family (slice_get design.now.families family) }
{
    match design.families.as_slice().get(family as usize) {
        Some(family) => family.name.as_bytes(),
        None => b"",
    }
}

// The name of a claim.
fn claim_name(design: &Design, claim: u16) -> &[u8]
    ensures { result.now ≡ name_of_claim (slice_get design.now.claims claim) }
{
    match design.claims.as_slice().get(claim as usize) {
        Some(claim) => claim.name.as_bytes(),
        None => b"",
    }
}

// Writes a name, with the layer of this number behind it.
fn push_in_layer(
    out: &mut Vec<u8>,
    design: &Design,
    name: &[u8],
    layer: u16,
) -> Result<(), AllocError>
    ensures { OnOk result (out.new.items ≡ out.old.items ++ in_layer name.now (slice_get design.now.layers layer)) }
{
    out.extend_from_slice(name)?;
    match design.layers.as_slice().get(layer as usize) {
        Some(layer) => {
            out.extend_from_slice(b"//")?;
            out.extend_from_slice(layer.as_bytes())
        }
        None => Ok(()),
    }
}

// Writes the line of the definition in a layer that is chosen for a family.
fn push_use(
    out: &mut Vec<u8>,
    design: &Design,
    family: &[u8],
    layer: u16,
    time: Timing,
) -> Result<(), AllocError>
    ensures { OnOk result (out.new.items ≡ out.old.items ++ use_line design.now family.now layer time) }
{
    out.extend_from_slice(b" use ")?;
    push_in_layer(out, design, family, layer)?;
    push_time(out, time)?;
    out.push(b'\n')?;
    Ok(())
}

// Writes the line of a family that is left free.
fn push_free(out: &mut Vec<u8>, family: &[u8]) -> Result<(), AllocError>
    ensures { OnOk result (out.new.items ≡ out.old.items ++ free_line family.now) }
{
    out.extend_from_slice(b" free ")?;
    out.extend_from_slice(family)?;
    out.push(b'\n')?;
    Ok(())
}

// Writes the line of what is chosen for a family.
fn push_pick(out: &mut Vec<u8>, design: &Design, pick: Pick, time: Timing) -> Result<(), AllocError>
    ensures { OnOk result (out.new.items ≡ out.old.items ++ pick_line design.now (name_of_family (slice_get design.now.families pick.family)) pick.layer time) }
{
    let family = family_name(design, pick.family);
    match pick.layer {
        None => push_free(out, family),
        Some(layer) => push_use(out, design, family, layer, time),
    }
}

// Writes the lines of the chosen definitions.
fn push_picks(
    out: &mut Vec<u8>,
    design: &Design,
    picks: &[Pick],
    times: &[Timing],
) -> Result<(), AllocError>
    ensures { OnOk result (out.new.items ≡ out.old.items ++ pick_lines design.now picks.now times.now) }
{
    let mut picks = picks;
    let mut times = times;
    while let ([pick, other_picks @ ..], [time, other_times @ ..]) = (picks, times) {
        push_pick(out, design, *pick, *time)?;
        picks = other_picks;
        times = other_times;
    }
    Ok(())
}

// Writes the line of a claim that is assumed.
fn push_claim(
    out: &mut Vec<u8>,
    design: &Design,
    used: Assumed,
    time: Timing,
) -> Result<(), AllocError>
    ensures { OnOk result (out.new.items ≡ out.old.items ++ claim_line design.now used time) }
{
    out.extend_from_slice(b" assume ")?;
    out.extend_from_slice(claim_name(design, used.claim))?;
    push_time(out, time)?;
    out.push(b'\n')?;
    Ok(())
}

// Writes the lines of the assumed claims.
fn push_claims(
    out: &mut Vec<u8>,
    design: &Design,
    claims: &[Assumed],
    times: &[Timing],
) -> Result<(), AllocError>
    ensures { OnOk result (out.new.items ≡ out.old.items ++ claim_lines design.now claims.now times.now) }
{
    let mut claims = claims;
    let mut times = times;
    while let ([used, other_claims @ ..], [time, other_times @ ..]) = (claims, times) {
        push_claim(out, design, *used, *time)?;
        claims = other_claims;
        times = other_times;
    }
    Ok(())
}

// Writes the line of the unit's own map, if it is used.
fn push_itself(out: &mut Vec<u8>, itself: bool) -> Result<(), AllocError>
    ensures { OnOk result (out.new.items ≡ out.old.items ++ itself_line itself) }
{
    if itself {
        out.extend_from_slice(b" itself before\n")
    } else {
        Ok(())
    }
}

// Writes the line of the parameters of a set type that stay apart.
fn push_keep(out: &mut Vec<u8>, design: &Design, keep: &Keep) -> Result<(), AllocError>
    ensures { OnOk result (out.new.items ≡ out.old.items ++ keep_line design.now keep.now) }
{
    out.extend_from_slice(b" keep ")?;
    out.extend_from_slice(set_name(design, keep.set))?;
    push_numbers(out, keep.params.as_slice())?;
    out.push(b'\n')?;
    Ok(())
}

// Writes the lines of all set types whose parameters stay apart.
fn push_keeps(out: &mut Vec<u8>, design: &Design, keeps: &[Keep]) -> Result<(), AllocError>
    ensures { OnOk result (out.new.items ≡ out.old.items ++ keep_lines design.now keeps.now) }
{
    for keep in keeps {
        push_keep(out, design, keep)?;
    }
    Ok(())
}

/// Writes the lines of what a proof uses.
pub fn push_choice(
    out: &mut Vec<u8>,
    design: &Design,
    choice: &Choice,
    times: &Timed,
) -> Result<(), AllocError>
    ensures { OnOk result (out.new.items ≡ out.old.items ++ choice_lines design.now choice.now times.now) }
{
    push_picks(out, design, choice.picks.as_slice(), times.picks.as_slice())?;
    push_claims(
        out,
        design,
        choice.claims.as_slice(),
        times.claims.as_slice(),
    )?;
    push_itself(out, choice.itself)?;
    push_keeps(out, design, choice.keeps.as_slice())
}
