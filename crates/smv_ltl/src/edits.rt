// The edits of a text, as they are written.
ghost use Rattle.std.specs.Prelude.{◌≡◌, ◌++◌, ◌∷◌, [], ◌≤◌, ◌+◌, ◌^◌, codes, length, IfOk, OnOk};
ghost use Rattle.std.specs.List.{AllByRecursion};
ghost use Rattle.smv_lex.specs.Answers.{IfFault};
ghost use Rattle.law_translated_texts.specs.Answers.{limit};
ghost use Rattle.law_lexed_parts.specs.Parts as lexed;
ghost use Rattle.law_translated_texts.specs.Parts as parts;
ghost use Rattle.law_translated_texts.specs.Translation as law;
ghost use Rattle.law_translated_texts.specs.Translation.{edited, placed_at, spaced};
ghost use Rattle.smv_phrases.specs.Defined.{Stands};
ghost use Rattle.smv_phrases.specs.Seen.{binder_of, binders_of};
ghost use Rattle.smv_token_ends.specs.Fronts.{IsTokenAt};
ghost use Rattle.smv_ltl.specs.Changes.{around_of, change_of, changes_of};
ghost use Rattle.smv_ltl.specs.Edits as kinds;
ghost use Rattle.smv_ltl.specs.Edits.{IsSource, binders_at, edit_of, edits_of, all_declared, all_defined, monitors_from, layer_edits, edits_in, edits_at};
ghost use Rattle.smv_ltl.specs.Planned.{plan_of};
ghost use Rattle.smv_ltl.specs.Writing.{IsTooLong, GoesOn, IsTooLongWith};

use crate::changed::{Around, Changed, changed_claims};
use crate::phrases::read_phrase;
use crate::plan::Plan;
use crate::tokens::{closing, from_place};
use crate::writer::{append, keep};
use smv_core::Refusal;
use smv_core::name::Name;
use smv_core::token::Token;
use smv_core::tree::{Item, Top};
use smv_phrases::monitors::{Binder, declared, defined};
use smv_phrases::parts::{begin_of, behind, part, split_part};
use smv_phrases::pieces::{known, piece};
use smv_phrases::stages::claim;
use smv_token_ends::bytes::between;
use smv_token_ends::ends::end_of_all;
use std::alloc::{AllocError, Global};

/// A text with its tokens.
#[derive(Clone, Copy)]
pub struct Source<'a> {
    pub text: &'a [u8],
    pub tokens: &'a [Token],
}

// The tokens of the text from an offset on.
fn tokens_at<'a>(source: Source<'a>, at: u32) -> &'a [Token]
    requires source { IsSource source }
    ensures tokens { result.now ≡ parts.from_place at source.entry.tokens.now }
    ensures stand { AllByRecursion (IsTokenAt source.entry.text.now) result.now }
{
    from_place(source.tokens, at)
}

// A binder around a claim with the tokens of its type.
fn binder_at<'a>(source: Source<'a>, around: &Around<'a>) -> Binder<'a>
    requires source { IsSource source }
    ensures binder { binder_of source.entry.text.now result ≡ (around.now.var.now.name, parts.type_at source.entry.text.now source.entry.tokens.now around.now.var.now.at) }
    ensures tokens { Stands source.entry.text.now result }
{
    let types = behind(tokens_at(source, around.var.at), 2);
    Binder {
        name: &around.var.name,
        types,
    }
}

// The binders around a claim.
fn binders<'a>(
    alloc: Global,
    source: Source<'a>,
    around: &[Around<'a>],
) -> Result<Vec<Binder<'a>>, AllocError>
    requires source { IsSource source }
    ensures binders { IfOk result (λ bs. binders_of source.entry.text.now bs.items ≡ binders_at source.entry (around_of around.now)) }
    ensures tokens { IfOk result (λ bs. AllByRecursion (Stands source.entry.text.now) bs.items) }
{
    let mut binders = Vec::new(alloc);
    for one in around {
        binders.push(binder_at(source, one))?;
    }
    Ok(binders)
}

// Where the part with which tokens of the text begin ends.
fn end_of_part(text: &[u8], tokens: &[Token]) -> usize
    requires tokens { AllByRecursion (IsTokenAt text.now) tokens.now }
    ensures { result ≡ lexed.end_of_all text.now (parts.part tokens.now) }
{
    end_of_all(text, part(tokens))
}

// Behind the semicolon of a claim, the tokens of whose formula are the first of these.
fn end_of_claim(tokens: &[Token]) -> usize
    ensures end { result ≡ lexed.begin_of (parts.behind_part tokens.now) + 1 }
    ensures within { result ≤ 2 ^ 32 }
{
    begin_of(split_part(tokens).1) as usize + 1
}

// What stands in place of a claim, and the offset up to which it stands in its place.
fn claim_bytes(
    alloc: Global,
    source: Source,
    changed: &Changed,
) -> Result<(Vec<u8>, usize), AllocError>
    requires source { IsSource source }
    ensures bytes { IfOk result (λ r. placed_at changed.now.name r.0.items ≡ (edit_of source.entry changed.now).written) }
    ensures to { IfOk result (λ r. r.1 ≡ (edit_of source.entry changed.now).to) }
    ensures within { IfOk result (λ r. r.1 ≤ 2 ^ 32) }
{
    let text = source.text;
    let tokens = tokens_at(source, changed.place);
    let phrase = read_phrase(alloc, text, changed.watched.formula, tokens)?;
    let binders = binders(alloc, source, changed.around.as_slice())?;
    let to = end_of_claim(tokens);
    let own = between(text, changed.name as usize, changed.place as usize);
    let mut out = Vec::from_slice(alloc, own)?;
    let monitors = changed.watched.monitors;
    claim(alloc, &mut out, binders.as_slice(), monitors, &phrase)?;
    piece(&mut out, between(text, end_of_part(text, tokens), to))?;
    Ok((out, to))
}

// A claim with its body in place of its formula.
fn write_claim(
    alloc: Global,
    out: &mut Vec<(u8, u32)>,
    source: Source,
    from: usize,
    changed: &Changed,
) -> Result<usize, Refusal>
    requires source { IsSource source }
    requires fits { length out.old.items ≤ limit }
    requires within { from ≤ 2 ^ 32 }
    ensures written { IfOk result (λ to. GoesOn source.entry.text.now (edit_of source.entry changed.now ∷ []) from out.old.items to out.new.items) }
    ensures fits { IfOk result (λ to. (length out.new.items ≤ limit) × (to ≤ 2 ^ 32)) }
    ensures refused { IfFault result (IsTooLongWith source.entry.text.now (edit_of source.entry changed.now ∷ []) from out.old.items) }
{
    let made = claim_bytes(alloc, source, changed)?;
    keep(out, source.text, from, changed.name as usize)?;
    append(out, made.0.as_slice(), changed.name)?;
    Ok(made.1)
}

// The claims of a module that are changed.
fn write_claims(
    alloc: Global,
    out: &mut Vec<(u8, u32)>,
    source: Source,
    from: usize,
    changed: &[Changed],
) -> Result<usize, Refusal>
    requires source { IsSource source }
    requires fits { length out.old.items ≤ limit }
    requires within { from ≤ 2 ^ 32 }
    ensures written { IfOk result (λ to. GoesOn source.entry.text.now (edits_of source.entry changed.now) from out.old.items to out.new.items) }
    ensures fits { IfOk result (λ to. (length out.new.items ≤ limit) × (to ≤ 2 ^ 32)) }
    ensures refused { IfFault result (IsTooLongWith source.entry.text.now (edits_of source.entry changed.now) from out.old.items) }
{
    let mut at = from;
    for one in changed {
        let to = write_claim(alloc, out, source, at, one)?;
        at = to;
    }
    Ok(at)
}

// The declarations of a claim's monitors, and their definitions.
fn declarations(alloc: Global, source: Source, changed: &Changed) -> Result<Vec<u8>, AllocError>
    requires source { IsSource source }
    ensures { IfOk result (λ bytes. bytes.items ≡ spaced (law.declarations source.entry.text.now source.entry.tokens.now (change_of changed.now))) }
{
    let mut out = Vec::new(alloc);
    let binders = binders(alloc, source, changed.around.as_slice())?;
    declared(
        &mut out,
        source.text,
        binders.as_slice(),
        changed.watched.monitors,
    )?;
    Ok(out)
}

fn definitions(alloc: Global, source: Source, changed: &Changed) -> Result<Vec<u8>, AllocError>
    requires source { IsSource source }
    ensures { IfOk result (λ bytes. bytes.items ≡ spaced (law.definitions source.entry.text.now source.entry.tokens.now (change_of changed.now))) }
{
    let mut out = Vec::new(alloc);
    let tokens = tokens_at(source, changed.place);
    let phrase = read_phrase(alloc, source.text, changed.watched.formula, tokens)?;
    let binders = binders(alloc, source, changed.around.as_slice())?;
    defined(
        alloc,
        &mut out,
        source.text,
        binders.as_slice(),
        changed.watched.monitors,
        &phrase,
    )?;
    Ok(out)
}

fn write_declarations(
    alloc: Global,
    out: &mut Vec<(u8, u32)>,
    source: Source,
    changed: &[Changed],
) -> Result<(), Refusal>
    requires source { IsSource source }
    requires fits { length out.old.items ≤ limit }
    ensures written { OnOk result (out.new.items ≡ out.old.items ++ all_declared source.entry changed.now) }
    ensures fits { OnOk result (length out.new.items ≤ limit) }
    ensures refused { IfFault result (IsTooLong (out.old.items ++ all_declared source.entry changed.now)) }
{
    for one in changed {
        let bytes = declarations(alloc, source, one)?;
        append(out, bytes.as_slice(), one.name)?;
    }
    Ok(())
}

fn write_definitions(
    alloc: Global,
    out: &mut Vec<(u8, u32)>,
    source: Source,
    changed: &[Changed],
) -> Result<(), Refusal>
    requires source { IsSource source }
    requires fits { length out.old.items ≤ limit }
    ensures written { OnOk result (out.new.items ≡ out.old.items ++ all_defined source.entry changed.now) }
    ensures fits { OnOk result (length out.new.items ≤ limit) }
    ensures refused { IfFault result (IsTooLong (out.old.items ++ all_defined source.entry changed.now)) }
{
    for one in changed {
        let bytes = definitions(alloc, source, one)?;
        append(out, bytes.as_slice(), one.name)?;
    }
    Ok(())
}

// The bytes in front of the definitions in a layer.
fn layer_head(alloc: Global, layer: &Name) -> Result<Vec<u8>, AllocError>
    ensures { IfOk result (λ bytes. bytes.items ≡ spaced (codes "layer" ∷ layer.now ∷ codes ":" ∷ codes "{" ∷ [])) }
{
    let mut out = Vec::new(alloc);
    known(&mut out, b" layer")?;
    piece(&mut out, layer.as_bytes())?;
    known(&mut out, b" : {")?;
    Ok(out)
}

// What comes before the closing brace of a module: the declarations of the monitors of these claims, and the layer with the definitions.
fn write_monitors(
    alloc: Global,
    out: &mut Vec<(u8, u32)>,
    source: Source,
    layer: &Name,
    changed: &[Changed],
    name: u32,
) -> Result<(), Refusal>
    requires source { IsSource source }
    requires fits { length out.old.items ≤ limit }
    ensures written { OnOk result (out.new.items ≡ out.old.items ++ monitors_from source.entry layer.now changed.now name) }
    ensures fits { OnOk result (length out.new.items ≤ limit) }
    ensures refused { IfFault result (IsTooLong (out.old.items ++ monitors_from source.entry layer.now changed.now name)) }
{
    write_declarations(alloc, out, source, changed)?;
    let head = layer_head(alloc, layer)?;
    append(out, head.as_slice(), name)?;
    write_definitions(alloc, out, source, changed)?;
    append(out, b" } ", name)
}

// The name of the first claim that has monitors.
fn first_watched(changed: &[Changed]) -> Option<u32>
    ensures { result ≡ kinds.first_watched (changes_of changed.now) }
{
    for one in changed {
        if !one.watched.monitors.is_empty() {
            return Some(one.name);
        }
    }
    None
}

// What comes before the closing brace of a module, which stands there.
fn write_layer(
    alloc: Global,
    out: &mut Vec<(u8, u32)>,
    source: Source,
    layer: &Name,
    from: usize,
    at: u32,
    changed: &[Changed],
) -> Result<usize, Refusal>
    requires source { IsSource source }
    requires fits { length out.old.items ≤ limit }
    requires within { from ≤ 2 ^ 32 }
    ensures written { IfOk result (λ to. GoesOn source.entry.text.now (layer_edits source.entry layer.now at changed.now) from out.old.items to out.new.items) }
    ensures fits { IfOk result (λ to. (length out.new.items ≤ limit) × (to ≤ 2 ^ 32)) }
    ensures refused { IfFault result (IsTooLongWith source.entry.text.now (layer_edits source.entry layer.now at changed.now) from out.old.items) }
{
    match first_watched(changed) {
        None => Ok(from),
        Some(name) => {
            keep(out, source.text, from, at as usize)?;
            write_monitors(alloc, out, source, layer, changed, name)?;
            Ok(at as usize)
        }
    }
}

// A module with its claims and its monitors.
fn write_module<'a>(
    alloc: Global,
    out: &mut Vec<(u8, u32)>,
    source: Source,
    plan: &Plan<'a>,
    layer: &Name,
    from: usize,
    items: &'a [Item],
    behind: &[Top],
) -> Result<usize, Refusal>
    requires source { IsSource source }
    requires fits { length out.old.items ≤ limit }
    requires within { from ≤ 2 ^ 32 }
    ensures written { IfOk result (λ to. GoesOn source.entry.text.now (edits_in source.entry (plan_of plan.now) layer.now items.now behind.now) from out.old.items to out.new.items) }
    ensures fits { IfOk result (λ to. (length out.new.items ≤ limit) × (to ≤ 2 ^ 32)) }
    ensures refused { IfFault result (IsTooLongWith source.entry.text.now (edits_in source.entry (plan_of plan.now) layer.now items.now behind.now) from out.old.items) }
{
    let found = changed_claims(alloc, plan, items)?;
    let changed = found.as_slice();
    let to = write_claims(alloc, out, source, from, changed)?;
    let at = closing(source.tokens, behind);
    write_layer(alloc, out, source, layer, to, at, changed)
}

// A top with its edits.
fn write_top<'a>(
    alloc: Global,
    out: &mut Vec<(u8, u32)>,
    source: Source,
    plan: &Plan<'a>,
    layer: &Name,
    from: usize,
    top: &'a Top,
    behind: &[Top],
) -> Result<usize, Refusal>
    requires source { IsSource source }
    requires fits { length out.old.items ≤ limit }
    requires within { from ≤ 2 ^ 32 }
    ensures written { IfOk result (λ to. GoesOn source.entry.text.now (edits_at source.entry (plan_of plan.now) layer.now top.now behind.now) from out.old.items to out.new.items) }
    ensures fits { IfOk result (λ to. (length out.new.items ≤ limit) × (to ≤ 2 ^ 32)) }
    ensures refused { IfFault result (IsTooLongWith source.entry.text.now (edits_at source.entry (plan_of plan.now) layer.now top.now behind.now) from out.old.items) }
{
    match top {
        Top::Module { body, .. } => {
            write_module(
                alloc,
                out,
                source,
                plan,
                layer,
                from,
                body.as_slice(),
                behind,
            )
        }
        Top::SetType { .. } | Top::Alias { .. } => Ok(from),
    }
}

/// The translated text, where the plan has the monitors and the layer has this name.
pub fn edit<'a>(
    alloc: Global,
    source: Source,
    plan: &Plan<'a>,
    layer: &Name,
    tops: &'a [Top],
) -> Result<Vec<(u8, u32)>, Refusal>
    requires source { IsSource source }
    ensures written { IfOk result (λ out. out.items ≡ edited source.entry.text.now 0 (law.edits source.entry.text.now source.entry.tokens.now (plan_of plan.now) layer.now tops.now)) }
    ensures fits { IfOk result (λ out. length out.items ≤ limit) }
    ensures refused { IfFault result (IsTooLong (edited source.entry.text.now 0 (law.edits source.entry.text.now source.entry.tokens.now (plan_of plan.now) layer.now tops.now))) }
{
    let mut out = Vec::new(alloc);
    let mut from = 0;
    for (n, top) in tops.iter().enumerate() {
        let behind = tops.split_at(n + 1).1;
        let to = write_top(alloc, &mut out, source, plan, layer, from, top, behind)?;
        from = to;
    }
    keep(&mut out, source.text, from, source.text.len())?;
    Ok(out)
}
