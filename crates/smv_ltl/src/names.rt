// The names of the monitors and of the layer: the first of `m0`, `m1` and so on that are no tokens of the text.
ghost use Rattle.std.specs.Prelude.{◌≡◌, ◌<◌, ◌≤◌, ◌+◌, ◌^◌, ◌++◌, length, is_some, IfOk, OnOk};
ghost use Rattle.std.specs.List.{list_any, count_by};
ghost use Rattle.std.specs.Str.{bytes_eq};
ghost use Rattle.law_formula_texts.specs.Laws as texts;
ghost use Rattle.law_formulas.specs.Monitors as monitors;
ghost use Rattle.smv_ltl.specs.Names as kinds;
ghost use Rattle.smv_ltl.specs.Names.{free_from};

use itoa::Buffer;
use name_index::NameIndex;
use smv_core::name::Name;
use smv_core::token::{Token, TokenKind};
use std::alloc::{AllocError, Global};

fn numbered(alloc: Global, k: usize) -> Result<Name, AllocError>
    ensures { IfOk result (λ name. name ≡ monitors.numbered k) }
{
    let mut bytes = Vec::from_slice(alloc, b"m")?;
    let mut buffer = Buffer::new();
    bytes.extend_from_slice(buffer.format(k).as_bytes())?;
    Ok(Name::from_vec(bytes))
}

fn add_name<'a>(names: &mut NameIndex<'a>, token: &'a Token) -> Result<(), AllocError>
    ensures { OnOk result (names.new ≡ names.old ++ texts.name_in token.now.kind) }
{
    match &token.kind {
        TokenKind::Ident(name) => names.push(name),
        _ => Ok(()),
    }
}

// The names among the tokens, so that each is looked up by hash.
fn names_of<'a>(alloc: Global, tokens: &'a [Token]) -> Result<NameIndex<'a>, AllocError>
    ensures { IfOk result (λ names. names ≡ texts.names_of tokens.now) }
{
    let mut names = NameIndex::new(alloc);
    for token in tokens {
        add_name(&mut names, token)?;
    }
    Ok(names)
}

fn is_name(token: &Token) -> bool
    ensures { result ≡ kinds.is_name token.now.kind }
{
    match &token.kind {
        TokenKind::Ident(_) => true,
        _ => false,
    }
}

// How many tokens are names.
fn names_among(tokens: &[Token]) -> usize
    ensures count { result ≡ count_by (λ t. kinds.is_name t.kind) tokens.now }
    ensures within { result ≤ length tokens.now }
{
    tokens.iter().filter(|token| is_name(*token)).count()
}

fn count_names(tokens: &[Token]) -> usize
    ensures length { result ≡ length (texts.names_of tokens.now) }
    ensures within { result ≤ length tokens.now }
{
    names_among(tokens)
}

#[tactic(auto, using(crate::proofs::NameLaws::used_is))]
fn is_used(used: &NameIndex, name: &Name) -> bool
    ensures { result ≡ list_any (bytes_eq name.now) used.now }
{
    used.find(name).is_some()
}

// The name with this number, if it is free.
#[tactic(auto, using(crate::proofs::NameLaws::alone))]
fn add_free(
    alloc: Global,
    names: &mut Vec<Name>,
    used: &NameIndex,
    k: usize,
) -> Result<(), AllocError>
    ensures { OnOk result (names.new.items ≡ names.old.items ++ free_from used.now k 1) }
{
    let name = numbered(alloc, k)?;
    if is_used(used, &name) {
        return Ok(());
    }
    names.push(name)?;
    Ok(())
}

/// The first free names, so many.
#[tactic(auto, using(crate::proofs::NameLaws::stepping))]
pub fn free_names(alloc: Global, tokens: &[Token], count: usize) -> Result<Vec<Name>, AllocError>
    requires within { count + length tokens.now < 2 ^ 64 }
    ensures { IfOk result (λ names. names.items ≡ monitors.free_names (texts.names_of tokens.now) count) }
{
    let used = names_of(alloc, tokens)?;
    let mut names = Vec::new(alloc);
    for k in 0..count + count_names(tokens) {
        if names.len() == count {
            return Ok(names);
        }
        add_free(alloc, &mut names, &used, k)?;
    }
    Ok(names)
}
