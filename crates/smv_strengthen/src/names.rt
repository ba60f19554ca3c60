// The new name: the first of `below0`, `below1` and so on that is no token of the text.
ghost use Rattle.std.specs.Prelude.{◌≡◌, ◌++◌, flat_map, is_some, IfOk, OnOk};
ghost use Rattle.name_index.specs.Position.{position};
ghost use Rattle.law_strengthened_texts.specs.Stronger as texts;
ghost use Rattle.smv_strengthen.specs.Names.{name_of};

use itoa::Buffer;
use name_index::NameIndex;
use smv_core::name::Name;
use smv_core::token::{Token, TokenKind};
use std::alloc::{AllocError, Global};

fn below_name(alloc: Global, k: usize) -> Result<Name, AllocError>
    ensures { IfOk result (λ name. name ≡ texts.below_name k) }
{
    let mut bytes = Vec::from_slice(alloc, b"below")?;
    let mut buffer = Buffer::new();
    bytes.extend_from_slice(buffer.format(k).as_bytes())?;
    Ok(Name::from_vec(bytes))
}

fn add_name<'a>(names: &mut NameIndex<'a>, token: &'a Token) -> Result<(), AllocError>
    ensures { OnOk result (names.new ≡ names.old ++ name_of token.now) }
{
    match &token.kind {
        TokenKind::Ident(name) => names.push(name),
        _ => Ok(()),
    }
}

// The names among the tokens, so that each is looked up by hash.
fn names_of<'a>(alloc: Global, tokens: &'a [Token]) -> Result<NameIndex<'a>, AllocError>
    ensures { IfOk result (λ names. names ≡ flat_map name_of tokens.now) }
{
    let mut names = NameIndex::new(alloc);
    for token in tokens {
        add_name(&mut names, token)?;
    }
    Ok(names)
}

fn is_taken(names: &NameIndex, name: &Name) -> bool
    ensures { result ≡ is_some (position names.now name.now) }
{
    names.find(name).is_some()
}

/// The new name. There are no more names taken than there are tokens.
pub(crate) fn fresh_name(alloc: Global, tokens: &[Token]) -> Result<Name, AllocError>
    ensures { IfOk result (λ name. name ≡ texts.fresh_name tokens.now) }
{
    let names = names_of(alloc, tokens)?;
    for k in 0..tokens.len() {
        let name = below_name(alloc, k)?;
        if !is_taken(&names, &name) {
            return Ok(name);
        }
    }
    below_name(alloc, tokens.len())
}
