// The whole text.
ghost use Rattle.std.specs.Prelude.{◌≡◌, ◌++◌, OnOk, IfOk, flat_map};
ghost use Rattle.smv_print.specs.Written.{written};
ghost use Rattle.smv_print.specs.Canonical as spec;
ghost use Rattle.smv_print.specs.Canonical.{canonical};

use crate::items::items;
use crate::types::{names, span, type_of};
use crate::write::{name, reserved, sign};
use smv_core::signs::{
    CLOSE_BRACE, CLOSE_PAREN, OPEN_BRACE, OPEN_PAREN, SEMICOLON, WORD_MODULE, WORD_ORDSET,
    WORD_SCALARSET, WORD_TYPEDEF, WORD_UNDEFINED,
};
use smv_core::tree::{Item, Span, Text, Top, TypeExpr, Word};
use std::alloc::{AllocError, Global};

/// The canonical spelling of a tree: its tokens with one blank between two, LF in place of the blank behind a `;`, and LF behind the last.
/// An empty text is spelled by no bytes.
#[tactic(auto, using(crate::proofs::Ending::endings), unfolding(crate::specs::Canonical::canonical))]
pub fn print(alloc: Global, tree: &Text) -> Result<Vec<u8>, AllocError>
    ensures { IfOk result (λ bytes. bytes.items ≡ canonical tree.now) }
{
    let mut out = Vec::new(alloc);
    tops(&mut out, tree.tops.as_slice())?;
    if out.pop().is_some() {
        out.push(b'\n')?;
    }
    Ok(out)
}

#[tactic(auto, using(crate::proofs::Writing::writing))]
fn tops(out: &mut Vec<u8>, all: &[Top]) -> Result<(), AllocError>
    ensures { OnOk result (out.new.items ≡ out.old.items ++ written (flat_map spec.top_kinds all.now)) }
{
    for x in all {
        top(out, x)?;
    }
    Ok(())
}

#[tactic(auto, using(crate::proofs::Writing::writing))]
fn top(out: &mut Vec<u8>, x: &Top) -> Result<(), AllocError>
    ensures { OnOk result (out.new.items ≡ out.old.items ++ written (spec.top_kinds x.now)) }
{
    match x {
        Top::SetType {
            name: word,
            ordered,
            span: values,
            ..
        } => set_type(out, word, *ordered, values),
        Top::Alias { name: word, of, .. } => alias(out, word, of),
        Top::Module {
            name: word,
            formals,
            body,
            ..
        } => module(out, word, formals.as_slice(), body.as_slice()),
    }
}

#[tactic(auto, using(crate::proofs::Writing::writing))]
fn set_type(
    out: &mut Vec<u8>,
    x: &Word,
    ordered: bool,
    values: &Option<Span>,
) -> Result<(), AllocError>
    ensures { OnOk result (out.new.items ≡ out.old.items ++ written (spec.set_type x.now ordered values.now)) }
{
    set_word(out, ordered)?;
    name(out, x)?;
    extent(out, values)?;
    sign(out, SEMICOLON)
}

#[tactic(auto, using(crate::proofs::Writing::writing))]
fn set_word(out: &mut Vec<u8>, ordered: bool) -> Result<(), AllocError>
    ensures { OnOk result (out.new.items ≡ out.old.items ++ written (spec.set_word ordered)) }
{
    if ordered {
        reserved(out, WORD_ORDSET)
    } else {
        reserved(out, WORD_SCALARSET)
    }
}

// 'undefined' | number '..' number
#[tactic(auto, using(crate::proofs::Writing::writing))]
fn extent(out: &mut Vec<u8>, values: &Option<Span>) -> Result<(), AllocError>
    ensures { OnOk result (out.new.items ≡ out.old.items ++ written (spec.extent values.now)) }
{
    match values {
        None => reserved(out, WORD_UNDEFINED),
        Some(s) => span(out, *s),
    }
}

#[tactic(auto, using(crate::proofs::Writing::writing))]
fn alias(out: &mut Vec<u8>, x: &Word, of: &TypeExpr) -> Result<(), AllocError>
    ensures { OnOk result (out.new.items ≡ out.old.items ++ written (spec.alias x.now of.now)) }
{
    reserved(out, WORD_TYPEDEF)?;
    name(out, x)?;
    type_of(out, of)?;
    sign(out, SEMICOLON)
}

#[tactic(auto, using(crate::proofs::Writing::writing))]
fn module(out: &mut Vec<u8>, x: &Word, formals: &[Word], body: &[Item]) -> Result<(), AllocError>
    ensures { OnOk result (out.new.items ≡ out.old.items ++ written (spec.module_kinds x.now formals.now body.now)) }
{
    heading(out, x, formals)?;
    sign(out, OPEN_BRACE)?;
    items(out, body)?;
    sign(out, CLOSE_BRACE)
}

// 'module' name '(' [ name { ',' name } ] ')'
#[tactic(auto, using(crate::proofs::Writing::writing))]
fn heading(out: &mut Vec<u8>, x: &Word, formals: &[Word]) -> Result<(), AllocError>
    ensures { OnOk result (out.new.items ≡ out.old.items ++ written (spec.heading x.now formals.now)) }
{
    reserved(out, WORD_MODULE)?;
    name(out, x)?;
    sign(out, OPEN_PAREN)?;
    names(out, formals)?;
    sign(out, CLOSE_PAREN)
}
