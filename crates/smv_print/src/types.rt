// Types, and what else has no expression in it.
ghost use Rattle.std.specs.Prelude.{◌≡◌, ◌++◌, OnOk, flat_map};
ghost use Rattle.smv_print.specs.Written.{written};
ghost use Rattle.smv_print.specs.Types.{names_kinds, span_kinds, type_kinds, field_kinds};

use crate::write::{name, number, reserved, sign};
use smv_core::signs::{
    CLOSE_BRACE, COLON, COMMA, DOTS, OPEN_BRACE, SEMICOLON, WORD_ARRAY, WORD_BOOLEAN, WORD_OF,
    WORD_STRUCT,
};
use smv_core::tree::{Field, Span, TypeExpr, Word};
use std::alloc::AllocError;

#[tactic(auto, using(crate::proofs::Writing::writing), unfolding(crate::specs::Types::names_kinds))]
pub fn names(out: &mut Vec<u8>, names: &[Word]) -> Result<(), AllocError>
    ensures { OnOk result (out.new.items ≡ out.old.items ++ written (names_kinds names.now)) }
{
    let Some((first, more)) = names.split_first() else {
        return Ok(());
    };
    name(out, first)?;
    for word in more {
        sign(out, COMMA)?;
        name(out, word)?;
    }
    Ok(())
}

#[tactic(auto, using(crate::proofs::Writing::writing))]
pub fn span(out: &mut Vec<u8>, span: Span) -> Result<(), AllocError>
    ensures { OnOk result (out.new.items ≡ out.old.items ++ written (span_kinds span)) }
{
    number(out, span.low)?;
    sign(out, DOTS)?;
    number(out, span.high)
}

#[cycle(types)]
#[tactic(auto, using(crate::proofs::Writing::writing, crate::proofs::TypeLaws::equations), unfolding(crate::specs::Types::type_kinds))]
pub fn type_of(out: &mut Vec<u8>, x: &TypeExpr) -> Result<(), AllocError>
    ensures { OnOk result (out.new.items ≡ out.old.items ++ written (type_kinds x.now)) }
{
    match x {
        TypeExpr::Boolean => reserved(out, WORD_BOOLEAN),
        TypeExpr::Range { span: s, .. } => span(out, *s),
        TypeExpr::Enum {
            names: constants,
            ..
        } => {
            sign(out, OPEN_BRACE)?;
            names(out, constants.as_slice())?;
            sign(out, CLOSE_BRACE)
        }
        TypeExpr::Named { name: word, .. } => name(out, word),
        TypeExpr::Array { index, of } => {
            reserved(out, WORD_ARRAY)?;
            type_of(out, index.get())?;
            reserved(out, WORD_OF)?;
            type_of(out, of.get())
        }
        TypeExpr::Struct { fields } => {
            reserved(out, WORD_STRUCT)?;
            sign(out, OPEN_BRACE)?;
            all_fields(out, fields.as_slice())?;
            sign(out, CLOSE_BRACE)
        }
    }
}

#[cycle(types)]
#[tactic(auto, using(crate::proofs::Writing::writing))]
fn all_fields(out: &mut Vec<u8>, fields: &[Field]) -> Result<(), AllocError>
    ensures { OnOk result (out.new.items ≡ out.old.items ++ written (flat_map field_kinds fields.now)) }
{
    for x in fields {
        field(out, x)?;
    }
    Ok(())
}

#[cycle(types)]
#[tactic(auto, using(crate::proofs::Writing::writing, crate::proofs::TypeLaws::equations))]
fn field(out: &mut Vec<u8>, x: &Field) -> Result<(), AllocError>
    ensures { OnOk result (out.new.items ≡ out.old.items ++ written (field_kinds x.now)) }
{
    names(out, x.names.as_slice())?;
    sign(out, COLON)?;
    type_of(out, &x.of)?;
    sign(out, SEMICOLON)
}
