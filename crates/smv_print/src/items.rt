// What stands in the body of a module.
ghost use Rattle.std.specs.Prelude.{◌≡◌, ◌≤◌, ◌++◌, [], ◌∷◌, OnOk, None, flat_map, map, length};
ghost use Rattle.smv_core.specs.declared.token.TokenKind.TheVariants.{Ident};
ghost use Rattle.smv_core.specs.Signs.{comma, dot};
ghost use Rattle.smv_print.specs.Written.{separated, written};
ghost use Rattle.smv_print.specs.Items as spec;

use crate::expressions::{CONDITIONAL, SUM, expression};
use crate::statements::{binder, expressions, statement, statements};
use crate::types::{names, type_of};
use crate::write::{name, reserved, sign};
use smv_core::signs::{
    ARROW, CLOSE_BRACE, CLOSE_BRACKET, CLOSE_PAREN, COLON, COMMA, DOT, EQUAL, OPEN_BRACE,
    OPEN_BRACKET, OPEN_PAREN, SEMICOLON, SLASHES, WORD_ABSTRACT, WORD_ASSERT, WORD_FOR, WORD_FREE,
    WORD_G, WORD_INPUT, WORD_LAYER, WORD_OF, WORD_OUTPUT, WORD_PROVE, WORD_SUBCASE, WORD_USING,
};
use smv_core::tree::{Expr, Item, Pair, Ref, Role, Stmt, TypeExpr, Use, Word};
use std::alloc::AllocError;

// { '[' name ']' }
#[tactic(auto, using(crate::proofs::Writing::writing), unfolding(crate::specs::Items::brackets))]
fn brackets(out: &mut Vec<u8>, names: &[Word]) -> Result<(), AllocError>
    ensures { OnOk result (out.new.items ≡ out.old.items ++ written (spec.brackets names.now)) }
{
    for word in names {
        bracket(out, word)?;
    }
    Ok(())
}

#[tactic(auto, using(crate::proofs::Writing::writing))]
fn bracket(out: &mut Vec<u8>, word: &Word) -> Result<(), AllocError>
    ensures { OnOk result (out.new.items ≡ out.old.items ++ written (spec.bracket word.now)) }
{
    sign(out, OPEN_BRACKET)?;
    name(out, word)?;
    sign(out, CLOSE_BRACKET)
}

// How many names from the front on have an offset below this one.
#[tactic(auto, using(crate::proofs::RefLaws::fronts))]
fn count_before(names: &[Word], at: u32) -> usize
    ensures count { result ≡ spec.count_before at names.now }
    ensures small { result ≤ length names.now }
{
    names.iter().take_while(|word| word.at < at).count()
}

// '.' name
#[tactic(auto, using(crate::proofs::Writing::writing))]
fn dotted(out: &mut Vec<u8>, word: &Word) -> Result<(), AllocError>
    ensures { OnOk result (out.new.items ≡ out.old.items ++ written (dot ∷ Ident word.now.name ∷ [])) }
{
    sign(out, DOT)?;
    name(out, word)
}

// The names of a path behind its first, and the names in brackets, in the order of their offsets.
#[tactic(auto, using(crate::proofs::Writing::writing, crate::proofs::RefLaws::fronts))]
fn ref_parts(out: &mut Vec<u8>, path: &[Word], names: &[Word]) -> Result<(), AllocError>
    ensures { OnOk result (out.new.items ≡ out.old.items ++ written (spec.ref_parts path.now names.now)) }
{
    let mut rest = names;
    for word in path {
        let (before, after) = rest.split_at(count_before(rest, word.at));
        brackets(out, before)?;
        dotted(out, word)?;
        rest = after;
    }
    brackets(out, rest)
}

#[tactic(auto, using(crate::proofs::Writing::writing))]
fn ref_path(out: &mut Vec<u8>, path: &[Word], names: &[Word]) -> Result<(), AllocError>
    ensures { OnOk result (out.new.items ≡ out.old.items ++ written (spec.ref_path path.now names.now)) }
{
    match path {
        [] => brackets(out, names),
        [first, more @ ..] => {
            name(out, first)?;
            ref_parts(out, more, names)
        }
    }
}

// [ '//' ( name | 'free' ) ]
#[tactic(auto, using(crate::proofs::Writing::writing))]
fn ref_layer(out: &mut Vec<u8>, layer: &Option<Word>, free: bool) -> Result<(), AllocError>
    ensures { OnOk result (out.new.items ≡ out.old.items ++ written (spec.ref_layer layer.now free)) }
{
    match layer {
        Some(word) => {
            sign(out, SLASHES)?;
            name(out, word)
        }
        None => free_or_none(out, free),
    }
}

#[tactic(auto, using(crate::proofs::Writing::writing))]
fn free_or_none(out: &mut Vec<u8>, free: bool) -> Result<(), AllocError>
    ensures { OnOk result (out.new.items ≡ out.old.items ++ written (spec.ref_layer None free)) }
{
    if free {
        sign(out, SLASHES)?;
        reserved(out, WORD_FREE)
    } else {
        Ok(())
    }
}

#[tactic(auto, using(crate::proofs::Writing::writing))]
fn reference(out: &mut Vec<u8>, x: &Ref) -> Result<(), AllocError>
    ensures { OnOk result (out.new.items ≡ out.old.items ++ written (spec.ref_kinds x.now)) }
{
    ref_path(out, x.path.as_slice(), x.names.as_slice())?;
    ref_layer(out, &x.layer, x.free)
}

#[tactic(auto, using(crate::proofs::Writing::writing))]
fn references(out: &mut Vec<u8>, all: &[Ref]) -> Result<(), AllocError>
    ensures { OnOk result (out.new.items ≡ out.old.items ++ written (separated comma (map spec.ref_kinds all.now))) }
{
    let Some((first, more)) = all.split_first() else {
        return Ok(());
    };
    reference(out, first)?;
    for x in more {
        sign(out, COMMA)?;
        reference(out, x)?;
    }
    Ok(())
}

#[tactic(auto, using(crate::proofs::Writing::writing))]
fn using(out: &mut Vec<u8>, x: &Use) -> Result<(), AllocError>
    ensures { OnOk result (out.new.items ≡ out.old.items ++ written (spec.use_kinds x.now)) }
{
    match x {
        Use::Plain { of } => reference(out, of),
        Use::Early { of } => {
            sign(out, OPEN_PAREN)?;
            reference(out, of)?;
            sign(out, CLOSE_PAREN)
        }
        Use::Keep {
            set,
            names: kept,
            ..
        } => {
            name(out, set)?;
            sign(out, ARROW)?;
            sign(out, OPEN_BRACE)?;
            names(out, kept.as_slice())?;
            sign(out, CLOSE_BRACE)
        }
    }
}

#[tactic(auto, using(crate::proofs::Writing::writing))]
fn all_uses(out: &mut Vec<u8>, all: &[Use]) -> Result<(), AllocError>
    ensures { OnOk result (out.new.items ≡ out.old.items ++ written (separated comma (map spec.use_kinds all.now))) }
{
    let Some((first, more)) = all.split_first() else {
        return Ok(());
    };
    using(out, first)?;
    for x in more {
        sign(out, COMMA)?;
        using(out, x)?;
    }
    Ok(())
}

// Sum '=' name
#[tactic(auto, using(crate::proofs::Writing::writing))]
fn pair(out: &mut Vec<u8>, x: &Pair) -> Result<(), AllocError>
    ensures { OnOk result (out.new.items ≡ out.old.items ++ written (spec.pair_kinds x.now)) }
{
    expression(out, &x.left, SUM)?;
    sign(out, EQUAL)?;
    name(out, &x.right)
}

#[tactic(auto, using(crate::proofs::Writing::writing))]
fn pairs(out: &mut Vec<u8>, all: &[Pair]) -> Result<(), AllocError>
    ensures { OnOk result (out.new.items ≡ out.old.items ++ written (separated comma (map spec.pair_kinds all.now))) }
{
    let Some((first, more)) = all.split_first() else {
        return Ok(());
    };
    pair(out, first)?;
    for x in more {
        sign(out, COMMA)?;
        pair(out, x)?;
    }
    Ok(())
}

#[tactic(auto, using(crate::proofs::Writing::writing))]
fn role(out: &mut Vec<u8>, role: Role) -> Result<(), AllocError>
    ensures { OnOk result (out.new.items ≡ out.old.items ++ written (spec.role_kinds role)) }
{
    match role {
        Role::Plain => Ok(()),
        Role::Abstract => reserved(out, WORD_ABSTRACT),
        Role::Input => reserved(out, WORD_INPUT),
        Role::Output => reserved(out, WORD_OUTPUT),
    }
}

#[tactic(auto, using(crate::proofs::Writing::writing))]
fn declaration(out: &mut Vec<u8>, how: Role, all: &[Word], of: &TypeExpr) -> Result<(), AllocError>
    ensures { OnOk result (out.new.items ≡ out.old.items ++ written (spec.declaration how all.now of.now)) }
{
    role(out, how)?;
    names(out, all)?;
    sign(out, COLON)?;
    type_of(out, of)?;
    sign(out, SEMICOLON)
}

#[tactic(auto, using(crate::proofs::Writing::writing))]
fn instance(out: &mut Vec<u8>, all: &[Word], of: &Word, args: &[Expr]) -> Result<(), AllocError>
    ensures { OnOk result (out.new.items ≡ out.old.items ++ written (spec.instance all.now of.now args.now)) }
{
    names(out, all)?;
    sign(out, COLON)?;
    name(out, of)?;
    sign(out, OPEN_PAREN)?;
    expressions(out, args)?;
    sign(out, CLOSE_PAREN)?;
    sign(out, SEMICOLON)
}

#[tactic(auto, using(crate::proofs::Writing::writing))]
fn layer(out: &mut Vec<u8>, x: &Word, body: &[Stmt]) -> Result<(), AllocError>
    ensures { OnOk result (out.new.items ≡ out.old.items ++ written (spec.layer x.now body.now)) }
{
    reserved(out, WORD_LAYER)?;
    name(out, x)?;
    sign(out, COLON)?;
    sign(out, OPEN_BRACE)?;
    statements(out, body)?;
    sign(out, CLOSE_BRACE)
}

#[tactic(auto, using(crate::proofs::Writing::writing))]
fn claim(out: &mut Vec<u8>, x: &Word, vars: &[Word], body: &Expr) -> Result<(), AllocError>
    ensures { OnOk result (out.new.items ≡ out.old.items ++ written (spec.claim x.now vars.now body.now)) }
{
    name(out, x)?;
    brackets(out, vars)?;
    sign(out, COLON)?;
    reserved(out, WORD_ASSERT)?;
    reserved(out, WORD_G)?;
    expression(out, body, CONDITIONAL)?;
    sign(out, SEMICOLON)
}

#[tactic(auto, using(crate::proofs::Writing::writing))]
fn split(
    out: &mut Vec<u8>,
    x: &Word,
    vars: &[Word],
    of: &Ref,
    all: &[Pair],
) -> Result<(), AllocError>
    ensures { OnOk result (out.new.items ≡ out.old.items ++ written (spec.split x.now vars.now of.now all.now)) }
{
    subcase(out, x, vars)?;
    reference(out, of)?;
    cases(out, all)
}

// 'subcase' name { '[' name ']' } 'of'
#[tactic(auto, using(crate::proofs::Writing::writing))]
fn subcase(out: &mut Vec<u8>, x: &Word, vars: &[Word]) -> Result<(), AllocError>
    ensures { OnOk result (out.new.items ≡ out.old.items ++ written (spec.subcase x.now vars.now)) }
{
    reserved(out, WORD_SUBCASE)?;
    name(out, x)?;
    brackets(out, vars)?;
    reserved(out, WORD_OF)
}

// 'for' Sum '=' name { ',' Sum '=' name } ';'
#[tactic(auto, using(crate::proofs::Writing::writing))]
fn cases(out: &mut Vec<u8>, all: &[Pair]) -> Result<(), AllocError>
    ensures { OnOk result (out.new.items ≡ out.old.items ++ written (spec.cases all.now)) }
{
    reserved(out, WORD_FOR)?;
    pairs(out, all)?;
    sign(out, SEMICOLON)
}

#[tactic(auto, using(crate::proofs::Writing::writing))]
fn proof_of(out: &mut Vec<u8>, uses: &[Use], proves: &[Ref]) -> Result<(), AllocError>
    ensures { OnOk result (out.new.items ≡ out.old.items ++ written (spec.proof_of uses.now proves.now)) }
{
    reserved(out, WORD_USING)?;
    all_uses(out, uses)?;
    reserved(out, WORD_PROVE)?;
    references(out, proves)?;
    sign(out, SEMICOLON)
}

#[cycle(items)]
#[tactic(auto, using(crate::proofs::Writing::writing, crate::proofs::ItemLaws::equations))]
fn item(out: &mut Vec<u8>, x: &Item) -> Result<(), AllocError>
    ensures { OnOk result (out.new.items ≡ out.old.items ++ written (spec.item_kinds x.now)) }
{
    match x {
        Item::Declare {
            role: how,
            names: all,
            of,
            ..
        } => declaration(out, *how, all.as_slice(), of),
        Item::Instance {
            names: all,
            module,
            args,
            ..
        } => instance(out, all.as_slice(), module, args.as_slice()),
        Item::Layer {
            name: word,
            body,
            ..
        } => layer(out, word, body.as_slice()),
        Item::Forall {
            var,
            over,
            body,
            ..
        } => {
            binder(out, var, over)?;
            item(out, body.get())
        }
        Item::Block { items: all } => {
            sign(out, OPEN_BRACE)?;
            items(out, all.as_slice())?;
            sign(out, CLOSE_BRACE)
        }
        Item::Claim {
            name: word,
            vars,
            body,
            ..
        } => claim(out, word, vars.as_slice(), body),
        Item::Split {
            name: word,
            vars,
            of,
            pairs: all,
            ..
        } => split(out, word, vars.as_slice(), of, all.as_slice()),
        Item::Using { uses, proves, .. } => proof_of(out, uses.as_slice(), proves.as_slice()),
        Item::Act { act } => statement(out, act),
    }
}

/// Items one after another.
#[cycle(items)]
#[tactic(auto, using(crate::proofs::Writing::writing))]
pub fn items(out: &mut Vec<u8>, all: &[Item]) -> Result<(), AllocError>
    ensures { OnOk result (out.new.items ≡ out.old.items ++ written (flat_map spec.item_kinds all.now)) }
{
    for x in all {
        item(out, x)?;
    }
    Ok(())
}
