// What begins with a name: claims, assignments, declarations and instances.
ghost use Rattle.std.specs.Prelude.{◌≡◌, ◌∷◌, [], Option, Some, None, Ok, IfOk, IfErr};
ghost use Rattle.law_grammar.specs.Readers.{noting, first_at};
ghost use Rattle.law_grammar.specs.Items.{vars_of, read_of_names};
ghost use Rattle.law_formula_grammar.specs.Grammar.{body_of, listed};
ghost use Rattle.law_formula_grammar.specs.Readers.{read_formula, formula_reader, read_claimed, read_assigned, read_behind, read_named, read_behind_colon, read_listed, read_named_body, read_without};
ghost use Rattle.smv_parse_expressions.specs.Answers.{StopsAs};
ghost use Rattle.smv_parse_formulas.specs.Trees.{meant, meanings, seen};
ghost use Rattle.smv_parse_formulas.specs.Pieces.{read_chosen, read_named_behind};

use crate::formulas::formula;
use crate::tree::{End, Formula, Placed};
use smv_core::seq::Seq;
use smv_core::signs::{COLON, SEMICOLON, WORD_ASSERT, WORD_G};
use smv_core::token::Token;
use smv_core::tree::{Expr, Item, Part, Word};
use smv_parse_expressions::ahead::{next_is_sign, next_is_word};
use smv_parse_expressions::single::{name, sign, word};
use smv_parse_expressions::stop::{Read, Stop};
use smv_parse_items::bodies::{assigned, marked_parts, more_names, of_names, put_before};
use smv_parse_statements::ahead::next_is_comma_or_colon;
use std::alloc::Global;

// ---- claims

/// Where the next token stands, or 0.
fn next_at(tokens: &[Token]) -> u32
    ensures { result ≡ first_at tokens.now }
{
    match tokens.split_first() {
        Some((first, _)) => first.at,
        None => 0,
    }
}

/// A formula, and where it begins.
fn placed_formula(alloc: Global, levels: u8, tokens: &[Token]) -> Read<'_, (Formula, u32)>
    ensures found { IfOk result (λ found. noting first_at (read_formula levels (formula_reader levels)) tokens.now ≡ Ok ((meant found.0.0, found.0.1), found.1.now)) }
    ensures stop { IfErr result (λ stop. StopsAs stop (noting first_at (read_formula levels (formula_reader levels)) tokens.now)) }
{
    let at = next_at(tokens);
    let (formula, rest) = formula(alloc, levels, tokens)?;
    Ok(((formula, at), rest))
}

/// The number 1 at the offset of a formula, and the formula.
fn kept_apart(alloc: Global, formula: Formula, at: u32) -> Result<(Expr, Seq<Placed>), Stop>
    ensures body { IfOk result (λ made. made.0 ≡ Expr.Number 1 at) }
    ensures formulas { IfOk result (λ made. meanings made.1 ≡ (at, meant formula) ∷ []) }
    ensures stop { IfErr result (λ stop. stop ≡ Stop.OutOfMemory) }
{
    let mut formulas = Seq::new(alloc);
    formulas.push(Placed { at, formula })?;
    Ok((Expr::Number { value: 1, at }, formulas))
}

/// What a claim has as its body, and its formula where it is no expression.
#[tactic(auto, using(crate::proofs::Alone::behind_none, crate::proofs::Alone::body_several, crate::proofs::Alone::listed_several))]
fn body_of(alloc: Global, formula: Formula, at: u32) -> Result<(Expr, Seq<Placed>), Stop>
    ensures body { IfOk result (λ made. made.0 ≡ body_of (meant formula) at) }
    ensures formulas { IfOk result (λ made. meanings made.1 ≡ listed (meant formula) at) }
    ensures stop { IfErr result (λ stop. stop ≡ Stop.OutOfMemory) }
{
    let Formula { steps, end } = formula;
    if steps.len() > 0 {
        return kept_apart(alloc, Formula { steps, end }, at);
    }
    match end {
        End::Single { body } => Ok((body, Seq::new(alloc))),
        End::Unless { kept, until } => {
            let end = End::Unless { kept, until };
            kept_apart(alloc, Formula { steps, end }, at)
        }
    }
}

/// 'assert' 'G' Formula ';'
#[tactic(auto, unfolding(law_formula_grammar::specs::Readers::read_claimed))]
fn claimed(
    alloc: Global,
    levels: u8,
    name: Word,
    vars: Seq<Word>,
    tokens: &[Token],
) -> Read<'_, (Item, Seq<Placed>)>
    ensures found { IfOk result (λ found. read_claimed levels name vars tokens.now ≡ Ok (seen found.0, found.1.now)) }
    ensures stop { IfErr result (λ stop. StopsAs stop (read_claimed levels name vars tokens.now)) }
{
    let (_, rest) = word(WORD_ASSERT, tokens)?;
    let (_, rest) = word(WORD_G, rest)?;
    let ((formula, start), rest) = placed_formula(alloc, levels, rest)?;
    let (_, rest) = sign(SEMICOLON, rest)?;
    let (body, formulas) = body_of(alloc, formula, start)?;
    let at = name.at;
    let claim = Item::Claim {
        name,
        vars,
        body,
        at,
    };
    Ok(((claim, formulas), rest))
}

/// ':=' Expr ';' behind a path.
#[tactic(auto, using(crate::proofs::Without::assigned_by))]
fn assignment(
    alloc: Global,
    levels: u8,
    name: Word,
    more: Seq<Part>,
    tokens: &[Token],
) -> Read<'_, (Item, Seq<Placed>)>
    ensures found { IfOk result (λ found. read_assigned levels name more tokens.now ≡ Ok (seen found.0, found.1.now)) }
    ensures stop { IfErr result (λ stop. StopsAs stop (read_assigned levels name more tokens.now)) }
{
    let (item, rest) = assigned(alloc, levels, name, more, tokens)?;
    Ok(((item, Seq::new(alloc)), rest))
}

/// A claim where it may be one, and else an assignment.
fn chosen(
    alloc: Global,
    levels: u8,
    name: Word,
    more: Seq<Part>,
    vars: Option<Seq<Word>>,
    tokens: &[Token],
) -> Read<'_, (Item, Seq<Placed>)>
    ensures found { IfOk result (λ found. read_chosen levels name more vars tokens.now ≡ Ok (seen found.0, found.1.now)) }
    ensures stop { IfErr result (λ stop. StopsAs stop (read_chosen levels name more vars tokens.now)) }
{
    match vars {
        Some(vars) => {
            if next_is_sign(COLON, tokens) {
                let (_, rest) = sign(COLON, tokens)?;
                return claimed(alloc, levels, name, vars, rest);
            }
            assignment(alloc, levels, name, more, tokens)
        }
        None => assignment(alloc, levels, name, more, tokens),
    }
}

/// What stands behind the name of a claim or an assignment.
fn behind(alloc: Global, levels: u8, name: Word, tokens: &[Token]) -> Read<'_, (Item, Seq<Placed>)>
    ensures found { IfOk result (λ found. read_behind levels vars_of name tokens.now ≡ Ok (seen found.0, found.1.now)) }
    ensures stop { IfErr result (λ stop. StopsAs stop (read_behind levels vars_of name tokens.now)) }
{
    let ((more, vars), rest) = marked_parts(alloc, levels, tokens)?;
    chosen(alloc, levels, name, more, vars, rest)
}

/// A claim or an assignment.
#[tactic(auto, unfolding(law_formula_grammar::specs::Readers::read_named))]
pub(crate) fn named(alloc: Global, levels: u8, tokens: &[Token]) -> Read<'_, (Item, Seq<Placed>)>
    ensures found { IfOk result (λ found. read_named levels tokens.now ≡ Ok (seen found.0, found.1.now)) }
    ensures stop { IfErr result (λ stop. StopsAs stop (read_named levels tokens.now)) }
{
    let (name, rest) = name(alloc, tokens)?;
    behind(alloc, levels, name, rest)
}

// ---- what stands in a body

/// A declaration or an instance of several names.
fn declared(
    alloc: Global,
    levels: u8,
    name: Word,
    more: Seq<Word>,
    tokens: &[Token],
) -> Read<'_, (Item, Seq<Placed>)>
    ensures found { IfOk result (λ found. read_without (read_of_names levels (name ∷ more)) tokens.now ≡ Ok (seen found.0, found.1.now)) }
    ensures stop { IfErr result (λ stop. StopsAs stop (read_without (read_of_names levels (name ∷ more)) tokens.now)) }
{
    let names = put_before(name, more)?;
    let (item, rest) = of_names(alloc, levels, names, tokens)?;
    Ok(((item, Seq::new(alloc)), rest))
}

/// What stands behind the colon of one name or several.
#[tactic(auto, using(crate::proofs::Marked::colon_other, crate::proofs::Marked::colon_several, crate::proofs::Marked::colon_claim))]
fn behind_colon(
    alloc: Global,
    levels: u8,
    name: Word,
    more: Seq<Word>,
    tokens: &[Token],
) -> Read<'_, (Item, Seq<Placed>)>
    ensures found { IfOk result (λ found. read_behind_colon levels name more tokens.now ≡ Ok (seen found.0, found.1.now)) }
    ensures stop { IfErr result (λ stop. StopsAs stop (read_behind_colon levels name more tokens.now)) }
{
    if !next_is_word(WORD_ASSERT, tokens) {
        return declared(alloc, levels, name, more, tokens);
    }
    if more.len() > 0 {
        return declared(alloc, levels, name, more, tokens);
    }
    claimed(alloc, levels, name, more, tokens)
}

/// What stands behind the first name, where a comma or a colon follows.
#[tactic(auto, unfolding(law_formula_grammar::specs::Readers::read_listed))]
fn listed(alloc: Global, levels: u8, name: Word, tokens: &[Token]) -> Read<'_, (Item, Seq<Placed>)>
    ensures found { IfOk result (λ found. read_listed levels name tokens.now ≡ Ok (seen found.0, found.1.now)) }
    ensures stop { IfErr result (λ stop. StopsAs stop (read_listed levels name tokens.now)) }
{
    let (more, rest) = more_names(alloc, tokens)?;
    let (_, rest) = sign(COLON, rest)?;
    behind_colon(alloc, levels, name, more, rest)
}

/// What stands behind the first name in a body.
fn behind_name(
    alloc: Global,
    levels: u8,
    name: Word,
    tokens: &[Token],
) -> Read<'_, (Item, Seq<Placed>)>
    ensures found { IfOk result (λ found. read_named_behind levels name tokens.now ≡ Ok (seen found.0, found.1.now)) }
    ensures stop { IfErr result (λ stop. StopsAs stop (read_named_behind levels name tokens.now)) }
{
    if next_is_comma_or_colon(tokens) {
        return listed(alloc, levels, name, tokens);
    }
    behind(alloc, levels, name, tokens)
}

/// What begins with a name in a body.
#[tactic(auto, unfolding(law_formula_grammar::specs::Readers::read_named_body))]
pub(crate) fn named_body(
    alloc: Global,
    levels: u8,
    tokens: &[Token],
) -> Read<'_, (Item, Seq<Placed>)>
    ensures found { IfOk result (λ found. read_named_body levels tokens.now ≡ Ok (seen found.0, found.1.now)) }
    ensures stop { IfErr result (λ stop. StopsAs stop (read_named_body levels tokens.now)) }
{
    let (name, rest) = name(alloc, tokens)?;
    behind_name(alloc, levels, name, rest)
}
