// References, splits and uses.
ghost use Rattle.std.specs.Prelude.{◌≡◌, ◌<◌, ◌-◌, ◌∷◌, [], Option, Some, None, true, false, Ok, IfOk, IfErr};
ghost use Rattle.smv_core.specs.Signs.{comma, dot, open_bracket, slashes};
ghost use Rattle.law_grammar.specs.Parsing.{bind, take, loop};
ghost use Rattle.law_grammar.specs.Marks.{any_name, exactly, begins};
ghost use Rattle.law_grammar.specs.Readers.{a_token, a_name, maybe, read_separated, read_separated_or_none, noting, first_at};
ghost use Rattle.law_grammar.specs.Expressions.{read_sum, expr_readers};
ghost use Rattle.law_grammar.specs.References.{read_layer_name, read_layer_or_free, read_in_brackets, read_ref, read_used, read_keep, read_early, read_use, read_using, read_pair, read_split};
ghost use Rattle.law_grammar.specs.Items.{item_readers};
ghost use Rattle.smv_parse_expressions.specs.Answers.{StopsAs};
ghost use Rattle.smv_parse_items.specs.Pieces.{read_names, read_keep_behind, read_split_behind, read_split_for};

use smv_core::seq::Seq;
use smv_core::signs::{
    ARROW, CLOSE_BRACE, CLOSE_BRACKET, CLOSE_PAREN, COMMA, DOT, EQUAL, OPEN_BRACE, OPEN_BRACKET,
    OPEN_PAREN, SEMICOLON, SLASHES, WORD_FOR, WORD_FREE, WORD_OF, WORD_PROVE, WORD_SUBCASE,
    WORD_USING,
};
use smv_core::token::Token;
use smv_core::tree::{Expr, Item, Pair, Ref, Use, Word};
use smv_parse_expressions::ahead::{next_is_name, next_is_part, next_is_sign};
use smv_parse_expressions::exprs::sum;
use smv_parse_expressions::names::names;
use smv_parse_expressions::single::{name, opening_sign, sign, word};
use smv_parse_expressions::stop::Stop;
use smv_parse_statements::ahead::next_is_name_and_sign;
use std::alloc::Global;

/// [ name { ',' name } ]
pub fn names_or_none(alloc: Global, tokens: &[Token]) -> Result<(Seq<Word>, &[Token]), Stop>
    ensures found { IfOk result (λ found. read_separated_or_none (any_name ∷ []) (take a_name) tokens.now ≡ Ok (found.0, found.1.now)) }
    ensures stop { IfErr result (λ stop. StopsAs stop (read_separated_or_none (any_name ∷ []) (take a_name) tokens.now)) }
{
    if next_is_name(tokens) {
        let (names, rest) = names(alloc, tokens)?;
        return Ok((Seq::from_vec(names), rest));
    }
    Ok((Seq::new(alloc), tokens))
}

/// '[' name ']'
#[tactic(auto, using(law_grammar::proofs::Steps::open_then), unfolding(law_grammar::specs::References::read_in_brackets))]
fn in_brackets(alloc: Global, levels: u8, tokens: &[Token]) -> Result<(Word, &[Token]), Stop>
    ensures found { IfOk result (λ found. read_in_brackets levels tokens.now ≡ Ok (found.0, found.1.now)) }
    ensures stop { IfErr result (λ stop. StopsAs stop (read_in_brackets levels tokens.now)) }
{
    let (_, rest) = opening_sign(OPEN_BRACKET, levels, tokens)?;
    let (name, rest) = name(alloc, rest)?;
    let (_, rest) = sign(CLOSE_BRACKET, rest)?;
    Ok((name, rest))
}

/// '.' name
pub fn dotted(alloc: Global, tokens: &[Token]) -> Result<(Word, &[Token]), Stop>
    ensures found { IfOk result (λ found. bind (take (a_token dot)) (λ at. take a_name) tokens.now ≡ Ok (found.0, found.1.now)) }
    ensures stop { IfErr result (λ stop. StopsAs stop (bind (take (a_token dot)) (λ at. take a_name) tokens.now)) }
{
    let (_, rest) = sign(DOT, tokens)?;
    name(alloc, rest)
}

/// The names that lead from a first one, and those in brackets, up to where they end.
#[tactic(auto, using(crate::proofs::Names::names_end, crate::proofs::Names::dotted_halts, crate::proofs::Names::dotted_goes_on, crate::proofs::Names::dotted_shrinks, crate::proofs::Names::bracketed_halts, crate::proofs::Names::bracketed_goes_on, crate::proofs::Names::bracketed_shrinks))]
fn leading_names(
    alloc: Global,
    levels: u8,
    first: Word,
    tokens: &[Token],
) -> Result<((Seq<Word>, Seq<Word>), &[Token]), Stop>
    ensures found { IfOk result (λ found. read_names levels first tokens.now ≡ Ok (found.0, found.1.now)) }
    ensures stop { IfErr result (λ stop. StopsAs stop (read_names levels first tokens.now)) }
{
    let mut path = Vec::new(alloc);
    path.push(first)?;
    let mut names = Vec::new(alloc);
    let mut rest = tokens;
    while next_is_part(rest) {
        if next_is_sign(DOT, rest) {
            let (next, after) = dotted(alloc, rest)?;
            path.push(next)?;
            rest = after;
            continue;
        }
        let (next, after) = in_brackets(alloc, levels, rest)?;
        names.push(next)?;
        rest = after;
    }
    Ok(((Seq::from_vec(path), Seq::from_vec(names)), rest))
}

/// [ '//' name ]
#[tactic(auto, unfolding(law_grammar::specs::References::read_layer_name))]
fn layer(alloc: Global, tokens: &[Token]) -> Result<((Option<Word>, bool), &[Token]), Stop>
    ensures found { IfOk result (λ found. maybe (exactly slashes ∷ []) (bind (take (a_token slashes)) (λ at. read_layer_name)) (None, false) tokens.now ≡ Ok (found.0, found.1.now)) }
    ensures stop { IfErr result (λ stop. StopsAs stop (maybe (exactly slashes ∷ []) (bind (take (a_token slashes)) (λ at. read_layer_name)) (None, false) tokens.now)) }
{
    if next_is_sign(SLASHES, tokens) {
        let (_, rest) = sign(SLASHES, tokens)?;
        let (name, rest) = name(alloc, rest)?;
        return Ok(((Some(name), false), rest));
    }
    Ok(((None, false), tokens))
}

/// name | 'free'
#[tactic(auto, unfolding(law_grammar::specs::References::read_layer_name, law_grammar::specs::References::read_layer_or_free))]
fn layer_or_free(alloc: Global, tokens: &[Token]) -> Result<((Option<Word>, bool), &[Token]), Stop>
    ensures found { IfOk result (λ found. read_layer_or_free tokens.now ≡ Ok (found.0, found.1.now)) }
    ensures stop { IfErr result (λ stop. StopsAs stop (read_layer_or_free tokens.now)) }
{
    if next_is_name(tokens) {
        let (name, rest) = name(alloc, tokens)?;
        return Ok(((Some(name), false), rest));
    }
    let (_, rest) = word(WORD_FREE, tokens)?;
    Ok(((None, true), rest))
}

/// [ '//' ( name | 'free' ) ]
fn chosen_layer(alloc: Global, tokens: &[Token]) -> Result<((Option<Word>, bool), &[Token]), Stop>
    ensures found { IfOk result (λ found. maybe (exactly slashes ∷ []) (bind (take (a_token slashes)) (λ at. read_layer_or_free)) (None, false) tokens.now ≡ Ok (found.0, found.1.now)) }
    ensures stop { IfErr result (λ stop. StopsAs stop (maybe (exactly slashes ∷ []) (bind (take (a_token slashes)) (λ at. read_layer_or_free)) (None, false) tokens.now)) }
{
    if next_is_sign(SLASHES, tokens) {
        let (_, rest) = sign(SLASHES, tokens)?;
        return layer_or_free(alloc, rest);
    }
    Ok(((None, false), tokens))
}

/// A reference where no `free` may stand.
#[tactic(auto, using(crate::proofs::Names::ref_by))]
fn reference(alloc: Global, levels: u8, tokens: &[Token]) -> Result<(Ref, &[Token]), Stop>
    ensures found { IfOk result (λ found. read_ref levels tokens.now ≡ Ok (found.0, found.1.now)) }
    ensures stop { IfErr result (λ stop. StopsAs stop (read_ref levels tokens.now)) }
{
    let (first, rest) = name(alloc, tokens)?;
    let at = first.at;
    let ((path, names), rest) = leading_names(alloc, levels, first, rest)?;
    let ((layer, free), rest) = layer(alloc, rest)?;
    Ok((
        Ref {
            path,
            names,
            layer,
            free,
            at,
        },
        rest,
    ))
}

/// A reference in a use.
#[tactic(auto, using(crate::proofs::Names::used_by))]
fn used(alloc: Global, levels: u8, tokens: &[Token]) -> Result<(Ref, &[Token]), Stop>
    ensures found { IfOk result (λ found. read_used levels tokens.now ≡ Ok (found.0, found.1.now)) }
    ensures stop { IfErr result (λ stop. StopsAs stop (read_used levels tokens.now)) }
{
    let (first, rest) = name(alloc, tokens)?;
    let at = first.at;
    let ((path, names), rest) = leading_names(alloc, levels, first, rest)?;
    let ((layer, free), rest) = chosen_layer(alloc, rest)?;
    Ok((
        Ref {
            path,
            names,
            layer,
            free,
            at,
        },
        rest,
    ))
}

/// '{' [ name { ',' name } ] '}' behind a set type and '->'.
#[tactic(auto, using(law_grammar::proofs::Steps::open_then))]
fn kept(alloc: Global, levels: u8, set: Word, tokens: &[Token]) -> Result<(Use, &[Token]), Stop>
    ensures found { IfOk result (λ found. read_keep_behind levels set tokens.now ≡ Ok (found.0, found.1.now)) }
    ensures stop { IfErr result (λ stop. StopsAs stop (read_keep_behind levels set tokens.now)) }
{
    let (_, rest) = opening_sign(OPEN_BRACE, levels, tokens)?;
    let (names, rest) = names_or_none(alloc, rest)?;
    let (_, rest) = sign(CLOSE_BRACE, rest)?;
    let at = set.at;
    Ok((Use::Keep { set, names, at }, rest))
}

/// name '->' '{' [ name { ',' name } ] '}'
#[tactic(auto, unfolding(law_grammar::specs::References::read_keep))]
fn keep(alloc: Global, levels: u8, tokens: &[Token]) -> Result<(Use, &[Token]), Stop>
    ensures found { IfOk result (λ found. read_keep levels tokens.now ≡ Ok (found.0, found.1.now)) }
    ensures stop { IfErr result (λ stop. StopsAs stop (read_keep levels tokens.now)) }
{
    let (set, rest) = name(alloc, tokens)?;
    let (_, rest) = sign(ARROW, rest)?;
    kept(alloc, levels, set, rest)
}

/// '(' Ref ')'
#[tactic(auto, using(law_grammar::proofs::Steps::open_then, law_grammar::proofs::Steps::next_ref), unfolding(law_grammar::specs::References::read_early))]
fn early(alloc: Global, levels: u8, tokens: &[Token]) -> Result<(Use, &[Token]), Stop>
    ensures found { IfOk result (λ found. read_early levels (item_readers levels).ref tokens.now ≡ Ok (found.0, found.1.now)) }
    ensures stop { IfErr result (λ stop. StopsAs stop (read_early levels (item_readers levels).ref tokens.now)) }
{
    let (_, rest) = opening_sign(OPEN_PAREN, levels, tokens)?;
    let (of, rest) = used(alloc, levels - 1, rest)?;
    let (_, rest) = sign(CLOSE_PAREN, rest)?;
    Ok((Use::Early { of }, rest))
}

/// A use.
#[tactic(auto, unfolding(law_grammar::specs::References::read_use))]
fn one_use(alloc: Global, levels: u8, tokens: &[Token]) -> Result<(Use, &[Token]), Stop>
    ensures found { IfOk result (λ found. read_use levels (item_readers levels).ref tokens.now ≡ Ok (found.0, found.1.now)) }
    ensures stop { IfErr result (λ stop. StopsAs stop (read_use levels (item_readers levels).ref tokens.now)) }
{
    if next_is_sign(OPEN_PAREN, tokens) {
        return early(alloc, levels, tokens);
    }
    if next_is_name_and_sign(ARROW, tokens) {
        return keep(alloc, levels, tokens);
    }
    let (of, rest) = used(alloc, levels, tokens)?;
    Ok((Use::Plain { of }, rest))
}

fn comma_use(alloc: Global, levels: u8, tokens: &[Token]) -> Result<(Use, &[Token]), Stop>
    ensures found { IfOk result (λ found. bind (take (a_token comma)) (λ at. read_use levels (item_readers levels).ref) tokens.now ≡ Ok (found.0, found.1.now)) }
    ensures stop { IfErr result (λ stop. StopsAs stop (bind (take (a_token comma)) (λ at. read_use levels (item_readers levels).ref) tokens.now)) }
{
    let (_, rest) = sign(COMMA, tokens)?;
    one_use(alloc, levels, rest)
}

/// X { ',' X } for uses.
#[tactic(auto, using(crate::proofs::Loops::uses_end, crate::proofs::Loops::uses_halt, crate::proofs::Loops::uses_go_on, crate::proofs::Loops::uses_shrink))]
fn uses(alloc: Global, levels: u8, tokens: &[Token]) -> Result<(Seq<Use>, &[Token]), Stop>
    ensures found { IfOk result (λ found. read_separated (read_use levels (item_readers levels).ref) tokens.now ≡ Ok (found.0, found.1.now)) }
    ensures stop { IfErr result (λ stop. StopsAs stop (read_separated (read_use levels (item_readers levels).ref) tokens.now)) }
{
    let (first, after) = one_use(alloc, levels, tokens)?;
    let mut items = Vec::new(alloc);
    items.push(first)?;
    let mut rest = after;
    while next_is_sign(COMMA, rest) {
        let (next, after) = comma_use(alloc, levels, rest)?;
        items.push(next)?;
        rest = after;
    }
    Ok((Seq::from_vec(items), rest))
}

fn comma_ref(alloc: Global, levels: u8, tokens: &[Token]) -> Result<(Ref, &[Token]), Stop>
    ensures found { IfOk result (λ found. bind (take (a_token comma)) (λ at. read_ref levels) tokens.now ≡ Ok (found.0, found.1.now)) }
    ensures stop { IfErr result (λ stop. StopsAs stop (bind (take (a_token comma)) (λ at. read_ref levels) tokens.now)) }
{
    let (_, rest) = sign(COMMA, tokens)?;
    reference(alloc, levels, rest)
}

/// X { ',' X } for references.
#[tactic(auto, using(crate::proofs::Loops::refs_end, crate::proofs::Loops::refs_halt, crate::proofs::Loops::refs_go_on, crate::proofs::Loops::refs_shrink))]
fn references(alloc: Global, levels: u8, tokens: &[Token]) -> Result<(Seq<Ref>, &[Token]), Stop>
    ensures found { IfOk result (λ found. read_separated (read_ref levels) tokens.now ≡ Ok (found.0, found.1.now)) }
    ensures stop { IfErr result (λ stop. StopsAs stop (read_separated (read_ref levels) tokens.now)) }
{
    let (first, after) = reference(alloc, levels, tokens)?;
    let mut items = Vec::new(alloc);
    items.push(first)?;
    let mut rest = after;
    while next_is_sign(COMMA, rest) {
        let (next, after) = comma_ref(alloc, levels, rest)?;
        items.push(next)?;
        rest = after;
    }
    Ok((Seq::from_vec(items), rest))
}

/// 'using' uses 'prove' references ';'
#[tactic(auto, unfolding(law_grammar::specs::References::read_using))]
pub fn using_item(alloc: Global, levels: u8, tokens: &[Token]) -> Result<(Item, &[Token]), Stop>
    ensures found { IfOk result (λ found. read_using levels (item_readers levels).ref tokens.now ≡ Ok (found.0, found.1.now)) }
    ensures stop { IfErr result (λ stop. StopsAs stop (read_using levels (item_readers levels).ref tokens.now)) }
{
    let (at, rest) = word(WORD_USING, tokens)?;
    let (uses, rest) = uses(alloc, levels, rest)?;
    let (_, rest) = word(WORD_PROVE, rest)?;
    let (proves, rest) = references(alloc, levels, rest)?;
    let (_, rest) = sign(SEMICOLON, rest)?;
    Ok((Item::Using { uses, proves, at }, rest))
}

/// Where the next token stands, or 0.
fn next_at(tokens: &[Token]) -> u32
    ensures { result ≡ first_at tokens.now }
{
    match tokens.split_first() {
        Some((first, _)) => first.at,
        None => 0,
    }
}

/// A sum, and where it begins.
fn placed_sum(alloc: Global, levels: u8, tokens: &[Token]) -> Result<((Expr, u32), &[Token]), Stop>
    ensures found { IfOk result (λ found. noting first_at (read_sum levels (expr_readers levels)) tokens.now ≡ Ok (found.0, found.1.now)) }
    ensures stop { IfErr result (λ stop. StopsAs stop (noting first_at (read_sum levels (expr_readers levels)) tokens.now)) }
{
    let at = next_at(tokens);
    let (sum, rest) = sum(alloc, levels, tokens)?;
    Ok(((sum, at), rest))
}

/// Sum '=' name
#[tactic(auto, unfolding(law_grammar::specs::References::read_pair))]
fn pair(alloc: Global, levels: u8, tokens: &[Token]) -> Result<(Pair, &[Token]), Stop>
    ensures found { IfOk result (λ found. read_pair levels tokens.now ≡ Ok (found.0, found.1.now)) }
    ensures stop { IfErr result (λ stop. StopsAs stop (read_pair levels tokens.now)) }
{
    let ((left, at), rest) = placed_sum(alloc, levels, tokens)?;
    let (_, rest) = sign(EQUAL, rest)?;
    let (right, rest) = name(alloc, rest)?;
    Ok((Pair { left, right, at }, rest))
}

fn comma_pair(alloc: Global, levels: u8, tokens: &[Token]) -> Result<(Pair, &[Token]), Stop>
    ensures found { IfOk result (λ found. bind (take (a_token comma)) (λ at. read_pair levels) tokens.now ≡ Ok (found.0, found.1.now)) }
    ensures stop { IfErr result (λ stop. StopsAs stop (bind (take (a_token comma)) (λ at. read_pair levels) tokens.now)) }
{
    let (_, rest) = sign(COMMA, tokens)?;
    pair(alloc, levels, rest)
}

/// X { ',' X } for equations.
#[tactic(auto, using(crate::proofs::Loops::pairs_end, crate::proofs::Loops::pairs_halt, crate::proofs::Loops::pairs_go_on, crate::proofs::Loops::pairs_shrink))]
fn pairs(alloc: Global, levels: u8, tokens: &[Token]) -> Result<(Seq<Pair>, &[Token]), Stop>
    ensures found { IfOk result (λ found. read_separated (read_pair levels) tokens.now ≡ Ok (found.0, found.1.now)) }
    ensures stop { IfErr result (λ stop. StopsAs stop (read_separated (read_pair levels) tokens.now)) }
{
    let (first, after) = pair(alloc, levels, tokens)?;
    let mut items = Vec::new(alloc);
    items.push(first)?;
    let mut rest = after;
    while next_is_sign(COMMA, rest) {
        let (next, after) = comma_pair(alloc, levels, rest)?;
        items.push(next)?;
        rest = after;
    }
    Ok((Seq::from_vec(items), rest))
}

/// { '[' name ']' }
#[tactic(auto, using(crate::proofs::Loops::brackets_end, crate::proofs::Loops::brackets_halt, crate::proofs::Loops::brackets_go_on, crate::proofs::Loops::brackets_shrink))]
fn brackets(alloc: Global, levels: u8, tokens: &[Token]) -> Result<(Seq<Word>, &[Token]), Stop>
    ensures found { IfOk result (λ found. loop (begins (exactly open_bracket ∷ [])) (read_in_brackets levels) tokens.now ≡ Ok (found.0, found.1.now)) }
    ensures stop { IfErr result (λ stop. StopsAs stop (loop (begins (exactly open_bracket ∷ [])) (read_in_brackets levels) tokens.now)) }
{
    let mut items = Vec::new(alloc);
    let mut rest = tokens;
    while next_is_sign(OPEN_BRACKET, rest) {
        let (next, after) = in_brackets(alloc, levels, rest)?;
        items.push(next)?;
        rest = after;
    }
    Ok((Seq::from_vec(items), rest))
}

/// 'for' equations ';' behind the reference of a split.
fn split_for(
    alloc: Global,
    levels: u8,
    at: u32,
    name: Word,
    vars: Seq<Word>,
    of: Ref,
    tokens: &[Token],
) -> Result<(Item, &[Token]), Stop>
    ensures found { IfOk result (λ found. read_split_for levels at name vars of tokens.now ≡ Ok (found.0, found.1.now)) }
    ensures stop { IfErr result (λ stop. StopsAs stop (read_split_for levels at name vars of tokens.now)) }
{
    let (_, rest) = word(WORD_FOR, tokens)?;
    let (pairs, rest) = pairs(alloc, levels, rest)?;
    let (_, rest) = sign(SEMICOLON, rest)?;
    Ok((
        Item::Split {
            name,
            vars,
            of,
            pairs,
            at,
        },
        rest,
    ))
}

/// 'of' Ref 'for' equations ';' behind the name of a split and its variables.
fn split_of(
    alloc: Global,
    levels: u8,
    at: u32,
    name: Word,
    vars: Seq<Word>,
    tokens: &[Token],
) -> Result<(Item, &[Token]), Stop>
    ensures found { IfOk result (λ found. read_split_behind levels at name vars tokens.now ≡ Ok (found.0, found.1.now)) }
    ensures stop { IfErr result (λ stop. StopsAs stop (read_split_behind levels at name vars tokens.now)) }
{
    let (_, rest) = word(WORD_OF, tokens)?;
    let (of, rest) = reference(alloc, levels, rest)?;
    split_for(alloc, levels, at, name, vars, of, rest)
}

/// A split.
#[tactic(auto, unfolding(law_grammar::specs::References::read_split))]
pub fn split(alloc: Global, levels: u8, tokens: &[Token]) -> Result<(Item, &[Token]), Stop>
    ensures found { IfOk result (λ found. read_split levels tokens.now ≡ Ok (found.0, found.1.now)) }
    ensures stop { IfErr result (λ stop. StopsAs stop (read_split levels tokens.now)) }
{
    let (at, rest) = word(WORD_SUBCASE, tokens)?;
    let (name, rest) = name(alloc, rest)?;
    let (vars, rest) = brackets(alloc, levels, rest)?;
    split_of(alloc, levels, at, name, vars, rest)
}
