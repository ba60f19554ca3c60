// What stands in the body of a module, save statements.
ghost use Rattle.std.specs.Prelude.{◌≡◌, ◌<◌, ◌-◌, ◌∷◌, [], Option, Some, None, Ok, IfOk, IfErr};
ghost use Rattle.smv_core.specs.Signs.{comma, close_bracket};
ghost use Rattle.smv_core.specs.Grammar.{named, place_of};
ghost use Rattle.smv_core.specs.Notation.{same_kind};
ghost use Rattle.law_grammar.specs.Parsing.{bind, pure, take, loop};
ghost use Rattle.law_grammar.specs.Marks.{exactly, begins};
ghost use Rattle.law_grammar.specs.Readers.{a_token, a_name, read_separated, read_separated_or_none, noting};
ghost use Rattle.law_grammar.specs.Expressions.{expr_marks, read_expr, expr_readers};
ghost use Rattle.law_grammar.specs.Items.{name_alone, vars_of, read_marked, read_claimed, read_assigned, read_behind, read_named, read_declared, read_instance, read_of_names, read_behind_colon, read_listed, read_named_body, read_with_role, read_layer};
ghost use Rattle.smv_parse_expressions.specs.Answers.{StopsAs};
ghost use Rattle.smv_parse_items.specs.Pieces.{read_parts, read_chosen, put_after, read_instance_end, read_instance_behind, read_layer_behind, read_named_behind};

use smv_core::name::Name;
use smv_core::seq::Seq;
use smv_core::signs::{
    CLOSE_BRACE, CLOSE_BRACKET, CLOSE_PAREN, COLON, COMMA, DOT, OPEN_BRACE, OPEN_BRACKET,
    OPEN_PAREN, SEMICOLON, WORD_ASSERT, WORD_G, WORD_LAYER,
};
use smv_core::token::{Token, TokenKind};
use smv_core::tree::{Expr, Item, Kind, Part, Path, Role, Stmt, Word};
use smv_parse_expressions::ahead::{next_is_part, next_is_sign, next_is_word};
use smv_parse_expressions::exprs::expr;
use smv_parse_expressions::names::names;
use smv_parse_expressions::single::{name, opening_sign, sign, word};
use smv_parse_expressions::stop::Stop;
use smv_parse_expressions::types::type_expr;
use smv_parse_statements::ahead::{
    next_begins_expr, next_is_comma_or_colon, next_is_name_and_sign,
};
use smv_parse_statements::grammar::stmts;
use smv_parse_statements::parts::value;
use smv_parse_statements::tokens::role;
use std::alloc::Global;

// ---- what stands behind a name

fn name_at(alloc: Global, token: &Token) -> Result<Option<Word>, Stop>
    ensures made { IfOk result (λ made. made ≡ a_name token.now) }
    ensures stop { IfErr result (λ stop. stop ≡ Stop.OutOfMemory) }
{
    match &token.kind {
        TokenKind::Ident(bytes) => {
            let name = Name::from_vec(Vec::from_slice(alloc, bytes.as_bytes())?);
            Ok(Some(Word { name, at: token.at }))
        }
        _ => Ok(None),
    }
}

fn is_close_bracket(token: &Token) -> bool
    ensures { result ≡ same_kind token.now.kind close_bracket }
{
    match &token.kind {
        TokenKind::Sign(place) => *place == CLOSE_BRACKET,
        _ => false,
    }
}

/// The name that stands alone before a closing bracket.
fn name_alone(alloc: Global, tokens: &[Token]) -> Result<Option<Word>, Stop>
    ensures made { IfOk result (λ made. made ≡ name_alone tokens.now) }
    ensures stop { IfErr result (λ stop. stop ≡ Stop.OutOfMemory) }
{
    let (first, rest) = match tokens.split_first() {
        Some(parts) => parts,
        None => return Ok(None),
    };
    let (second, _) = match rest.split_first() {
        Some(parts) => parts,
        None => return Ok(None),
    };
    if is_close_bracket(second) {
        return name_at(alloc, first);
    }
    Ok(None)
}

/// Expr ']' behind an opening bracket.
#[tactic(auto, using(law_grammar::proofs::Steps::next_expr))]
fn indexed(alloc: Global, levels: u8, tokens: &[Token]) -> Result<(Part, &[Token]), Stop>
    requires { 0 < levels }
    ensures found { IfOk result (λ found. bind (expr_readers levels).expr (λ x. bind (take (a_token close_bracket)) (λ at. pure (Part.At x))) tokens.now ≡ Ok (found.0, found.1.now)) }
    ensures stop { IfErr result (λ stop. StopsAs stop (bind (expr_readers levels).expr (λ x. bind (take (a_token close_bracket)) (λ at. pure (Part.At x))) tokens.now)) }
{
    let (index, rest) = expr(alloc, levels - 1, tokens)?;
    let (_, rest) = sign(CLOSE_BRACKET, rest)?;
    Ok((Part::At { index }, rest))
}

/// The same, and the name that stands alone there.
fn noted(
    alloc: Global,
    levels: u8,
    tokens: &[Token],
) -> Result<((Part, Option<Word>), &[Token]), Stop>
    requires { 0 < levels }
    ensures found { IfOk result (λ found. noting name_alone (bind (expr_readers levels).expr (λ x. bind (take (a_token close_bracket)) (λ at. pure (Part.At x)))) tokens.now ≡ Ok (found.0, found.1.now)) }
    ensures stop { IfErr result (λ stop. StopsAs stop (noting name_alone (bind (expr_readers levels).expr (λ x. bind (take (a_token close_bracket)) (λ at. pure (Part.At x)))) tokens.now)) }
{
    let name = name_alone(alloc, tokens)?;
    let (part, rest) = indexed(alloc, levels, tokens)?;
    Ok(((part, name), rest))
}

/// A part of a path, and the name that it is in brackets.
#[tactic(auto, using(law_grammar::proofs::Steps::open_then), unfolding(law_grammar::specs::Items::read_marked))]
fn marked(
    alloc: Global,
    levels: u8,
    tokens: &[Token],
) -> Result<((Part, Option<Word>), &[Token]), Stop>
    ensures found { IfOk result (λ found. read_marked levels tokens.now ≡ Ok (found.0, found.1.now)) }
    ensures stop { IfErr result (λ stop. StopsAs stop (read_marked levels tokens.now)) }
{
    if next_is_sign(DOT, tokens) {
        let (_, rest) = sign(DOT, tokens)?;
        let (name, rest) = name(alloc, rest)?;
        return Ok(((Part::Field { name }, None), rest));
    }
    let (_, rest) = opening_sign(OPEN_BRACKET, levels, tokens)?;
    noted(alloc, levels, rest)
}

fn put_after(vars: Option<Seq<Word>>, name: Option<Word>) -> Result<Option<Seq<Word>>, Stop>
    ensures made { IfOk result (λ made. made ≡ put_after vars name) }
    ensures stop { IfErr result (λ stop. stop ≡ Stop.OutOfMemory) }
{
    match vars {
        Some(mut vars) => match name {
            Some(name) => {
                vars.push(name)?;
                Ok(Some(vars))
            }
            None => Ok(None),
        },
        None => Ok(None),
    }
}

/// The parts behind a name, and the names where each part is one in brackets.
#[tactic(auto, using(crate::proofs::Marked::marked_end, crate::proofs::Marked::marked_halt, crate::proofs::Marked::marked_go_on, crate::proofs::Marked::marked_shrink))]
pub fn marked_parts(
    alloc: Global,
    levels: u8,
    tokens: &[Token],
) -> Result<((Seq<Part>, Option<Seq<Word>>), &[Token]), Stop>
    ensures found { IfOk result (λ found. read_parts levels tokens.now ≡ Ok (found.0, found.1.now)) }
    ensures stop { IfErr result (λ stop. StopsAs stop (read_parts levels tokens.now)) }
{
    let mut parts = Vec::new(alloc);
    let mut vars = Some(Seq::new(alloc));
    let mut rest = tokens;
    while next_is_part(rest) {
        let ((part, name), after) = marked(alloc, levels, rest)?;
        parts.push(part)?;
        vars = put_after(vars, name)?;
        rest = after;
    }
    Ok(((Seq::from_vec(parts), vars), rest))
}

/// 'assert' 'G' Expr ';'
#[tactic(auto, unfolding(law_grammar::specs::Items::read_claimed))]
fn claimed(
    alloc: Global,
    levels: u8,
    name: Word,
    vars: Seq<Word>,
    tokens: &[Token],
) -> Result<(Item, &[Token]), Stop>
    ensures found { IfOk result (λ found. read_claimed levels name vars tokens.now ≡ Ok (found.0, found.1.now)) }
    ensures stop { IfErr result (λ stop. StopsAs stop (read_claimed levels name vars tokens.now)) }
{
    let (_, rest) = word(WORD_ASSERT, tokens)?;
    let (_, rest) = word(WORD_G, rest)?;
    let (body, rest) = expr(alloc, levels, rest)?;
    let (_, rest) = sign(SEMICOLON, rest)?;
    let at = name.at;
    Ok((
        Item::Claim {
            name,
            vars,
            body,
            at,
        },
        rest,
    ))
}

fn path_of(name: Word, more: Seq<Part>) -> Result<Path, Stop>
    ensures made { IfOk result (λ made. made ≡ named name more) }
    ensures stop { IfErr result (λ stop. stop ≡ Stop.OutOfMemory) }
{
    let at = name.at;
    let mut parts = more.into_vec();
    parts.insert(0, Part::Field { name })?;
    let parts = Seq::from_vec(parts);
    Ok(Path { parts, at })
}

/// ':=' Expr ';' behind a path.
#[tactic(auto, unfolding(law_grammar::specs::Items::read_assigned))]
pub fn assigned(
    alloc: Global,
    levels: u8,
    name: Word,
    more: Seq<Part>,
    tokens: &[Token],
) -> Result<(Item, &[Token]), Stop>
    ensures found { IfOk result (λ found. read_assigned levels name more tokens.now ≡ Ok (found.0, found.1.now)) }
    ensures stop { IfErr result (λ stop. StopsAs stop (read_assigned levels name more tokens.now)) }
{
    let (value, rest) = value(alloc, levels, tokens)?;
    let left = path_of(name, more)?;
    let at = left.at;
    let act = Stmt::Assign {
        kind: Kind::Comb,
        left,
        value,
        at,
    };
    Ok((Item::Act { act }, rest))
}

/// A claim where it may be one, and else an assignment.
fn chosen(
    alloc: Global,
    levels: u8,
    name: Word,
    more: Seq<Part>,
    vars: Option<Seq<Word>>,
    tokens: &[Token],
) -> Result<(Item, &[Token]), Stop>
    ensures found { IfOk result (λ found. read_chosen levels name more vars tokens.now ≡ Ok (found.0, found.1.now)) }
    ensures stop { IfErr result (λ stop. StopsAs stop (read_chosen levels name more vars tokens.now)) }
{
    match vars {
        Some(vars) => {
            if next_is_sign(COLON, tokens) {
                let (_, rest) = sign(COLON, tokens)?;
                return claimed(alloc, levels, name, vars, rest);
            }
            assigned(alloc, levels, name, more, tokens)
        }
        None => assigned(alloc, levels, name, more, tokens),
    }
}

/// What stands behind the name of a claim or an assignment.
fn behind(alloc: Global, levels: u8, name: Word, tokens: &[Token]) -> Result<(Item, &[Token]), Stop>
    ensures found { IfOk result (λ found. read_behind levels vars_of name tokens.now ≡ Ok (found.0, found.1.now)) }
    ensures stop { IfErr result (λ stop. StopsAs stop (read_behind levels vars_of name tokens.now)) }
{
    let ((more, vars), rest) = marked_parts(alloc, levels, tokens)?;
    chosen(alloc, levels, name, more, vars, rest)
}

/// A claim or an assignment.
#[tactic(auto, unfolding(law_grammar::specs::Items::read_named))]
pub fn named(alloc: Global, levels: u8, tokens: &[Token]) -> Result<(Item, &[Token]), Stop>
    ensures found { IfOk result (λ found. read_named levels tokens.now ≡ Ok (found.0, found.1.now)) }
    ensures stop { IfErr result (λ stop. StopsAs stop (read_named levels tokens.now)) }
{
    let (name, rest) = name(alloc, tokens)?;
    behind(alloc, levels, name, rest)
}

// ---- declarations and instances

/// Type ';'
#[tactic(auto, unfolding(law_grammar::specs::Items::read_declared))]
fn declared(
    alloc: Global,
    levels: u8,
    role: Role,
    names: Seq<Word>,
    at: u32,
    tokens: &[Token],
) -> Result<(Item, &[Token]), Stop>
    ensures found { IfOk result (λ found. read_declared levels role names at tokens.now ≡ Ok (found.0, found.1.now)) }
    ensures stop { IfErr result (λ stop. StopsAs stop (read_declared levels role names at tokens.now)) }
{
    let (of, rest) = type_expr(alloc, levels, tokens)?;
    let (_, rest) = sign(SEMICOLON, rest)?;
    Ok((
        Item::Declare {
            role,
            names,
            of,
            at,
        },
        rest,
    ))
}

/// Where a list of names begins.
fn place_of(names: &[Word]) -> u32
    ensures { result ≡ place_of names.now }
{
    match names.split_first() {
        Some((first, _)) => first.at,
        None => 0,
    }
}

fn comma_expr(alloc: Global, levels: u8, tokens: &[Token]) -> Result<(Expr, &[Token]), Stop>
    ensures found { IfOk result (λ found. bind (take (a_token comma)) (λ at. read_expr levels (expr_readers levels)) tokens.now ≡ Ok (found.0, found.1.now)) }
    ensures stop { IfErr result (λ stop. StopsAs stop (bind (take (a_token comma)) (λ at. read_expr levels (expr_readers levels)) tokens.now)) }
{
    let (_, rest) = sign(COMMA, tokens)?;
    expr(alloc, levels, rest)
}

/// { ',' X } for expressions.
#[tactic(auto, using(crate::proofs::Loops::args_end, crate::proofs::Loops::args_halt, crate::proofs::Loops::args_go_on, crate::proofs::Loops::args_shrink, smv_parse_expressions::proofs::Loops::not_begun))]
fn more_exprs(alloc: Global, levels: u8, tokens: &[Token]) -> Result<(Vec<Expr>, &[Token]), Stop>
    ensures found { IfOk result (λ found. loop (begins (exactly comma ∷ [])) (bind (take (a_token comma)) (λ at. read_expr levels (expr_readers levels))) tokens.now ≡ Ok (found.0.items, found.1.now)) }
    ensures stop { IfErr result (λ stop. StopsAs stop (loop (begins (exactly comma ∷ [])) (bind (take (a_token comma)) (λ at. read_expr levels (expr_readers levels))) tokens.now)) }
{
    let mut items = Vec::new(alloc);
    let mut rest = tokens;
    while next_is_sign(COMMA, rest) {
        let (next, after) = comma_expr(alloc, levels, rest)?;
        items.push(next)?;
        rest = after;
    }
    Ok((items, rest))
}

/// X { ',' X } for expressions.
fn exprs(alloc: Global, levels: u8, tokens: &[Token]) -> Result<(Seq<Expr>, &[Token]), Stop>
    ensures found { IfOk result (λ found. read_separated (read_expr levels (expr_readers levels)) tokens.now ≡ Ok (found.0, found.1.now)) }
    ensures stop { IfErr result (λ stop. StopsAs stop (read_separated (read_expr levels (expr_readers levels)) tokens.now)) }
{
    let (first, rest) = expr(alloc, levels, tokens)?;
    let (mut items, rest) = more_exprs(alloc, levels, rest)?;
    items.insert(0, first)?;
    Ok((Seq::from_vec(items), rest))
}

/// [ X { ',' X } ] for expressions.
fn exprs_or_none(alloc: Global, levels: u8, tokens: &[Token]) -> Result<(Seq<Expr>, &[Token]), Stop>
    ensures found { IfOk result (λ found. read_separated_or_none expr_marks (read_expr levels (expr_readers levels)) tokens.now ≡ Ok (found.0, found.1.now)) }
    ensures stop { IfErr result (λ stop. StopsAs stop (read_separated_or_none expr_marks (read_expr levels (expr_readers levels)) tokens.now)) }
{
    if next_begins_expr(tokens) {
        return exprs(alloc, levels, tokens);
    }
    Ok((Seq::new(alloc), tokens))
}

/// [ Expr { ',' Expr } ] inside an opened level.
#[tactic(auto, using(law_grammar::proofs::Steps::next_expr))]
fn inner_exprs(alloc: Global, levels: u8, tokens: &[Token]) -> Result<(Seq<Expr>, &[Token]), Stop>
    requires { 0 < levels }
    ensures found { IfOk result (λ found. read_separated_or_none expr_marks ((expr_readers levels).expr) tokens.now ≡ Ok (found.0, found.1.now)) }
    ensures stop { IfErr result (λ stop. StopsAs stop (read_separated_or_none expr_marks ((expr_readers levels).expr) tokens.now)) }
{
    exprs_or_none(alloc, levels - 1, tokens)
}

/// ')' ';' behind the arguments of an instance.
fn instance_end(
    names: Seq<Word>,
    called: Word,
    args: Seq<Expr>,
    tokens: &[Token],
) -> Result<(Item, &[Token]), Stop>
    ensures found { IfOk result (λ found. read_instance_end names called args tokens.now ≡ Ok (found.0, found.1.now)) }
    ensures stop { IfErr result (λ stop. StopsAs stop (read_instance_end names called args tokens.now)) }
{
    let (_, rest) = sign(CLOSE_PAREN, tokens)?;
    let (_, rest) = sign(SEMICOLON, rest)?;
    let at = place_of(names.as_slice());
    Ok((
        Item::Instance {
            names,
            module: called,
            args,
            at,
        },
        rest,
    ))
}

/// '(' [ Expr { ',' Expr } ] ')' ';' behind the module of an instance.
#[tactic(auto, using(law_grammar::proofs::Steps::open_then))]
fn arguments(
    alloc: Global,
    levels: u8,
    names: Seq<Word>,
    called: Word,
    tokens: &[Token],
) -> Result<(Item, &[Token]), Stop>
    ensures found { IfOk result (λ found. read_instance_behind levels names called tokens.now ≡ Ok (found.0, found.1.now)) }
    ensures stop { IfErr result (λ stop. StopsAs stop (read_instance_behind levels names called tokens.now)) }
{
    let (_, rest) = opening_sign(OPEN_PAREN, levels, tokens)?;
    let (args, rest) = inner_exprs(alloc, levels, rest)?;
    instance_end(names, called, args, rest)
}

/// An instance from its module on.
#[tactic(auto, unfolding(law_grammar::specs::Items::read_instance))]
fn instance(
    alloc: Global,
    levels: u8,
    names: Seq<Word>,
    tokens: &[Token],
) -> Result<(Item, &[Token]), Stop>
    ensures found { IfOk result (λ found. read_instance levels names tokens.now ≡ Ok (found.0, found.1.now)) }
    ensures stop { IfErr result (λ stop. StopsAs stop (read_instance levels names tokens.now)) }
{
    let (called, rest) = name(alloc, tokens)?;
    arguments(alloc, levels, names, called, rest)
}

/// An instance, where a parenthesis follows a name, and else a declaration.
#[tactic(auto, unfolding(law_grammar::specs::Items::read_of_names))]
pub fn of_names(
    alloc: Global,
    levels: u8,
    names: Seq<Word>,
    tokens: &[Token],
) -> Result<(Item, &[Token]), Stop>
    ensures found { IfOk result (λ found. read_of_names levels names tokens.now ≡ Ok (found.0, found.1.now)) }
    ensures stop { IfErr result (λ stop. StopsAs stop (read_of_names levels names tokens.now)) }
{
    if next_is_name_and_sign(OPEN_PAREN, tokens) {
        return instance(alloc, levels, names, tokens);
    }
    let at = place_of(names.as_slice());
    declared(alloc, levels, Role::Plain, names, at, tokens)
}

/// A name before names.
pub fn put_before(name: Word, more: Seq<Word>) -> Result<Seq<Word>, Stop>
    ensures made { IfOk result (λ made. made ≡ name ∷ more) }
    ensures stop { IfErr result (λ stop. stop ≡ Stop.OutOfMemory) }
{
    let mut names = more.into_vec();
    names.insert(0, name)?;
    Ok(Seq::from_vec(names))
}

/// What stands behind the colon of one name or several.
#[tactic(auto, using(crate::proofs::Marked::colon_other, crate::proofs::Marked::colon_several, crate::proofs::Marked::colon_claim))]
fn behind_colon(
    alloc: Global,
    levels: u8,
    name: Word,
    more: Seq<Word>,
    tokens: &[Token],
) -> Result<(Item, &[Token]), Stop>
    ensures found { IfOk result (λ found. read_behind_colon levels name more tokens.now ≡ Ok (found.0, found.1.now)) }
    ensures stop { IfErr result (λ stop. StopsAs stop (read_behind_colon levels name more tokens.now)) }
{
    if !next_is_word(WORD_ASSERT, tokens) {
        let names = put_before(name, more)?;
        return of_names(alloc, levels, names, tokens);
    }
    if more.len() > 0 {
        let names = put_before(name, more)?;
        return of_names(alloc, levels, names, tokens);
    }
    claimed(alloc, levels, name, more, tokens)
}

fn comma_name(alloc: Global, tokens: &[Token]) -> Result<(Word, &[Token]), Stop>
    ensures found { IfOk result (λ found. bind (take (a_token comma)) (λ at. take a_name) tokens.now ≡ Ok (found.0, found.1.now)) }
    ensures stop { IfErr result (λ stop. StopsAs stop (bind (take (a_token comma)) (λ at. take a_name) tokens.now)) }
{
    let (_, rest) = sign(COMMA, tokens)?;
    name(alloc, rest)
}

/// { ',' name }
#[tactic(auto, using(crate::proofs::Loops::names_end, crate::proofs::Loops::names_halt, crate::proofs::Loops::names_go_on, crate::proofs::Loops::names_shrink, smv_parse_expressions::proofs::Loops::not_begun))]
pub fn more_names(alloc: Global, tokens: &[Token]) -> Result<(Seq<Word>, &[Token]), Stop>
    ensures found { IfOk result (λ found. loop (begins (exactly comma ∷ [])) (bind (take (a_token comma)) (λ at. take a_name)) tokens.now ≡ Ok (found.0, found.1.now)) }
    ensures stop { IfErr result (λ stop. StopsAs stop (loop (begins (exactly comma ∷ [])) (bind (take (a_token comma)) (λ at. take a_name)) tokens.now)) }
{
    let mut items = Vec::new(alloc);
    let mut rest = tokens;
    while next_is_sign(COMMA, rest) {
        let (next, after) = comma_name(alloc, rest)?;
        items.push(next)?;
        rest = after;
    }
    Ok((Seq::from_vec(items), rest))
}

/// What stands behind the first name, where a comma or a colon follows.
#[tactic(auto, unfolding(law_grammar::specs::Items::read_listed))]
fn listed(alloc: Global, levels: u8, name: Word, tokens: &[Token]) -> Result<(Item, &[Token]), Stop>
    ensures found { IfOk result (λ found. read_listed levels name tokens.now ≡ Ok (found.0, found.1.now)) }
    ensures stop { IfErr result (λ stop. StopsAs stop (read_listed levels name tokens.now)) }
{
    let (more, rest) = more_names(alloc, tokens)?;
    let (_, rest) = sign(COLON, rest)?;
    behind_colon(alloc, levels, name, more, rest)
}

/// What stands behind the first name in a body.
fn behind_name(
    alloc: Global,
    levels: u8,
    name: Word,
    tokens: &[Token],
) -> Result<(Item, &[Token]), Stop>
    ensures found { IfOk result (λ found. read_named_behind levels name tokens.now ≡ Ok (found.0, found.1.now)) }
    ensures stop { IfErr result (λ stop. StopsAs stop (read_named_behind levels name tokens.now)) }
{
    if next_is_comma_or_colon(tokens) {
        return listed(alloc, levels, name, tokens);
    }
    behind(alloc, levels, name, tokens)
}

/// What begins with a name in a body.
#[tactic(auto, unfolding(law_grammar::specs::Items::read_named_body))]
pub(crate) fn named_body(
    alloc: Global,
    levels: u8,
    tokens: &[Token],
) -> Result<(Item, &[Token]), Stop>
    ensures found { IfOk result (λ found. read_named_body levels tokens.now ≡ Ok (found.0, found.1.now)) }
    ensures stop { IfErr result (λ stop. StopsAs stop (read_named_body levels tokens.now)) }
{
    let (name, rest) = name(alloc, tokens)?;
    behind_name(alloc, levels, name, rest)
}

/// A declaration with a role.
#[tactic(auto, unfolding(law_grammar::specs::Items::read_with_role))]
pub fn with_role(alloc: Global, levels: u8, tokens: &[Token]) -> Result<(Item, &[Token]), Stop>
    ensures found { IfOk result (λ found. read_with_role levels tokens.now ≡ Ok (found.0, found.1.now)) }
    ensures stop { IfErr result (λ stop. StopsAs stop (read_with_role levels tokens.now)) }
{
    let ((role, at), rest) = role(tokens)?;
    let (names, rest) = names(alloc, rest)?;
    let (_, rest) = sign(COLON, rest)?;
    declared(alloc, levels, role, Seq::from_vec(names), at, rest)
}

/// '{' statements '}' behind the name of a layer.
#[tactic(auto, using(law_grammar::proofs::Steps::open_then, law_grammar::proofs::Steps::next_stmt))]
fn layer_body(
    alloc: Global,
    levels: u8,
    at: u32,
    name: Word,
    tokens: &[Token],
) -> Result<(Item, &[Token]), Stop>
    ensures found { IfOk result (λ found. read_layer_behind levels at name tokens.now ≡ Ok (found.0, found.1.now)) }
    ensures stop { IfErr result (λ stop. StopsAs stop (read_layer_behind levels at name tokens.now)) }
{
    let (_, rest) = opening_sign(OPEN_BRACE, levels, tokens)?;
    let (body, rest) = stmts(alloc, levels, rest)?;
    let (_, rest) = sign(CLOSE_BRACE, rest)?;
    Ok((Item::Layer { name, body, at }, rest))
}

/// A layer.
#[tactic(auto, unfolding(law_grammar::specs::Items::read_layer))]
pub fn layer(alloc: Global, levels: u8, tokens: &[Token]) -> Result<(Item, &[Token]), Stop>
    ensures found { IfOk result (λ found. read_layer levels tokens.now ≡ Ok (found.0, found.1.now)) }
    ensures stop { IfErr result (λ stop. StopsAs stop (read_layer levels tokens.now)) }
{
    let (at, rest) = word(WORD_LAYER, tokens)?;
    let (name, rest) = name(alloc, rest)?;
    let (_, rest) = sign(COLON, rest)?;
    layer_body(alloc, levels, at, name, rest)
}
