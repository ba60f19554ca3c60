// Sets and reductions.
ghost use Rattle.std.specs.Prelude.{◌≡◌, ◌<◌, ◌∷◌, [], Ok, IfOk, IfErr};
ghost use Rattle.smv_core.specs.Signs.{comma};
ghost use Rattle.law_grammar.specs.Parsing.{bind, take, loop};
ghost use Rattle.law_grammar.specs.Marks.{exactly, begins};
ghost use Rattle.law_grammar.specs.Readers.{a_token, read_separated};
ghost use Rattle.law_grammar.specs.Expressions.{read_listed, read_where, read_each, read_set, read_reduction, expr_readers};
ghost use Rattle.smv_parse_expressions.specs.Answers.{StopsAs};
ghost use Rattle.smv_parse_expressions.specs.Nests.{Nests};
ghost use Rattle.smv_parse_expressions.specs.Tails.{read_binding, read_bounds, read_range, read_reduced};

use crate::ahead::{next_is_bound, next_is_sign};
use crate::grammar::Grammar;
use crate::nodes::{each_of, reduction_of};
use crate::single::{name, opening_sign, reduction_sign, same_name, sign, word};
use crate::stop::{Read, Stop};
use crate::types::index;
use smv_core::seq::Seq;
use smv_core::signs::{
    CLOSE_BRACE, CLOSE_BRACKET, COLON, COMMA, OPEN_BRACE, OPEN_BRACKET, WORD_IN,
};
use smv_core::token::Token;
use smv_core::tree::{Expr, Member, Word};
use std::alloc::Global;

/// Behind the 'in' of a reduction: Index ']'
fn bounds(
    alloc: Global,
    all: bool,
    at: u32,
    body: Expr,
    var: Word,
    tokens: &[Token],
) -> Read<'_, Expr>
    ensures found { IfOk result (λ found. read_bounds all at body var tokens.now ≡ Ok (found.0, found.1.now)) }
    ensures stop { IfErr result (λ stop. StopsAs stop (read_bounds all at body var tokens.now)) }
{
    let (over, rest) = index(alloc, tokens)?;
    let (_, rest) = sign(CLOSE_BRACKET, rest)?;
    Ok((reduction_of(alloc, all, body, var, over, at)?, rest))
}

/// Behind the body of a reduction: ':' name 'in' Index ']'
fn binding(alloc: Global, all: bool, at: u32, body: Expr, tokens: &[Token]) -> Read<'_, Expr>
    ensures found { IfOk result (λ found. read_binding all at body tokens.now ≡ Ok (found.0, found.1.now)) }
    ensures stop { IfErr result (λ stop. StopsAs stop (read_binding all at body tokens.now)) }
{
    let (_, rest) = sign(COLON, tokens)?;
    let (var, rest) = name(alloc, rest)?;
    let (_, rest) = word(WORD_IN, rest)?;
    bounds(alloc, all, at, body, var, rest)
}

impl<F: Fn(Global, u8, bool, &[Token]) -> Result<(Expr, &[Token]), Stop>> Grammar<F> {
    /// ',' Member
    fn comma_member<'a>(&self, tokens: &'a [Token]) -> Read<'a, Member>
        requires nests { Nests self.now.levels (F.pre self.now.inner) (F.post self.now.inner) }
        requires left { 0 < self.now.levels }
        ensures found { IfOk result (λ found. (bind (take (a_token comma)) (λ at. (expr_readers self.now.levels).member)) tokens.now ≡ Ok (found.0, found.1.now)) }
        ensures stop { IfErr result (λ stop. StopsAs stop ((bind (take (a_token comma)) (λ at. (expr_readers self.now.levels).member)) tokens.now)) }
    {
        let (_, rest) = sign(COMMA, tokens)?;
        self.inner_member(rest)
    }

    /// { ',' Member }
    #[tactic(auto, using(crate::proofs::Loops::members_end, crate::proofs::Loops::members_halt, crate::proofs::Loops::members_go_on, crate::proofs::Loops::members_shrink, crate::proofs::Loops::not_begun))]
    fn more_members<'a>(&self, tokens: &'a [Token]) -> Read<'a, Vec<Member>>
        requires nests { Nests self.now.levels (F.pre self.now.inner) (F.post self.now.inner) }
        requires left { 0 < self.now.levels }
        ensures found { IfOk result (λ found. loop (begins (exactly comma ∷ [])) (bind (take (a_token comma)) (λ at. (expr_readers self.now.levels).member)) tokens.now ≡ Ok (found.0.items, found.1.now)) }
        ensures stop { IfErr result (λ stop. StopsAs stop (loop (begins (exactly comma ∷ [])) (bind (take (a_token comma)) (λ at. (expr_readers self.now.levels).member)) tokens.now)) }
    {
        let mut items = Vec::new(self.alloc);
        let mut rest = tokens;
        while next_is_sign(COMMA, rest) {
            let (next, after) = self.comma_member(rest)?;
            items.push(next)?;
            rest = after;
        }
        Ok((items, rest))
    }

    /// Member { ',' Member }
    fn members<'a>(&self, tokens: &'a [Token]) -> Read<'a, Vec<Member>>
        requires nests { Nests self.now.levels (F.pre self.now.inner) (F.post self.now.inner) }
        requires left { 0 < self.now.levels }
        ensures found { IfOk result (λ found. read_separated (expr_readers self.now.levels).member tokens.now ≡ Ok (found.0.items, found.1.now)) }
        ensures stop { IfErr result (λ stop. StopsAs stop (read_separated (expr_readers self.now.levels).member tokens.now)) }
    {
        let (first, rest) = self.inner_member(tokens)?;
        let (mut items, rest) = self.more_members(rest)?;
        items.insert(0, first)?;
        Ok((items, rest))
    }

    /// Behind the `{` of a listed set: Member { ',' Member } '}'
    #[tactic(auto, unfolding(law_grammar::specs::Expressions::read_listed))]
    fn listed<'a>(&self, at: u32, tokens: &'a [Token]) -> Read<'a, Expr>
        requires nests { Nests self.now.levels (F.pre self.now.inner) (F.post self.now.inner) }
        requires left { 0 < self.now.levels }
        ensures found { IfOk result (λ found. read_listed self.now.levels (expr_readers self.now.levels) at tokens.now ≡ Ok (found.0, found.1.now)) }
        ensures stop { IfErr result (λ stop. StopsAs stop (read_listed self.now.levels (expr_readers self.now.levels) at tokens.now)) }
    {
        let (members, rest) = self.members(tokens)?;
        let (_, rest) = sign(CLOSE_BRACE, rest)?;
        let members = Seq::from_vec(members);
        Ok((Expr::List { members, at }, rest))
    }

    /// [ ',' Expr ]
    #[tactic(auto, unfolding(law_grammar::specs::Expressions::read_where))]
    fn where_clause<'a>(&self, tokens: &'a [Token]) -> Read<'a, Option<Expr>>
        requires { Nests self.now.levels (F.pre self.now.inner) (F.post self.now.inner) }
        ensures found { IfOk result (λ found. read_where self.now.levels (expr_readers self.now.levels) tokens.now ≡ Ok (found.0, found.1.now)) }
        ensures stop { IfErr result (λ stop. StopsAs stop (read_where self.now.levels (expr_readers self.now.levels) tokens.now)) }
    {
        if next_is_sign(COMMA, tokens) {
            let (_, rest) = sign(COMMA, tokens)?;
            let (cond, rest) = self.inner_expr(rest)?;
            return Ok((Some(cond), rest));
        }
        Ok((None, tokens))
    }

    /// Behind the 'in' of a comprehension: Index [ ',' Expr ] '}'
    fn range<'a>(&self, at: u32, var: Word, tokens: &'a [Token]) -> Read<'a, Expr>
        requires { Nests self.now.levels (F.pre self.now.inner) (F.post self.now.inner) }
        ensures found { IfOk result (λ found. read_range self.now.levels at var tokens.now ≡ Ok (found.0, found.1.now)) }
        ensures stop { IfErr result (λ stop. StopsAs stop (read_range self.now.levels at var tokens.now)) }
    {
        let (over, rest) = index(self.alloc, tokens)?;
        let (cond, rest) = self.where_clause(rest)?;
        let (_, rest) = sign(CLOSE_BRACE, rest)?;
        Ok((each_of(self.alloc, var, over, cond, at)?, rest))
    }

    /// Behind the `{` of a comprehension: name ':' name 'in' Index [ ',' Expr ] '}', with the same name
    #[tactic(auto, unfolding(law_grammar::specs::Expressions::read_each))]
    fn each<'a>(&self, at: u32, tokens: &'a [Token]) -> Read<'a, Expr>
        requires { Nests self.now.levels (F.pre self.now.inner) (F.post self.now.inner) }
        ensures found { IfOk result (λ found. read_each self.now.levels (expr_readers self.now.levels) at tokens.now ≡ Ok (found.0, found.1.now)) }
        ensures stop { IfErr result (λ stop. StopsAs stop (read_each self.now.levels (expr_readers self.now.levels) at tokens.now)) }
    {
        let (var, rest) = name(self.alloc, tokens)?;
        let (_, rest) = sign(COLON, rest)?;
        let (_, rest) = same_name(&var, rest)?;
        let (_, rest) = word(WORD_IN, rest)?;
        self.range(at, var, rest)
    }

    /// A listed set, or a comprehension where a name and a colon stand behind the `{`.
    #[tactic(auto, using(law_grammar::proofs::Steps::open_then), unfolding(law_grammar::specs::Expressions::read_set))]
    pub fn set<'a>(&self, tokens: &'a [Token]) -> Read<'a, Expr>
        requires { Nests self.now.levels (F.pre self.now.inner) (F.post self.now.inner) }
        ensures found { IfOk result (λ found. read_set self.now.levels (expr_readers self.now.levels) tokens.now ≡ Ok (found.0, found.1.now)) }
        ensures stop { IfErr result (λ stop. StopsAs stop (read_set self.now.levels (expr_readers self.now.levels) tokens.now)) }
    {
        let (at, rest) = opening_sign(OPEN_BRACE, self.levels, tokens)?;
        if next_is_bound(rest) {
            return self.each(at, rest);
        }
        self.listed(at, rest)
    }

    /// Behind the sign of a reduction: '[' Expr ':' name 'in' Index ']'
    #[tactic(auto, using(law_grammar::proofs::Steps::open_then))]
    fn reduced<'a>(&self, all: bool, at: u32, tokens: &'a [Token]) -> Read<'a, Expr>
        requires { Nests self.now.levels (F.pre self.now.inner) (F.post self.now.inner) }
        ensures found { IfOk result (λ found. read_reduced self.now.levels all at tokens.now ≡ Ok (found.0, found.1.now)) }
        ensures stop { IfErr result (λ stop. StopsAs stop (read_reduced self.now.levels all at tokens.now)) }
    {
        let (_, rest) = opening_sign(OPEN_BRACKET, self.levels, tokens)?;
        let (body, rest) = self.inner_expr(rest)?;
        binding(self.alloc, all, at, body, rest)
    }

    /// ( '&' | '|' ) '[' Expr ':' name 'in' Index ']'
    #[tactic(auto, unfolding(law_grammar::specs::Expressions::read_reduction))]
    pub fn reduction<'a>(&self, tokens: &'a [Token]) -> Read<'a, Expr>
        requires { Nests self.now.levels (F.pre self.now.inner) (F.post self.now.inner) }
        ensures found { IfOk result (λ found. read_reduction self.now.levels (expr_readers self.now.levels) tokens.now ≡ Ok (found.0, found.1.now)) }
        ensures stop { IfErr result (λ stop. StopsAs stop (read_reduction self.now.levels (expr_readers self.now.levels) tokens.now)) }
    {
        let ((all, at), rest) = reduction_sign(tokens)?;
        self.reduced(all, at, rest)
    }
}
