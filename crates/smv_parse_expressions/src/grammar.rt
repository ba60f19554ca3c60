// Expressions within some levels, by a reader of what stands inside an opened level: so each rule is proved by itself.
ghost use Rattle.std.specs.Prelude.{◌≡◌, ◌<◌, ◌∷◌, [], Ok, IfOk, IfErr};
ghost use Rattle.smv_core.specs.Signs.{open_bracket, dot};
ghost use Rattle.law_grammar.specs.Parsing.{loop};
ghost use Rattle.law_grammar.specs.Marks.{exactly, begins};
ghost use Rattle.law_grammar.specs.Expressions.{read_part, read_path, read_condition, read_prim, expr_readers};
ghost use Rattle.smv_parse_expressions.specs.Answers.{StopsAs};
ghost use Rattle.smv_parse_expressions.specs.Nests.{Nests};
ghost use Rattle.smv_parse_expressions.specs.Tails.{read_grouped};

use crate::ahead::{next_is_name, next_is_number, next_is_part, next_is_sign, next_is_span};
use crate::nodes::path_of;
use crate::single::{name, number, opening_sign, sign};
use crate::stop::{Read, Stop};
use crate::types::span;
use smv_core::signs::{CLOSE_BRACKET, CLOSE_PAREN, DOT, OPEN_BRACE, OPEN_BRACKET, OPEN_PAREN};
use smv_core::token::Token;
use smv_core::tree::{Expr, Member, Part, Path};
use std::alloc::Global;

/// The rules within some levels. `inner` reads where fewer levels are left than a number: the operand of a `~`, or else an expression.
#[derive(Clone, Copy)]
pub struct Grammar<F> {
    pub alloc: Global,
    pub levels: u8,
    pub inner: F,
}

impl<F: Fn(Global, u8, bool, &[Token]) -> Result<(Expr, &[Token]), Stop>> Grammar<F> {
    /// An expression inside an opened level.
    pub(crate) fn inner_expr<'a>(&self, tokens: &'a [Token]) -> Read<'a, Expr>
        requires { Nests self.now.levels (F.pre self.now.inner) (F.post self.now.inner) }
        ensures found { IfOk result (λ found. (expr_readers self.now.levels).expr tokens.now ≡ Ok (found.0, found.1.now)) }
        ensures stop { IfErr result (λ stop. StopsAs stop ((expr_readers self.now.levels).expr tokens.now)) }
    {
        (self.inner)(self.alloc, self.levels, false, tokens)
    }

    /// The operand of a `~`.
    pub(crate) fn inner_negation<'a>(&self, tokens: &'a [Token]) -> Read<'a, Expr>
        requires { Nests self.now.levels (F.pre self.now.inner) (F.post self.now.inner) }
        ensures found { IfOk result (λ found. (expr_readers self.now.levels).negation tokens.now ≡ Ok (found.0, found.1.now)) }
        ensures stop { IfErr result (λ stop. StopsAs stop ((expr_readers self.now.levels).negation tokens.now)) }
    {
        (self.inner)(self.alloc, self.levels, true, tokens)
    }

    /// A member of a listed set: number '..' number | Expr
    #[tactic(auto, using(law_grammar::proofs::Steps::next_member, law_grammar::proofs::Steps::next_expr), unfolding(law_grammar::specs::Expressions::read_member))]
    pub(crate) fn inner_member<'a>(&self, tokens: &'a [Token]) -> Read<'a, Member>
        requires nests { Nests self.now.levels (F.pre self.now.inner) (F.post self.now.inner) }
        requires left { 0 < self.now.levels }
        ensures found { IfOk result (λ found. (expr_readers self.now.levels).member tokens.now ≡ Ok (found.0, found.1.now)) }
        ensures stop { IfErr result (λ stop. StopsAs stop ((expr_readers self.now.levels).member tokens.now)) }
    {
        if next_is_span(tokens) {
            let ((span, at), rest) = span(tokens)?;
            return Ok((Member::Span { span, at }, rest));
        }
        let (of, rest) = self.inner_expr(tokens)?;
        Ok((Member::One { of }, rest))
    }

    /// '.' name | '[' Expr ']'
    #[tactic(auto, using(law_grammar::proofs::Steps::open_then), unfolding(law_grammar::specs::Expressions::read_part))]
    pub fn part<'a>(&self, tokens: &'a [Token]) -> Read<'a, Part>
        requires { Nests self.now.levels (F.pre self.now.inner) (F.post self.now.inner) }
        ensures found { IfOk result (λ found. read_part self.now.levels (expr_readers self.now.levels) tokens.now ≡ Ok (found.0, found.1.now)) }
        ensures stop { IfErr result (λ stop. StopsAs stop (read_part self.now.levels (expr_readers self.now.levels) tokens.now)) }
    {
        if next_is_sign(DOT, tokens) {
            let (_, rest) = sign(DOT, tokens)?;
            let (name, rest) = name(self.alloc, rest)?;
            return Ok((Part::Field { name }, rest));
        }
        let (_, rest) = opening_sign(OPEN_BRACKET, self.levels, tokens)?;
        let (index, rest) = self.inner_expr(rest)?;
        let (_, rest) = sign(CLOSE_BRACKET, rest)?;
        Ok((Part::At { index }, rest))
    }

    /// { '.' name | '[' Expr ']' }
    #[tactic(auto, using(crate::proofs::Loops::parts_end, crate::proofs::Loops::parts_halt, crate::proofs::Loops::parts_go_on, crate::proofs::Loops::parts_shrink, crate::proofs::Loops::not_begun))]
    pub fn parts<'a>(&self, tokens: &'a [Token]) -> Read<'a, Vec<Part>>
        requires { Nests self.now.levels (F.pre self.now.inner) (F.post self.now.inner) }
        ensures found { IfOk result (λ found. loop (begins (exactly dot ∷ exactly open_bracket ∷ [])) (read_part self.now.levels (expr_readers self.now.levels)) tokens.now ≡ Ok (found.0.items, found.1.now)) }
        ensures stop { IfErr result (λ stop. StopsAs stop (loop (begins (exactly dot ∷ exactly open_bracket ∷ [])) (read_part self.now.levels (expr_readers self.now.levels)) tokens.now)) }
    {
        let mut items = Vec::new(self.alloc);
        let mut rest = tokens;
        while next_is_part(rest) {
            let (next, after) = self.part(rest)?;
            items.push(next)?;
            rest = after;
        }
        Ok((items, rest))
    }

    /// name { '.' name | '[' Expr ']' }
    #[tactic(auto, unfolding(law_grammar::specs::Expressions::read_path))]
    pub fn path<'a>(&self, tokens: &'a [Token]) -> Read<'a, Path>
        requires { Nests self.now.levels (F.pre self.now.inner) (F.post self.now.inner) }
        ensures found { IfOk result (λ found. read_path self.now.levels (expr_readers self.now.levels) tokens.now ≡ Ok (found.0, found.1.now)) }
        ensures stop { IfErr result (λ stop. StopsAs stop (read_path self.now.levels (expr_readers self.now.levels) tokens.now)) }
    {
        let (name, rest) = name(self.alloc, tokens)?;
        let (more, rest) = self.parts(rest)?;
        Ok((path_of(name, more)?, rest))
    }

    /// '(' Expr ')'
    #[tactic(auto, using(law_grammar::proofs::Steps::open_then), unfolding(law_grammar::specs::Expressions::read_condition))]
    pub fn condition<'a>(&self, tokens: &'a [Token]) -> Read<'a, Expr>
        requires { Nests self.now.levels (F.pre self.now.inner) (F.post self.now.inner) }
        ensures found { IfOk result (λ found. read_condition self.now.levels (expr_readers self.now.levels) tokens.now ≡ Ok (found.0, found.1.now)) }
        ensures stop { IfErr result (λ stop. StopsAs stop (read_condition self.now.levels (expr_readers self.now.levels) tokens.now)) }
    {
        let (_, rest) = opening_sign(OPEN_PAREN, self.levels, tokens)?;
        let (of, rest) = self.inner_expr(rest)?;
        let (_, rest) = sign(CLOSE_PAREN, rest)?;
        Ok((of, rest))
    }

    /// '(' Expr ')' | Set | Reduction
    fn grouped<'a>(&self, tokens: &'a [Token]) -> Read<'a, Expr>
        requires { Nests self.now.levels (F.pre self.now.inner) (F.post self.now.inner) }
        ensures found { IfOk result (λ found. read_grouped self.now.levels tokens.now ≡ Ok (found.0, found.1.now)) }
        ensures stop { IfErr result (λ stop. StopsAs stop (read_grouped self.now.levels tokens.now)) }
    {
        if next_is_sign(OPEN_PAREN, tokens) {
            return self.condition(tokens);
        }
        if next_is_sign(OPEN_BRACE, tokens) {
            return self.set(tokens);
        }
        self.reduction(tokens)
    }

    /// number | Path | '(' Expr ')' | Set | Reduction
    #[tactic(auto, unfolding(law_grammar::specs::Expressions::read_prim))]
    pub(crate) fn prim<'a>(&self, tokens: &'a [Token]) -> Read<'a, Expr>
        requires { Nests self.now.levels (F.pre self.now.inner) (F.post self.now.inner) }
        ensures found { IfOk result (λ found. read_prim self.now.levels (expr_readers self.now.levels) tokens.now ≡ Ok (found.0, found.1.now)) }
        ensures stop { IfErr result (λ stop. StopsAs stop (read_prim self.now.levels (expr_readers self.now.levels) tokens.now)) }
    {
        if next_is_number(tokens) {
            let ((value, at), rest) = number(tokens)?;
            return Ok((Expr::Number { value, at }, rest));
        }
        if next_is_name(tokens) {
            let (path, rest) = self.path(tokens)?;
            return Ok((Expr::Signal { path }, rest));
        }
        self.grouped(tokens)
    }
}
