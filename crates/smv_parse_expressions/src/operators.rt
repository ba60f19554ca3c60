// Operators, from those that bind most tightly to the conditional.
ghost use Rattle.std.specs.Prelude.{◌≡◌, ◌∷◌, [], Ok, IfOk, IfErr};
ghost use Rattle.smv_core.specs.Signs.{plus, minus, ampersand, bar, arrow};
ghost use Rattle.law_grammar.specs.Parsing.{bind, take, loop};
ghost use Rattle.law_grammar.specs.Marks.{exactly, begins};
ghost use Rattle.law_grammar.specs.Readers.{a_token};
ghost use Rattle.law_grammar.specs.Expressions.{read_signed, read_sum, read_modulo, read_comparison, read_negation, read_conjunction, read_disjunction, read_implication, read_equivalence, read_expr, expr_readers};
ghost use Rattle.smv_parse_expressions.specs.Answers.{StopsAs};
ghost use Rattle.smv_parse_expressions.specs.Nests.{Nests};
ghost use Rattle.smv_parse_expressions.specs.Tails.{read_branches, read_chosen, read_compared, read_equated, read_equivalent, read_otherwise, read_related, read_within};

use crate::ahead::{next_is_addition, next_is_comparison, next_is_sign, next_is_word};
use crate::grammar::Grammar;
use crate::nodes::{
    and_of, choose_of, compare_of, iff_of, implies_of, modulo_of, not_of, or_of, sum_of_parts,
    within_of,
};
use crate::single::{addition, comparison_sign, number, opening_sign, sign, word};
use crate::stop::{Read, Stop};
use smv_core::signs::{
    AMPERSAND, ARROW, BAR, COLON, DOUBLE_ARROW, QUESTION, TILDE, WORD_IN, WORD_MOD,
};
use smv_core::token::Token;
use smv_core::tree::{Expr, Signed};
use std::alloc::Global;

impl<F: Fn(Global, u8, bool, &[Token]) -> Result<(Expr, &[Token]), Stop>> Grammar<F> {
    /// ( '+' | '-' ) Prim
    #[tactic(auto, unfolding(law_grammar::specs::Expressions::read_signed))]
    fn signed<'a>(&self, tokens: &'a [Token]) -> Read<'a, Signed>
        requires { Nests self.now.levels (F.pre self.now.inner) (F.post self.now.inner) }
        ensures found { IfOk result (λ found. read_signed self.now.levels (expr_readers self.now.levels) tokens.now ≡ Ok (found.0, found.1.now)) }
        ensures stop { IfErr result (λ stop. StopsAs stop (read_signed self.now.levels (expr_readers self.now.levels) tokens.now)) }
    {
        let ((minus, _), rest) = addition(tokens)?;
        let (of, rest) = self.prim(rest)?;
        Ok((Signed { minus, of }, rest))
    }

    /// { ( '+' | '-' ) Prim }
    #[tactic(auto, using(crate::proofs::Loops::signed_end, crate::proofs::Loops::signed_halt, crate::proofs::Loops::signed_go_on, crate::proofs::Loops::signed_shrink, crate::proofs::Loops::not_begun))]
    fn more_signed<'a>(&self, tokens: &'a [Token]) -> Read<'a, Vec<Signed>>
        requires { Nests self.now.levels (F.pre self.now.inner) (F.post self.now.inner) }
        ensures found { IfOk result (λ found. loop (begins (exactly plus ∷ exactly minus ∷ [])) (read_signed self.now.levels (expr_readers self.now.levels)) tokens.now ≡ Ok (found.0.items, found.1.now)) }
        ensures stop { IfErr result (λ stop. StopsAs stop (loop (begins (exactly plus ∷ exactly minus ∷ [])) (read_signed self.now.levels (expr_readers self.now.levels)) tokens.now)) }
    {
        let mut items = Vec::new(self.alloc);
        let mut rest = tokens;
        while next_is_addition(rest) {
            let (next, after) = self.signed(rest)?;
            items.push(next)?;
            rest = after;
        }
        Ok((items, rest))
    }

    /// Prim { ( '+' | '-' ) Prim }
    #[tactic(auto, unfolding(law_grammar::specs::Expressions::read_sum))]
    pub fn sum<'a>(&self, tokens: &'a [Token]) -> Read<'a, Expr>
        requires { Nests self.now.levels (F.pre self.now.inner) (F.post self.now.inner) }
        ensures found { IfOk result (λ found. read_sum self.now.levels (expr_readers self.now.levels) tokens.now ≡ Ok (found.0, found.1.now)) }
        ensures stop { IfErr result (λ stop. StopsAs stop (read_sum self.now.levels (expr_readers self.now.levels) tokens.now)) }
    {
        let (first, rest) = self.prim(tokens)?;
        let (more, rest) = self.more_signed(rest)?;
        Ok((sum_of_parts(self.alloc, first, more)?, rest))
    }

    /// Sum [ 'mod' number ]
    #[tactic(auto, unfolding(law_grammar::specs::Expressions::read_modulo))]
    fn modulo<'a>(&self, tokens: &'a [Token]) -> Read<'a, Expr>
        requires { Nests self.now.levels (F.pre self.now.inner) (F.post self.now.inner) }
        ensures found { IfOk result (λ found. read_modulo self.now.levels (expr_readers self.now.levels) tokens.now ≡ Ok (found.0, found.1.now)) }
        ensures stop { IfErr result (λ stop. StopsAs stop (read_modulo self.now.levels (expr_readers self.now.levels) tokens.now)) }
    {
        let (of, rest) = self.sum(tokens)?;
        if next_is_word(WORD_MOD, rest) {
            let (_, rest) = word(WORD_MOD, rest)?;
            let ((by, at), rest) = number(rest)?;
            return Ok((modulo_of(self.alloc, of, by, at)?, rest));
        }
        Ok((of, rest))
    }

    /// Behind the left side of a comparison: ( '=' | '~=' | '<' | '<=' | '>' | '>=' ) Mod
    fn compared<'a>(&self, left: Expr, tokens: &'a [Token]) -> Read<'a, Expr>
        requires { Nests self.now.levels (F.pre self.now.inner) (F.post self.now.inner) }
        ensures found { IfOk result (λ found. read_compared self.now.levels left tokens.now ≡ Ok (found.0, found.1.now)) }
        ensures stop { IfErr result (λ stop. StopsAs stop (read_compared self.now.levels left tokens.now)) }
    {
        let ((op, _), rest) = comparison_sign(tokens)?;
        let (right, rest) = self.modulo(rest)?;
        Ok((compare_of(self.alloc, op, left, right)?, rest))
    }

    /// Behind what is to be in a set: 'in' Set
    fn within<'a>(&self, left: Expr, tokens: &'a [Token]) -> Read<'a, Expr>
        requires { Nests self.now.levels (F.pre self.now.inner) (F.post self.now.inner) }
        ensures found { IfOk result (λ found. read_within self.now.levels left tokens.now ≡ Ok (found.0, found.1.now)) }
        ensures stop { IfErr result (λ stop. StopsAs stop (read_within self.now.levels left tokens.now)) }
    {
        let (_, rest) = word(WORD_IN, tokens)?;
        let (set, rest) = self.set(rest)?;
        Ok((within_of(self.alloc, left, set)?, rest))
    }

    /// Behind the first part: [ ( '=' | '~=' | '<' | '<=' | '>' | '>=' ) Mod | 'in' Set ]
    fn related<'a>(&self, left: Expr, tokens: &'a [Token]) -> Read<'a, Expr>
        requires { Nests self.now.levels (F.pre self.now.inner) (F.post self.now.inner) }
        ensures found { IfOk result (λ found. read_related self.now.levels left tokens.now ≡ Ok (found.0, found.1.now)) }
        ensures stop { IfErr result (λ stop. StopsAs stop (read_related self.now.levels left tokens.now)) }
    {
        if next_is_comparison(tokens) {
            return self.compared(left, tokens);
        }
        if next_is_word(WORD_IN, tokens) {
            return self.within(left, tokens);
        }
        Ok((left, tokens))
    }

    /// Mod [ ( '=' | '~=' | '<' | '<=' | '>' | '>=' ) Mod | 'in' Set ]
    #[tactic(auto, unfolding(law_grammar::specs::Expressions::read_comparison))]
    fn comparison<'a>(&self, tokens: &'a [Token]) -> Read<'a, Expr>
        requires { Nests self.now.levels (F.pre self.now.inner) (F.post self.now.inner) }
        ensures found { IfOk result (λ found. read_comparison self.now.levels (expr_readers self.now.levels) tokens.now ≡ Ok (found.0, found.1.now)) }
        ensures stop { IfErr result (λ stop. StopsAs stop (read_comparison self.now.levels (expr_readers self.now.levels) tokens.now)) }
    {
        let (left, rest) = self.modulo(tokens)?;
        self.related(left, rest)
    }

    /// '~' Not | Cmp
    #[tactic(auto, using(law_grammar::proofs::Steps::open_then), unfolding(law_grammar::specs::Expressions::read_negation))]
    pub fn negation<'a>(&self, tokens: &'a [Token]) -> Read<'a, Expr>
        requires { Nests self.now.levels (F.pre self.now.inner) (F.post self.now.inner) }
        ensures found { IfOk result (λ found. read_negation self.now.levels (expr_readers self.now.levels) tokens.now ≡ Ok (found.0, found.1.now)) }
        ensures stop { IfErr result (λ stop. StopsAs stop (read_negation self.now.levels (expr_readers self.now.levels) tokens.now)) }
    {
        if next_is_sign(TILDE, tokens) {
            let (at, rest) = opening_sign(TILDE, self.levels, tokens)?;
            let (of, rest) = self.inner_negation(rest)?;
            return Ok((not_of(self.alloc, of, at)?, rest));
        }
        self.comparison(tokens)
    }

    /// '&' Not
    fn next_conjunct<'a>(&self, tokens: &'a [Token]) -> Read<'a, Expr>
        requires { Nests self.now.levels (F.pre self.now.inner) (F.post self.now.inner) }
        ensures found { IfOk result (λ found. (bind (take (a_token ampersand)) (λ at. read_negation self.now.levels (expr_readers self.now.levels))) tokens.now ≡ Ok (found.0, found.1.now)) }
        ensures stop { IfErr result (λ stop. StopsAs stop ((bind (take (a_token ampersand)) (λ at. read_negation self.now.levels (expr_readers self.now.levels))) tokens.now)) }
    {
        let (_, rest) = sign(AMPERSAND, tokens)?;
        self.negation(rest)
    }

    /// { '&' Not }
    #[tactic(auto, using(crate::proofs::Loops::ands_end, crate::proofs::Loops::ands_halt, crate::proofs::Loops::ands_go_on, crate::proofs::Loops::ands_shrink, crate::proofs::Loops::not_begun))]
    fn more_conjuncts<'a>(&self, tokens: &'a [Token]) -> Read<'a, Vec<Expr>>
        requires { Nests self.now.levels (F.pre self.now.inner) (F.post self.now.inner) }
        ensures found { IfOk result (λ found. loop (begins (exactly ampersand ∷ [])) (bind (take (a_token ampersand)) (λ at. read_negation self.now.levels (expr_readers self.now.levels))) tokens.now ≡ Ok (found.0.items, found.1.now)) }
        ensures stop { IfErr result (λ stop. StopsAs stop (loop (begins (exactly ampersand ∷ [])) (bind (take (a_token ampersand)) (λ at. read_negation self.now.levels (expr_readers self.now.levels))) tokens.now)) }
    {
        let mut items = Vec::new(self.alloc);
        let mut rest = tokens;
        while next_is_sign(AMPERSAND, rest) {
            let (next, after) = self.next_conjunct(rest)?;
            items.push(next)?;
            rest = after;
        }
        Ok((items, rest))
    }

    /// Not { '&' Not }
    #[tactic(auto, unfolding(law_grammar::specs::Expressions::read_conjunction))]
    fn conjunction<'a>(&self, tokens: &'a [Token]) -> Read<'a, Expr>
        requires { Nests self.now.levels (F.pre self.now.inner) (F.post self.now.inner) }
        ensures found { IfOk result (λ found. read_conjunction self.now.levels (expr_readers self.now.levels) tokens.now ≡ Ok (found.0, found.1.now)) }
        ensures stop { IfErr result (λ stop. StopsAs stop (read_conjunction self.now.levels (expr_readers self.now.levels) tokens.now)) }
    {
        let (first, rest) = self.negation(tokens)?;
        let (more, rest) = self.more_conjuncts(rest)?;
        Ok((and_of(first, more)?, rest))
    }

    /// '|' And
    fn next_disjunct<'a>(&self, tokens: &'a [Token]) -> Read<'a, Expr>
        requires { Nests self.now.levels (F.pre self.now.inner) (F.post self.now.inner) }
        ensures found { IfOk result (λ found. (bind (take (a_token bar)) (λ at. read_conjunction self.now.levels (expr_readers self.now.levels))) tokens.now ≡ Ok (found.0, found.1.now)) }
        ensures stop { IfErr result (λ stop. StopsAs stop ((bind (take (a_token bar)) (λ at. read_conjunction self.now.levels (expr_readers self.now.levels))) tokens.now)) }
    {
        let (_, rest) = sign(BAR, tokens)?;
        self.conjunction(rest)
    }

    /// { '|' And }
    #[tactic(auto, using(crate::proofs::Loops::ors_end, crate::proofs::Loops::ors_halt, crate::proofs::Loops::ors_go_on, crate::proofs::Loops::ors_shrink, crate::proofs::Loops::not_begun))]
    fn more_disjuncts<'a>(&self, tokens: &'a [Token]) -> Read<'a, Vec<Expr>>
        requires { Nests self.now.levels (F.pre self.now.inner) (F.post self.now.inner) }
        ensures found { IfOk result (λ found. loop (begins (exactly bar ∷ [])) (bind (take (a_token bar)) (λ at. read_conjunction self.now.levels (expr_readers self.now.levels))) tokens.now ≡ Ok (found.0.items, found.1.now)) }
        ensures stop { IfErr result (λ stop. StopsAs stop (loop (begins (exactly bar ∷ [])) (bind (take (a_token bar)) (λ at. read_conjunction self.now.levels (expr_readers self.now.levels))) tokens.now)) }
    {
        let mut items = Vec::new(self.alloc);
        let mut rest = tokens;
        while next_is_sign(BAR, rest) {
            let (next, after) = self.next_disjunct(rest)?;
            items.push(next)?;
            rest = after;
        }
        Ok((items, rest))
    }

    /// And { '|' And }
    #[tactic(auto, unfolding(law_grammar::specs::Expressions::read_disjunction))]
    fn disjunction<'a>(&self, tokens: &'a [Token]) -> Read<'a, Expr>
        requires { Nests self.now.levels (F.pre self.now.inner) (F.post self.now.inner) }
        ensures found { IfOk result (λ found. read_disjunction self.now.levels (expr_readers self.now.levels) tokens.now ≡ Ok (found.0, found.1.now)) }
        ensures stop { IfErr result (λ stop. StopsAs stop (read_disjunction self.now.levels (expr_readers self.now.levels) tokens.now)) }
    {
        let (first, rest) = self.conjunction(tokens)?;
        let (more, rest) = self.more_disjuncts(rest)?;
        Ok((or_of(first, more)?, rest))
    }

    /// '->' Or
    fn next_implied<'a>(&self, tokens: &'a [Token]) -> Read<'a, Expr>
        requires { Nests self.now.levels (F.pre self.now.inner) (F.post self.now.inner) }
        ensures found { IfOk result (λ found. (bind (take (a_token arrow)) (λ at. read_disjunction self.now.levels (expr_readers self.now.levels))) tokens.now ≡ Ok (found.0, found.1.now)) }
        ensures stop { IfErr result (λ stop. StopsAs stop ((bind (take (a_token arrow)) (λ at. read_disjunction self.now.levels (expr_readers self.now.levels))) tokens.now)) }
    {
        let (_, rest) = sign(ARROW, tokens)?;
        self.disjunction(rest)
    }

    /// { '->' Or }
    #[tactic(auto, using(crate::proofs::Loops::implied_end, crate::proofs::Loops::implied_halt, crate::proofs::Loops::implied_go_on, crate::proofs::Loops::implied_shrink, crate::proofs::Loops::not_begun))]
    fn more_implied<'a>(&self, tokens: &'a [Token]) -> Read<'a, Vec<Expr>>
        requires { Nests self.now.levels (F.pre self.now.inner) (F.post self.now.inner) }
        ensures found { IfOk result (λ found. loop (begins (exactly arrow ∷ [])) (bind (take (a_token arrow)) (λ at. read_disjunction self.now.levels (expr_readers self.now.levels))) tokens.now ≡ Ok (found.0.items, found.1.now)) }
        ensures stop { IfErr result (λ stop. StopsAs stop (loop (begins (exactly arrow ∷ [])) (bind (take (a_token arrow)) (λ at. read_disjunction self.now.levels (expr_readers self.now.levels))) tokens.now)) }
    {
        let mut items = Vec::new(self.alloc);
        let mut rest = tokens;
        while next_is_sign(ARROW, rest) {
            let (next, after) = self.next_implied(rest)?;
            items.push(next)?;
            rest = after;
        }
        Ok((items, rest))
    }

    /// Or { '->' Or }
    #[tactic(auto, unfolding(law_grammar::specs::Expressions::read_implication))]
    fn implication<'a>(&self, tokens: &'a [Token]) -> Read<'a, Expr>
        requires { Nests self.now.levels (F.pre self.now.inner) (F.post self.now.inner) }
        ensures found { IfOk result (λ found. read_implication self.now.levels (expr_readers self.now.levels) tokens.now ≡ Ok (found.0, found.1.now)) }
        ensures stop { IfErr result (λ stop. StopsAs stop (read_implication self.now.levels (expr_readers self.now.levels) tokens.now)) }
    {
        let (first, rest) = self.disjunction(tokens)?;
        let (more, rest) = self.more_implied(rest)?;
        Ok((implies_of(first, more)?, rest))
    }

    /// Behind the left side of an equivalence: '<->' Imp
    fn equivalent<'a>(&self, left: Expr, tokens: &'a [Token]) -> Read<'a, Expr>
        requires { Nests self.now.levels (F.pre self.now.inner) (F.post self.now.inner) }
        ensures found { IfOk result (λ found. read_equivalent self.now.levels left tokens.now ≡ Ok (found.0, found.1.now)) }
        ensures stop { IfErr result (λ stop. StopsAs stop (read_equivalent self.now.levels left tokens.now)) }
    {
        let (_, rest) = sign(DOUBLE_ARROW, tokens)?;
        let (right, rest) = self.implication(rest)?;
        Ok((iff_of(self.alloc, left, right)?, rest))
    }

    /// Behind what may be the left side of an equivalence: [ '<->' Imp ]
    fn equated<'a>(&self, left: Expr, tokens: &'a [Token]) -> Read<'a, Expr>
        requires { Nests self.now.levels (F.pre self.now.inner) (F.post self.now.inner) }
        ensures found { IfOk result (λ found. read_equated self.now.levels left tokens.now ≡ Ok (found.0, found.1.now)) }
        ensures stop { IfErr result (λ stop. StopsAs stop (read_equated self.now.levels left tokens.now)) }
    {
        if next_is_sign(DOUBLE_ARROW, tokens) {
            return self.equivalent(left, tokens);
        }
        Ok((left, tokens))
    }

    /// Imp [ '<->' Imp ]
    #[tactic(auto, unfolding(law_grammar::specs::Expressions::read_equivalence))]
    fn equivalence<'a>(&self, tokens: &'a [Token]) -> Read<'a, Expr>
        requires { Nests self.now.levels (F.pre self.now.inner) (F.post self.now.inner) }
        ensures found { IfOk result (λ found. read_equivalence self.now.levels (expr_readers self.now.levels) tokens.now ≡ Ok (found.0, found.1.now)) }
        ensures stop { IfErr result (λ stop. StopsAs stop (read_equivalence self.now.levels (expr_readers self.now.levels) tokens.now)) }
    {
        let (left, rest) = self.implication(tokens)?;
        self.equated(left, rest)
    }

    /// Behind the first branch of a conditional: ':' Expr
    fn otherwise<'a>(&self, cond: Expr, yes: Expr, tokens: &'a [Token]) -> Read<'a, Expr>
        requires { Nests self.now.levels (F.pre self.now.inner) (F.post self.now.inner) }
        ensures found { IfOk result (λ found. read_otherwise self.now.levels cond yes tokens.now ≡ Ok (found.0, found.1.now)) }
        ensures stop { IfErr result (λ stop. StopsAs stop (read_otherwise self.now.levels cond yes tokens.now)) }
    {
        let (_, rest) = sign(COLON, tokens)?;
        let (no, rest) = self.inner_expr(rest)?;
        Ok((choose_of(self.alloc, cond, yes, no)?, rest))
    }

    /// Behind the condition of a conditional: '?' Expr ':' Expr
    #[tactic(auto, using(law_grammar::proofs::Steps::open_then))]
    fn branches<'a>(&self, cond: Expr, tokens: &'a [Token]) -> Read<'a, Expr>
        requires { Nests self.now.levels (F.pre self.now.inner) (F.post self.now.inner) }
        ensures found { IfOk result (λ found. read_branches self.now.levels cond tokens.now ≡ Ok (found.0, found.1.now)) }
        ensures stop { IfErr result (λ stop. StopsAs stop (read_branches self.now.levels cond tokens.now)) }
    {
        let (_, rest) = opening_sign(QUESTION, self.levels, tokens)?;
        let (yes, rest) = self.inner_expr(rest)?;
        self.otherwise(cond, yes, rest)
    }

    /// Behind what may be a condition: [ '?' Expr ':' Expr ]
    fn chosen<'a>(&self, cond: Expr, tokens: &'a [Token]) -> Read<'a, Expr>
        requires { Nests self.now.levels (F.pre self.now.inner) (F.post self.now.inner) }
        ensures found { IfOk result (λ found. read_chosen self.now.levels cond tokens.now ≡ Ok (found.0, found.1.now)) }
        ensures stop { IfErr result (λ stop. StopsAs stop (read_chosen self.now.levels cond tokens.now)) }
    {
        if next_is_sign(QUESTION, tokens) {
            return self.branches(cond, tokens);
        }
        Ok((cond, tokens))
    }

    /// Iff [ '?' Expr ':' Expr ]
    #[tactic(auto, unfolding(law_grammar::specs::Expressions::read_expr))]
    pub fn expr<'a>(&self, tokens: &'a [Token]) -> Read<'a, Expr>
        requires { Nests self.now.levels (F.pre self.now.inner) (F.post self.now.inner) }
        ensures found { IfOk result (λ found. read_expr self.now.levels (expr_readers self.now.levels) tokens.now ≡ Ok (found.0, found.1.now)) }
        ensures stop { IfErr result (λ stop. StopsAs stop (read_expr self.now.levels (expr_readers self.now.levels) tokens.now)) }
    {
        let (cond, rest) = self.equivalence(tokens)?;
        self.chosen(cond, rest)
    }
}
