// Statements. The rules take the reader of the statements within fewer levels as a parameter, so that each is proved by itself.
ghost use Rattle.std.specs.Prelude.{◌≡◌, ◌<◌, ◌≤◌, ◌-◌, ◌∷◌, [], Option, Some, None, Ok, IfOk, IfErr};
ghost use Rattle.smv_core.specs.Signs.{word_in};
ghost use Rattle.law_grammar.specs.Parsing.{bind, pure, take, loop};
ghost use Rattle.law_grammar.specs.Marks.{any_name, any_number, begins};
ghost use Rattle.law_grammar.specs.Readers.{a_token};
ghost use Rattle.law_grammar.specs.Statements.{stmt_marks, read_stmt, read_simple, read_worded, read_block, read_forall, read_if, read_else, read_switch, read_arms, read_arm, read_other, read_default, read_for, stmt_readers};
ghost use Rattle.smv_parse_expressions.specs.Answers.{StopsAs};
ghost use Rattle.smv_parse_statements.specs.Nests.{Nests};

use crate::ahead::{next_begins_label, next_begins_stmt, next_is_moment};
use crate::parts::{assignment, binder, header, labels, timed};
use smv_core::boxed::Boxed;
use smv_core::seq::Seq;
use smv_core::signs::{
    CLOSE_BRACE, COLON, OPEN_BRACE, WORD_DEFAULT, WORD_ELSE, WORD_FOR, WORD_FORALL, WORD_IF,
    WORD_IN, WORD_SWITCH,
};
use smv_core::token::Token;
use smv_core::tree::{Arm, Expr, Stmt};
use smv_parse_expressions::ahead::{next_is_name, next_is_sign, next_is_word};
use smv_parse_expressions::exprs::condition;
use smv_parse_expressions::single::{opening_sign, opening_word, sign, word};
use smv_parse_expressions::stop::Stop;
use std::alloc::Global;

/// The rules of statements. `stmt` reads a statement within fewer levels than the limit.
#[derive(Clone, Copy)]
pub struct Grammar<F> {
    pub alloc: Global,
    pub limit: u8,
    pub stmt: F,
}

impl<F: Fn(Global, u8, &[Token]) -> Result<(Stmt, &[Token]), Stop>> Grammar<F> {
    /// A statement within fewer levels.
    fn inner<'a>(&self, levels: u8, tokens: &'a [Token]) -> Result<(Stmt, &'a [Token]), Stop>
        requires nests { Nests self.now.limit (F.pre self.now.stmt) (F.post self.now.stmt) }
        requires within { levels < self.now.limit }
        ensures found { IfOk result (λ found. read_stmt levels (stmt_readers levels) tokens.now ≡ Ok (found.0, found.1.now)) }
        ensures stop { IfErr result (λ stop. StopsAs stop (read_stmt levels (stmt_readers levels) tokens.now)) }
    {
        (self.stmt)(self.alloc, levels, tokens)
    }

    /// A statement within fewer levels, on the heap.
    fn nested<'a>(
        &self,
        levels: u8,
        tokens: &'a [Token],
    ) -> Result<(Boxed<Stmt>, &'a [Token]), Stop>
        requires nests { Nests self.now.limit (F.pre self.now.stmt) (F.post self.now.stmt) }
        requires within { levels < self.now.limit }
        ensures found { IfOk result (λ found. read_stmt levels (stmt_readers levels) tokens.now ≡ Ok (found.0, found.1.now)) }
        ensures stop { IfErr result (λ stop. StopsAs stop (read_stmt levels (stmt_readers levels) tokens.now)) }
    {
        let (stmt, rest) = self.inner(levels, tokens)?;
        Ok((Boxed::new(self.alloc, stmt)?, rest))
    }

    /// As many statements as stand one after another.
    #[tactic(auto, using(crate::proofs::Loops::stmts_end, crate::proofs::Loops::stmts_halt, crate::proofs::Loops::stmts_go_on, crate::proofs::Loops::stmts_shrink))]
    pub fn stmts<'a>(
        &self,
        levels: u8,
        tokens: &'a [Token],
    ) -> Result<(Seq<Stmt>, &'a [Token]), Stop>
        requires nests { Nests self.now.limit (F.pre self.now.stmt) (F.post self.now.stmt) }
        requires within { levels < self.now.limit }
        ensures found { IfOk result (λ found. loop (begins stmt_marks) (read_stmt levels (stmt_readers levels)) tokens.now ≡ Ok (found.0, found.1.now)) }
        ensures stop { IfErr result (λ stop. StopsAs stop (loop (begins stmt_marks) (read_stmt levels (stmt_readers levels)) tokens.now)) }
    {
        let mut items = Vec::new(self.alloc);
        let mut rest = tokens;
        while next_begins_stmt(rest) {
            let (next, after) = self.inner(levels, rest)?;
            items.push(next)?;
            rest = after;
        }
        Ok((Seq::from_vec(items), rest))
    }

    #[tactic(auto, using(law_grammar::proofs::Steps::open_then, law_grammar::proofs::Steps::next_stmt), unfolding(law_grammar::specs::Statements::read_block))]
    fn block<'a>(&self, levels: u8, tokens: &'a [Token]) -> Result<(Stmt, &'a [Token]), Stop>
        requires nests { Nests self.now.limit (F.pre self.now.stmt) (F.post self.now.stmt) }
        requires within { levels ≤ self.now.limit }
        ensures found { IfOk result (λ found. read_block levels (stmt_readers levels) tokens.now ≡ Ok (found.0, found.1.now)) }
        ensures stop { IfErr result (λ stop. StopsAs stop (read_block levels (stmt_readers levels) tokens.now)) }
    {
        let (_, rest) = opening_sign(OPEN_BRACE, levels, tokens)?;
        let (parts, rest) = self.stmts(levels - 1, rest)?;
        let (_, rest) = sign(CLOSE_BRACE, rest)?;
        Ok((Stmt::Block { parts }, rest))
    }

    #[tactic(auto, using(law_grammar::proofs::Steps::next_stmt), unfolding(law_grammar::specs::Statements::read_else))]
    fn otherwise<'a>(
        &self,
        levels: u8,
        tokens: &'a [Token],
    ) -> Result<(Option<Boxed<Stmt>>, &'a [Token]), Stop>
        requires nests { Nests self.now.limit (F.pre self.now.stmt) (F.post self.now.stmt) }
        requires within { levels ≤ self.now.limit }
        requires left { 0 < levels }
        ensures found { IfOk result (λ found. read_else levels (stmt_readers levels) tokens.now ≡ Ok (found.0, found.1.now)) }
        ensures stop { IfErr result (λ stop. StopsAs stop (read_else levels (stmt_readers levels) tokens.now)) }
    {
        if next_is_word(WORD_ELSE, tokens) {
            let (_, rest) = word(WORD_ELSE, tokens)?;
            let (stmt, rest) = self.nested(levels - 1, rest)?;
            return Ok((Some(stmt), rest));
        }
        Ok((None, tokens))
    }

    /// What stands behind the condition of an `if`.
    #[tactic(auto, using(law_grammar::proofs::Steps::next_stmt))]
    fn branches<'a>(
        &self,
        levels: u8,
        cond: Expr,
        at: u32,
        tokens: &'a [Token],
    ) -> Result<(Stmt, &'a [Token]), Stop>
        requires nests { Nests self.now.limit (F.pre self.now.stmt) (F.post self.now.stmt) }
        requires within { levels ≤ self.now.limit }
        requires left { 0 < levels }
        ensures found { IfOk result (λ found. bind (stmt_readers levels).stmt (λ x. bind (read_else levels (stmt_readers levels)) (λ y. pure (Stmt.If cond x y at))) tokens.now ≡ Ok (found.0, found.1.now)) }
        ensures stop { IfErr result (λ stop. StopsAs stop (bind (stmt_readers levels).stmt (λ x. bind (read_else levels (stmt_readers levels)) (λ y. pure (Stmt.If cond x y at))) tokens.now)) }
    {
        let (yes, rest) = self.nested(levels - 1, tokens)?;
        let (no, rest) = self.otherwise(levels, rest)?;
        Ok((Stmt::If { cond, yes, no, at }, rest))
    }

    #[tactic(auto, using(law_grammar::proofs::Steps::open_then, law_grammar::proofs::Steps::next_condition), unfolding(law_grammar::specs::Statements::read_if))]
    fn if_stmt<'a>(&self, levels: u8, tokens: &'a [Token]) -> Result<(Stmt, &'a [Token]), Stop>
        requires nests { Nests self.now.limit (F.pre self.now.stmt) (F.post self.now.stmt) }
        requires within { levels ≤ self.now.limit }
        ensures found { IfOk result (λ found. read_if levels (stmt_readers levels) tokens.now ≡ Ok (found.0, found.1.now)) }
        ensures stop { IfErr result (λ stop. StopsAs stop (read_if levels (stmt_readers levels) tokens.now)) }
    {
        let (at, rest) = opening_word(WORD_IF, levels, tokens)?;
        let (cond, rest) = condition(self.alloc, levels - 1, rest)?;
        self.branches(levels, cond, at, rest)
    }

    /// Labels, ':' and a statement.
    #[tactic(auto, using(law_grammar::proofs::Steps::next_stmt), unfolding(law_grammar::specs::Statements::read_arm))]
    fn arm<'a>(&self, levels: u8, tokens: &'a [Token]) -> Result<(Arm, &'a [Token]), Stop>
        requires nests { Nests self.now.limit (F.pre self.now.stmt) (F.post self.now.stmt) }
        requires within { levels ≤ self.now.limit }
        requires left { 0 < levels }
        ensures found { IfOk result (λ found. read_arm levels (stmt_readers levels) tokens.now ≡ Ok (found.0, found.1.now)) }
        ensures stop { IfErr result (λ stop. StopsAs stop (read_arm levels (stmt_readers levels) tokens.now)) }
    {
        let (labels, rest) = labels(self.alloc, tokens)?;
        let (_, rest) = sign(COLON, rest)?;
        let (body, rest) = self.inner(levels - 1, rest)?;
        let labels = Seq::from_vec(labels);
        Ok((Arm { labels, body }, rest))
    }

    /// As many arms as stand one after another.
    #[tactic(auto, using(crate::proofs::Loops::arms_end, crate::proofs::Loops::arms_halt, crate::proofs::Loops::arms_go_on, crate::proofs::Loops::arms_shrink))]
    fn arm_list<'a>(&self, levels: u8, tokens: &'a [Token]) -> Result<(Seq<Arm>, &'a [Token]), Stop>
        requires nests { Nests self.now.limit (F.pre self.now.stmt) (F.post self.now.stmt) }
        requires within { levels ≤ self.now.limit }
        requires left { 0 < levels }
        ensures found { IfOk result (λ found. loop (begins (any_number ∷ any_name ∷ [])) (read_arm levels (stmt_readers levels)) tokens.now ≡ Ok (found.0, found.1.now)) }
        ensures stop { IfErr result (λ stop. StopsAs stop (loop (begins (any_number ∷ any_name ∷ [])) (read_arm levels (stmt_readers levels)) tokens.now)) }
    {
        let mut items = Vec::new(self.alloc);
        let mut rest = tokens;
        while next_begins_label(rest) {
            let (next, after) = self.arm(levels, rest)?;
            items.push(next)?;
            rest = after;
        }
        Ok((Seq::from_vec(items), rest))
    }

    /// 'default' ':' and a statement, where they stand.
    #[tactic(auto, using(law_grammar::proofs::Steps::next_stmt), unfolding(law_grammar::specs::Statements::read_other))]
    fn other<'a>(
        &self,
        levels: u8,
        tokens: &'a [Token],
    ) -> Result<(Option<Boxed<Stmt>>, &'a [Token]), Stop>
        requires nests { Nests self.now.limit (F.pre self.now.stmt) (F.post self.now.stmt) }
        requires within { levels ≤ self.now.limit }
        requires left { 0 < levels }
        ensures found { IfOk result (λ found. read_other levels (stmt_readers levels) tokens.now ≡ Ok (found.0, found.1.now)) }
        ensures stop { IfErr result (λ stop. StopsAs stop (read_other levels (stmt_readers levels) tokens.now)) }
    {
        if next_is_word(WORD_DEFAULT, tokens) {
            let (_, rest) = word(WORD_DEFAULT, tokens)?;
            let (_, rest) = sign(COLON, rest)?;
            let (stmt, rest) = self.nested(levels - 1, rest)?;
            return Ok((Some(stmt), rest));
        }
        Ok((None, tokens))
    }

    /// '{', the arms of a `switch` and '}'.
    #[tactic(auto, using(law_grammar::proofs::Steps::open_then), unfolding(law_grammar::specs::Statements::read_arms))]
    fn arms<'a>(
        &self,
        levels: u8,
        tokens: &'a [Token],
    ) -> Result<((Seq<Arm>, Option<Boxed<Stmt>>), &'a [Token]), Stop>
        requires nests { Nests self.now.limit (F.pre self.now.stmt) (F.post self.now.stmt) }
        requires within { levels ≤ self.now.limit }
        ensures found { IfOk result (λ found. read_arms levels (stmt_readers levels) tokens.now ≡ Ok (found.0, found.1.now)) }
        ensures stop { IfErr result (λ stop. StopsAs stop (read_arms levels (stmt_readers levels) tokens.now)) }
    {
        let (_, rest) = opening_sign(OPEN_BRACE, levels, tokens)?;
        let (arms, rest) = self.arm_list(levels, rest)?;
        let (other, rest) = self.other(levels, rest)?;
        let (_, rest) = sign(CLOSE_BRACE, rest)?;
        Ok(((arms, other), rest))
    }

    #[tactic(auto, using(law_grammar::proofs::Steps::open_then, law_grammar::proofs::Steps::next_condition, law_grammar::proofs::Steps::next_arms), unfolding(law_grammar::specs::Statements::read_switch))]
    fn switch<'a>(&self, levels: u8, tokens: &'a [Token]) -> Result<(Stmt, &'a [Token]), Stop>
        requires nests { Nests self.now.limit (F.pre self.now.stmt) (F.post self.now.stmt) }
        requires within { levels ≤ self.now.limit }
        ensures found { IfOk result (λ found. read_switch levels (stmt_readers levels) tokens.now ≡ Ok (found.0, found.1.now)) }
        ensures stop { IfErr result (λ stop. StopsAs stop (read_switch levels (stmt_readers levels) tokens.now)) }
    {
        let (at, rest) = opening_word(WORD_SWITCH, levels, tokens)?;
        let (on, rest) = condition(self.alloc, levels - 1, rest)?;
        let ((arms, other), rest) = self.arms(levels - 1, rest)?;
        Ok((
            Stmt::Switch {
                on,
                arms,
                other,
                at,
            },
            rest,
        ))
    }

    /// The second statement of a `default`.
    #[tactic(auto, using(law_grammar::proofs::Steps::next_stmt))]
    fn second<'a>(
        &self,
        levels: u8,
        first: Boxed<Stmt>,
        at: u32,
        tokens: &'a [Token],
    ) -> Result<(Stmt, &'a [Token]), Stop>
        requires nests { Nests self.now.limit (F.pre self.now.stmt) (F.post self.now.stmt) }
        requires within { levels ≤ self.now.limit }
        requires left { 0 < levels }
        ensures found { IfOk result (λ found. bind (stmt_readers levels).stmt (λ y. pure (Stmt.Default first y at)) tokens.now ≡ Ok (found.0, found.1.now)) }
        ensures stop { IfErr result (λ stop. StopsAs stop (bind (stmt_readers levels).stmt (λ y. pure (Stmt.Default first y at)) tokens.now)) }
    {
        let (second, rest) = self.nested(levels - 1, tokens)?;
        Ok((Stmt::Default { first, second, at }, rest))
    }

    /// 'in' and the second statement of a `default`.
    fn behind_first<'a>(
        &self,
        levels: u8,
        first: Boxed<Stmt>,
        at: u32,
        tokens: &'a [Token],
    ) -> Result<(Stmt, &'a [Token]), Stop>
        requires nests { Nests self.now.limit (F.pre self.now.stmt) (F.post self.now.stmt) }
        requires within { levels ≤ self.now.limit }
        requires left { 0 < levels }
        ensures found { IfOk result (λ found. bind (take (a_token word_in)) (λ _. bind (stmt_readers levels).stmt (λ y. pure (Stmt.Default first y at))) tokens.now ≡ Ok (found.0, found.1.now)) }
        ensures stop { IfErr result (λ stop. StopsAs stop (bind (take (a_token word_in)) (λ _. bind (stmt_readers levels).stmt (λ y. pure (Stmt.Default first y at))) tokens.now)) }
    {
        let (_, rest) = word(WORD_IN, tokens)?;
        self.second(levels, first, at, rest)
    }

    #[tactic(auto, using(law_grammar::proofs::Steps::open_then, law_grammar::proofs::Steps::next_stmt), unfolding(law_grammar::specs::Statements::read_default))]
    fn default<'a>(&self, levels: u8, tokens: &'a [Token]) -> Result<(Stmt, &'a [Token]), Stop>
        requires nests { Nests self.now.limit (F.pre self.now.stmt) (F.post self.now.stmt) }
        requires within { levels ≤ self.now.limit }
        ensures found { IfOk result (λ found. read_default levels (stmt_readers levels) tokens.now ≡ Ok (found.0, found.1.now)) }
        ensures stop { IfErr result (λ stop. StopsAs stop (read_default levels (stmt_readers levels) tokens.now)) }
    {
        let (at, rest) = opening_word(WORD_DEFAULT, levels, tokens)?;
        let (first, rest) = self.nested(levels - 1, rest)?;
        self.behind_first(levels, first, at, rest)
    }

    #[tactic(auto, using(law_grammar::proofs::Steps::open_then, law_grammar::proofs::Steps::next_turns, law_grammar::proofs::Steps::next_stmt), unfolding(law_grammar::specs::Statements::read_for))]
    fn for_stmt<'a>(&self, levels: u8, tokens: &'a [Token]) -> Result<(Stmt, &'a [Token]), Stop>
        requires nests { Nests self.now.limit (F.pre self.now.stmt) (F.post self.now.stmt) }
        requires within { levels ≤ self.now.limit }
        ensures found { IfOk result (λ found. read_for levels (stmt_readers levels) tokens.now ≡ Ok (found.0, found.1.now)) }
        ensures stop { IfErr result (λ stop. StopsAs stop (read_for levels (stmt_readers levels) tokens.now)) }
    {
        let (at, rest) = opening_word(WORD_FOR, levels, tokens)?;
        let (header, rest) = header(self.alloc, levels - 1, rest)?;
        let (body, rest) = self.nested(levels - 1, rest)?;
        Ok((
            Stmt::For {
                var: header.var,
                from: header.from,
                to: header.to,
                closed: header.closed,
                step: header.step,
                body,
                at,
            },
            rest,
        ))
    }

    #[tactic(auto, using(law_grammar::proofs::Steps::open_then, law_grammar::proofs::Steps::next_binder, law_grammar::proofs::Steps::next_stmt), unfolding(law_grammar::specs::Statements::read_forall))]
    fn forall<'a>(&self, levels: u8, tokens: &'a [Token]) -> Result<(Stmt, &'a [Token]), Stop>
        requires nests { Nests self.now.limit (F.pre self.now.stmt) (F.post self.now.stmt) }
        requires within { levels ≤ self.now.limit }
        ensures found { IfOk result (λ found. read_forall levels (stmt_readers levels) tokens.now ≡ Ok (found.0, found.1.now)) }
        ensures stop { IfErr result (λ stop. StopsAs stop (read_forall levels (stmt_readers levels) tokens.now)) }
    {
        let (at, rest) = opening_word(WORD_FORALL, levels, tokens)?;
        let ((var, over), rest) = binder(self.alloc, levels - 1, rest)?;
        let (body, rest) = self.nested(levels - 1, rest)?;
        Ok((
            Stmt::Forall {
                var,
                over,
                body,
                at,
            },
            rest,
        ))
    }

    /// A statement that begins with a reserved word, save `forall`.
    #[tactic(auto, unfolding(law_grammar::specs::Statements::read_worded))]
    pub fn worded<'a>(&self, levels: u8, tokens: &'a [Token]) -> Result<(Stmt, &'a [Token]), Stop>
        requires nests { Nests self.now.limit (F.pre self.now.stmt) (F.post self.now.stmt) }
        requires within { levels ≤ self.now.limit }
        ensures found { IfOk result (λ found. read_worded levels (stmt_readers levels) tokens.now ≡ Ok (found.0, found.1.now)) }
        ensures stop { IfErr result (λ stop. StopsAs stop (read_worded levels (stmt_readers levels) tokens.now)) }
    {
        if next_is_moment(tokens) {
            return timed(self.alloc, levels, tokens);
        }
        if next_is_word(WORD_IF, tokens) {
            return self.if_stmt(levels, tokens);
        }
        if next_is_word(WORD_SWITCH, tokens) {
            return self.switch(levels, tokens);
        }
        if next_is_word(WORD_DEFAULT, tokens) {
            return self.default(levels, tokens);
        }
        self.for_stmt(levels, tokens)
    }

    /// A statement.
    #[tactic(auto, unfolding(law_grammar::specs::Statements::read_stmt, law_grammar::specs::Statements::read_simple))]
    pub fn stmt<'a>(&self, levels: u8, tokens: &'a [Token]) -> Result<(Stmt, &'a [Token]), Stop>
        requires nests { Nests self.now.limit (F.pre self.now.stmt) (F.post self.now.stmt) }
        requires within { levels ≤ self.now.limit }
        ensures found { IfOk result (λ found. read_stmt levels (stmt_readers levels) tokens.now ≡ Ok (found.0, found.1.now)) }
        ensures stop { IfErr result (λ stop. StopsAs stop (read_stmt levels (stmt_readers levels) tokens.now)) }
    {
        if next_is_word(WORD_FORALL, tokens) {
            return self.forall(levels, tokens);
        }
        if next_is_sign(OPEN_BRACE, tokens) {
            return self.block(levels, tokens);
        }
        if next_is_name(tokens) {
            return assignment(self.alloc, levels, tokens);
        }
        self.worded(levels, tokens)
    }
}

/// A statement within so many levels.
pub fn stmt(alloc: Global, levels: u8, tokens: &[Token]) -> Result<(Stmt, &[Token]), Stop>
    ensures found { IfOk result (λ found. read_stmt levels (stmt_readers levels) tokens.now ≡ Ok (found.0, found.1.now)) }
    ensures stop { IfErr result (λ stop. StopsAs stop (read_stmt levels (stmt_readers levels) tokens.now)) }
{
    Grammar {
        alloc,
        limit: levels,
        stmt,
    }
    .stmt(levels, tokens)
}

/// A statement that begins with a reserved word, save `forall`, within so many levels.
pub fn worded(alloc: Global, levels: u8, tokens: &[Token]) -> Result<(Stmt, &[Token]), Stop>
    ensures found { IfOk result (λ found. read_worded levels (stmt_readers levels) tokens.now ≡ Ok (found.0, found.1.now)) }
    ensures stop { IfErr result (λ stop. StopsAs stop (read_worded levels (stmt_readers levels) tokens.now)) }
{
    Grammar {
        alloc,
        limit: levels,
        stmt,
    }
    .worded(levels, tokens)
}

/// As many statements as stand one after another, within so many levels.
pub fn stmts(alloc: Global, levels: u8, tokens: &[Token]) -> Result<(Seq<Stmt>, &[Token]), Stop>
    requires { 0 < levels }
    ensures found { IfOk result (λ found. loop (begins stmt_marks) (read_stmt (levels - 1) (stmt_readers (levels - 1))) tokens.now ≡ Ok (found.0, found.1.now)) }
    ensures stop { IfErr result (λ stop. StopsAs stop (loop (begins stmt_marks) (read_stmt (levels - 1) (stmt_readers (levels - 1))) tokens.now)) }
{
    Grammar {
        alloc,
        limit: levels,
        stmt,
    }
    .stmts(levels - 1, tokens)
}
