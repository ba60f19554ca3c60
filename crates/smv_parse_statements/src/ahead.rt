// Which token comes next.
ghost use Rattle.std.specs.Prelude.{◌≡◌, ◌∷◌, []};
ghost use Rattle.smv_core.specs.Signs.{comma, colon};
ghost use Rattle.smv_core.specs.Signs as w;
ghost use Rattle.smv_core.specs.declared.token.TokenKind.TheVariants.{Sign};
ghost use Rattle.law_grammar.specs.Parsing.{starts, starts2};
ghost use Rattle.law_grammar.specs.Marks.{any_name, any_number, exactly, begins};
ghost use Rattle.law_grammar.specs.Expressions.{expr_marks};
ghost use Rattle.law_grammar.specs.Statements.{stmt_marks};
ghost use Rattle.law_grammar.specs.Items.{item_marks, role_marks, body_marks, top_marks};

use smv_core::signs::{
    COLON, COMMA, OPEN_BRACE, WORD_ABSTRACT, WORD_DEFAULT, WORD_FOR, WORD_FORALL, WORD_IF,
    WORD_INIT, WORD_INPUT, WORD_LAYER, WORD_MODULE, WORD_NEXT, WORD_ORDSET, WORD_OUTPUT,
    WORD_SCALARSET, WORD_SUBCASE, WORD_SWITCH, WORD_TYPEDEF, WORD_USING,
};
use smv_core::token::{Token, TokenKind};

/// Whether a name comes next, and this sign behind it.
pub fn next_is_name_and_sign(place: u8, tokens: &[Token]) -> bool
    ensures { result ≡ starts2 (begins (any_name ∷ [])) (begins (exactly (Sign place) ∷ [])) tokens.now }
{
    let (first, rest) = match tokens.split_first() {
        Some(parts) => parts,
        None => return false,
    };
    let (second, _) = match rest.split_first() {
        Some(parts) => parts,
        None => return false,
    };
    match &first.kind {
        TokenKind::Ident(_) => match &second.kind {
            TokenKind::Sign(other) => *other == place,
            _ => false,
        },
        _ => false,
    }
}

/// Whether a label begins.
pub(crate) fn next_begins_label(tokens: &[Token]) -> bool
    ensures { result ≡ starts (begins (any_number ∷ any_name ∷ [])) tokens.now }
{
    match tokens.split_first() {
        Some((first, _)) => matches!(&first.kind, TokenKind::Number(_) | TokenKind::Ident(_)),
        None => false,
    }
}

/// Whether a comma or a colon comes next.
pub fn next_is_comma_or_colon(tokens: &[Token]) -> bool
    ensures { result ≡ starts (begins (exactly comma ∷ exactly colon ∷ [])) tokens.now }
{
    match tokens.split_first() {
        Some((first, _)) => match &first.kind {
            TokenKind::Sign(place) => matches!(*place, COMMA | COLON),
            _ => false,
        },
        None => false,
    }
}

/// Whether `init` or `next` comes next.
pub(crate) fn next_is_moment(tokens: &[Token]) -> bool
    ensures { result ≡ starts (begins (exactly w.word_init ∷ exactly w.word_next ∷ [])) tokens.now }
{
    match tokens.split_first() {
        Some((first, _)) => match &first.kind {
            TokenKind::Reserved(place) => matches!(*place, WORD_INIT | WORD_NEXT),
            _ => false,
        },
        None => false,
    }
}

/// Whether an expression begins.
pub fn next_begins_expr(tokens: &[Token]) -> bool
    ensures { result ≡ starts (begins expr_marks) tokens.now }
{
    match tokens.split_first() {
        Some((first, _)) => match &first.kind {
            TokenKind::Ident(_) => true,
            TokenKind::Number(_) => true,
            TokenKind::Sign(place) => matches!(*place, 0 | 4 | 20 | 21 | 22),
            _ => false,
        },
        None => false,
    }
}

/// Whether a statement begins.
pub(crate) fn next_begins_stmt(tokens: &[Token]) -> bool
    ensures { result ≡ starts (begins stmt_marks) tokens.now }
{
    match tokens.split_first() {
        Some((first, _)) => match &first.kind {
            TokenKind::Ident(_) => true,
            TokenKind::Sign(place) => *place == OPEN_BRACE,
            TokenKind::Reserved(place) => matches!(
                *place,
                WORD_FORALL
                    | WORD_INIT
                    | WORD_NEXT
                    | WORD_IF
                    | WORD_SWITCH
                    | WORD_DEFAULT
                    | WORD_FOR
            ),
            _ => false,
        },
        None => false,
    }
}

/// Whether an item begins.
pub fn next_begins_item(tokens: &[Token]) -> bool
    ensures { result ≡ starts (begins item_marks) tokens.now }
{
    match tokens.split_first() {
        Some((first, _)) => match &first.kind {
            TokenKind::Ident(_) => true,
            TokenKind::Sign(place) => *place == OPEN_BRACE,
            TokenKind::Reserved(place) => matches!(
                *place,
                WORD_FORALL
                    | WORD_SUBCASE
                    | WORD_USING
                    | WORD_INIT
                    | WORD_NEXT
                    | WORD_IF
                    | WORD_SWITCH
                    | WORD_DEFAULT
                    | WORD_FOR
            ),
            _ => false,
        },
        None => false,
    }
}

/// Whether a role comes next.
pub fn next_is_role(tokens: &[Token]) -> bool
    ensures { result ≡ starts (begins role_marks) tokens.now }
{
    match tokens.split_first() {
        Some((first, _)) => match &first.kind {
            TokenKind::Reserved(place) => {
                matches!(*place, WORD_ABSTRACT | WORD_INPUT | WORD_OUTPUT)
            }
            _ => false,
        },
        None => false,
    }
}

/// Whether something of a module's body begins.
pub fn next_begins_body(tokens: &[Token]) -> bool
    ensures { result ≡ starts (begins body_marks) tokens.now }
{
    match tokens.split_first() {
        Some((first, _)) => match &first.kind {
            TokenKind::Ident(_) => true,
            TokenKind::Sign(place) => *place == OPEN_BRACE,
            TokenKind::Reserved(place) => matches!(
                *place,
                WORD_ABSTRACT
                    | WORD_INPUT
                    | WORD_OUTPUT
                    | WORD_LAYER
                    | WORD_FORALL
                    | WORD_SUBCASE
                    | WORD_USING
                    | WORD_INIT
                    | WORD_NEXT
                    | WORD_IF
                    | WORD_SWITCH
                    | WORD_DEFAULT
                    | WORD_FOR
            ),
            _ => false,
        },
        None => false,
    }
}

/// Whether something at the top of a text begins.
pub fn next_begins_top(tokens: &[Token]) -> bool
    ensures { result ≡ starts (begins top_marks) tokens.now }
{
    match tokens.split_first() {
        Some((first, _)) => match &first.kind {
            TokenKind::Reserved(place) => matches!(
                *place,
                WORD_SCALARSET | WORD_ORDSET | WORD_TYPEDEF | WORD_MODULE
            ),
            _ => false,
        },
        None => false,
    }
}
