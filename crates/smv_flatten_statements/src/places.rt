// Where expressions begin.
ghost use Rattle.std.specs.Prelude.{◌≡◌};
ghost use Rattle.law_designs.specs.Statements as statements;
ghost use Rattle.smv_flatten_statements.specs.Flattened.{begins_at, first_begins_at};

use smv_core::tree::Expr;

/// The offset of the first token of an expression, other than `(`.
#[tactic(auto, unfolding(crate::specs::Flattened::begins_at))]
pub fn first_token(e: &Expr) -> u32
    ensures { result ≡ statements.first_token e.now }
{
    begin(e)
}

// The same, under a name by which laws can speak of each constructor.
#[cycle(places)]
#[tactic(auto, using(crate::proofs::PlaceLaws::equations))]
fn begin(e: &Expr) -> u32
    ensures { result ≡ begins_at e.now }
{
    match e {
        Expr::Number { at, .. } => *at,
        Expr::Signal { path } => path.at,
        Expr::Not { at, .. } => *at,
        Expr::And { parts } => first_begin(parts.as_slice()),
        Expr::Or { parts } => first_begin(parts.as_slice()),
        Expr::Implies { parts } => first_begin(parts.as_slice()),
        Expr::Iff { left, .. } => begin(left.get()),
        Expr::Compare { left, .. } => begin(left.get()),
        Expr::Within { left, .. } => begin(left.get()),
        Expr::Sum { first, .. } => begin(first.get()),
        Expr::Modulo { of, .. } => begin(of.get()),
        Expr::Choose { cond, .. } => begin(cond.get()),
        Expr::All { at, .. } => *at,
        Expr::Any { at, .. } => *at,
        Expr::List { at, .. } => *at,
        Expr::Each { at, .. } => *at,
    }
}

/// The offset of the first token of the first of these expressions, and 0 where there is none.
#[cycle(places)]
pub(crate) fn first_begin(parts: &[Expr]) -> u32
    ensures { result ≡ first_begins_at parts.now }
{
    match parts {
        [first, ..] => begin(first),
        [] => 0,
    }
}
