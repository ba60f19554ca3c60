// How many statements are met in a statement, up to a limit.
ghost use Rattle.std.specs.Prelude.{◌≡◌, ◌+◌, ◌*◌, ◌≤◌, length};
ghost use Rattle.std.specs.List.{sum_by};
ghost use Rattle.smv_core.specs.Walk.{steps_of};
ghost use Rattle.smv_core.specs.declared.tree.Arm.{out-Arm};
ghost use Rattle.smv_mentions.specs.Sizes as sizes;
ghost use Rattle.smv_size.specs.Limits.{capped};

use smv_core::tree::{Arm, Stmt};

// One more than the statements that a text may have.
const MOST: u64 = 65_537;

/// How many statements are met in a statement.
#[cycle(counts)]
#[tactic(auto, using(crate::proofs::CountLaws::equations))]
pub fn statements(x: &Stmt) -> u64
    ensures { result ≡ capped (sizes.statements x.now) }
{
    match x {
        Stmt::Assign { .. } => 1,
        Stmt::Block { parts } => plus(1, in_all(parts.as_slice())),
        Stmt::If { yes, no, .. } => {
            let first = plus(1, statements(yes.get()));
            match no {
                None => first,
                Some(no) => plus(first, statements(no.get())),
            }
        }
        Stmt::Switch { arms, other, .. } => {
            let first = plus(1, in_arms(arms.as_slice()));
            match other {
                None => first,
                Some(other) => plus(first, statements(other.get())),
            }
        }
        Stmt::Default { first, second, .. } => plus(
            plus(1, statements(first.get())),
            statements(second.get()),
        ),
        Stmt::For {
            from,
            to,
            closed,
            step,
            body,
            ..
        } => plus(
            1,
            times(turns(*from, *to, *closed, *step), statements(body.get())),
        ),
        Stmt::Forall { body, .. } => plus(1, statements(body.get())),
    }
}

/// How many statements are met in some statements.
#[cycle(counts)]
pub(crate) fn in_all(parts: &[Stmt]) -> u64
    ensures { result ≡ capped (sum_by sizes.statements parts.now) }
{
    let mut total = 0;
    for part in parts {
        total = plus(total, statements(part));
    }
    total
}

#[cycle(counts)]
fn in_arms(arms: &[Arm]) -> u64
    ensures { result ≡ capped (sum_by (λ arm. sizes.statements (out-Arm arm).body) arms.now) }
{
    let mut total = 0;
    for arm in arms {
        total = plus(total, statements(&arm.body));
    }
    total
}

/// A sum, up to the limit.
pub fn plus(a: u64, b: u64) -> u64
    ensures { result ≡ capped (a + b) }
{
    a.saturating_add(b).min(MOST)
}

/// A product, up to the limit.
pub fn times(a: u64, b: u64) -> u64
    ensures { result ≡ capped (a * b) }
{
    a.saturating_mul(b).min(MOST)
}

// How often a `for` runs its body.
#[tactic(auto, using(crate::proofs::TurnLaws::turns))]
fn turns(from: u16, to: u16, closed: bool, step: u16) -> u64
    ensures turns { result ≡ length (steps_of from to closed step) }
    ensures most { result ≤ 65536 }
{
    let every = u64::from(to) + 1;
    let end = if closed { every } else { u64::from(to) };
    let from = u64::from(from);
    if from >= end {
        return 0;
    }
    if step == 0 {
        return every;
    }
    ((end - from - 1) / u64::from(step) + 1).min(every)
}
