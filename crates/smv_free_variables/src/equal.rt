// Whether two expressions differ by their places in the text alone.
ghost use Rattle.std.specs.Prelude.{◌≡◌, IsTrue, map};
ghost use Rattle.smv_free_variables.specs.Placeless.{placeless, placeless_term, placeless_member};

use smv_core::flat::{FlatExpr, FlatMember, FlatSigned};

/// Whether an expression is another one but for the places in the text.
#[cycle(equal)]
#[tactic(auto, using(crate::proofs::PlacelessLaws::equations))]
pub(crate) fn is_equal(e: &FlatExpr, d: &FlatExpr) -> bool
    ensures { IsTrue result → placeless e.now ≡ placeless d.now }
{
    match (e, d) {
        (FlatExpr::Number { value: x, .. }, FlatExpr::Number { value: y, .. }) => x == y,
        (
            FlatExpr::Read {
                family: f,
                indexes: xs,
                ..
            },
            FlatExpr::Read {
                family: g,
                indexes: ys,
                ..
            },
        ) => f == g && are_equal(xs.as_slice(), ys.as_slice()),
        (FlatExpr::Var { var: x, .. }, FlatExpr::Var { var: y, .. }) => x == y,
        (FlatExpr::Loop { value: x, .. }, FlatExpr::Loop { value: y, .. }) => x == y,
        (
            FlatExpr::Constant {
                list: s,
                value: x,
                ..
            },
            FlatExpr::Constant {
                list: t,
                value: y,
                ..
            },
        ) => s == t && x == y,
        (FlatExpr::Not { of: x, .. }, FlatExpr::Not { of: y, .. }) => is_equal(x.get(), y.get()),
        (FlatExpr::And { parts: xs }, FlatExpr::And { parts: ys }) => {
            are_equal(xs.as_slice(), ys.as_slice())
        }
        (FlatExpr::Or { parts: xs }, FlatExpr::Or { parts: ys }) => {
            are_equal(xs.as_slice(), ys.as_slice())
        }
        (FlatExpr::Implies { parts: xs }, FlatExpr::Implies { parts: ys }) => {
            are_equal(xs.as_slice(), ys.as_slice())
        }
        (FlatExpr::Iff { left: x, right: p }, FlatExpr::Iff { left: y, right: q }) => {
            is_equal(x.get(), y.get()) && is_equal(p.get(), q.get())
        }
        (
            FlatExpr::Compare {
                op: o,
                left: x,
                right: p,
            },
            FlatExpr::Compare {
                op: k,
                left: y,
                right: q,
            },
        ) => o == k && (is_equal(x.get(), y.get()) && is_equal(p.get(), q.get())),
        (FlatExpr::Within { left: x, set: p }, FlatExpr::Within { left: y, set: q }) => {
            is_equal(x.get(), y.get()) && is_equal(p.get(), q.get())
        }
        (FlatExpr::Sum { first: x, more: xs }, FlatExpr::Sum { first: y, more: ys }) => {
            is_equal(x.get(), y.get()) && are_equal_terms(xs.as_slice(), ys.as_slice())
        }
        (FlatExpr::Modulo { of: x, by: m, .. }, FlatExpr::Modulo { of: y, by: n, .. }) => {
            m == n && is_equal(x.get(), y.get())
        }
        (
            FlatExpr::Choose {
                cond: c,
                yes: x,
                no: p,
            },
            FlatExpr::Choose {
                cond: d,
                yes: y,
                no: q,
            },
        ) => {
            is_equal(c.get(), d.get()) && (is_equal(x.get(), y.get()) && is_equal(p.get(), q.get()))
        }
        (
            FlatExpr::All {
                body: x,
                var: u,
                over: s,
                ..
            },
            FlatExpr::All {
                body: y,
                var: v,
                over: t,
                ..
            },
        ) => u == v && (s == t && is_equal(x.get(), y.get())),
        (
            FlatExpr::Any {
                body: x,
                var: u,
                over: s,
                ..
            },
            FlatExpr::Any {
                body: y,
                var: v,
                over: t,
                ..
            },
        ) => u == v && (s == t && is_equal(x.get(), y.get())),
        (FlatExpr::List { members: xs, .. }, FlatExpr::List { members: ys, .. }) => {
            are_equal_members(xs.as_slice(), ys.as_slice())
        }
        (
            FlatExpr::Each {
                var: u,
                over: s,
                cond: c,
                ..
            },
            FlatExpr::Each {
                var: v,
                over: t,
                cond: d,
                ..
            },
        ) => {
            u == v
                && (s == t
                    && match (c, d) {
                        (None, None) => true,
                        (Some(x), Some(y)) => is_equal(x.get(), y.get()),
                        _ => false,
                    })
        }
        _ => false,
    }
}

// Whether these are those, one by one.
#[cycle(equal)]
#[tactic(auto, using(crate::proofs::PlacelessLaws::equations))]
fn are_equal(xs: &[FlatExpr], ys: &[FlatExpr]) -> bool
    ensures { IsTrue result → map placeless xs.now ≡ map placeless ys.now }
{
    let mut others = ys;
    for x in xs {
        let Some((y, more)) = others.split_first() else {
            return false;
        };
        if !is_equal(x, y) {
            return false;
        }
        others = more;
    }
    others.is_empty()
}

// Whether a sum adds and takes away the same.
#[cycle(equal)]
#[tactic(auto, using(crate::proofs::PlacelessLaws::equations))]
fn are_equal_terms(xs: &[FlatSigned], ys: &[FlatSigned]) -> bool
    ensures { IsTrue result → map placeless_term xs.now ≡ map placeless_term ys.now }
{
    let mut others = ys;
    for x in xs {
        let Some((y, more)) = others.split_first() else {
            return false;
        };
        if !is_equal_term(x, y) {
            return false;
        }
        others = more;
    }
    others.is_empty()
}

// Whether a sum adds the same, or takes away the same.
#[cycle(equal)]
#[tactic(auto, using(crate::proofs::PlacelessLaws::equations))]
fn is_equal_term(x: &FlatSigned, y: &FlatSigned) -> bool
    ensures { IsTrue result → placeless_term x.now ≡ placeless_term y.now }
{
    x.minus == y.minus && is_equal(&x.of, &y.of)
}

// Whether two sets have the same members, as they are listed.
#[cycle(equal)]
#[tactic(auto, using(crate::proofs::PlacelessLaws::equations))]
fn are_equal_members(xs: &[FlatMember], ys: &[FlatMember]) -> bool
    ensures { IsTrue result → map placeless_member xs.now ≡ map placeless_member ys.now }
{
    let mut others = ys;
    for x in xs {
        let Some((y, more)) = others.split_first() else {
            return false;
        };
        if !is_equal_member(x, y) {
            return false;
        }
        others = more;
    }
    others.is_empty()
}

// Whether a member of a set is another.
#[cycle(equal)]
#[tactic(auto, using(crate::proofs::PlacelessLaws::equations))]
fn is_equal_member(x: &FlatMember, y: &FlatMember) -> bool
    ensures { IsTrue result → placeless_member x.now ≡ placeless_member y.now }
{
    match (x, y) {
        (FlatMember::One { of: e }, FlatMember::One { of: d }) => is_equal(e, d),
        (FlatMember::Span { span: s, .. }, FlatMember::Span { span: t, .. }) => s == t,
        _ => false,
    }
}
