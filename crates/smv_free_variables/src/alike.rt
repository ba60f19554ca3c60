// Bindings under which an expression can be but one thing.
ghost use Rattle.std.specs.Prelude.{◌≡◌, ◌↔◌, true, IsTrue};
ghost use Rattle.law_obligations.specs.FreeReads.{Agree};
ghost use Rattle.smv_free_variables.specs.Reading.{occurs};
ghost use Rattle.smv_free_variables.specs.Alike.{AllAgree};

use crate::reading::is_read;
use smv_core::flat::FlatExpr;
use smv_core::seq::Seq;
use smv_spots::spots::{Spot, is_outcome};

// Whether the variable of this number stands at the same spot, or is not read.
fn is_same(e: &FlatExpr, var: usize, p: Spot, q: Spot) -> bool
    ensures { IsTrue result ↔ (occurs var e.now ≡ true → p ≡ q) }
{
    is_outcome(Some(p), Some(q)) || !is_read(e, var)
}

/// Whether two bindings are of equally many variables and agree on those that an expression reads.
pub fn agree(e: &FlatExpr, b: &[Spot], c: &[Spot]) -> bool
    ensures { IsTrue result ↔ Agree (λ k. occurs k e.now) b.now c.now }
{
    let Some((p, ps)) = b.split_last() else {
        return c.is_empty();
    };
    let Some((q, qs)) = c.split_last() else {
        return false;
    };
    is_same(e, ps.len(), *p, *q) && agree(e, ps, qs)
}

/// Whether all these bindings agree with a first one on the variables that an expression reads.
pub fn all_agree(e: &FlatExpr, first: &[Spot], others: &[Seq<Spot>]) -> bool
    ensures { IsTrue result ↔ AllAgree (λ k. occurs k e.now) first.now others.now }
{
    let Some((b, more)) = others.split_first() else {
        return true;
    };
    agree(e, first, b.as_slice()) && all_agree(e, first, more)
}
