// Statements of the flattened text, inside the binders around them.
ghost use Rattle.std.specs.Prelude.{◌≡◌, ◌++◌, [], map, drop, IfOk, OnOk};
ghost use Rattle.law_designs.specs.Flattening.{params_from, within};
ghost use Rattle.smv_core.specs.declared.flat.FlatItem.TheVariants.{Act};
ghost use Rattle.smv_flatten_families.specs.Held.{AreNumbers, scope_here};
ghost use Rattle.smv_flatten_statements.specs.Around.{around_of};
ghost use Rattle.smv_flatten.specs.Leaves.{binders_of};
ghost use Rattle.smv_flatten.specs.Items.{bound_by, act_item};

use crate::leaves::Binder;
use smv_copies::copy_name;
use smv_core::boxed::Boxed;
use smv_core::flat::{FlatItem, FlatStmt, Param};
use smv_core::seq::Seq;
use smv_core::tree::Stmt;
use smv_flatten_families::lookups::over;
use smv_flatten_families::numbers::Here;
use smv_flatten_statements::statements::flat_statement;
use smv_flatten_statements::vars::{Bound, Var, inside};
use std::alloc::{AllocError, Global};

/// The variables of binders, the innermost first.
#[tactic(auto, using(crate::proofs::ItemLaws::binders))]
pub fn variables<'a>(alloc: Global, around: &[Binder<'a>]) -> Result<Vec<Var<'a>>, AllocError>
    ensures { IfOk result (λ vars. around_of vars.items ≡ within [] (binders_of around.now)) }
{
    let mut vars = Vec::new(alloc);
    for binder in around {
        let var = Var {
            name: &binder.word.name,
            bound: Bound::Any,
        };
        vars = inside(alloc, vars.as_slice(), var)?;
    }
    Ok(vars)
}

/// A number in a field of its own. Where it does not fit, which no text within the limits has, no memory is said to be left.
pub fn small(number: usize) -> Result<u16, AllocError>
    ensures { IfOk result (λ n. n ≡ number) }
{
    match u16::try_from(number) {
        Ok(n) => Ok(n),
        Err(_) => Err(AllocError),
    }
}

// A statement inside these binders but for the first `k`.
#[tactic(auto, using(crate::proofs::ItemLaws::binders))]
fn foralls<'a>(
    alloc: Global,
    here: Here<'a, '_>,
    around: &[Binder<'a>],
    act: FlatStmt,
    k: usize,
) -> Result<FlatStmt, AllocError>
    requires { AreNumbers here.numbers.now }
    ensures { IfOk result (λ all. all ≡ bound_by (scope_here here.entry) k (binders_of (drop k around.now)) act) }
{
    if k < around.len() {
        let binder = around[k];
        let body = foralls(alloc, here, around, act, k + 1)?;
        let var = small(k)?;
        let over = over(here, binder.over)?;
        let body = Boxed::new(alloc, body)?;
        Ok(FlatStmt::Forall { var, over, body })
    } else {
        Ok(act)
    }
}

/// A flattened statement inside these binders as an item, of the layer of this number or outside layers.
pub(crate) fn act_inside<'a>(
    alloc: Global,
    here: Here<'a, '_>,
    around: &[Binder<'a>],
    layer: Option<u16>,
    act: FlatStmt,
) -> Result<FlatItem, AllocError>
    requires { AreNumbers here.numbers.now }
    ensures { IfOk result (λ item. item ≡ Act layer (bound_by (scope_here here.entry) 0 (binders_of around.now) act)) }
{
    let act = foralls(alloc, here, around, act, 0)?;
    Ok(FlatItem::Act { layer, act })
}

/// A statement inside these binders, whose variables are `vars`.
#[tactic(auto, unfolding(crate::specs::Items::act_item, smv_flatten_statements::specs::Flattened::statement_of))]
pub fn statement<'a>(
    alloc: Global,
    here: Here<'a, '_>,
    around: &[Binder<'a>],
    vars: &[Var<'a>],
    layer: Option<u16>,
    act: &'a Stmt,
) -> Result<FlatItem, AllocError>
    requires numbers { AreNumbers here.numbers.now }
    requires within { around_of vars.now ≡ within [] (binders_of around.now) }
    ensures { IfOk result (λ item. item ≡ act_item (scope_here here.entry) layer (binders_of around.now) act.now) }
{
    let flat = flat_statement(act, here, vars, alloc)?;
    act_inside(alloc, here, around, layer, flat)
}

/// Statements inside these binders, whose variables are `vars`.
#[tactic(auto, using(smv_mentions::proofs::Notes::noting))]
pub fn statements<'a>(
    alloc: Global,
    here: Here<'a, '_>,
    around: &[Binder<'a>],
    vars: &[Var<'a>],
    layer: Option<u16>,
    body: &'a [Stmt],
    out: &mut Vec<FlatItem>,
) -> Result<(), AllocError>
    requires numbers { AreNumbers here.numbers.now }
    requires within { around_of vars.now ≡ within [] (binders_of around.now) }
    ensures { OnOk result (out.new.items ≡ out.old.items ++ map (act_item (scope_here here.entry) layer (binders_of around.now)) body.now) }
{
    for act in body {
        let item = statement(alloc, here, around, vars, layer, act)?;
        out.push(item)?;
    }
    Ok(())
}

/// The parameters that binders bind.
#[tactic(auto, using(smv_mentions::proofs::Notes::noting, crate::proofs::ItemLaws::binders))]
pub fn params<'a>(
    alloc: Global,
    here: Here<'a, '_>,
    around: &[Binder<'a>],
) -> Result<Seq<Param>, AllocError>
    requires { AreNumbers here.numbers.now }
    ensures { IfOk result (λ params. params ≡ params_from (scope_here here.entry) 0 (binders_of around.now)) }
{
    let mut params = Seq::new(alloc);
    for k in 0..around.len() {
        let binder = around[k];
        let var = small(k)?;
        let over = over(here, binder.over)?;
        let name = copy_name(alloc, &binder.word.name)?;
        params.push(Param { var, over, name })?;
    }
    Ok(params)
}
