// Claims, splits and `using` of the flattened text.
ghost use Rattle.std.specs.Prelude.{◌≡◌, [], map, IfOk};
ghost use Rattle.law_designs.specs.Entries as entries;
ghost use Rattle.law_designs.specs.Flattening as flattening;
ghost use Rattle.law_designs.specs.Flattening.{within};
ghost use Rattle.smv_flatten_families.specs.Held.{AreNumbers, scope_here};
ghost use Rattle.smv_flatten_statements.specs.Around.{around_of};
ghost use Rattle.smv_flatten.specs.Leaves.{binders_of};
ghost use Rattle.smv_flatten.specs.Items.{goal_item};

use crate::acts::params;
use crate::copies::{all_whole, copied_word, copied_words, whole, whole_uses};
use crate::leaves::Binder;
use crate::met::deeper;
use smv_core::flat::{Claim, FlatItem, FlatPair, FlatSplit, FlatUsing};
use smv_core::name::Name;
use smv_core::seq::Seq;
use smv_core::tree::{Expr, Pair, Ref, Use, Word};
use smv_flatten_families::dots::dotted;
use smv_flatten_families::numbers::Here;
use smv_flatten_statements::expressions::flat_expression;
use smv_flatten_statements::vars::Var;
use std::alloc::{AllocError, Global};

// A name of the instance.
#[tactic(auto, unfolding(smv_flatten_families::specs::Held::scope_here))]
fn own_name<'a>(alloc: Global, here: Here<'a, '_>, word: &'a Word) -> Result<Name, AllocError>
    ensures { IfOk result (λ name. name ≡ flattening.own_name (scope_here here.entry) word.now) }
{
    let path = deeper(alloc, here.instance, &word.name)?;
    dotted(alloc, path.as_slice())
}

/// A claim inside these binders, whose variables are `vars`. It has no place yet.
#[tactic(auto, unfolding(crate::specs::Items::goal_item))]
pub fn claimed<'a>(
    alloc: Global,
    here: Here<'a, '_>,
    around: &[Binder<'a>],
    vars: &[Var<'a>],
    word: &'a Word,
    brackets: &[Word],
    body: &'a Expr,
    at: u32,
) -> Result<FlatItem, AllocError>
    requires numbers { AreNumbers here.numbers.now }
    requires within { around_of vars.now ≡ within [] (binders_of around.now) }
    ensures { IfOk result (λ item. item ≡ goal_item (scope_here here.entry) (binders_of around.now) (entries.claim word.now brackets.now body.now at)) }
{
    let name = own_name(alloc, here, word)?;
    let brackets = copied_words(alloc, brackets)?;
    let params = params(alloc, here, around)?;
    let body = flat_expression(body, here, vars, alloc)?;
    Ok(FlatItem::Claim {
        claim: Claim {
            name,
            vars: brackets,
            params,
            body,
            place: 0,
            at,
        },
    })
}

// The equations of a split.
#[tactic(auto, using(smv_mentions::proofs::Notes::noting))]
fn flat_pairs<'a>(
    alloc: Global,
    here: Here<'a, '_>,
    vars: &[Var<'a>],
    pairs: &'a [Pair],
) -> Result<Seq<FlatPair>, AllocError>
    requires { AreNumbers here.numbers.now }
    ensures { IfOk result (λ flat. flat ≡ map (flattening.flat_pair (scope_here here.entry) (around_of vars.now)) pairs.now) }
{
    let mut flat = Seq::new(alloc);
    for pair in pairs {
        let left = flat_expression(&pair.left, here, vars, alloc)?;
        let right = copied_word(alloc, &pair.right)?;
        flat.push(FlatPair {
            left,
            right,
            at: pair.at,
        })?;
    }
    Ok(flat)
}

/// A split inside these binders, whose variables are `vars`.
#[tactic(auto, unfolding(crate::specs::Items::goal_item))]
pub(crate) fn divided<'a>(
    alloc: Global,
    here: Here<'a, '_>,
    around: &[Binder<'a>],
    vars: &[Var<'a>],
    word: &'a Word,
    brackets: &[Word],
    of: &Ref,
    pairs: &'a [Pair],
    at: u32,
) -> Result<FlatItem, AllocError>
    requires numbers { AreNumbers here.numbers.now }
    requires within { around_of vars.now ≡ within [] (binders_of around.now) }
    ensures { IfOk result (λ item. item ≡ goal_item (scope_here here.entry) (binders_of around.now) (entries.split word.now brackets.now of.now pairs.now at)) }
{
    let name = own_name(alloc, here, word)?;
    let brackets = copied_words(alloc, brackets)?;
    let of = whole(alloc, here, of)?;
    let bound = params(alloc, here, around)?;
    let pairs = flat_pairs(alloc, here, vars, pairs)?;
    Ok(FlatItem::Split {
        split: FlatSplit {
            name,
            vars: brackets,
            of,
            bound,
            pairs,
            at,
        },
    })
}

// The name of the instance.
#[tactic(auto, unfolding(smv_flatten_families::specs::Held::scope_here))]
fn prefix_name(alloc: Global, here: Here) -> Result<Name, AllocError>
    ensures { IfOk result (λ name. name ≡ flattening.dotted (scope_here here.entry).instance) }
{
    dotted(alloc, here.instance)
}

/// What is used in proofs, inside these binders.
#[tactic(auto, unfolding(crate::specs::Items::goal_item))]
pub fn used<'a>(
    alloc: Global,
    here: Here<'a, '_>,
    around: &[Binder<'a>],
    uses: &[Use],
    proves: &[Ref],
    at: u32,
) -> Result<FlatItem, AllocError>
    requires { AreNumbers here.numbers.now }
    ensures { IfOk result (λ item. item ≡ goal_item (scope_here here.entry) (binders_of around.now) (entries.using uses.now proves.now at)) }
{
    let prefix = prefix_name(alloc, here)?;
    let bound = params(alloc, here, around)?;
    let uses = whole_uses(alloc, here, uses)?;
    let proves = all_whole(alloc, here, proves)?;
    Ok(FlatItem::Using {
        using: FlatUsing {
            prefix,
            bound,
            uses,
            proves,
            at,
        },
    })
}
