// Left sides and claims without the variables of the `forall`s around them.
ghost use Rattle.std.specs.Prelude.{◌≡◌, ◌++◌, [], ◌∷◌, map};
ghost use Rattle.std.specs.List.{list_any, flat_map};
ghost use Rattle.smv_core.specs.Types.{names_of};
ghost use Rattle.smv_core.specs.Outcome.{same_path};
ghost use Rattle.smv_first_fault.specs.Firsts.{least};
ghost use Rattle.law_designs.specs.WholeText.{claims_of};
ghost use Rattle.law_designs.specs.SingleFaults as spec;
ghost use Rattle.smv_single_assignment.specs.Held.{standing_of};

use crate::assignments::Assignment;
use smv_core::flat::{Claim, FlatExpr, FlatItem, Param};
use smv_core::tree::Word;
use smv_first_fault::places::{first_of, place_if};

// The variable alone.
fn is_variable(var: u16, x: &FlatExpr) -> bool
    ensures { result ≡ spec.is_variable var x.now }
{
    match x {
        FlatExpr::Var { var: other, .. } => *other == var,
        FlatExpr::Number { .. } | FlatExpr::Loop { .. } | FlatExpr::Constant { .. } => false,
        FlatExpr::Read { .. } | FlatExpr::Not { .. } | FlatExpr::And { .. } => false,
        FlatExpr::Or { .. } | FlatExpr::Implies { .. } | FlatExpr::Iff { .. } => false,
        FlatExpr::Compare { .. } | FlatExpr::Within { .. } | FlatExpr::Sum { .. } => false,
        FlatExpr::Modulo { .. } | FlatExpr::Choose { .. } | FlatExpr::All { .. } => false,
        FlatExpr::Any { .. } | FlatExpr::List { .. } | FlatExpr::Each { .. } => false,
    }
}

// The variable is an index of the left side.
fn is_index(var: u16, left: &[FlatExpr]) -> bool
    ensures { result ≡ list_any (spec.is_variable var) left.now }
{
    for x in left {
        if is_variable(var, x) {
            return true;
        }
    }
    false
}

// Each variable around it is an index of its left side.
fn has_variables(x: &Assignment) -> bool
    ensures { result ≡ spec.has_variables (standing_of x.now) }
{
    for var in &x.around {
        if !is_index(*var, x.left) {
            return false;
        }
    }
    true
}

// The first assignment without a variable.
#[tactic(auto, using(smv_first_fault::proofs::LeastLaws::leasts))]
fn first_lacking(all: &[Assignment]) -> Option<u32>
    ensures { result ≡ least (flat_map spec.lacking (map standing_of all.now)) }
{
    let mut found = None;
    for x in all {
        found = first_of(found, place_if(!has_variables(x), x.at));
    }
    found
}

// The names are those of the parameters, in their order.
#[tactic(auto, using(crate::proofs::VariableLaws::ends))]
fn are_names(vars: &[Word], params: &[Param]) -> bool
    ensures { result ≡ same_path (names_of vars.now) (map (λ param. param.name) params.now) }
{
    let mut words = vars;
    let mut names = params;
    while let ([word, more @ ..], [param, others @ ..]) = (words, names) {
        if word.name != param.name {
            return false;
        }
        words = more;
        names = others;
    }
    words.is_empty() && names.is_empty()
}

// A claim without its variables.
fn unnamed(claim: &Claim) -> Option<u32>
    ensures { result ≡ least (spec.unnamed claim.now) }
{
    place_if(
        !are_names(claim.vars.as_slice(), claim.params.as_slice()),
        claim.at,
    )
}

// The same of an item.
fn unnamed_in(x: &FlatItem) -> Option<u32>
    ensures { result ≡ least (flat_map spec.unnamed (claims_of (x.now ∷ []))) }
{
    match x {
        FlatItem::Claim { claim } => unnamed(claim),
        FlatItem::Act { .. } => None,
        FlatItem::Split { .. } => None,
        FlatItem::Using { .. } => None,
    }
}

// The first claim without its variables.
#[tactic(auto, using(smv_first_fault::proofs::LeastLaws::leasts))]
fn first_unnamed(items: &[FlatItem]) -> Option<u32>
    ensures { result ≡ least (flat_map spec.unnamed (claims_of items.now)) }
{
    let mut found = None;
    for x in items {
        found = first_of(found, unnamed_in(x));
    }
    found
}

/// The first left side or claim without its variables.
#[tactic(auto, using(smv_first_fault::proofs::LeastLaws::leasts))]
pub(crate) fn first_without(all: &[Assignment], items: &[FlatItem]) -> Option<u32>
    ensures { result ≡ least (flat_map spec.lacking (map standing_of all.now) ++ flat_map spec.unnamed (claims_of items.now)) }
{
    first_of(first_lacking(all), first_unnamed(items))
}
