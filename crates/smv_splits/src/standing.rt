// The parameters for which the variables around a split stand.
ghost use Rattle.std.specs.Prelude.{◌≡◌, ◌++◌, map, IfOk, OnOk, nat_eq, length};
ghost use Rattle.std.specs.List.{position};
ghost use Rattle.smv_core.specs.Values.{numbers_from};
ghost use Rattle.law_splits.specs.Leaves.{old, stands_for, with_name};

use smv_core::flat::{FlatSplit, Param};
use smv_core::tree::Word;
use smv_references::brackets::named;
use std::alloc::{AllocError, Global};

// The variable that a name names, more.
fn add_variable(vars: &mut Vec<u16>, bound: &[Param], word: &Word) -> Result<(), AllocError>
    ensures { OnOk result (vars.new.items ≡ vars.old.items ++ map (λ p. p.var) (with_name bound.now word.now)) }
{
    match named(bound, word) {
        Some(p) => {
            vars.push(p.var)?;
            Ok(())
        }
        None => Ok(()),
    }
}

// The variables that the names in the brackets of what is split name, in their order.
#[tactic(auto, using(smv_mentions::proofs::Notes::noting))]
fn variables_named(alloc: Global, split: &FlatSplit) -> Result<Vec<u16>, AllocError>
    ensures { IfOk result (λ vars. vars.items ≡ map (λ p. p.var) (old split.now)) }
{
    let mut vars = Vec::new(alloc);
    for word in split.of.names.as_slice() {
        add_variable(&mut vars, split.bound.as_slice(), word)?;
    }
    Ok(vars)
}

// The place of a variable among these, if it is one of them.
fn place_in(vars: &[u16], var: usize) -> Option<usize>
    ensures { result ≡ position (λ v. nat_eq v var) vars.now }
{
    vars.iter().position(|v| usize::from(*v) == var)
}

/// For each variable around a split the number of the parameter for which it stands, where the brackets of what is split name it.
pub fn standing(alloc: Global, split: &FlatSplit) -> Result<Vec<Option<usize>>, AllocError>
    ensures { IfOk result (λ places. places.items ≡ map (stands_for split.now) (numbers_from 0 (length split.now.bound))) }
{
    let vars = variables_named(alloc, split)?;
    let mut places = Vec::new(alloc);
    for var in 0..split.bound.len() {
        places.push(place_in(&vars, var))?;
    }
    Ok(places)
}
