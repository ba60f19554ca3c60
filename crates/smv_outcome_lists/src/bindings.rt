// Spots in order: bindings of variables, and indexes.
ghost use Rattle.std.specs.Prelude.{◌≡◌, ◌++◌, ◌∷◌, [], take, IfOk};

use smv_spots::spots::Spot;
use std::alloc::{AllocError, Global};

/// Spots with one more behind them.
pub fn behind(alloc: Global, spots: &[Spot], spot: Spot) -> Result<Vec<Spot>, AllocError>
    ensures { IfOk result (λ more. more.items ≡ spots.now ++ spot ∷ []) }
{
    let mut more = spots.to_vec(alloc)?;
    more.push(spot)?;
    Ok(more)
}

// The first of these.
#[tactic(auto, using(crate::proofs::ListLaws::take_whole))]
fn front(b: &[Spot], var: u16) -> &[Spot]
    ensures { result.now ≡ take var b.now }
{
    if (var as usize) < b.len() {
        &b[..var as usize]
    } else {
        b
    }
}

/// The bindings inside a binder: those of the variables before its own, and then its own.
pub fn bound_to(alloc: Global, b: &[Spot], var: u16, spot: Spot) -> Result<Vec<Spot>, AllocError>
    ensures { IfOk result (λ more. more.items ≡ take var b.now ++ spot ∷ []) }
{
    let more = behind(alloc, front(b, var), spot)?;
    Ok(more)
}
