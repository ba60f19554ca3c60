// What is doubted of definitions, at each place once.
ghost use Rattle.std.specs.Prelude.{◌≡◌, ◌++◌, flat_map, map, IfOk, OnOk};
ghost use Rattle.smv_look_lint.specs.Lint.{doubted, doubted_in, elsewhere, one_each};

use crate::warnings::{Flaw, Warning};
use smv_core::flat::{Def, Design};
use smv_look_bounds::{Doubt, push_def};
use std::alloc::{AllocError, Global};

// Notes what is doubted of the family of this number.
#[tactic(auto, using(crate::proofs::Listing::listing))]
fn push_doubts(out: &mut Vec<Warning>, family: u16, doubts: &[Doubt]) -> Result<(), AllocError>
    ensures { OnOk result (out.new.items ≡ out.old.items ++ map (doubted family) doubts.now) }
{
    for doubt in doubts {
        let flaw = Flaw::Doubted { what: doubt.what };
        out.push(Warning {
            family,
            flaw,
            at: doubt.at,
        })?;
    }
    Ok(())
}

// Notes what is doubted of a definition.
fn push_doubted(
    out: &mut Vec<Warning>,
    alloc: Global,
    design: &Design,
    def: &Def,
) -> Result<(), AllocError>
    ensures { OnOk result (out.new.items ≡ out.old.items ++ doubted_in design.now.families def.now) }
{
    let mut doubts = Vec::new(alloc);
    push_def(&mut doubts, alloc, design.families.as_slice(), def)?;
    push_doubts(out, def.family, doubts.as_slice())
}

/// What is doubted of the definitions of a design, in their order.
#[tactic(auto, using(crate::proofs::Listing::listing))]
pub(crate) fn doubts_of(alloc: Global, design: &Design) -> Result<Vec<Warning>, AllocError>
    ensures { IfOk result (λ doubts. doubts.items ≡ flat_map (doubted_in design.now.families) design.now.defs) }
{
    let mut doubts = Vec::new(alloc);
    for def in design.defs.as_slice() {
        push_doubted(&mut doubts, alloc, design, def)?;
    }
    Ok(doubts)
}

// Notes those that do not stand where the one before stands.
#[tactic(auto, using(crate::proofs::Listing::listing))]
fn push_elsewhere(
    out: &mut Vec<Warning>,
    first: u32,
    warnings: &[Warning],
) -> Result<(), AllocError>
    ensures { OnOk result (out.new.items ≡ out.old.items ++ elsewhere first warnings.now) }
{
    let mut last = first;
    for warning in warnings {
        if warning.at != last {
            out.push(*warning)?;
            last = warning.at;
        }
    }
    Ok(())
}

/// Notes of those of one place the first.
#[tactic(auto, using(crate::proofs::Listing::listing))]
pub(crate) fn push_one_each(out: &mut Vec<Warning>, warnings: &[Warning]) -> Result<(), AllocError>
    ensures { OnOk result (out.new.items ≡ out.old.items ++ one_each warnings.now) }
{
    match warnings {
        [] => Ok(()),
        [first, more @ ..] => {
            out.push(*first)?;
            push_elsewhere(out, first.at, more)
        }
    }
}
