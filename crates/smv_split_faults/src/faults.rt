// The first fault of splits of a design, 23 and 24: `split_fault`, by `first_fault_of_splits` of `law_splits`.
ghost use Rattle.std.specs.Prelude.{◌≡◌, IfOk};
ghost use Rattle.law_obligations.specs.Units.{units_of};
ghost use Rattle.law_splits.specs.SplitFaults.{first_fault_of_splits};

use crate::mismatches::first_mismatch;
use smv_core::fault::Fault;
use smv_core::flat::{Design, Unit};
use smv_first_fault::faults::{earlier, fault_at};
use smv_first_fault::places::first_of;
use smv_splits::groups::make_tables;
use smv_splits::lost::first_lost;
use smv_splits::misfits::first_misfit;
use smv_splits::names::{index_of, names_split};
use std::alloc::{AllocError, Global};

/// The first fault of splits of a design, 23 and 24, by place and then by number.
pub fn split_fault(
    alloc: Global,
    design: &Design,
    units: &[Unit],
) -> Result<Option<Fault>, AllocError>
    requires { units.now ≡ units_of design.now }
    ensures { IfOk result (λ fault. fault ≡ first_fault_of_splits design.now) }
{
    let splits = design.splits.as_slice();
    let names = names_split(alloc, splits)?;
    let named = index_of(alloc, &names)?;
    let tables = make_tables(alloc, design, named, &names)?;
    let lost = first_lost(alloc, &tables, &names, units)?;
    let mismatch = first_mismatch(alloc, &tables, units)?;
    let misfit = first_misfit(alloc, design.families.as_slice(), splits)?;
    Ok(earlier(fault_at(23, lost), fault_at(24, first_of(misfit, mismatch))))
}
