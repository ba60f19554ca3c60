// `:=` beside `init` or `next`.
ghost use Rattle.std.specs.Prelude.{◌≡◌, ℕ};
ghost use Rattle.smv_first_fault.specs.Firsts.{least};
ghost use Rattle.law_designs.specs.SingleFaults.{mixed};
ghost use Rattle.smv_single_assignment.specs.Links.{IsTable, held};

use crate::clashes::Clash;
use crate::earlier::first_clash;
use crate::links::Table;
use smv_first_fault::places::first_of;

/// The first place of a later one of a `:=` and an `init` or `next` that are not told apart.
pub(crate) fn first_mixed(table: &Table) -> Option<u32>
    requires table { (count : ℕ) × IsTable table.now count }
    ensures { result ≡ least (mixed (held table.now)) }
{
    let mut found = None;
    for place in 0..table.all.len() {
        let met = first_clash(table, Clash::Mixed, 0, place, place + 1);
        found = first_of(found, met);
    }
    found
}
