// Where all demands of now that define an element are met, by cells that need not be those of all elements.
ghost use Rattle.std.specs.Prelude.{◌≡◌, ◌&&◌, ℕ, List, [], ◌∷◌, Bool, true, if◌then◌else◌, IfOk, None};
ghost use Rattle.std.specs.List.{list_all};
ghost use Rattle.bdd_store.specs.Diagram.{IsLive, Keeps, table};
ghost use Rattle.law_obligations.specs.May.{AbsState, Kept};
ghost use Rattle.law_obligations.specs.Obligations.{Demanded, is_met};
ghost use Rattle.law_obligations.specs.Cones.{AbsElement};
ghost use Rattle.law_reports.specs.CaseLists.{defines as defines_in, those_of};
ghost use Rattle.law_wires.specs.Tries.{keeping};
ghost use Rattle.smv_cells.specs.Cells.{AreCellsMade};
ghost use Rattle.smv_problem.specs.WellFormed.{OfCases};
ghost use Rattle.smv_walks.specs.Demands.{AreRead};
ghost use Rattle.smv_encode.specs.Parts.{AreDemands, AreElements};

use bdd_ops::and;
use bdd_store::{Ref, Store};
use smv_cells::Cell;
use smv_core::flat::Element;
use smv_encode::chosen::defines;
use smv_outcomes::nothing_known;
use smv_problem::{Demand, Problem};
use smv_walks::demands::met;
use std::alloc::{AllocError, Global};

// Where a demand is met by these cells, whatever the state before is.
fn one_met(
    alloc: Global,
    problem: &Problem,
    cells: &[Cell<Ref>],
    demand: &Demand,
    store: &mut Store,
) -> Result<Ref, AllocError>
    requires live { AreCellsMade (IsLive store.old) cells.now }
    ensures keeps { Keeps store.old store.new }
    ensures live { IfOk result (λ r. IsLive store.new r) }
    ensures means { IfOk result (λ r. OfCases problem.entry.now (λ c. (x : AbsElement) (kept : Kept) (state : (ℕ → Bool) → AbsState) → kept x.family x.indexes ≡ true → AreRead table store.old problem.entry.now None cells.now (keeping c kept) None state → (d : Demanded) → AreDemands c (d ∷ []) (demand.now ∷ []) → defines_in x d ≡ true → (a : ℕ → Bool) → table store.new r a ≡ is_met (keeping c kept) None (state a) d)) }
{
    let _ = store.vars();
    let mut past = nothing_known(alloc);
    let mut known = nothing_known(alloc);
    let r = met(
        store, alloc, problem, None, &mut past, cells, &mut known, demand,
    );
    let _ = store.vars();
    r
}

// Where a demand is met too, if it is the element's.
fn met_too(
    alloc: Global,
    problem: &Problem,
    cells: &[Cell<Ref>],
    taken: bool,
    demand: &Demand,
    others: Ref,
    store: &mut Store,
) -> Result<Ref, AllocError>
    requires live { AreCellsMade (IsLive store.old) cells.now }
    requires others { IsLive store.old others }
    ensures keeps { Keeps store.old store.new }
    ensures live { IfOk result (λ r. IsLive store.new r) }
    ensures means { IfOk result (λ r. OfCases problem.entry.now (λ c. (x : AbsElement) (kept : Kept) (state : (ℕ → Bool) → AbsState) → kept x.family x.indexes ≡ true → AreRead table store.old problem.entry.now None cells.now (keeping c kept) None state → (d : Demanded) → AreDemands c (d ∷ []) (demand.now ∷ []) → taken ≡ defines_in x d → (a : ℕ → Bool) → table store.new r a ≡ (table store.old others a && (if taken then is_met (keeping c kept) None (state a) d else true)))) }
{
    if taken {
        let met = one_met(alloc, problem, cells, demand, store)?;
        let r = and(alloc, store, others, met)?;
        return Ok(r);
    }
    Ok(others)
}

// Where those of these demands are met that define an element.
fn all_met(
    alloc: Global,
    problem: &Problem,
    element: &Element,
    demands: &[Demand],
    cells: &[Cell<Ref>],
    store: &mut Store,
) -> Result<Ref, AllocError>
    requires live { AreCellsMade (IsLive store.old) cells.now }
    ensures keeps { Keeps store.old store.new }
    ensures live { IfOk result (λ r. IsLive store.new r) }
    ensures means { IfOk result (λ r. OfCases problem.entry.now (λ c. (x : AbsElement) → AreElements c (x ∷ []) (element.now ∷ []) → (ds : List Demanded) → AreDemands c ds demands.now → (kept : Kept) (state : (ℕ → Bool) → AbsState) → kept x.family x.indexes ≡ true → AreRead table store.old problem.entry.now None cells.now (keeping c kept) None state → (a : ℕ → Bool) → table store.new r a ≡ list_all (is_met (keeping c kept) None (state a)) (those_of ds x))) }
{
    let mut r = store.constant(true);
    for demand in demands {
        let taken = defines(element, demand);
        r = met_too(alloc, problem, cells, taken, demand, r, store)?;
    }
    Ok(r)
}

/// Where all demands of now that define an element are met by these cells.
pub(crate) fn own_met(
    alloc: Global,
    problem: &Problem,
    element: &Element,
    cells: &[Cell<Ref>],
    store: &mut Store,
) -> Result<Ref, AllocError>
    requires live { AreCellsMade (IsLive store.old) cells.now }
    ensures keeps { Keeps store.old store.new }
    ensures live { IfOk result (λ r. IsLive store.new r) }
    ensures means { IfOk result (λ r. OfCases problem.entry.now (λ c. (x : AbsElement) → AreElements c (x ∷ []) (element.now ∷ []) → (kept : Kept) (state : (ℕ → Bool) → AbsState) → kept x.family x.indexes ≡ true → AreRead table store.old problem.entry.now None cells.now (keeping c kept) None state → (a : ℕ → Bool) → table store.new r a ≡ list_all (is_met (keeping c kept) None (state a)) (those_of c.problem.now x))) }
{
    let demands = problem.now.as_slice();
    let r = all_met(alloc, problem, element, demands, cells, store)?;
    Ok(r)
}
