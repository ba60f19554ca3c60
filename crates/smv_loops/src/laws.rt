// Laws of cells, each the contract of a function that does nothing.
ghost use Rattle.std.specs.Prelude.{◌≢◌};
ghost use Rattle.std.specs.List.{AllPairs};
ghost use Rattle.smv_core.specs.declared.flat.Cell.{Cell};
ghost use Rattle.smv_core.specs.declared.flat.Design.{Design};
ghost use Rattle.smv_loops.specs.Order.{all_cells};

/// The cells of a design differ, so that an order has each once.
pub fn cells_differ()
    ensures { (d : Design) → AllPairs (λ (a b : Cell). a ≢ b) (all_cells d) }
{}
