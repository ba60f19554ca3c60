// Laws of loops, each the contract of a function that does nothing.
ghost use Rattle.std.specs.Prelude.{◌≡◌, List, Bool, true, false, ℕ};
ghost use Rattle.smv_core.specs.declared.flat.Cell.{Cell};
ghost use Rattle.law_designs.specs.LoopLaws.{AreFalling, IsCircular};
ghost use Rattle.law_designs.specs.Loops.{Edge, hold_a_cycle};

/// Edges hold a cycle exactly where some of them, at least one, each lead on to one of them.
pub fn cycles_are_found()
    ensures none_is_missed { (edges : List Edge) (chosen : Edge → Bool) → IsCircular edges chosen → hold_a_cycle edges ≡ true }
    ensures each_is_one { (edges : List Edge) → hold_a_cycle edges ≡ true → (chosen : Edge → Bool) × IsCircular edges chosen }
{}

/// They hold none exactly where the cells have an order by which each edge leads from a later to an earlier cell.
pub fn orders_show_no_cycle()
    ensures there_is_one { (edges : List Edge) → hold_a_cycle edges ≡ false → (rank : Cell → ℕ) × AreFalling rank edges }
    ensures it_shows_none { (edges : List Edge) (rank : Cell → ℕ) → AreFalling rank edges → hold_a_cycle edges ≡ false }
{}
