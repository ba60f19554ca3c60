// Laws of bounds on chains of instances, each the contract of a function that does nothing.
ghost use Rattle.std.specs.Prelude.{◌≡◌, None};
ghost use Rattle.smv_core.specs.Types.{Types};
ghost use Rattle.smv_core.specs.FlatOrder.{families_in, met_in};
ghost use Rattle.smv_core.specs.declared.tree.Text.{Text};
ghost use Rattle.smv_mentions.specs.FirstFault.{first_fault};
ghost use Rattle.law_designs.specs.Entries.{placed_in, entries_in};
ghost use Rattle.law_designs.specs.Deep.{IsDeepEnough};

/// In a text without faults of names a greater bound than the number of modules gives the same families.
pub fn families_are_deep_enough()
    ensures { (text : Text) → first_fault text ≡ None → (types : Types) → IsDeepEnough (families_in types) text }
{}

/// It gives the same statements and claims.
pub fn met_is_deep_enough()
    ensures { (text : Text) → first_fault text ≡ None → (types : Types) → IsDeepEnough (met_in types) text }
{}

/// It gives the same families with the places of their names.
pub fn placed_families_are_deep_enough()
    ensures { (text : Text) → first_fault text ≡ None → (types : Types) → IsDeepEnough (placed_in types) text }
{}

/// It gives the same layers, statements, claims, splits and uses.
pub fn entries_are_deep_enough()
    ensures { (text : Text) → first_fault text ≡ None → (types : Types) → IsDeepEnough (entries_in types) text }
{}
