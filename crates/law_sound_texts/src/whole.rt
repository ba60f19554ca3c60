// Laws of flattened texts that keep the rules of kinds, each the contract of a function that does nothing.
ghost use Rattle.std.specs.Prelude.{◌≡◌, true};
ghost use Rattle.smv_core.specs.declared.flat.FlatText.{FlatText};
ghost use Rattle.law_designs.specs.Laws.{left_sides_are_whole};
ghost use Rattle.law_designs.specs.FlatKinds.{is_kinded};

/// In a flattened text no part of which breaks a rule of kinds, no left side has more indexes than its family.
pub fn left_sides_are_whole_where_kinds_fit()
    ensures { (flat_text : FlatText) → is_kinded flat_text ≡ true → left_sides_are_whole flat_text ≡ true }
{}
