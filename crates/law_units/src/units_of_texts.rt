// Laws of the definitions, each the contract of a function that does nothing.
ghost use Rattle.law_units.specs.TextUnits.{UnitsAreTheSame, NamesAreTheSame};

use law_flat_kinds::families_are_found;
use law_sound_texts::behaviours::layers_are_same;
use law_sound_texts::left_sides::left_sides_are_exact;

/// The units of a text are those of its flattened design, in the same order and with the same names.
pub fn units_are_the_same()
    ensures units { UnitsAreTheSame }
    ensures names { NamesAreTheSame }
{
    families_are_found();
    layers_are_same();
    left_sides_are_exact();
}
