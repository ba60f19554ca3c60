// The law of names of units, the contract of a function that does nothing.
ghost use Rattle.law_unit_names.specs.Names.{UnitNamesAreVisible};

use law_sound_texts::left_sides::definitions_are_of_families;
use smv_lex::laws::longest_token;

/// The name of each unit of a text without a fault of names, kinds and single assignment has at least one byte, and each of its bytes is neither blank nor beyond ASCII.
pub fn unit_names_are_visible()
    ensures { UnitNamesAreVisible }
{
    longest_token();
    definitions_are_of_families();
}
