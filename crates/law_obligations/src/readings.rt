// Laws of the definitions, each the contract of a function that does nothing.
ghost use Rattle.law_obligations.specs.CodeLaws.{BitsAreLeast, ReadingsAreStates, StatesAreRead};

/// An element has the least number of bits that its values need.
pub fn bits_are_least()
    ensures { BitsAreLeast }
{}

/// Each assignment of bits is read as an abstract state, and each abstract state is read from one whose codes are all values.
pub fn states_are_read()
    ensures read { ReadingsAreStates }
    ensures written { StatesAreRead }
{}
