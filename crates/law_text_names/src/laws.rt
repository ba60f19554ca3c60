// Laws of names, each the contract of a function that does nothing.
ghost use Rattle.law_text_names.specs.Laws.{OtherNamesNoTop, NamesAreRead};

/// A name that is no token of a text is that of no type and no module of it.
pub fn other_names_no_top()
    ensures { OtherNamesNoTop }
{}

/// The variable and the ordset of an induction are read as names.
pub fn names_are_read()
    ensures { NamesAreRead }
{}
