// Laws of the definitions, each the contract of a function that does nothing.
ghost use Rattle.law_problems.specs.ValueLaws.{PlacesHaveKinds, PlacesAreAlike, PlacesAreEqualAsWritten, PlacesAreBelowAsWritten, OrdersAreKnown};

/// Places of one kind compare as they are written.
pub fn places_compare_as_written()
    ensures kinds { PlacesHaveKinds }
    ensures alike { PlacesAreAlike }
    ensures equal { PlacesAreEqualAsWritten }
    ensures below { PlacesAreBelowAsWritten }
{}

/// Places of an ordset are in order, and only of a gap and itself it is not known.
pub fn orders_are_known()
    ensures { OrdersAreKnown }
{}
