// Laws of orders of all bits, each the contract of a function that does nothing.
ghost use Rattle.law_arrangements.specs.Orders.{OrdersAreLong, OrdersHaveEach, PlacesAreOwn, DeclaredIsOrder, OrdersAreArrangements};

/// An order has as many places as there are bits, each bit has a place, and at each place stands a bit that has this place; the order of declarations is one.
pub fn orders_have_places()
    ensures long { OrdersAreLong }
    ensures each { OrdersHaveEach }
    ensures own { PlacesAreOwn }
    ensures declared { DeclaredIsOrder }
{}

/// Over whatever order of its bits a case has an arrangement, with no element without bits.
pub fn orders_are_arrangements()
    ensures { OrdersAreArrangements }
{}
