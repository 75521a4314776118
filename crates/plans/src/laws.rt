ghost use Rattle.plans.specs.Listing.{ListingsTell};
ghost use Rattle.plans.specs.Orders.{OrdersTold};

// No position of an order is refused exactly when it names each of its pins once.
pub fn orders_are_told()
    ensures { OrdersTold }
{}

// Two listings of one order are equal exactly when the plans hold equal selections, line for line.
pub fn listings_tell_selections()
    ensures { ListingsTell }
{}
