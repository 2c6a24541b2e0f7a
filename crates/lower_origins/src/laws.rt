// The order of functions, and what is listed of their array parameters.
ghost use Rattle.lower_origins.specs.Orders.{OrderIsClosed};
ghost use Rattle.lower_origins.specs.Closed.{ClaimsAreClosed};
ghost use Rattle.lower_origins.specs.Passing.{ClaimsArePassed};
ghost use Rattle.lower_origins.specs.Reached.{OrderIsReached};

/// In the order of the low program, main is there, and so is each function that one of them calls,
/// at a lower place.
pub fn order_is_closed()
    ensures { OrderIsClosed }
{}

/// Whatever array a call in a function of the low program passes for an array parameter, where the
/// function itself was passed arrays that are listed of it, is listed of that parameter.
pub fn claims_are_closed()
    ensures { ClaimsAreClosed }
{}

/// The order of the low program has exactly the functions that calls reach from main.
pub fn order_is_reached()
    ensures { OrderIsReached }
{}

/// What is listed of an array parameter are exactly the arrays that calls pass for it.
pub fn claims_are_passed()
    ensures { ClaimsArePassed }
{}
