// What is proved, by calls with empty bodies.
ghost use Rattle.lower_program.specs.Claims.{FunctionsDo, StatementsAreFollowed};
ghost use Rattle.lower_program.specs.Kept.{RunsAreKept};

/// A run that comes to the code of a statement does what the statement does, wherever the code
/// stands: it goes on behind it, leaves to an exit, or returns. On the way each entry of each loop of
/// the statement, and of the functions that it calls, has starts within the loop's bounds.
pub fn statements_are_followed()
    ensures { StatementsAreFollowed }
{}

/// A call of a function in the low form gives what a call of it gives in the high form: its value,
/// the arrays, input and output behind it, and the marks that were passed; and each entry of each loop
/// has starts within the loop's bounds.
pub fn functions_do()
    ensures { FunctionsDo }
{}

/// A good run of a program in the high form is a good run of its low program, each entry of each loop
/// with starts within the loop's bounds, that ends with the same value, the same output and the same
/// marks in the same order.
pub fn runs_are_kept()
    ensures { RunsAreKept }
{}
