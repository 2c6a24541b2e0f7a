// What the code of operators and expressions does.
ghost use Rattle.lower_values.specs.Laws.{BinaryComputes, UnaryComputes, ExpressionsAreFound};

/// The instructions that an operator before an operand becomes put into their register what it
/// computes, and leave all others but their own as they are.
pub fn unary_code_computes()
    ensures { UnaryComputes }
{}

/// The same of an operator between two operands.
pub fn binary_code_computes()
    ensures { BinaryComputes }
{}

/// Where the value of an expression is that of a good run, its code finds it: as an operand, in a
/// register, and as a branch that is taken where it isn't 0.
pub fn expressions_are_found()
    ensures { ExpressionsAreFound }
{}
