// The statement that does nothing.
ghost use Rattle.std.specs.Prelude.{◌≡◌};
ghost use Rattle.high_code.specs.Code.{nothing};
ghost use Rattle.high_ir.specs.View.{statement_of};

use high_ir::statement::Statement;
use std::alloc::Global;

/// A statement that does nothing.
pub fn nothing(alloc: Global) -> Statement
    ensures { statement_of result ≡ nothing }
{
    Statement::Seq(Vec::new(alloc))
}
