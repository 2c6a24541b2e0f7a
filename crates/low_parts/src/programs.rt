// Programs of other functions.
ghost use Rattle.std.specs.Prelude.{◌≡◌};
ghost use Rattle.low_ir.specs.Formed.{IsLow};
ghost use Rattle.low_ir.specs.Programs.{low_of};
ghost use Rattle.low_ir.specs.View.{program};

use low_ir::{Function, Low};

/// A program with other functions.
pub fn with_functions(low: Low, new: Vec<Function>) -> Low
    requires { IsLow (program new.items low.claims.items low.objects.items low.main low.marks) }
    ensures { low_of result ≡ program new.items low.claims.items low.objects.items low.main low.marks }
{
    let Low {
        functions,
        claims,
        objects,
        main,
        marks,
    } = low;
    drop(functions);
    Low {
        functions: new,
        claims,
        objects,
        main,
        marks,
    }
}
