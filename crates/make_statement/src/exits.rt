// The blocks that a `break` and a `continue` leave.
ghost use Rattle.std.specs.Prelude.{◌≡◌, IfOk};
ghost use Rattle.plan_definition.specs.Statements.{deeper, in_loop, in_switch};
ghost use Rattle.make_statement.specs.Planned.{exits_of};

use make_pieces::numbers::sum;
use wcc_base::Memory;

/// The depths of the blocks that a `break` and a `continue` leave.
#[derive(Clone, Copy)]
pub struct Exits {
    pub out: u32,
    pub next: u32,
}

impl Exits {
    /// Within one block more, which is none of theirs.
    pub fn deeper(self) -> Result<Exits, Memory>
        ensures { IfOk result (λ e. exits_of e ≡ deeper (exits_of self)) }
    {
        Ok(Exits {
            out: sum(self.out, 1)?,
            next: sum(self.next, 1)?,
        })
    }

    /// Within the body of a loop: its continues leave a block around it, where it has any of its own.
    pub fn in_loop(continues: bool) -> Exits
        ensures { exits_of result ≡ in_loop continues }
    {
        if continues {
            return Exits { out: 1, next: 0 };
        }
        Exits { out: 0, next: 0 }
    }

    /// Within the parts of a switch.
    pub fn in_switch(self) -> Result<Exits, Memory>
        ensures { IfOk result (λ e. exits_of e ≡ in_switch (exits_of self)) }
    {
        Ok(Exits {
            out: 0,
            next: sum(self.next, 1)?,
        })
    }
}
