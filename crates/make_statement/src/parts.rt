// The parts of a switch, as far as they are made.
ghost use Rattle.std.specs.Prelude.{◌≡◌, ◌+◌, ℕ, IfOk};
ghost use Rattle.high_ir.specs.Tree.{End};
ghost use Rattle.plan_definition.specs.Statements as plans;
ghost use Rattle.plan_definition.specs.Statements.{guarded};
ghost use Rattle.make_pieces.specs.View.{code_of};
ghost use Rattle.make_statement.specs.Parts.{parts_of};

use super::labels::with_part;
use make_pieces::Code;
use make_pieces::numbers::sum;
use std::alloc::Global;
use wcc_base::Memory;

/// The parts of a switch, as far as they are made.
#[derive(Drop)]
pub struct Parts {
    /// Those before the last label, each behind its test.
    pub done: Code,
    /// What stands behind the last label.
    pub part: Code,
    /// The number of the last label, 0 before the first one.
    pub number: u32,
}

impl Parts {
    pub fn new(alloc: Global) -> Parts
        ensures parts { (noted : ℕ) (P : plans.Parts) → parts_of noted result P ≡ guarded noted 0 P.before P.behind }
        ensures number { result.number ≡ 0 }
    {
        Parts {
            done: Code::new(alloc),
            part: Code::new(alloc),
            number: 0,
        }
    }

    /// The same at one label more.
    pub fn at_label(self, alloc: Global, noted: u32) -> Result<Parts, Memory>
        ensures parts { IfOk result (λ p. (P : plans.Parts) → parts_of noted p P ≡ parts_of noted self (plans.at_label noted (self.number + 1) P)) }
        ensures number { IfOk result (λ p. p.number ≡ self.number + 1) }
    {
        let Parts { done, part, number } = self;
        match sum(number, 1) {
            Ok(next) => Ok(Parts {
                done: with_part(alloc, noted, number, done, part)?,
                part: Code::new(alloc),
                number: next,
            }),
            Err(memory) => {
                done.let_go();
                part.let_go();
                Err(memory)
            }
        }
    }

    /// All parts, where no item is left.
    pub fn ended(self, alloc: Global, noted: u32) -> Result<Code, Memory>
        ensures { IfOk result (λ c. code_of c ≡ parts_of noted self (record { before = End; behind = End })) }
    {
        let Parts { done, part, number } = self;
        with_part(alloc, noted, number, done, part)
    }
}
