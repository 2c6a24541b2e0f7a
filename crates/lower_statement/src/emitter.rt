// Code that is made from its end.
ghost use Rattle.std.specs.Prelude.{◌≡◌, ◌∷◌, ◌++◌, [], IfNone, IfOk, IfSome, List, length, map, reverse, true, ℕ};
ghost use Rattle.lower_expression.specs.View.{tested_in};
ghost use Rattle.low_ir.specs.Code.{Block, Constant, Note, Return};
ghost use Rattle.low_ir.specs.Formed.{only_jump};
ghost use Rattle.low_ir.specs.View.{block_of, end_of, loop_of};
ghost use Rattle.lower_coder.specs.View.{coded_of};
ghost use Rattle.lower_definition.specs.Statements.{block};
ghost use Rattle.lower_statement.specs.View.{first_of, piece_of};
ghost use Rattle.lower_statement.specs.Whole.{apart, branched, closed, goal_of, is_more, landing, latched, looped, marked, preceded, unmarked, with_code, with_first};

use low_ir::{Block as Made, End, Instr, Loop, Operand};
use lower_coder::Coder;
use lower_coder::numbers::count;
use lower_expression::Comparison;
use std::alloc::Global;
use std::mem;
use wcc_base::Memory;

/// Code that is made from its end: the block that begins it, which has no number yet, and those behind it.
#[derive(Drop)]
pub struct Emitter {
    pub alloc: Global,
    pub mark: Option<u32>,
    /// The instructions of the block that begins the code, the last one first.
    pub code: Vec<Instr>,
    pub end: End,
    /// The blocks behind it, the last one first: the number of a block, from the end, is its index.
    pub blocks: Vec<Made>,
    /// The loops among them, the last one first.
    pub loops: Vec<Loop>,
    /// The next free register.
    pub free: u32,
}

/// What a loop is: its number, and how often it starts its header.
#[derive(Clone, Copy)]
pub struct Turns {
    pub id: u32,
    pub min: u32,
    pub max: u32,
}

/// The latch of a loop gets its header.
fn come_back(alloc: Global, blocks: &mut Vec<Made>, latch: u32, header: u32)
    ensures { (inside behind : List (Block ℕ Note)) → map block_of blocks.old.items ≡ behind ++ only_jump 0 ∷ inside → latch ≡ length behind → map block_of blocks.new.items ≡ behind ++ only_jump header ∷ inside }
{
    if let Some(block) = blocks.get_mut(latch as usize) {
        *block = Made {
            mark: None,
            code: Vec::new(alloc),
            end: End::Jump { block: header },
        };
    }
}

impl Emitter {
    /// The end of a function, to which no good run comes.
    pub fn new(alloc: Global, free: u32) -> Emitter
        ensures { piece_of result ≡ record { first = block [] (Return (Constant 0)); new = []; loops = []; free = free } }
    {
        Emitter {
            alloc,
            mark: None,
            code: Vec::new(alloc),
            end: End::Return {
                value: Operand::Constant(0),
            },
            blocks: Vec::new(alloc),
            loops: Vec::new(alloc),
            free,
        }
    }

    /// Begins the code by a block without instructions.
    fn begin(&mut self, end: End)
        ensures { piece_of self.new ≡ with_first (block [] (end_of end)) (piece_of self.old) }
    {
        self.mark = None;
        self.code.clear();
        self.end = end;
    }

    /// Begins the code by a jump.
    pub fn jump(&mut self, goal: u32)
        ensures { piece_of self.new ≡ with_first (only_jump goal) (piece_of self.old) }
    {
        self.begin(End::Jump { block: goal });
    }

    /// Instructions before those of the block that begins the code.
    #[tactic(auto, using(crate::proofs::Emitting::prepended))]
    fn prepend(&mut self, coder: Coder) -> Result<(), Memory>
        ensures { IfOk result (λ _. piece_of self.new ≡ with_code (coded_of coder) (piece_of self.old)) }
    {
        let mut code = coder.code;
        code.reverse();
        self.code.append(&mut code)?;
        self.free = coder.free;
        Ok(())
    }

    /// Gives the block that begins the code its number, which a jump then goes to.
    fn close(&mut self) -> Result<u32, Memory>
        ensures number { IfOk result (λ n. n ≡ length (piece_of self.old).new) }
        ensures after { IfOk result (λ _. piece_of self.new ≡ closed (piece_of self.old)) }
    {
        let number = count(self.blocks.len())?;
        let mut code = mem::replace(&mut self.code, Vec::new(self.alloc));
        code.reverse();
        self.blocks.push(Made {
            mark: self.mark,
            code,
            end: self.end,
        })?;
        self.mark = None;
        self.end = End::Jump { block: number };
        Ok(number)
    }

    /// Where the block that begins the code only jumps to.
    fn jump_goal(&self) -> Option<u32>
        ensures some { IfSome result (λ b. first_of self.now ≡ only_jump b) }
        ensures none { IfNone result (is_more (first_of self.now).mark (first_of self.now).code (first_of self.now).end ≡ true) }
    {
        match self.end {
            End::Jump { block } => {
                if self.mark.is_some() {
                    return None;
                }
                if self.code.is_empty() {
                    return Some(block);
                }
                None
            }
            End::Branch { .. } => None,
            End::Return { .. } => None,
        }
    }

    /// Where one jumps to come to the code; a block that only jumps is left out.
    pub fn land(&mut self) -> Result<u32, Memory>
        ensures goal { IfOk result (λ n. n ≡ goal_of (piece_of self.old)) }
        ensures after { IfOk result (λ _. piece_of self.new ≡ landing (piece_of self.old)) }
    {
        match self.jump_goal() {
            Some(goal) => Ok(goal),
            None => Ok(self.close()?),
        }
    }

    /// Where the block that begins the code has a mark, gives it its number.
    fn unmark(&mut self) -> Result<(), Memory>
        ensures { IfOk result (λ _. piece_of self.new ≡ unmarked (first_of self.old).mark (piece_of self.old)) }
    {
        if self.mark.is_none() {
            return Ok(());
        }
        self.close()?;
        Ok(())
    }

    /// Instructions before the code.
    pub fn precede(&mut self, coder: Coder) -> Result<(), Memory>
        ensures { IfOk result (λ _. piece_of self.new ≡ preceded (coded_of coder) (piece_of self.old)) }
    {
        self.unmark()?;
        self.prepend(coder)?;
        Ok(())
    }

    /// A mark before the code.
    pub fn mark(&mut self, id: u32) -> Result<(), Memory>
        ensures { IfOk result (λ _. piece_of self.new ≡ marked id (piece_of self.old)) }
    {
        self.unmark()?;
        self.mark = Some(id);
        Ok(())
    }

    /// Begins the code by other instructions, which don't go on to it.
    pub fn set_apart(&mut self, coder: Coder, end: End) -> Result<(), Memory>
        ensures { IfOk result (λ _. piece_of self.new ≡ apart (coded_of coder) (end_of end) (piece_of self.old)) }
    {
        self.begin(end);
        self.prepend(coder)?;
        Ok(())
    }

    /// Begins the code by a test that goes to one of two places.
    pub fn branch(
        &mut self,
        coder: Coder,
        test: Comparison,
        taken: u32,
        other: u32,
    ) -> Result<(), Memory>
        ensures { IfOk result (λ _. piece_of self.new ≡ branched (tested_in coder test) taken other (piece_of self.old)) }
    {
        let end = End::Branch {
            condition: test.condition,
            left: test.left,
            right: test.right,
            taken,
            other,
        };
        Ok(self.set_apart(coder, end)?)
    }

    /// Puts the latch of a loop behind the code that follows.
    pub fn latch(&mut self) -> Result<u32, Memory>
        ensures number { IfOk result (λ n. n ≡ length (piece_of self.old).new) }
        ensures after { IfOk result (λ _. piece_of self.new ≡ latched (piece_of self.old)) }
    {
        self.begin(End::Jump { block: 0 });
        Ok(self.close()?)
    }

    /// Closes the loop whose body begins the code.
    pub fn close_loop(&mut self, turns: Turns, latch: u32) -> Result<(), Memory>
        ensures { IfOk result (λ _. (inside behind : List (Block ℕ Note)) → (piece_of self.old).new ≡ inside ++ only_jump 0 ∷ behind → latch ≡ length behind → piece_of self.new ≡ looped turns.id turns.min turns.max behind inside (piece_of self.old)) }
    {
        let header = self.close()?;
        come_back(self.alloc, &mut self.blocks, latch, header);
        self.loops.push(Loop {
            id: turns.id,
            min: turns.min,
            max: turns.max,
            header,
            latch,
        })?;
        Ok(())
    }

    /// All blocks and loops, the last ones first.
    pub fn finish(self) -> Result<(Vec<Made>, Vec<Loop>), Memory>
        ensures blocks { IfOk result (λ p. reverse (map block_of p.0.items) ≡ (piece_of self).first ∷ (piece_of self).new) }
        ensures loops { IfOk result (λ p. reverse (map loop_of p.1.items) ≡ (piece_of self).loops) }
    {
        let mut emitter = self;
        emitter.close()?;
        Ok((emitter.blocks, emitter.loops))
    }
}
