// Where a run stands, and its steps.
ghost use Rattle.std.specs.Prelude.{◌≡◌, [], ◌∷◌, Some, None, map, IfOk, IfSome, slice_get};
ghost use Rattle.low_ir.specs.Code.{Jump, Store};
ghost use Rattle.low_ir.specs.Programs.{low_of};
ghost use Rattle.low_ir.specs.Runs.{Going, at_end, call, chosen, come_back, enter, finish, first, first_in, step, values, virtual, went_to, write_all};
ghost use Rattle.low_ir.specs.View.{address_of, block_of, end_of, function_of, instr_of, operand_of};
ghost use Rattle.low_eval.specs.Direct.{direct, loaded_from, operated, pointed, wrote_byte};
ghost use Rattle.low_eval.specs.Progress.{did, going, going_if, instr_run, run_of};

use super::bank::Bank;
use super::stack::{Frame, Stack, Waiting};
use super::world::World;
use low_ir::object::Kind;
use low_ir::{Address, End, Function, Instr, Low, Operand, Value};
use rv_core::{Alu, Condition};
use std::alloc::Global;
use std::marker::Model;
use std::mem;
use wcc_base::Memory;

/// How a step ended.
#[derive(Clone, Copy)]
pub enum Progress {
    Going,
    Done(u32),
    /// The run is not good.
    Bad,
}

/// A run that goes on.
#[derive(Drop)]
pub struct Running<'a> {
    alloc: Global,
    top: Frame<'a>,
    below: Stack<'a>,
    world: World,
}

impl<'a> Model for Running<'a> {
    ghost use Rattle.std.specs.Prelude.{ℕ};
    ghost use Rattle.low_ir.specs.Code.{Note};
    ghost use Rattle.low_ir.specs.Runs.{Bank as Values, Running as Stands};

    ghost Value = { Stands ℕ Note Values };

    ghost view = { λ r. record { top = r.top; below = r.below; world = r.world } };
}

/// The block to which a branch goes.
pub fn chosen(
    condition: Condition,
    taken: u32,
    other: u32,
    left: Option<Value>,
    right: Option<Value>,
) -> Option<u32>
    ensures { result ≡ chosen condition taken other left right }
{
    match left {
        None => None,
        Some(Value::Pointer { .. }) => None,
        Some(Value::Word(left)) => match right {
            None => None,
            Some(Value::Pointer { .. }) => None,
            Some(Value::Word(right)) => {
                if condition.holds(left, right) {
                    Some(taken)
                } else {
                    Some(other)
                }
            }
        },
    }
}

/// The next instruction, and those behind it.
#[tactic(auto, using(crate::proofs::Steps::first_and_rest))]
pub fn next<'a>(code: &'a [Instr]) -> Option<(&'a Instr, &'a [Instr])>
    ensures none { result ≡ None → code.now ≡ [] }
    ensures some { IfSome result (λ n. code.now ≡ n.0.now ∷ n.1.now) }
{
    match code {
        [] => None,
        [instr, rest @ ..] => Some((instr, rest)),
    }
}

/// The registers at a call with these values, where the function takes so many.
fn bank_for(alloc: Global, function: &Function, values: &[Value]) -> Result<Option<Bank>, Memory>
    ensures { IfOk result (λ b. write_all virtual (Some (virtual.empty function.now.registers)) function.now.parameters.items values.now ≡ b) }
{
    let mut bank = Bank::new(alloc, function.registers)?;
    if bank.write_all(&function.parameters, values) {
        Ok(Some(bank))
    } else {
        Ok(None)
    }
}

impl<'a> Running<'a> {
    /// Begins a function's block of this number.
    fn enter(&mut self, function: &'a Function, number: u32) -> Result<bool, Memory>
        ensures { IfOk result (λ goes. enter self.old number (slice_get (map block_of function.now.blocks.items) number) ≡ going_if goes self.new) }
    {
        match function.blocks.get(number as usize) {
            None => Ok(false),
            Some(block) => {
                self.world.begin(self.top.function, number)?;
                self.top.code = block.code.as_slice();
                self.top.end = block.end;
                Ok(true)
            }
        }
    }

    fn go_to(&mut self, low: &'a Low, block: u32) -> Result<Progress, Memory>
        ensures { IfOk result (λ q. went_to (low_of low.now) self.old block ≡ run_of q self.new) }
    {
        match low.functions.get(self.top.function as usize) {
            None => Ok(Progress::Bad),
            Some(function) => {
                if self.enter(function, block)? {
                    Ok(Progress::Going)
                } else {
                    Ok(Progress::Bad)
                }
            }
        }
    }

    /// Goes on behind an instruction whose value goes to a register.
    fn set(&mut self, rest: &'a [Instr], into: u32, value: Option<Value>) -> bool
        ensures { finish virtual self.old (map instr_of rest.now) (Some into) (did self.old.world value) ≡ going_if result self.new }
    {
        let Some(value) = value else {
            return false;
        };
        if !self.top.bank.write(into, value) {
            return false;
        }
        self.top.code = rest;
        true
    }

    fn operate(&self, operator: Alu, left: Operand, right: Operand) -> Option<Value>
        ensures { operated virtual self.now.top.store self.now.world operator (operand_of left) (operand_of right) ≡ did self.now.world result }
    {
        let Some(left) = self.top.bank.word(left) else {
            return None;
        };
        match self.top.bank.word(right) {
            None => None,
            Some(right) => Some(Value::Word(operator.value(left, right))),
        }
    }

    fn point(&self, low: &Low, address: Address) -> Option<Value>
        ensures { pointed virtual (low_of low.now).claims self.now.top.store self.now.world (address_of address) ≡ did self.now.world result }
    {
        match self.top.bank.address(&low.claims, address) {
            None => None,
            Some(at) => Some(Value::Pointer {
                object: at.object,
                bytes: at.bytes,
            }),
        }
    }

    fn load(&self, low: &Low, kind: Kind, address: Address) -> Option<Value>
        ensures { loaded_from virtual (low_of low.now).claims self.now.top.store self.now.world kind (address_of address) ≡ did self.now.world result }
    {
        let Some(at) = self.top.bank.address(&low.claims, address) else {
            return None;
        };
        match self.world.load(kind, at.object, at.bytes) {
            None => None,
            Some(word) => Some(Value::Word(word)),
        }
    }

    fn store(
        &mut self,
        low: &Low,
        kind: Kind,
        address: Address,
        value: Operand,
        rest: &'a [Instr],
    ) -> bool
        ensures { finish virtual self.old (map instr_of rest.now) None (direct virtual (low_of low.now).claims self.old.top.store self.old.world (Store kind (address_of address) (operand_of value))) ≡ going_if result self.new }
    {
        let Some(word) = self.top.bank.word(value) else {
            return false;
        };
        let Some(at) = self.top.bank.address(&low.claims, address) else {
            return false;
        };
        if !self.world.store(kind, at.object, at.bytes, word) {
            return false;
        }
        self.top.code = rest;
        true
    }

    fn put(&mut self, value: Operand, rest: &'a [Instr]) -> Result<bool, Memory>
        ensures { IfOk result (λ goes. finish virtual self.old (map instr_of rest.now) None (wrote_byte virtual self.old.top.store self.old.world (operand_of value)) ≡ going_if goes self.new) }
    {
        let Some(word) = self.top.bank.word(value) else {
            return Ok(false);
        };
        self.world.put(word)?;
        self.top.code = rest;
        Ok(true)
    }

    fn call(
        &mut self,
        low: &'a Low,
        rest: &'a [Instr],
        callee: u32,
        arguments: &[Operand],
        into: Option<u32>,
    ) -> Result<bool, Memory>
        ensures { IfOk result (λ goes. call virtual self.old (map instr_of rest.now) into callee tt (slice_get (low_of low.now).functions callee) (values virtual self.old.top.store (map operand_of arguments.now)) ≡ going_if goes self.new) }
    {
        let Some(function) = low.functions.get(callee as usize) else {
            return Ok(false);
        };
        let Some(values) = self.top.bank.values(self.alloc, arguments)? else {
            return Ok(false);
        };
        if callee >= self.top.function {
            return Ok(false);
        }
        let Some(bank) = bank_for(self.alloc, function, &values)? else {
            return Ok(false);
        };
        let mut frame = mem::replace(&mut self.top, Frame::new(callee, bank));
        frame.code = rest;
        self.below.push(Waiting { frame, into })?;
        self.enter(function, 0)
    }

    fn instr(&mut self, low: &'a Low, instr: &'a Instr, rest: &'a [Instr]) -> Result<bool, Memory>
        ensures { IfOk result (λ goes. instr_run (low_of low.now) self.old (instr_of instr.now) (map instr_of rest.now) ≡ going_if goes self.new) }
    {
        match instr {
            Instr::Set { into, value } => {
                let value = self.top.bank.operand(*value);
                Ok(self.set(rest, *into, value))
            }
            Instr::Operate {
                operator,
                into,
                left,
                right,
            } => {
                let value = self.operate(*operator, *left, *right);
                Ok(self.set(rest, *into, value))
            }
            Instr::Point { into, address } => {
                let value = self.point(low, *address);
                Ok(self.set(rest, *into, value))
            }
            Instr::Load {
                kind,
                into,
                address,
            } => {
                let value = self.load(low, *kind, *address);
                Ok(self.set(rest, *into, value))
            }
            Instr::Store {
                kind,
                address,
                value,
            } => Ok(self.store(low, *kind, *address, *value, rest)),
            Instr::Put { value } => self.put(*value, rest),
            Instr::Get { into } => {
                let word = self.world.get();
                Ok(self.set(rest, *into, Some(Value::Word(word))))
            }
            Instr::Call {
                function,
                arguments,
                into,
            } => self.call(low, rest, *function, arguments, *into),
        }
    }

    fn come_back(&mut self, word: u32) -> Progress
        ensures { come_back virtual self.old.world self.old.below word ≡ run_of result self.new }
    {
        match self.below.pop() {
            None => Progress::Done(word),
            Some(waiting) => {
                let Waiting { frame, into } = waiting;
                self.top = frame;
                if self.top.bank.write_to(into, Value::Word(word)) {
                    Progress::Going
                } else {
                    Progress::Bad
                }
            }
        }
    }

    fn end(&mut self, low: &'a Low, end: End) -> Result<Progress, Memory>
        ensures { IfOk result (λ q. at_end virtual (low_of low.now) self.old (end_of end) ≡ run_of q self.new) }
    {
        match end {
            End::Jump { block } => self.go_to(low, block),
            End::Branch {
                condition,
                left,
                right,
                taken,
                other,
            } => {
                let left = self.top.bank.operand(left);
                let right = self.top.bank.operand(right);
                match chosen(condition, taken, other, left, right) {
                    None => Ok(Progress::Bad),
                    Some(block) => self.go_to(low, block),
                }
            }
            End::Return { value } => match self.top.bank.operand(value) {
                None => Ok(Progress::Bad),
                Some(Value::Pointer { .. }) => Ok(Progress::Bad),
                Some(Value::Word(word)) => Ok(self.come_back(word)),
            },
        }
    }

    /// One step of the run.
    #[tactic(auto, using(crate::proofs::Steps::step_instr, crate::proofs::Steps::step_end))]
    pub fn step(&mut self, low: &'a Low) -> Result<Progress, Memory>
        ensures { IfOk result (λ q. step virtual (low_of low.now) (Going self.old) ≡ run_of q self.new) }
    {
        match next(self.top.code) {
            None => {
                let end = self.top.end;
                self.end(low, end)
            }
            Some((instr, rest)) => {
                if self.instr(low, instr, rest)? {
                    Ok(Progress::Going)
                } else {
                    Ok(Progress::Bad)
                }
            }
        }
    }

    /// Before the first block of a function that nobody waits for.
    fn before(alloc: Global, number: u32, bank: Bank, world: World) -> Running<'a>
        ensures { result ≡ record { top = record { func = number; code = []; end = Jump 0; store = bank }; below = []; world = world } }
    {
        Running {
            alloc,
            top: Frame::new(number, bank),
            below: Stack::new(alloc),
            world,
        }
    }

    /// The start of a run by a function that takes nothing.
    #[tactic(auto, using(crate::proofs::Steps::begun_run))]
    fn begin(
        alloc: Global,
        world: World,
        number: u32,
        function: &'a Function,
    ) -> Result<Option<Running<'a>>, Memory>
        ensures { IfOk result (λ o. first_in virtual world number (Some (function_of function.now)) ≡ going o) }
    {
        let Some(bank) = bank_for(alloc, function, &[])? else {
            drop(world);
            return Ok(None);
        };
        let mut running = Running::before(alloc, number, bank, world);
        if running.enter(function, 0)? {
            Ok(Some(running))
        } else {
            drop(running);
            Ok(None)
        }
    }

    /// The start of the run on an input, where it is one of a good run.
    pub fn first(alloc: Global, low: &'a Low, input: &[u8]) -> Result<Option<Running<'a>>, Memory>
        ensures { IfOk result (λ o. first virtual (low_of low.now) input.now ≡ going o) }
    {
        let world = World::new(alloc, &low.objects, input)?;
        match low.functions.get(low.main as usize) {
            None => {
                drop(world);
                Ok(None)
            }
            Some(function) => Ok(Running::begin(alloc, world, low.main, function)?),
        }
    }

    /// What the functions share.
    pub fn into_world(self) -> World
        ensures { result ≡ self.entry.world }
    {
        let Running { world, .. } = self;
        world
    }
}
