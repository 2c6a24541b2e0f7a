// Where a run over places stands, and its steps.
ghost use Rattle.std.specs.Prelude.{◌≡◌, [], ◌∷◌, Some, None, map, option_map, IfOk, slice_get};
ghost use Rattle.low_ir.specs.Code.{Jump, Put, Store};
ghost use Rattle.low_ir.specs.Places.{machine_registers, place_address, place_end, place_in, place_operand, places, registers_of};
ghost use Rattle.low_ir.specs.Placings.{placed_of};
ghost use Rattle.low_ir.specs.Runs.{Going, at_end, call, come_back, enter, finish, first, first_in, leaving, operand_value, step, values, waiting, went_to, write_all};
ghost use Rattle.low_ir.specs.View.{address_of, end_of, function_of, instr_of, operand_of};
ghost use Rattle.low_eval.specs.Direct.{address_value, direct, loaded_from, operated, pointed, word_value, wrote_byte};
ghost use Rattle.low_eval.specs.Progress.{did};
ghost use Rattle.register_eval.specs.Laid.{laid_function, laid_instr};
ghost use Rattle.register_eval.specs.Stands.{frame_of, going, going_if, instr_run, rest_of, run_of, running_of, stack_of};
ghost use Rattle.register_eval.specs.Tables.{table_of};

use super::file::File;
use super::stack::{Frame, Rest, Stack, Waiting};
use super::table::{Table, masks_at, next_mask, placed_function};
use low_eval::{Located, Progress, World, chosen, next};
use low_ir::object::Kind;
use low_ir::{Address, End, Function, Instr, LowReg, Operand, Place, Value};
use rv_core::Alu;
use std::alloc::Global;
use std::mem;
use wcc_base::Memory;

/// What an instruction calls, and the register that gets the value, if it is wanted.
#[derive(Clone, Copy)]
struct Called<'a> {
    function: u32,
    arguments: &'a [Operand],
    into: Option<u32>,
}

/// A run that goes on.
#[derive(Drop)]
pub struct Running<'a> {
    alloc: Global,
    top: Frame<'a>,
    below: Stack<'a>,
    world: World,
}

/// The places at a call with these values, where the function takes so many.
fn file_for(
    alloc: Global,
    table: Table<'_>,
    function: &Function,
    values: &[Value],
) -> Result<Option<File>, Memory>
    ensures { IfOk result (λ f. write_all places (Some (places.empty table.entry.slots)) (map (place_in (table_of table.entry)) function.now.parameters.items) values.now ≡ f) }
{
    let mut file = File::new(alloc, table.slots)?;
    if file.write_all(table, &function.parameters, values) {
        Ok(Some(file))
    } else {
        Ok(None)
    }
}

/// The place of a register, if one is wanted.
fn place_of(table: Table<'_>, register: Option<u32>) -> Option<Place>
    ensures { result ≡ option_map (place_in (table_of table.entry)) register }
{
    match register {
        None => None,
        Some(register) => Some(table.place(register)),
    }
}

impl<'a> Running<'a> {
    /// Begins a function's block of this number.
    fn enter(
        &mut self,
        function: &'a Function,
        table: Table<'a>,
        number: u32,
    ) -> Result<bool, Memory>
        ensures { IfOk result (λ goes. enter (running_of self.old) number (slice_get (laid_function (table_of table.entry) (function_of function.now)).blocks number) ≡ going_if goes (running_of self.new)) }
    {
        match function.blocks.get(number as usize) {
            None => Ok(false),
            Some(block) => {
                self.world.begin(self.top.function, number)?;
                self.top.table = table;
                self.top.rest = Rest {
                    code: block.code.as_slice(),
                    masks: masks_at(table.kept, &function.blocks, number),
                };
                self.top.end = block.end;
                Ok(true)
            }
        }
    }

    fn go_to(&mut self, code: &'a LowReg, block: u32) -> Result<Progress, Memory>
        ensures { IfOk result (λ q. went_to (placed_of code.now) (running_of self.old) block ≡ run_of q (running_of self.new)) }
    {
        match placed_function(code, self.top.function) {
            None => Ok(Progress::Bad),
            Some((function, table)) => {
                if self.enter(function, table, block)? {
                    Ok(Progress::Going)
                } else {
                    Ok(Progress::Bad)
                }
            }
        }
    }

    fn operand(&self, operand: Operand) -> Option<Value>
        ensures { result ≡ operand_value places self.now.top.file (place_operand (place_in (table_of self.now.top.table)) (operand_of operand)) }
    {
        self.top.file.operand(self.top.table, operand)
    }

    fn word(&self, operand: Operand) -> Option<u32>
        ensures { result ≡ word_value places self.now.top.file (place_operand (place_in (table_of self.now.top.table)) (operand_of operand)) }
    {
        self.top.file.word(self.top.table, operand)
    }

    fn address(&self, code: &LowReg, address: Address) -> Option<Located>
        ensures { result ≡ address_value places (placed_of code.now).claims self.now.top.file (place_address (place_in (table_of self.now.top.table)) (address_of address)) }
    {
        self.top
            .file
            .address(self.top.table, &code.low.claims, address)
    }

    /// Goes on behind an instruction whose value goes to a register.
    fn set(&mut self, rest: Rest<'a>, into: u32, value: Option<Value>) -> bool
        ensures { finish places (running_of self.old) (rest_of (table_of self.old.top.table) rest.entry) (Some (place_in (table_of self.old.top.table) into)) (did self.old.world value) ≡ going_if result (running_of self.new) }
    {
        let Some(value) = value else {
            return false;
        };
        let place = self.top.table.place(into);
        if !self.top.file.write(place, value) {
            return false;
        }
        self.top.rest = rest;
        true
    }

    fn operate(&self, operator: Alu, left: Operand, right: Operand) -> Option<Value>
        ensures { operated places self.now.top.file self.now.world operator (place_operand (place_in (table_of self.now.top.table)) (operand_of left)) (place_operand (place_in (table_of self.now.top.table)) (operand_of right)) ≡ did self.now.world result }
    {
        let Some(left) = self.word(left) else {
            return None;
        };
        match self.word(right) {
            None => None,
            Some(right) => Some(Value::Word(operator.value(left, right))),
        }
    }

    fn point(&self, code: &LowReg, address: Address) -> Option<Value>
        ensures { pointed places (placed_of code.now).claims self.now.top.file self.now.world (place_address (place_in (table_of self.now.top.table)) (address_of address)) ≡ did self.now.world result }
    {
        match self.address(code, address) {
            None => None,
            Some(at) => Some(Value::Pointer {
                object: at.object,
                bytes: at.bytes,
            }),
        }
    }

    fn load(&self, code: &LowReg, kind: Kind, address: Address) -> Option<Value>
        ensures { loaded_from places (placed_of code.now).claims self.now.top.file self.now.world kind (place_address (place_in (table_of self.now.top.table)) (address_of address)) ≡ did self.now.world result }
    {
        let Some(at) = self.address(code, address) else {
            return None;
        };
        match self.world.load(kind, at.object, at.bytes) {
            None => None,
            Some(word) => Some(Value::Word(word)),
        }
    }

    fn store(
        &mut self,
        code: &LowReg,
        kind: Kind,
        address: Address,
        value: Operand,
        rest: Rest<'a>,
    ) -> bool
        ensures { finish places (running_of self.old) (rest_of (table_of self.old.top.table) rest.entry) None (direct places (placed_of code.now).claims self.old.top.file self.old.world (Store kind (place_address (place_in (table_of self.old.top.table)) (address_of address)) (place_operand (place_in (table_of self.old.top.table)) (operand_of value)))) ≡ going_if result (running_of self.new) }
    {
        let Some(word) = self.word(value) else {
            return false;
        };
        let Some(at) = self.address(code, address) else {
            return false;
        };
        if !self.world.store(kind, at.object, at.bytes, word) {
            return false;
        }
        self.top.rest = rest;
        true
    }

    fn put(&mut self, value: Operand, rest: Rest<'a>) -> Result<bool, Memory>
        ensures { IfOk result (λ goes. finish places (leaving places (Put (place_operand (place_in (table_of self.old.top.table)) (operand_of value))) (running_of self.old)) (rest_of (table_of self.old.top.table) rest.entry) None (wrote_byte places self.old.top.file self.old.world (place_operand (place_in (table_of self.old.top.table)) (operand_of value))) ≡ going_if goes (running_of self.new)) }
    {
        let Some(word) = self.word(value) else {
            return Ok(false);
        };
        self.world.put(word)?;
        self.top.file.unset_result();
        self.top.rest = rest;
        Ok(true)
    }

    /// Lets the activation on top wait behind a call that keeps the registers of the mask.
    fn wait(
        &mut self,
        mask: u32,
        rest: Rest<'a>,
        into: Option<u32>,
        called: Frame<'a>,
    ) -> Result<(), Memory>
        ensures top { IfOk result (λ _. frame_of self.new.top ≡ frame_of called.entry) }
        ensures below { IfOk result (λ _. stack_of self.new.below ≡ waiting places (frame_of self.old.top) (rest_of (table_of self.old.top.table) rest.entry) (option_map (place_in (table_of self.old.top.table)) into) (registers_of machine_registers mask) ∷ stack_of self.old.below) }
        ensures world { IfOk result (λ _. self.new.world ≡ self.old.world) }
    {
        let mut frame = mem::replace(&mut self.top, called);
        let into = place_of(frame.table, into);
        frame.file.keep(self.alloc, mask)?;
        frame.rest = rest;
        self.below.push(Waiting { frame, into })
    }

    fn call(
        &mut self,
        code: &'a LowReg,
        mask: u32,
        rest: Rest<'a>,
        called: Called<'_>,
    ) -> Result<bool, Memory>
        ensures { IfOk result (λ goes. call places (running_of self.old) (rest_of (table_of self.old.top.table) rest.entry) (option_map (place_in (table_of self.old.top.table)) called.entry.into) called.entry.function (registers_of machine_registers mask) (slice_get (placed_of code.now).functions called.entry.function) (values places self.old.top.file (map (place_operand (place_in (table_of self.old.top.table))) (map operand_of called.entry.arguments.now))) ≡ going_if goes (running_of self.new)) }
    {
        let Called {
            function: callee,
            arguments,
            into,
        } = called;
        let Some((function, table)) = placed_function(code, callee) else {
            return Ok(false);
        };
        let Some(values) = self.top.file.values(self.alloc, self.top.table, arguments)? else {
            return Ok(false);
        };
        if callee >= self.top.function {
            return Ok(false);
        }
        let Some(file) = file_for(self.alloc, table, function, &values)? else {
            return Ok(false);
        };
        self.wait(mask, rest, into, Frame::new(callee, table, file))?;
        self.enter(function, table, 0)
    }

    fn instr(
        &mut self,
        code: &'a LowReg,
        instr: &'a Instr,
        mask: u32,
        rest: Rest<'a>,
    ) -> Result<bool, Memory>
        ensures { IfOk result (λ goes. instr_run (placed_of code.now) (running_of self.old) (laid_instr (place_in (table_of self.old.top.table)) mask (instr_of instr.now)) (rest_of (table_of self.old.top.table) rest.entry) ≡ going_if goes (running_of self.new)) }
    {
        match instr {
            Instr::Set { into, value } => {
                let value = self.operand(*value);
                Ok(self.set(rest, *into, value))
            }
            Instr::Operate {
                operator,
                into,
                left,
                right,
            } => {
                let value = self.operate(*operator, *left, *right);
                Ok(self.set(rest, *into, value))
            }
            Instr::Point { into, address } => {
                let value = self.point(code, *address);
                Ok(self.set(rest, *into, value))
            }
            Instr::Load {
                kind,
                into,
                address,
            } => {
                let value = self.load(code, *kind, *address);
                Ok(self.set(rest, *into, value))
            }
            Instr::Store {
                kind,
                address,
                value,
            } => Ok(self.store(code, *kind, *address, *value, rest)),
            Instr::Put { value } => self.put(*value, rest),
            Instr::Get { into } => {
                let word = self.world.get();
                self.top.file.unset_result();
                Ok(self.set(rest, *into, Some(Value::Word(word))))
            }
            Instr::Call {
                function,
                arguments,
                into,
            } => {
                let called = Called {
                    function: *function,
                    arguments,
                    into: *into,
                };
                self.call(code, mask, rest, called)
            }
        }
    }

    fn come_back(&mut self, word: u32) -> Progress
        ensures { come_back places self.old.world (stack_of self.old.below) word ≡ run_of result (running_of self.new) }
    {
        match self.below.pop() {
            None => Progress::Done(word),
            Some(waiting) => {
                let Waiting { frame, into } = waiting;
                self.top = frame;
                if self.top.file.write_to(into, Value::Word(word)) {
                    Progress::Going
                } else {
                    Progress::Bad
                }
            }
        }
    }

    fn end(&mut self, code: &'a LowReg, end: End) -> Result<Progress, Memory>
        ensures { IfOk result (λ q. at_end places (placed_of code.now) (running_of self.old) (place_end (place_in (table_of self.old.top.table)) (end_of end)) ≡ run_of q (running_of self.new)) }
    {
        match end {
            End::Jump { block } => self.go_to(code, block),
            End::Branch {
                condition,
                left,
                right,
                taken,
                other,
            } => {
                let left = self.operand(left);
                let right = self.operand(right);
                match chosen(condition, taken, other, left, right) {
                    None => Ok(Progress::Bad),
                    Some(block) => self.go_to(code, block),
                }
            }
            End::Return { value } => match self.operand(value) {
                None => Ok(Progress::Bad),
                Some(Value::Pointer { .. }) => Ok(Progress::Bad),
                Some(Value::Word(word)) => Ok(self.come_back(word)),
            },
        }
    }

    /// One step of the run.
    #[tactic(auto, using(crate::proofs::Steps::step_instr, crate::proofs::Steps::step_end))]
    pub fn step(&mut self, code: &'a LowReg) -> Result<Progress, Memory>
        ensures { IfOk result (λ q. step places (placed_of code.now) (Going (running_of self.old)) ≡ run_of q (running_of self.new)) }
    {
        let Rest { code: left, masks } = self.top.rest;
        match next(left) {
            None => {
                let end = self.top.end;
                self.end(code, end)
            }
            Some((instr, left)) => {
                let (mask, masks) = next_mask(masks);
                if self.instr(code, instr, mask, Rest { code: left, masks })? {
                    Ok(Progress::Going)
                } else {
                    Ok(Progress::Bad)
                }
            }
        }
    }

    /// Before the first block of a function that nobody waits for.
    fn before(alloc: Global, number: u32, table: Table<'a>, file: File, world: World) -> Running<'a>
        ensures { running_of result ≡ record { top = record { func = number; code = []; end = Jump 0; store = file }; below = []; world = world } }
    {
        Running {
            alloc,
            top: Frame::new(number, table, file),
            below: Stack::new(alloc),
            world,
        }
    }

    /// The start of a run by a function that takes nothing.
    #[tactic(auto, using(crate::proofs::Steps::begun_run))]
    fn begin(
        alloc: Global,
        world: World,
        number: u32,
        table: Table<'a>,
        function: &'a Function,
    ) -> Result<Option<Running<'a>>, Memory>
        ensures { IfOk result (λ o. first_in places world number (Some (laid_function (table_of table.entry) (function_of function.now))) ≡ going (option_map running_of o)) }
    {
        let Some(file) = file_for(alloc, table, function, &[])? else {
            drop(world);
            return Ok(None);
        };
        let mut running = Running::before(alloc, number, table, file, world);
        if running.enter(function, table, 0)? {
            Ok(Some(running))
        } else {
            drop(running);
            Ok(None)
        }
    }

    /// The start of the run on an input, where it is one of a good run.
    pub fn first(
        alloc: Global,
        code: &'a LowReg,
        input: &[u8],
    ) -> Result<Option<Running<'a>>, Memory>
        ensures { IfOk result (λ o. first places (placed_of code.now) input.now ≡ going (option_map running_of o)) }
    {
        let world = World::new(alloc, &code.low.objects, input)?;
        match placed_function(code, code.low.main) {
            None => {
                drop(world);
                Ok(None)
            }
            Some((function, table)) => {
                Ok(Running::begin(alloc, world, code.low.main, table, function)?)
            }
        }
    }

    /// What the functions share.
    pub fn into_world(self) -> World
        ensures { result ≡ self.entry.world }
    {
        let Running { world, .. } = self;
        world
    }
}
