// Which machine registers are good for a register, and how much it is used. Nothing is proved of it: any choice is right.
use super::order::Lasting;
use super::results::in_result;
use super::scan::place_at;
use low_ir::instruction::{Base, End, Instr, Operand};
use low_ir::{Block, Function, Loop, Place, Placing};
use std::alloc::Global;
use wcc_base::{Items, Memory};

/// The number of no register.
const NO_REGISTER: u32 = 0xffff_ffff;

/// Of how many parts a use is.
const PARTS: u64 = 65536;

/// How many copies of copies are followed.
const COPIES: u8 = 4;

/// All machine registers.
const ALL: u32 = 0xff_ffff;

/// What is known of the functions that a function may call.
#[derive(Drop)]
pub struct Known {
    /// By function, the places of its parameters.
    parameters: Vec<Items<Place>>,
    /// By function, the machine registers that a call of it may change, register q by the bit of value 2^q.
    changed: Vec<u32>,
}

/// What is known of the registers of one function.
#[derive(Drop)]
pub struct Tastes {
    /// How much each is used: eight times as much in a loop, at most six deep.
    uses: Vec<u64>,
    /// The machine registers in which calls want it as an argument.
    wished: Vec<u32>,
    /// The register of which it is a copy.
    sources: Vec<u32>,
    /// The register that is a copy of it.
    copies: Vec<u32>,
    /// Its interval, where it has one.
    intervals: Vec<Option<Lasting>>,
    /// Whether it is a parameter.
    passed: Vec<bool>,
    /// By place of the code, how many calls are before.
    calls: Vec<u32>,
    /// The machine registers that calls may change.
    changed: u32,
    /// Whether it is best in the result register.
    results: Vec<bool>,
}

fn bit(machine: u8) -> u32 {
    1u32.wrapping_shl(u32::from(machine))
}

/// Whether a set has a machine register.
pub fn has(set: u32, machine: u8) -> bool {
    set & bit(machine) != 0
}

fn bit_of(place: Place) -> u32 {
    match place {
        Place::Register(machine) => bit(machine),
        Place::Slot(_) => 0,
    }
}

fn number_at(numbers: &[u32], at: usize) -> u32 {
    match numbers.get(at) {
        None => 0,
        Some(number) => *number,
    }
}

fn number_or_none(numbers: &[u32], register: u32) -> u32 {
    match numbers.get(register as usize) {
        None => NO_REGISTER,
        Some(number) => *number,
    }
}

fn set_number(numbers: &mut [u32], at: u32, new: u32) {
    if let Some(number) = numbers.get_mut(at as usize) {
        *number = new;
    }
}

fn add_one(numbers: &mut [u32], at: u32) {
    if let Some(number) = numbers.get_mut(at as usize) {
        *number = number.wrapping_add(1);
    }
}

fn add_bits(masks: &mut [u32], register: u32, bits: u32) {
    if let Some(mask) = masks.get_mut(register as usize) {
        *mask |= bits;
    }
}

/// By block, in how many loops it is.
fn depths(alloc: Global, loops: &[Loop], blocks: usize) -> Result<Vec<u32>, Memory> {
    let mut opened = vec![in alloc; 0u32; blocks]?;
    let mut closed = vec![in alloc; 0u32; blocks]?;
    for each in loops {
        add_one(&mut opened, each.header);
        add_one(&mut closed, each.latch);
    }
    let mut depths = Vec::new(alloc);
    let mut depth = 0u32;
    for block in 0..blocks {
        depth = depth.wrapping_add(number_at(&opened, block));
        depths.push(depth)?;
        depth = depth.wrapping_sub(number_at(&closed, block));
    }
    Ok(depths)
}

/// By block, how much a use counts there.
pub fn worths(alloc: Global, function: &Function) -> Result<Vec<u64>, Memory> {
    let depths = depths(alloc, &function.loops, function.blocks.len())?;
    let mut worths = Vec::new(alloc);
    for depth in &depths {
        worths.push(worth_at(*depth))?;
    }
    Ok(worths)
}

/// By register, its interval.
fn intervals_of(
    alloc: Global,
    order: &[Lasting],
    registers: usize,
) -> Result<Vec<Option<Lasting>>, Memory> {
    let mut intervals = vec![in alloc; None; registers]?;
    for each in order {
        set_interval(&mut intervals, *each);
    }
    Ok(intervals)
}

fn set_interval(intervals: &mut [Option<Lasting>], new: Lasting) {
    if let Some(interval) = intervals.get_mut(new.register as usize) {
        *interval = Some(new);
    }
}

/// How much a use counts so deep in loops.
fn worth_at(depth: u32) -> u64 {
    1u64.wrapping_shl(depth.min(6).wrapping_mul(3))
}

fn register_of(operand: Operand) -> Option<u32> {
    match operand {
        Operand::Register(register) => Some(register),
        Operand::Constant(_) => None,
    }
}

fn pointer_of(base: Base) -> Option<u32> {
    match base {
        Base::Object(_) => None,
        Base::Pointer { register, .. } => Some(register),
    }
}

/// The registers of an instruction, but for the arguments of a call.
fn registers_of(instr: &Instr) -> [Option<u32>; 3] {
    match instr {
        Instr::Set { into, value } => [Some(*into), register_of(*value), None],
        Instr::Operate {
            into,
            left,
            right,
            ..
        } => [Some(*into), register_of(*left), register_of(*right)],
        Instr::Point { into, address } => [Some(*into), pointer_of(address.base), address.offset],
        Instr::Load { into, address, .. } => [
            Some(*into),
            pointer_of(address.base),
            address.offset,
        ],
        Instr::Store { address, value, .. } => {
            [
                register_of(*value),
                pointer_of(address.base),
                address.offset,
            ]
        }
        Instr::Put { value } => [register_of(*value), None, None],
        Instr::Get { into } => [Some(*into), None, None],
        Instr::Call { into, .. } => [*into, None, None],
    }
}

fn registers_at(end: End) -> [Option<u32>; 2] {
    match end {
        End::Jump { .. } => [None, None],
        End::Branch { left, right, .. } => [register_of(left), register_of(right)],
        End::Return { value } => [register_of(value), None],
    }
}

/// The register that an instruction writes.
fn written(instr: &Instr) -> Option<u32> {
    match instr {
        Instr::Store { .. } => None,
        Instr::Put { .. } => None,
        Instr::Call { into, .. } => *into,
        _ => registers_of(instr)[0],
    }
}

impl Known {
    pub fn new(alloc: Global) -> Known {
        Known {
            parameters: Vec::new(alloc),
            changed: Vec::new(alloc),
        }
    }

    /// The machine register in which a function gets an argument.
    fn wants(&self, function: u32, number: usize) -> u32 {
        match self.parameters.get(function as usize) {
            None => 0,
            Some(places) => match places.as_slice().get(number) {
                None => 0,
                Some(place) => bit_of(*place),
            },
        }
    }

    fn changes(&self, function: u32) -> u32 {
        number_at(&self.changed, function as usize)
    }

    /// The machine registers that the calls of a function may change.
    fn changed_by(&self, blocks: &[Block]) -> u32 {
        let mut changed = 0;
        for block in blocks {
            for instr in &block.code {
                if let Instr::Call { function, .. } = instr {
                    changed |= self.changes(*function);
                }
            }
        }
        changed
    }

    /// The next function.
    pub fn note(
        &mut self,
        alloc: Global,
        function: &Function,
        placing: &Placing,
    ) -> Result<(), Memory> {
        let mut changed = self.changed_by(&function.blocks);
        let mut places = Vec::new(alloc);
        for register in &function.parameters {
            let place = place_at(&placing.places, *register);
            changed |= bit_of(place);
            places.push(place)?;
        }
        for block in &function.blocks {
            for instr in &block.code {
                if let Some(register) = written(instr) {
                    changed |= bit_of(place_at(&placing.places, register));
                }
            }
        }
        self.parameters.push(Items::new(places))?;
        self.changed.push(changed)?;
        Ok(())
    }
}

impl Tastes {
    fn count(&mut self, register: Option<u32>, worth: u64) {
        if let Some(register) = register {
            if let Some(sum) = self.uses.get_mut(register as usize) {
                *sum = sum.saturating_add(worth);
            }
        }
    }

    fn copy(&mut self, into: u32, of: Operand) {
        if let Operand::Register(of) = of {
            set_number(&mut self.sources, into, of);
            set_number(&mut self.copies, of, into);
        }
    }

    fn pass(&mut self, known: &Known, function: u32, arguments: &[Operand], worth: u64) {
        for (number, argument) in arguments.iter().enumerate() {
            if let Operand::Register(register) = *argument {
                self.count(Some(register), worth);
                add_bits(&mut self.wished, register, known.wants(function, number));
            }
        }
    }

    fn read(&mut self, known: &Known, instr: &Instr, worth: u64) {
        for register in registers_of(instr) {
            self.count(register, worth);
        }
        match instr {
            Instr::Set { into, value } => self.copy(*into, *value),
            Instr::Call {
                function,
                arguments,
                ..
            } => self.pass(known, *function, arguments, worth),
            _ => {}
        }
    }

    fn read_block(&mut self, known: &Known, block: &Block, worth: u64) -> Result<(), Memory> {
        let mut calls = number_at(&self.calls, self.calls.len().wrapping_sub(1));
        for instr in &block.code {
            self.read(known, instr, worth);
            if let Instr::Call { .. } = instr {
                calls = calls.wrapping_add(1);
            }
            self.calls.push(calls)?;
        }
        for register in registers_at(block.end) {
            self.count(register, worth);
        }
        self.calls.push(calls)?;
        Ok(())
    }

    /// Those of a function, by its intervals and what is known of the functions that it may call.
    pub fn new(
        alloc: Global,
        function: &Function,
        order: &[Lasting],
        known: &Known,
    ) -> Result<Tastes, Memory> {
        let registers = function.registers as usize;
        let mut tastes = Tastes {
            uses: vec![in alloc; 0u64; registers]?,
            wished: vec![in alloc; 0u32; registers]?,
            sources: vec![in alloc; NO_REGISTER; registers]?,
            copies: vec![in alloc; NO_REGISTER; registers]?,
            intervals: intervals_of(alloc, order, registers)?,
            passed: vec![in alloc; false; registers]?,
            calls: vec![in alloc; 0u32; 1]?,
            changed: known.changed_by(&function.blocks),
            results: Vec::new(alloc),
        };
        for register in &function.parameters {
            tastes.pass_in(*register);
        }
        let depths = depths(alloc, &function.loops, function.blocks.len())?;
        for (number, block) in function.blocks.iter().enumerate() {
            tastes.read_block(known, block, worth_at(number_at(&depths, number)))?;
        }
        let results = in_result(alloc, function, order, &tastes)?;
        tastes.results = results;
        Ok(tastes)
    }

    /// No machine register is better for it than others.
    pub fn is_plain(&self, register: u32) -> bool {
        number_at(&self.wished, register as usize) == 0
            && number_or_none(&self.sources, register) == NO_REGISTER
            && number_or_none(&self.copies, register) == NO_REGISTER
    }

    pub fn likes_result(&self, register: u32) -> bool {
        match self.results.get(register as usize) {
            None => false,
            Some(likes) => *likes,
        }
    }

    fn uses(&self, register: u32) -> u64 {
        match self.uses.get(register as usize) {
            None => 0,
            Some(uses) => *uses,
        }
    }

    /// What it is worth that a register has a machine register: how much it is used at each place of its interval. One that
    /// lives long and is used little stands in the way of many that live shortly.
    pub fn worth(&self, register: Lasting) -> u64 {
        let uses = self.uses(register.register).saturating_mul(PARTS);
        let places = register.last.wrapping_sub(register.first).wrapping_add(1);
        if places == 0 {
            return uses;
        }
        uses / places as u64
    }

    fn interval(&self, register: u32) -> Option<Lasting> {
        match self.intervals.get(register as usize) {
            None => None,
            Some(interval) => *interval,
        }
    }

    /// The machine register of one that has its place already, which is one whose interval began before.
    fn placed(&self, register: u32, before: usize, places: &[Place]) -> u32 {
        match self.interval(register) {
            None => 0,
            Some(interval) => {
                if interval.first < before {
                    bit_of(place_at(places, register))
                } else {
                    0
                }
            }
        }
    }

    fn pass_in(&mut self, parameter: u32) {
        if let Some(passed) = self.passed.get_mut(parameter as usize) {
            *passed = true;
        }
    }

    fn is_passed(&self, register: u32) -> bool {
        match self.passed.get(register as usize) {
            None => false,
            Some(passed) => *passed,
        }
    }

    /// A call in which an interval begins gives the register its value, but where that is a parameter, which has it before.
    fn lives_over_call(&self, interval: Lasting) -> bool {
        let written = if self.is_passed(interval.register) {
            0
        } else {
            1
        };
        let before = number_at(&self.calls, interval.first.wrapping_add(written));
        let behind = number_at(&self.calls, interval.last.wrapping_add(1));
        before != behind
    }

    /// The interval of a copy that begins where that of its source has ended, so that both can have one machine register.
    fn copy_behind(&self, source: Lasting) -> Option<Lasting> {
        let copy = self.interval(number_or_none(&self.copies, source.register))?;
        if source.last < copy.first {
            Some(copy)
        } else {
            None
        }
    }

    /// What is wished for a register and for its copies behind it, and whether one of them lives over a call.
    fn wishes(&self, new: Lasting, places: &[Place]) -> (u32, bool) {
        let mut each = new;
        let mut wished = 0;
        let mut lives_over_call = false;
        for _ in 0..COPIES {
            let source = number_or_none(&self.sources, each.register);
            let copy = number_or_none(&self.copies, each.register);
            wished |= number_at(&self.wished, each.register as usize);
            wished |= self.placed(source, new.first, places);
            wished |= self.placed(copy, new.first, places);
            if self.lives_over_call(each) {
                lives_over_call = true;
            }
            match self.copy_behind(each) {
                None => return (wished, lives_over_call),
                Some(copy) => each = copy,
            }
        }
        (wished, lives_over_call)
    }

    /// The machine registers that are good for a register, the best ones first. One that lives over a call has best one that
    /// calls leave alone, and another one that they change anyway.
    pub fn sets(&self, new: Lasting, places: &[Place]) -> [u32; 4] {
        let (wished, lives_over_call) = self.wishes(new, places);
        if lives_over_call {
            let kept = !self.changed;
            [wished & kept, kept, wished, ALL]
        } else {
            [wished, self.changed, ALL, ALL]
        }
    }
}
