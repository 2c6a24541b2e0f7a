// Where a run stands.
ghost use Rattle.std.specs.Prelude.{◌≡◌, [], map, Some, None, IfOk, slice_index_or};
ghost use Rattle.high_ir.specs.Meaning.{Goes, array_of, at_value, element, got, keep, next_byte, object_number, pass, put, set_variables, set_world, taken, with_value, written};
ghost use Rattle.high_ir.specs.Runs.{start};
ghost use Rattle.high_ir.specs.View.{object_of};
ghost use Rattle.high_eval.specs.Ends.{outcome_of};

use super::cells::Cells;
use high_ir::object::{Array, Base, Object};
use std::alloc::Global;
use std::marker::Model;
use std::mem;
use wcc_base::Memory;

/// How a statement ended.
#[derive(Clone, Copy)]
pub enum End {
    Goes,
    Leaves(u32),
    Returns(u32),
    /// The run is not good.
    Bad,
}

/// The variables of a frame, the arrays, the input and the output, and the marks that were passed.
#[derive(Drop)]
pub struct State {
    variables: Vec<Option<u32>>,
    objects: Vec<Cells>,
    input: Vec<u8>,
    next: usize,
    output: Vec<u8>,
    trace: Vec<u32>,
}

impl Model for State {
    ghost use Rattle.std.specs.Prelude.{drop};
    ghost use Rattle.high_ir.specs.Meaning.{State as Stands};

    ghost Value = { Stands };

    ghost view = { λ s. record { variables = s.variables.items; world = record { objects = s.objects.items; input = drop s.next s.input.items; output = s.output.items }; trace = s.trace.items } };
}

impl State {
    /// At the start of a run.
    pub fn new(alloc: Global, objects: &[Object], input: &[u8]) -> Result<State, Memory>
        ensures { IfOk result (λ s. s ≡ record { variables = []; world = start (map object_of objects.now) input.now; trace = [] }) }
    {
        let mut arrays = Vec::new(alloc);
        for object in objects {
            arrays.push(Cells::new(alloc, object)?)?;
        }
        let mut bytes = Vec::new(alloc);
        bytes.extend_from_slice(input)?;
        Ok(State {
            variables: Vec::new(alloc),
            objects: arrays,
            input: bytes,
            next: 0,
            output: Vec::new(alloc),
            trace: Vec::new(alloc),
        })
    }

    pub fn variable(&self, variable: u32) -> Option<u32>
        ensures { result ≡ slice_index_or self.now.variables variable None }
    {
        match self.variables.get(variable as usize) {
            None => None,
            Some(held) => *held,
        }
    }

    pub fn element(&self, passed: &[u32], array: Array, index: u32) -> Option<u32>
        ensures { result ≡ at_value (array_of passed.now self.now.world array) (λ c. element c index) }
    {
        let Some(number) = object_number(passed, array.base) else {
            return None;
        };
        match self.objects.get(number as usize) {
            None => None,
            Some(cells) => {
                if cells.is_of(array.kind) {
                    cells.element(index)
                } else {
                    None
                }
            }
        }
    }

    pub fn set(&mut self, variable: u32, word: u32) -> End
        ensures { with_value (written self.old.variables variable word) (set_variables self.old) ≡ outcome_of result self.new }
    {
        match self.variables.get_mut(variable as usize) {
            None => End::Bad,
            Some(held) => {
                *held = Some(word);
                End::Goes
            }
        }
    }

    /// Writes what a call gave, where the call asks for it.
    pub fn take(&mut self, into: Option<u32>, word: u32) -> End
        ensures { with_value (taken self.old.variables into word) (set_variables self.old) ≡ outcome_of result self.new }
    {
        match into {
            None => End::Goes,
            Some(variable) => self.set(variable, word),
        }
    }

    pub fn put(&mut self, word: u32) -> Result<End, Memory>
        ensures { IfOk result (λ e. set_world self.old (put self.old.world word) ≡ outcome_of e self.new) }
    {
        self.output.push((word % 256) as u8)?;
        Ok(End::Goes)
    }

    /// The next byte of the input, or -1.
    fn next(&mut self) -> u32
        ensures byte { result ≡ next_byte self.old.world.input }
        ensures after { self.new ≡ record { variables = self.old.variables; world = got self.old.world; trace = self.old.trace } }
    {
        match self.input.get(self.next) {
            None => u32::MAX,
            Some(byte) => {
                let word = u32::from(*byte);
                self.next += 1;
                word
            }
        }
    }

    pub fn get(&mut self, variable: u32) -> End
        ensures { with_value (written self.old.variables variable (next_byte self.old.world.input)) (λ vs. Goes (record { variables = vs; world = got self.old.world; trace = self.old.trace })) ≡ outcome_of result self.new }
    {
        let word = self.next();
        self.set(variable, word)
    }

    pub fn keep(&mut self, passed: &[u32], array: Array, index: u32, word: u32) -> End
        ensures { with_value (keep passed.now self.old.world array index word) (set_world self.old) ≡ outcome_of result self.new }
    {
        let Some(number) = object_number(passed, array.base) else {
            return End::Bad;
        };
        match self.objects.get_mut(number as usize) {
            None => End::Bad,
            Some(cells) => {
                if !cells.is_of(array.kind) {
                    return End::Bad;
                }
                if cells.store(index, word) {
                    End::Goes
                } else {
                    End::Bad
                }
            }
        }
    }

    pub fn pass(&mut self, mark: u32) -> Result<End, Memory>
        ensures { IfOk result (λ e. pass (Some mark) self.old ≡ outcome_of e self.new) }
    {
        self.trace.push(mark)?;
        Ok(End::Goes)
    }

    /// Goes on in another frame; gives the variables of the one before.
    pub fn exchange(&mut self, variables: Vec<Option<u32>>) -> Vec<Option<u32>>
        ensures old { result.items ≡ self.old.variables }
        ensures new { self.new ≡ record { variables = variables.items; world = self.old.world; trace = self.old.trace } }
    {
        mem::replace(&mut self.variables, variables)
    }

    /// The output and the marks that were passed.
    pub fn into_parts(self) -> (Vec<u8>, Vec<u32>)
        ensures output { result.0.items ≡ self.world.output }
        ensures trace { result.1.items ≡ self.trace }
    {
        let State { output, trace, .. } = self;
        (output, trace)
    }
}

/// The number of the object that is meant, where the caller passed these.
pub fn object_number(passed: &[u32], base: Base) -> Option<u32>
    ensures { result ≡ object_number passed.now base }
{
    match base {
        Base::Object(number) => Some(number),
        Base::Parameter(number) => passed.get(number as usize).copied(),
    }
}
