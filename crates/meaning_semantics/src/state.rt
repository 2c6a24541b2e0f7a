// Where a run stands.
ghost use Rattle.std.specs.Prelude.{◌≡◌, ◌++◌, map, replicate, IfOk};
ghost use Rattle.types_tree.specs.View.{program_of};
ghost use Rattle.meaning_semantics.specs.Runs.{elements_of, start};
ghost use Rattle.meaning_semantics.specs.State.{Fine, State as Stands, array_number, bound, changed, counted, got, needed, outcome_of, placed, put, read, settled, truth, unwritten, write, zeros};

use super::cells::Cells;
use super::outcome::{Change, Flow, Found, Stop, rule_of};
use std::alloc::Global;
use std::marker::Model;
use types_tree::program::Program;
use types_tree::variable::{Extent, Variable};
use types_value::{Kind, Operator, Undefined};
use wcc_base::{Items, Memory};

/// The objects by their numbers, the input with the place of its next byte, the output, and how often each
/// function and then each marker was reached.
#[derive(Drop)]
pub struct State {
    objects: Vec<Cells>,
    input: Vec<u8>,
    next: usize,
    output: Vec<u8>,
    counts: Vec<u64>,
}

impl Model for State {
    ghost use Rattle.std.specs.Prelude.{drop};
    ghost use Rattle.meaning_semantics.specs.State.{State as Stands};

    ghost Value = { Stands };

    ghost view = { λ s. record { objects = s.objects.items; input = drop s.next s.input.items; output = s.output.items; counts = s.counts.items } };
}

/// The answer of an operator at a place.
pub fn settle(answer: Result<u32, Undefined>, at: u32) -> Result<u32, Stop>
    ensures { (st : Stands) → settled answer at st ≡ outcome_of result st }
{
    match answer {
        Ok(word) => Ok(word),
        Err(cause) => Err(Stop::Undefined {
            rule: rule_of(cause),
            at,
        }),
    }
}

/// The value of a call, where it is used.
pub fn need(used: bool, at: u32, given: Option<u32>) -> Result<u32, Stop>
    ensures { (st : Stands) → needed used at given st ≡ outcome_of result st }
{
    match given {
        Some(word) => Ok(word),
        None => {
            if used {
                Err(Stop::Undefined { rule: 8, at })
            } else {
                Ok(0)
            }
        }
    }
}

/// 1 for a word that is not 0.
pub fn truth(word: u32) -> u32
    ensures { result ≡ truth word }
{
    match word {
        0 => 0,
        _ => 1,
    }
}

/// Zeros behind the counts that are there.
fn add_zeros(counts: &mut Vec<u64>, number: usize) -> Result<(), Memory>
    ensures { IfOk result (λ done. counts.new.items ≡ counts.old.items ++ replicate number 0) }
{
    for _ in 0..number {
        counts.push(0)?;
    }
    Ok(())
}

fn cells_of(alloc: Global, variables: &[Variable]) -> Result<Vec<Cells>, Memory>
    ensures { IfOk result (λ v. v.items ≡ map elements_of variables.now) }
{
    let mut objects = Vec::new(alloc);
    for variable in variables {
        objects.push(Cells::new(alloc, *variable)?)?;
    }
    Ok(objects)
}

impl State {
    /// The state before anything was initialised.
    pub fn new(
        alloc: Global,
        program: &Program,
        markers: usize,
        input: &[u8],
    ) -> Result<State, Memory>
        ensures { IfOk result (λ st. st ≡ start (program_of program.now) markers input.now) }
    {
        let mut counts = Vec::new(alloc);
        add_zeros(&mut counts, program.functions.as_slice().len())?;
        add_zeros(&mut counts, markers)?;
        let mut bytes = Vec::new(alloc);
        bytes.extend_from_slice(input)?;
        Ok(State {
            objects: cells_of(alloc, &program.variables)?,
            input: bytes,
            next: 0,
            output: Vec::new(alloc),
            counts,
        })
    }

    /// The output and the counts.
    pub fn into_parts(self) -> (Items<u8>, Items<u64>)
        ensures output { result.0 ≡ self.output }
        ensures counts { result.1 ≡ self.counts }
    {
        let State { output, counts, .. } = self;
        (Items::new(output), Items::new(counts))
    }

    pub fn counts(&self) -> &[u64]
        ensures { result.now ≡ self.now.counts }
    {
        self.counts.as_slice()
    }

    pub fn read(&self, found: Found) -> Result<u32, Stop>
        ensures { read found self.now ≡ outcome_of result self.now }
    {
        let at = found.at;
        let Some(cells) = self.objects.get(found.object) else {
            return Err(Stop::Undefined { rule: 0, at });
        };
        match cells.get(found.index) {
            None => Err(Stop::Undefined { rule: 0, at }),
            Some(None) => Err(Stop::Undefined { rule: 7, at }),
            Some(Some(word)) => Ok(word),
        }
    }

    /// Writes a word, and gives it.
    pub fn write(&mut self, found: Found, word: u32) -> Result<u32, Stop>
        ensures { write found word self.old ≡ outcome_of result self.new }
    {
        let at = found.at;
        match self.objects.get_mut(found.object) {
            None => Err(Stop::Undefined { rule: 0, at }),
            Some(cells) => {
                if cells.set(found.index, word) {
                    Ok(word)
                } else {
                    Err(Stop::Undefined { rule: 0, at })
                }
            }
        }
    }

    /// Tests an index.
    pub fn place(&self, found: Found) -> Result<Found, Stop>
        ensures { placed found self.now ≡ outcome_of result self.now }
    {
        let at = found.at;
        match self.objects.get(found.object) {
            None => Err(Stop::Undefined { rule: 0, at }),
            Some(cells) => {
                if cells.has(found.index) {
                    Ok(found)
                } else {
                    Err(Stop::Undefined { rule: 6, at })
                }
            }
        }
    }

    /// The number of the object that an array's name means.
    pub fn array_number(&self, variables: &[Variable], array: u32, at: u32) -> Result<u32, Stop>
        ensures { array_number variables.now array at self.now ≡ outcome_of result self.now }
    {
        let Some(variable) = variables.get(array as usize) else {
            return Err(Stop::Undefined { rule: 0, at });
        };
        match variable.extent {
            Extent::Scalar => Ok(array),
            Extent::Array(_) => Ok(array),
            Extent::Parameter => self.read(Found {
                object: array as usize,
                index: 0,
                at,
            }),
        }
    }

    /// Reads an element, computes with a word at a type, converts to the element's type and writes.
    pub fn change(
        &mut self,
        found: Found,
        operator: Operator,
        kind: Kind,
        to: Kind,
        word: u32,
    ) -> Result<Change, Stop>
        ensures { changed found operator kind to word self.old ≡ outcome_of result self.new }
    {
        let before = match self.read(found) {
            Err(stop) => return Err(stop),
            Ok(before) => before,
        };
        let answer = operator.compute(kind, kind.convert(before), word);
        match settle(answer, found.at) {
            Err(stop) => Err(stop),
            Ok(result) => match self.write(found, to.convert(result)) {
                Err(stop) => Err(stop),
                Ok(behind) => Ok(Change { before, behind }),
            },
        }
    }

    /// The next byte of the input, or -1.
    pub fn get(&mut self) -> u32
        ensures { got self.old ≡ Fine result self.new }
    {
        match self.input.get(self.next) {
            None => u32::MAX,
            Some(byte) => {
                let word = u32::from(*byte);
                self.next += 1;
                word
            }
        }
    }

    /// Writes a word modulo 256, and gives that byte.
    pub fn put(&mut self, word: u32) -> Result<u32, Memory>
        ensures { IfOk result (λ byte. put word self.old ≡ Fine byte self.new) }
    {
        let byte = word % 256;
        self.output.push(byte as u8)?;
        Ok(byte)
    }

    /// A function or marker is reached once more. A count that leaves its type counts as want of memory.
    pub fn count(&mut self, number: usize) -> Result<(), Memory>
        ensures { IfOk result (λ done. self.new ≡ counted number self.old) }
    {
        match self.counts.get_mut(number) {
            None => Ok(()),
            Some(count) => match count.checked_add(1) {
                None => Err(Memory),
                Some(more) => {
                    *count = more;
                    Ok(())
                }
            },
        }
    }

    /// Forgets what an object held.
    pub fn clear(&mut self, object: u32)
        ensures { self.new ≡ unwritten object self.old }
    {
        if let Some(cells) = self.objects.get_mut(object as usize) {
            cells.clear();
        }
    }

    /// Makes the elements of an object from a number on 0.
    pub fn zero(&mut self, object: u32, from: usize)
        ensures { self.new ≡ zeros object from self.old }
    {
        if let Some(cells) = self.objects.get_mut(object as usize) {
            cells.zero(from);
        }
    }

    /// Writes the words of a call into the parameters, whose objects follow each other.
    pub fn bind(&mut self, first: u32, at: u32, words: &[u32]) -> Result<Flow, Stop>
        ensures { bound first at words.now self.old ≡ outcome_of result self.new }
    {
        let mut object = first as usize;
        for word in words {
            let found = Found {
                object,
                index: 0,
                at,
            };
            match self.write(found, *word) {
                Err(stop) => return Err(stop),
                Ok(_) => {}
            }
            object += 1;
        }
        Ok(Flow::Onward)
    }
}
