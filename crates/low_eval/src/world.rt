// What the functions of a run share.
ghost use Rattle.std.specs.Prelude.{◌≡◌, map, None, IfOk, if◌then◌else◌};
ghost use Rattle.low_ir.specs.Effects.{began, changes, got, loaded, next_byte, put, start, stored, there, with_objects};
ghost use Rattle.low_ir.specs.View.{object_of};

use super::cells::Cells;
use low_ir::Began;
use low_ir::object::{Kind, Object};
use std::alloc::Global;
use std::marker::Model;
use wcc_base::Memory;

/// The arrays, the input and the output, and the blocks that began.
#[derive(Drop)]
pub struct World {
    objects: Vec<Cells>,
    input: Vec<u8>,
    next: usize,
    output: Vec<u8>,
    trace: Vec<Began>,
}

impl Model for World {
    ghost use Rattle.std.specs.Prelude.{drop};
    ghost use Rattle.low_ir.specs.Effects.{World as Shared};

    ghost Value = { Shared };

    ghost view = { λ w. record { objects = w.objects.items; input = drop w.next w.input.items; output = w.output.items; trace = w.trace.items } };
}

impl World {
    /// At the start of a run.
    pub fn new(alloc: Global, objects: &[Object], input: &[u8]) -> Result<World, Memory>
        ensures { IfOk result (λ w. w ≡ start (map object_of objects.now) input.now) }
    {
        let mut arrays = Vec::new(alloc);
        for object in objects {
            arrays.push(Cells::new(alloc, object)?)?;
        }
        let mut bytes = Vec::new(alloc);
        bytes.extend_from_slice(input)?;
        Ok(World {
            objects: arrays,
            input: bytes,
            next: 0,
            output: Vec::new(alloc),
            trace: Vec::new(alloc),
        })
    }

    /// The word of an element, where it is there and was written.
    pub fn load(&self, kind: Kind, object: u32, bytes: u32) -> Option<u32>
        ensures { result ≡ loaded self.now.objects kind object bytes }
    {
        match self.objects.get(object as usize) {
            None => None,
            Some(cells) => cells.load(kind, bytes),
        }
    }

    /// Stores a word in an element, where that may be.
    pub fn store(&mut self, kind: Kind, object: u32, bytes: u32, word: u32) -> bool
        ensures { there (stored self.old.objects kind object bytes word) (λ objects. changes (with_objects self.old objects)) ≡ (if result then changes self.new else None) }
    {
        match self.objects.get_mut(object as usize) {
            None => false,
            Some(cells) => cells.store(kind, bytes, word),
        }
    }

    pub fn put(&mut self, word: u32) -> Result<(), Memory>
        ensures { IfOk result (λ _. self.new ≡ put self.old word) }
    {
        self.output.push((word % 256) as u8)?;
        Ok(())
    }

    /// The next byte of the input, or -1.
    pub fn get(&mut self) -> u32
        ensures byte { result ≡ next_byte self.old.input }
        ensures after { self.new ≡ got self.old }
    {
        match self.input.get(self.next) {
            None => u32::MAX,
            Some(byte) => {
                let word = u32::from(*byte);
                self.next += 1;
                word
            }
        }
    }

    pub fn begin(&mut self, function: u32, block: u32) -> Result<(), Memory>
        ensures { IfOk result (λ _. self.new ≡ began self.old function block) }
    {
        self.trace.push(Began { function, block })?;
        Ok(())
    }

    /// The output and the blocks that began.
    pub fn into_parts(self) -> (Vec<u8>, Vec<Began>)
        ensures output { result.0.items ≡ self.output }
        ensures trace { result.1.items ≡ self.trace }
    {
        let World { output, trace, .. } = self;
        (output, trace)
    }
}
