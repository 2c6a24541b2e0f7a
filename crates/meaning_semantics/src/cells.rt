// The elements of an object.
ghost use Rattle.std.specs.Prelude.{◌≡◌, ◌++◌, ◌-◌, nat_lt, length, replicate, take, slice_get, slice_set, IfOk, if◌then◌else◌};
ghost use Rattle.meaning_semantics.specs.Runs.{elements_of, first_of, size_of};

use std::alloc::Global;
use std::marker::Model;
use types_tree::variable::{Duration, Extent, Variable};
use wcc_base::Memory;

/// The elements of an object, none where nothing was written yet.
#[derive(Drop)]
pub struct Cells {
    elements: Vec<Option<u32>>,
}

impl Model for Cells {
    ghost use Rattle.std.specs.Prelude.{ℕ, List, Option};

    ghost Value = { List (Option ℕ) };

    ghost view = { λ c. c.elements.items };
}

fn size_of(extent: Extent) -> u32
    ensures { result ≡ size_of extent }
{
    match extent {
        Extent::Scalar => 1,
        Extent::Array(size) => size,
        Extent::Parameter => 1,
    }
}

fn first_of(duration: Duration) -> Option<u32>
    ensures { result ≡ first_of duration }
{
    match duration {
        Duration::Static => Some(0),
        Duration::Automatic => None,
    }
}

impl Cells {
    /// The elements before anything was initialised.
    pub fn new(alloc: Global, variable: Variable) -> Result<Cells, Memory>
        ensures { IfOk result (λ c. c ≡ elements_of variable) }
    {
        let first = first_of(variable.duration);
        let mut elements = Vec::new(alloc);
        for _ in 0..size_of(variable.extent) {
            elements.push(first)?;
        }
        Ok(Cells { elements })
    }

    pub fn get(&self, index: usize) -> Option<Option<u32>>
        ensures { result ≡ slice_get self.now index }
    {
        self.elements.get(index).copied()
    }

    pub fn has(&self, index: usize) -> bool
        ensures { result ≡ nat_lt index (length self.now) }
    {
        index < self.elements.len()
    }

    /// Writes an element, where it is there.
    pub fn set(&mut self, index: usize, word: u32) -> bool
        ensures known { result ≡ nat_lt index (length self.old) }
        ensures written { self.new ≡ (if result then slice_set self.old index (Some word) else self.old) }
    {
        match self.elements.get_mut(index) {
            None => false,
            Some(element) => {
                *element = Some(word);
                true
            }
        }
    }

    /// Forgets all elements.
    pub fn clear(&mut self)
        ensures { self.new ≡ replicate (length self.old) None }
    {
        self.elements.fill(None);
    }

    /// Makes the elements from a number on 0.
    pub fn zero(&mut self, from: usize)
        ensures { self.new ≡ take from self.old ++ replicate (length self.old - from) (Some 0) }
    {
        if from < self.elements.len() {
            self.elements[from..].fill(Some(0));
        }
    }
}
