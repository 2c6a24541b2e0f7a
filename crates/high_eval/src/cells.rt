ghost use Rattle.std.specs.Prelude.{◌≡◌, Option, Some, None, IfOk, if◌then◌else◌};
ghost use Rattle.high_ir.specs.Meaning.{can_store, element, stored};
ghost use Rattle.high_ir.specs.Runs.{contents};
ghost use Rattle.high_ir.specs.View.{object_of};
ghost use Rattle.high_eval.specs.Ends.{first_element, first_word};
ghost use Rattle.high_ir.specs.Words.{same_kind};

use high_ir::object::{Kind, Object, Storage};
use std::alloc::Global;
use std::marker::Model;
use wcc_base::Memory;

fn can_store(storage: Storage) -> bool
    ensures { result ≡ can_store storage }
{
    match storage {
        Storage::Constant => false,
        Storage::Global => true,
        Storage::Local => true,
    }
}

/// An array as a run goes on.
#[derive(Drop)]
pub struct Cells {
    kind: Kind,
    storage: Storage,
    elements: Vec<Option<u32>>,
}

impl Model for Cells {
    ghost use Rattle.high_ir.specs.Meaning.{Contents};

    ghost Value = { Contents };

    ghost view = { λ c. record { kind = c.kind; storage = c.storage; elements = c.elements.items } };
}

/// The first word of an element of a global or a constant.
fn first_word(object: &Object, index: u32) -> u32
    ensures { result ≡ first_word (object_of object.now) index }
{
    match object.values.get(index as usize) {
        None => 0,
        Some(word) => object.kind.convert(*word),
    }
}

fn first_element(object: &Object, index: u32) -> Option<u32>
    ensures { result ≡ first_element object.now.storage (object_of object.now) index }
{
    match object.storage {
        Storage::Constant => Some(first_word(object, index)),
        Storage::Global => Some(first_word(object, index)),
        Storage::Local => None,
    }
}

impl Cells {
    /// An array at first.
    pub fn new(alloc: Global, object: &Object) -> Result<Cells, Memory>
        ensures { IfOk result (λ c. c ≡ contents (object_of object.now)) }
    {
        let mut elements = Vec::new(alloc);
        for index in 0..object.length {
            elements.push(first_element(object, index))?;
        }
        Ok(Cells {
            kind: object.kind,
            storage: object.storage,
            elements,
        })
    }

    pub fn is_of(&self, kind: Kind) -> bool
        ensures { result ≡ same_kind self.now.kind kind }
    {
        self.kind.same_as(kind)
    }

    /// The word of an element, where it is there and was written.
    pub fn element(&self, index: u32) -> Option<u32>
        ensures { result ≡ element self.now index }
    {
        match self.elements.get(index as usize) {
            None => None,
            Some(element) => *element,
        }
    }

    /// Stores a word in an element, where that may be.
    pub fn store(&mut self, index: u32, word: u32) -> bool
        ensures { stored self.old index word ≡ (if result then Some self.new else None) }
    {
        if !can_store(self.storage) {
            return false;
        }
        let word = self.kind.convert(word);
        match self.elements.get_mut(index as usize) {
            None => false,
            Some(element) => {
                *element = Some(word);
                true
            }
        }
    }
}
