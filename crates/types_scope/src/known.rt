ghost use Rattle.std.specs.Prelude.{◌≡◌, [], IfOk, OnOk};
ghost use Rattle.types_rules.specs.Scope.{index_of, is_among, with_number};

use indexmap::IndexSet;
use std::alloc::{AllocError, Global};
use std::marker::Model;

/// What is known of a unit as a whole: its functions in the order of their definitions, and three names.
#[derive(Drop)]
pub struct Known {
    definitions: IndexSet<u32>,
    main: u32,
    getchar: u32,
    putchar: u32,
}

impl Model for Known {
    ghost use Rattle.types_rules.specs.Scope.{Outline};

    ghost Value = { Outline };

    ghost view = { λ k. record { definitions = k.definitions.keys; main = k.main; getchar = k.getchar; putchar = k.putchar } };
}

/// A number of 32 bits; where it's none, memory would have run out before.
pub fn narrow(count: usize) -> Result<u32, AllocError>
    ensures { IfOk result (λ n. n ≡ count) }
{
    match u32::try_from(count) {
        Ok(number) => Ok(number),
        Err(_) => Err(AllocError),
    }
}

impl Known {
    /// Of a unit with these numbers of `main`, `getchar` and `putchar`, before its definitions are noted.
    pub fn new(main: u32, getchar: u32, putchar: u32, alloc: Global) -> Known
        ensures { result ≡ record { definitions = []; main = main; getchar = getchar; putchar = putchar } }
    {
        Known {
            definitions: IndexSet::new(alloc),
            main,
            getchar,
            putchar,
        }
    }

    /// Notes that a function of this name is defined.
    pub fn define(&mut self, name: u32) -> Result<(), AllocError>
        ensures { OnOk result (self.new ≡ record { definitions = with_number self.old.definitions name; main = self.old.main; getchar = self.old.getchar; putchar = self.old.putchar }) }
    {
        self.definitions.insert(name)?;
        Ok(())
    }

    pub fn main(&self) -> u32
        ensures { result ≡ self.now.main }
    {
        self.main
    }

    pub fn getchar(&self) -> u32
        ensures { result ≡ self.now.getchar }
    {
        self.getchar
    }

    pub fn putchar(&self) -> u32
        ensures { result ≡ self.now.putchar }
    {
        self.putchar
    }

    /// Whether a function of this name is defined in the unit.
    pub fn defines(&self, name: u32) -> bool
        ensures { result ≡ is_among name self.now.definitions }
    {
        self.definitions.contains(&name)
    }

    /// The number of a function that is defined in the unit.
    pub fn number(&self, name: u32) -> Result<u32, AllocError>
        ensures { IfOk result (λ number. number ≡ index_of name self.now.definitions) }
    {
        match self.definitions.get_index_of(&name) {
            Some(number) => narrow(number),
            None => Ok(0),
        }
    }
}
