//! Sums of coefficients at addresses.

ghost use Rattle.std.specs.Prelude.{◌≡◌, [], ◌<◌, ◌↔◌, pos, ◌+ℤ◌, FitsSigned, IfOk, IfErr, OnOk, OnErr, IsErrOf, IsOkUnless, length, slice_index_or};
ghost use Rattle.std.specs.Int.{w64};
ghost use Rattle.frac128.specs.Terms.{Terms, coefficient};
ghost use Rattle.frac128.specs.Sum.{IsSum, AddsTerm, SetsCoefficient, IsAt, IsGapFor};

use std::alloc::{AllocError, Global};
use std::marker::Model;
use thiserror::Error;

/// Why a term was not added.
#[derive(Debug, Drop, Error)]
pub enum SumFault {
    #[error("the coefficient leaves the range of 64 bits")]
    Range,
    #[error("out of memory")]
    Memory,
}

/// A sum of coefficients at addresses: the addresses ascend strictly, and no coefficient is 0.
///
/// Contracts see the list of its terms.
#[derive(Drop)]
pub struct Sum {
    terms: Vec<(u32, i64)>,
}

impl Model for Sum {
    ghost Value = { Terms };

    ghost view = { λ s. s.terms.items };

    ghost invariant = { λ s. IsSum s.terms.items };
}

impl Sum {
    /// The sum without terms. It takes no memory, and keeps the allocator for the terms to come.
    pub fn new(alloc: Global) -> Sum
        ensures { result ≡ [] }
    {
        Sum {
            terms: Vec::new(alloc),
        }
    }

    /// A copy of the sum.
    pub fn copy(&self, alloc: Global) -> Result<Sum, AllocError>
        ensures { IfOk result (λ s. s ≡ self.now) }
    {
        Ok(Sum {
            terms: Vec::from_slice(alloc, &self.terms)?,
        })
    }

    /// The terms, by ascending address.
    pub fn terms(&self) -> &[(u32, i64)]
        ensures all { result.now ≡ self.now }
        ensures canonical { IsSum self.now }
    {
        &self.terms
    }

    /// The coefficient at an address, 0 where no term has it.
    pub fn coefficient(&self, at: u32) -> i64
        ensures { result ≡ coefficient self.now at }
    {
        match self.search(at) {
            Ok(i) => self.number(i),
            Err(_) => 0,
        }
    }

    /// Adds `coef` to the coefficient at an address; a term that becomes 0 is taken out.
    ///
    /// `Range` comes where the new coefficient leaves `i64`, and `Memory` where a new term finds no
    /// room. Either leaves the sum as it was. The place is found by bisection; a new term moves those
    /// behind it, so terms are best added by ascending address.
    pub fn add_term(&mut self, at: u32, coef: i64) -> Result<(), SumFault>
        ensures ok { OnOk result (AddsTerm self.old self.new at coef) }
        ensures range { IsErrOf result SumFault.Range ↔ ¬ (FitsSigned w64 (coefficient self.old at +ℤ coef)) }
        ensures err { OnErr result (self.new ≡ self.old) }
    {
        let Some(number) = self.coefficient(at).checked_add(coef) else {
            return Err(SumFault::Range);
        };
        self.set(at, number)
    }

    // Makes `number` the coefficient at an address; 0 takes its term out.
    fn set(&mut self, at: u32, number: i64) -> Result<(), SumFault>
        ensures ok { OnOk result (SetsCoefficient self.old self.new at number) }
        ensures memory { IsOkUnless result SumFault.Memory }
        ensures err { OnErr result (self.new ≡ self.old) }
    {
        match self.search(at) {
            Ok(i) if number == 0 => {
                self.terms.remove(i);
                Ok(())
            }
            Ok(i) => {
                self.terms[i] = (at, number);
                Ok(())
            }
            Err(_) if number == 0 => Ok(()),
            Err(i) => {
                if self.terms.insert(i, (at, number)).is_err() {
                    return Err(SumFault::Memory);
                }
                Ok(())
            }
        }
    }

    // The place of the address's term, or else the place where it would go.
    fn search(&self, at: u32) -> Result<usize, usize>
        ensures found { IfOk result (IsAt self.now at) }
        ensures absent { IfErr result (IsGapFor self.now at) }
        ensures canonical { IsSum self.now }
    {
        self.terms
            .binary_search_by_key(&at, |&(address, _)| address)
    }

    // The coefficient of the term at place `i`.
    fn number(&self, i: usize) -> i64
        requires { i < length self.now }
        ensures { result ≡ (slice_index_or self.now i (0, pos 0)).1 }
    {
        self.terms[i].1
    }
}
