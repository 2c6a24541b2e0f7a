// Flow systems.
ghost use Rattle.std.specs.Prelude.{◌≡◌, IfOk};
ghost use Rattle.code_flow_system.specs.Systems.{IsSystem, system_of};
ghost use Rattle.code_flow_system.specs.Indexes.{AreArrivals, AreMentions};
ghost use Rattle.code_flow_system.specs.Lookups.{AddUpToArrivals, AddUpToLimits};

use crate::index::{arrivals, mentions};
use crate::{Arrival, Claims, Mention, Move};
use std::alloc::Global;
use std::marker::Model;
use wcc_base::{Items, Memory};

/// The moves of the addresses that are reached from an entry, ascending by address and number,
/// with the claims. Each address with moves is a multiple of 4 in flash or scratchpad, its moves
/// are those of its instruction, the entry and each address at which a move arrives have moves,
/// and no claim is bad.
///
/// Beside them stands an index: where the moves arrive, and which limits of the claims mention an
/// address, both in the order of the addresses.
#[derive(Drop)]
pub struct System {
    entry: u32,
    claims: Claims,
    moves: Items<Move>,
    arrivals: Items<Arrival>,
    mentions: Items<Mention>,
}

impl Model for System {
    ghost use Rattle.code_flow_system.specs.Systems.{System, system_of};

    ghost Value = { System };

    ghost use Rattle.code_flow_system.specs.Indexes.{IsIndexed};

    ghost view = { λ s. system_of s.entry s.claims s.moves };

    ghost invariant = { λ s. IsIndexed (system_of s.entry s.claims s.moves) s.arrivals s.mentions };
}

impl System {
    /// The system of these moves.
    pub fn new(alloc: Global, entry: u32, claims: Claims, moves: Vec<Move>) -> Result<Self, Memory>
        requires { IsSystem (system_of entry claims moves.items) }
        ensures { IfOk result (λ s. s ≡ system_of entry claims moves.items) }
    {
        let arrivals = arrivals(alloc, &moves)?;
        let mentions = mentions(alloc, &claims)?;
        Ok(System {
            entry,
            claims,
            moves: Items::new(moves),
            arrivals: Items::new(arrivals),
            mentions: Items::new(mentions),
        })
    }

    /// A law: what each system keeps.
    pub fn is_system(&self)
        ensures { IsSystem self.now }
    {
        let _ = &self.entry;
    }

    pub fn entry(&self) -> u32
        ensures { result ≡ self.now.entry }
    {
        self.entry
    }

    pub fn claims(&self) -> &Claims
        ensures { result.now ≡ self.now.claims }
    {
        &self.claims
    }

    /// The moves, ascending by address and number.
    pub fn moves(&self) -> &[Move]
        ensures value { result.now ≡ self.now.moves }
        ensures valid { IsSystem self.now }
    {
        self.moves.as_slice()
    }

    /// Where the moves arrive, ascending by address.
    pub fn arrivals(&self) -> &[Arrival]
        ensures are { AreArrivals self.now.moves result.now }
        ensures adds_up { AddUpToArrivals self.now.moves result.now }
    {
        self.arrivals.as_slice()
    }

    /// The addresses that the limits of the claims mention, ascending.
    pub fn mentions(&self) -> &[Mention]
        ensures are { AreMentions self.now.claims result.now }
        ensures adds_up { AddUpToLimits self.now.claims result.now }
    {
        let _facts = self.claims.facts();
        self.mentions.as_slice()
    }
}
