//! The requests that ever began.
ghost use Rattle.std.specs.Prelude.{◌≡◌, ◌<◌, ◌^◌, suc, true, [], ◌∷◌, ◌++◌, length, option_map, OnOk, OnErr, IfOk};
ghost use Rattle.crdt_core.specs.Outcomes.{OnlyWant};
ghost use Rattle.cluster_machine.specs.World.{numbered};
ghost use Rattle.cluster_machine.specs.Step.{shut};
ghost use Rattle.world_core.specs.Parts.{asked};

use crdt_core::Memory;
use std::alloc::Global;
use std::marker::Model;

/// A request at its coordinator.
#[derive(Clone, Copy, Debug, PartialEq, Eq)]
pub struct Request {
    pub coordinator: u8,
    pub is_open: bool,
}

/// Every request that ever began, request q at place q - 1.
#[derive(Drop)]
pub struct Requests {
    list: Vec<Request>,
}

impl Model for Requests {
    ghost use Rattle.std.specs.Prelude.{List, map, ⊤};
    ghost use Rattle.cluster_machine.specs.World as machine;
    ghost use Rattle.world_core.specs.Parts.{asked};

    ghost Value = { List machine.Request };

    ghost view = { λ r. map asked r.list.items };

    ghost invariant = { λ r. ⊤ };
}

impl Requests {
    pub fn new(alloc: Global) -> Requests
        ensures { result ≡ [] }
    {
        Requests {
            list: Vec::new(alloc),
        }
    }

    /// How many requests began.
    pub fn len(&self) -> u64
        ensures { result ≡ length self.now }
    {
        self.list.len() as u64
    }

    /// The request with this number.
    pub fn get(&self, number: u64) -> Option<Request>
        ensures { option_map asked result ≡ numbered self.now number }
    {
        if number >= 1 && number <= self.list.len() as u64 {
            Some(self.list[(number - 1) as usize])
        } else {
            None
        }
    }

    /// A request begins at its coordinator. Its number.
    pub fn begin(&mut self, coordinator: u8) -> Result<u64, Memory>
        ensures begun { OnOk result
            (self.new ≡ self.old ++ record { coordinator = coordinator; is_open = true } ∷ []) }
        ensures number { IfOk result (λ number. number ≡ suc (length self.old)) }
        ensures small { IfOk result (λ number. number < 2 ^ 64) }
        ensures want { OnlyWant result }
    {
        self.list.push(Request {
            coordinator,
            is_open: true,
        })?;
        Ok(self.list.len() as u64)
    }

    /// The request with this number isn't open any more.
    pub fn close(&mut self, number: u64)
        ensures { self.new ≡ shut self.old (number ∷ []) }
    {
        if number >= 1 && number <= self.list.len() as u64 {
            self.list[(number - 1) as usize].is_open = false;
        }
    }

    /// None of the requests with these numbers is open any more.
    pub fn close_all(&mut self, numbers: &[u64])
        ensures { self.new ≡ shut self.old numbers.now }
    {
        for number in numbers {
            self.close(*number);
        }
    }
}
