//! The open requests of a node.
ghost use Rattle.std.specs.Prelude.{◌≡◌, ◌<◌, ℕ, suc, Option, Some, List, [], ◌∷◌, reverse, option_map, IfOk, OnOk, OnErr};
ghost use Rattle.std.specs.List.{All};
ghost use Rattle.crdt_core.specs.Outcomes.{OnlyWant};
ghost use Rattle.cluster_machine.specs.Node.{Call as Opened, Present as Doing, resting};
ghost use Rattle.cluster_machine.specs.Phases.{call_at, with_call, without_call};
ghost use Rattle.cluster_machine.specs.Acts.{least_start};
ghost use Rattle.cluster_machine.specs.Step.{requests_of};
ghost use Rattle.node_parts.specs.Calls.{IsPresent, HearsRow, HearsRows, HearsConfirmation, HearsBlock};

use crate::call::{Call, Present};
use block_bytes::Block;
use crdt_core::Memory;
use std::alloc::Global;
use std::cmp::Reverse;
use std::collections::BTreeMap;
use table_schema::Schema;
use wire_messages::PhaseEnd;

/// The open requests by their numbers, the newest first.
#[derive(Drop)]
pub struct Calls<S: Schema> {
    by_number: BTreeMap<Reverse<u64>, Call<S>>,
    alloc: Global,
}

impl<S: Schema> Calls<S> {
    ghost use Rattle.node_parts.specs.Calls.{AreCalls};

    pub fn new(alloc: Global) -> Calls<S>
        ensures { AreCalls result [] }
    {
        Calls {
            by_number: BTreeMap::new(alloc),
            alloc,
        }
    }

    /// A request begins; its number is above those of the open ones.
    pub fn begin(&mut self, request: u64, start: u32) -> Result<(), Memory>
        ensures begun { (calls : List (Opened S.Row)) → AreCalls self.old calls →
            All (λ c. c.request < request) calls →
            OnOk result (AreCalls self.new (record { request = request; start = start; phases = 0; present = resting } ∷ calls)) }
        ensures unchanged { (calls : List (Opened S.Row)) → AreCalls self.old calls →
            OnErr result (AreCalls self.new calls) }
        ensures want { OnlyWant result }
    {
        let call = Call {
            start,
            phases: 0,
            present: Present::Resting,
        };
        let _ = self.by_number.insert(Reverse(request), call)?;
        Ok(())
    }

    /// Forgets a request.
    pub fn end(&mut self, request: u64)
        ensures { (calls : List (Opened S.Row)) → AreCalls self.old calls →
            AreCalls self.new (without_call request calls) }
    {
        let _ = self.by_number.remove(&Reverse(request));
    }

    /// How many phases of a request began, where it is open.
    pub fn phases(&self, request: u64) -> Option<u32>
        ensures { (calls : List (Opened S.Row)) → AreCalls self.now calls →
            result ≡ option_map (λ c. c.phases) (call_at calls request) }
    {
        match self.by_number.get(&Reverse(request)) {
            Some(call) => Some(call.phases),
            None => None,
        }
    }

    /// An open request enters the phase with this number.
    pub fn enter(&mut self, request: u64, number: u32, present: Present<S>)
        ensures { (calls : List (Opened S.Row)) (c : Opened S.Row) (doing : Doing S.Row) →
            AreCalls self.old calls → call_at calls request ≡ Some c → IsPresent present doing →
            AreCalls self.new (with_call (record c { phases = number; present = doing }) calls) }
    {
        if let Some(call) = self.by_number.get_mut(&Reverse(request)) {
            call.phases = number;
            call.present = present;
        }
    }

    /// The least of a version and of those that were newest when the requests began.
    pub fn least_start(&self, version: u32) -> u32
        ensures { (calls : List (Opened S.Row)) → AreCalls self.now calls →
            result ≡ least_start version calls }
    {
        let mut least = version;
        for call in self.by_number.values() {
            least = least.min(call.start);
        }
        least
    }

    /// Forgets all requests, and gives their numbers, ascending.
    pub fn lose_all(&mut self) -> Result<Vec<u64>, Memory>
        ensures lost { (calls : List (Opened S.Row)) → AreCalls self.old calls →
            IfOk result (λ lost. lost.items ≡ reverse (requests_of calls)) }
        ensures none { OnOk result (AreCalls self.new []) }
        ensures unchanged { OnErr result (self.new ≡ self.old) }
        ensures want { OnlyWant result }
    {
        let mut lost = Vec::new(self.alloc);
        for number in self.by_number.keys() {
            lost.push(number.0)?;
        }
        lost.reverse();
        self.by_number = BTreeMap::new(self.alloc);
        Ok(lost)
    }

    /// A node's answer to a read phase. It counts where the request is open and still in this phase.
    pub fn hear_row(
        &mut self,
        from: u8,
        request: u64,
        phase: u32,
        row: &Option<S::Row>,
    ) -> Result<Option<PhaseEnd<S::Row>>, Memory>
        ensures hears { IfOk result
            (λ given. HearsRow S.Row.join self.old self.new from request phase row.now given) }
        ensures want { OnlyWant result }
    {
        let Some(call) = self.by_number.get_mut(&Reverse(request)) else {
            return Ok(None);
        };
        if call.phases != phase {
            return Ok(None);
        }
        call.take_row(from, row)
    }

    /// A node's answer to a range phase. It counts where the request is open and still in this phase.
    pub fn hear_rows(
        &mut self,
        from: u8,
        request: u64,
        phase: u32,
        rows: &[S::Row],
        more: bool,
    ) -> Result<Option<PhaseEnd<S::Row>>, Memory>
        ensures hears { IfOk result
            (λ given. HearsRows S.Row.join S.words self.old self.new from request phase rows.now more given) }
        ensures want { OnlyWant result }
    {
        let alloc = self.alloc;
        let Some(call) = self.by_number.get_mut(&Reverse(request)) else {
            return Ok(None);
        };
        if call.phases != phase {
            return Ok(None);
        }
        call.take_rows(alloc, from, rows, more)
    }

    /// A node's confirmation of the row at a place of a store phase, where the coordinator's oldest stored version is
    /// `oldest`. It counts where the request is open and still in this phase. Takes no memory.
    pub fn hear_confirmation(
        &mut self,
        from: u8,
        request: u64,
        phase: u32,
        slot: u8,
        oldest: u32,
    ) -> Option<PhaseEnd<S::Row>>
        ensures { HearsConfirmation self.old self.new from request phase slot oldest result }
    {
        let Some(call) = self.by_number.get_mut(&Reverse(request)) else {
            return None;
        };
        if call.phases != phase {
            return None;
        }
        call.take_confirmation(from, slot, oldest)
    }

    /// A node's answer to a block phase. It counts where the request is open and still in this phase.
    pub fn hear_block(
        &mut self,
        request: u64,
        phase: u32,
        bytes: &Block,
    ) -> Result<Option<PhaseEnd<S::Row>>, Memory>
        ensures hears { IfOk result
            (λ given. HearsBlock self.old self.new request phase bytes.now given) }
        ensures want { OnlyWant result }
    {
        let Some(call) = self.by_number.get_mut(&Reverse(request)) else {
            return Ok(None);
        };
        if call.phases != phase {
            return Ok(None);
        }
        call.take_block(bytes)
    }
}
