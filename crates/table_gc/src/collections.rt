//! The open collections.
ghost use Rattle.std.specs.Prelude.{◌≡◌, ◌+◌, [], Some, IsTrue, IfOk, IfErr, IfSome, OnOk, OnErr, option_copied};
ghost use Rattle.crdt_core.specs.Outcomes.{OnlyWant};
ghost use Rattle.gc_model.specs.Collecting.{IsNumbered, none_open, begun_with, keyed, numbered, missing_in, is_ready, in_second, changed, closed, answer_end, answered};
ghost use Rattle.numbered_list.specs.Numbers.{RefusesNumber};

use crate::collection::{begin_second, end_of, is_closed, is_ready, missing, tell};
use crate::keys::{Keys, add, first, remove};
use crdt_core::{Bytes, List, Memory};
use gc_model::{Collection, GcEnd};
use numbered_list::place_of;
use std::alloc::Global;
use std::collections::BTreeMap;
use std::marker::Model;

/// The collections of a node that are open.
#[derive(Drop)]
pub struct Collections {
    begun: u64,
    list: List<Collection>,
    keys: Keys,
}

impl Model for Collections {
    ghost use Rattle.gc_model.specs.Collecting.{Open};
    ghost use Rattle.table_gc.specs.Keys.{AreOpen};

    ghost Value = { Open };

    ghost view = { λ c. record { begun = c.begun; collections = c.list } };

    ghost invariant = { λ c. AreOpen c.begun c.list c.keys };
}

impl Collections {
    pub fn new(alloc: Global) -> Collections
        ensures { result ≡ none_open }
    {
        Collections {
            begun: 0,
            list: List::new(alloc),
            keys: BTreeMap::new(alloc),
        }
    }

    /// How many collections ever began, which is the number of the last one.
    pub fn begun(&self) -> u64
        ensures { result ≡ self.now.begun }
    {
        self.begun
    }

    /// Begins a collection of the row with this key and these bytes at the node `own`, whose newest layout version
    /// is `newest`, and answers its number. The node itself has confirmed round 1.
    pub fn begin(&mut self, key: Bytes, row: Bytes, own: u8, newest: u32) -> Result<u64, Memory>
        ensures number { IfOk result (λ n. n ≡ self.old.begun + 1) }
        ensures ok { OnOk result (self.new ≡ begun_with self.old key row own newest) }
        ensures err { OnErr result (self.new ≡ self.old) }
        ensures refused { IfErr result (RefusesNumber self.old.begun) }
    {
        if self.begun == u64::MAX {
            return Err(Memory::Full);
        }
        let number = self.begun + 1;
        let alloc = self.list.allocator();
        let indexed = Vec::from_slice(alloc, key.as_slice())?;
        let mut first = List::new(alloc);
        first.push((own, newest))?;
        let again = List::new(alloc);
        let count = self.list.len();
        self.list.push(Collection {
            number,
            key,
            round: 1,
            row,
            own,
            newest,
            ready: None,
            first,
            again,
        })?;
        if let Err(fault) = add(alloc, &mut self.keys, indexed, number) {
            self.list.truncate(count);
            return Err(fault);
        }
        self.begun = number;
        Ok(number)
    }

    /// The first open collection of the row with this key.
    pub fn of(&self, key: &[u8]) -> Option<&Collection>
        ensures is { option_copied result ≡ keyed key.now self.now }
        ensures numbered { IfSome result (λ c. numbered c.now.number self.now ≡ Some c.now) }
    {
        match first(&self.keys, key) {
            Some(number) => self.numbered(number),
            None => None,
        }
    }

    /// The open collection with this number.
    pub fn numbered(&self, number: u64) -> Option<&Collection>
        ensures { option_copied result ≡ numbered number self.now }
    {
        match place_of(self.list.as_slice(), number) {
            Some(i) => Some(self.list.at(i)),
            None => None,
        }
    }

    /// The open collections in order of their numbers.
    pub fn all(&self) -> &[Collection]
        ensures all { result.now ≡ self.now.collections }
        ensures numbered { IsNumbered self.now.begun self.now.collections }
    {
        self.list.as_slice()
    }

    /// The nodes from 1 to 16 that haven't confirmed the open round of the collection with this number, in order.
    pub fn missing(&self, number: u64) -> Result<Vec<u8>, Memory>
        ensures nodes { IfOk result (λ v. v.items ≡ missing_in number self.now) }
        ensures want { OnlyWant result }
    {
        let alloc = self.list.allocator();
        match place_of(self.list.as_slice(), number) {
            Some(i) => missing(self.list.at(i), alloc),
            None => Ok(Vec::new(alloc)),
        }
    }

    /// Whether round 2 of the collection with this number may begin: it is open, all 16 nodes have confirmed round 1,
    /// and round 2 hasn't begun.
    pub fn is_ready(&self, number: u64) -> bool
        ensures { result ≡ is_ready (numbered number self.now) }
    {
        match place_of(self.list.as_slice(), number) {
            Some(i) => is_ready(self.list.at(i)),
            None => false,
        }
    }

    /// Begins round 2 of the collection with this number, which the own node confirms.
    pub fn second(&mut self, number: u64) -> Result<(), Memory>
        requires { IsTrue (is_ready (numbered number self.old)) }
        ensures ok { OnOk result (self.new ≡ changed in_second number self.old) }
        ensures err { OnErr result (self.new ≡ self.old) }
        ensures want { OnlyWant result }
    {
        match place_of(self.list.as_slice(), number) {
            Some(i) => begin_second(self.list.at_mut(i)),
            None => Ok(()),
        }
    }

    /// Takes an answer to a round of the collection with this number: the node confirms it and says that `newest`
    /// is its newest layout version. `now` is the own clock in milliseconds.
    pub fn tombed(
        &mut self,
        number: u64,
        round: u8,
        node: u8,
        newest: u32,
        now: u64,
    ) -> Result<GcEnd, Memory>
        ensures end { IfOk result (λ e. e ≡ answer_end number round node newest self.old) }
        ensures ok { OnOk result (self.new ≡ answered number round node newest now self.old) }
        ensures err { OnErr result (self.new ≡ self.old) }
        ensures want { OnlyWant result }
    {
        match place_of(self.list.as_slice(), number) {
            Some(i) => {
                let end = end_of(self.list.at(i), round, node, newest);
                if is_closed(end) {
                    let closed = self.list.remove(i);
                    remove(&mut self.keys, closed.key.as_slice(), number);
                    return Ok(end);
                }
                tell(self.list.at_mut(i), round, node, newest, now)?;
                Ok(end)
            }
            None => Ok(GcEnd::Wait),
        }
    }

    /// Closes the collection with this number. Where it isn't open, nothing changes.
    pub fn close(&mut self, number: u64)
        ensures { self.new ≡ closed number self.old }
    {
        match place_of(self.list.as_slice(), number) {
            Some(i) => {
                let closed = self.list.remove(i);
                remove(&mut self.keys, closed.key.as_slice(), number);
            }
            None => {}
        }
    }

    /// Closes all collections, as a restart does. Their numbers don't come again.
    pub fn clear(&mut self)
        ensures { self.new ≡ record self.old { collections = [] } }
    {
        self.list.truncate(0);
        self.keys.clear();
    }
}
