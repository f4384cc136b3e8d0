//! The outbox.
ghost use Rattle.std.specs.Prelude.{◌≡◌, ◌+◌, map, IsTrue, IfOk, IfErr, OnOk, OnErr, if◌then◌else◌};
ghost use Rattle.crdt_core.specs.Outcomes.{OnlyWant};
ghost use Rattle.block_store.specs.Contents.{idle_notes};
ghost use Rattle.block_resync.specs.Outbox.{IsNumbered, empty, item_forgot, pushed_on, confirmed, is_done, dropped, forgot, due_of};
ghost use Rattle.numbered_list.specs.Numbers.{RefusesNumber};

use crate::item::Item;
use blake2_hash::Hash32;
use block_store::Blocks;
use crdt_core::{Bytes, List, Memory};
use numbered_list::place_of;
use std::alloc::Global;
use std::marker::Model;

/// How long a block stays after its last live reference has ended, in milliseconds.
const DELETE_DELAY: u64 = 600_000;

/// The outbox of a node.
#[derive(Drop)]
pub struct Resync {
    pushed: u64,
    items: List<Item>,
}

impl Model for Resync {
    ghost use Rattle.block_resync.specs.Outbox.{Outbox, IsNumbered};

    ghost Value = { Outbox };

    ghost view = { λ r. record { pushed = r.pushed; items = r.items } };

    ghost invariant = { λ r. IsNumbered r.pushed r.items };
}

impl Resync {
    pub fn new(alloc: Global) -> Resync
        ensures { result ≡ empty }
    {
        Resync {
            pushed: 0,
            items: List::new(alloc),
        }
    }

    /// Puts a row of this partition at the end of the list, and answers its number.
    pub fn push(&mut self, row: Bytes, partition: u8) -> Result<u64, Memory>
        ensures number { IfOk result (λ n. n ≡ self.old.pushed + 1) }
        ensures ok { OnOk result (self.new ≡ pushed_on self.old row partition) }
        ensures err { OnErr result (self.new ≡ self.old) }
        ensures refused { IfErr result (RefusesNumber self.old.pushed) }
    {
        if self.pushed == u64::MAX {
            return Err(Memory::Full);
        }
        let number = self.pushed + 1;
        let confirmed = List::new(self.items.allocator());
        self.items.push(Item {
            number,
            row,
            partition,
            confirmed,
        })?;
        self.pushed = number;
        Ok(number)
    }

    /// The items in order of their numbers.
    pub fn items(&self) -> &[Item]
        ensures items { result.now ≡ self.now.items }
        ensures numbered { IsNumbered self.now.pushed self.now.items }
    {
        self.items.as_slice()
    }

    /// The node confirms the item with this number. Where there is none, nothing changes.
    pub fn confirm(&mut self, number: u64, node: u8) -> Result<(), Memory>
        ensures ok { OnOk result (self.new ≡ confirmed self.old number node) }
        ensures err { OnErr result (self.new ≡ self.old) }
        ensures want { OnlyWant result }
    {
        match place_of(self.items.as_slice(), number) {
            Some(i) => self.items.at_mut(i).confirm(node),
            None => Ok(()),
        }
    }

    /// Drops the item with this number where two nodes of each set have confirmed it, and answers whether
    /// that was so. Takes no memory.
    pub fn done(&mut self, number: u64, sets: &[[u8; 3]]) -> bool
        ensures done { result ≡ is_done self.old number sets.now }
        ensures after { self.new ≡ (if result then dropped self.old number else self.old) }
    {
        match place_of(self.items.as_slice(), number) {
            Some(i) => {
                let done = self.items.at(i).has_two_of_each(sets);
                if done {
                    let _ = self.items.remove(i);
                }
                done
            }
            None => false,
        }
    }

    /// Forgets which nodes have confirmed the items, as a restart does.
    pub fn forget_confirms(&mut self)
        ensures { self.new ≡ forgot self.old }
    {
        forget_all(&mut self.items);
    }

    /// The hashes of the blocks that no live reference has, and whose last one ended at least 600,000
    /// milliseconds before `now`, in order.
    pub fn due(&self, blocks: &Blocks, now: u64) -> Result<Vec<Hash32>, Memory>
        ensures hashes { IfOk result (λ v. v.items ≡ due_of now (idle_notes blocks.now)) }
        ensures want { OnlyWant result }
    {
        let Some(moment) = now.checked_sub(DELETE_DELAY) else {
            return Ok(Vec::new(self.items.allocator()));
        };
        let due = blocks.idle_until(moment)?;
        hashes_of(self.items.allocator(), due.as_slice())
    }
}

fn forget_all(items: &mut List<Item>)
    ensures { items.new ≡ map item_forgot items.old }
{
    for i in 0..items.len() {
        let item = items.at_mut(i);
        item.confirmed.truncate(0);
    }
}

fn hashes_of(alloc: Global, notes: &[(Hash32, u64)]) -> Result<Vec<Hash32>, Memory>
    ensures hashes { IfOk result (λ v. v.items ≡ map (λ n. n.0) notes.now) }
    ensures want { OnlyWant result }
{
    Ok(notes.iter().map(|note| note.0).collect(alloc)?)
}
