//! An item of the outbox.
ghost use Rattle.std.specs.Prelude.{◌≡◌, OnOk, OnErr};
ghost use Rattle.crdt_core.specs.Outcomes.{OnlyWant};

use crate::nodes::{has_two, is_among};
use crdt_core::{Bytes, List, Memory};
use numbered_list::Numbered;

/// A row that waits until two nodes of each of its sets have confirmed it.
#[derive(Drop)]
pub struct Item {
    /// Counted from 1, in the order in which items were pushed.
    pub number: u64,
    /// The row's bytes.
    pub row: Bytes,
    /// The partition that the row lies in.
    pub partition: u8,
    /// The nodes that have confirmed it, each once.
    pub confirmed: List<u8>,
}

impl Item {
    ghost use Rattle.block_resync.specs.Outbox.{item_confirmed, two_of_each};

    /// A node confirms the item.
    pub(crate) fn confirm(&mut self, node: u8) -> Result<(), Memory>
        ensures ok { OnOk result (self.new ≡ item_confirmed node self.old) }
        ensures err { OnErr result (self.new ≡ self.old) }
        ensures want { OnlyWant result }
    {
        if is_among(node, self.confirmed.as_slice()) {
            return Ok(());
        }
        self.confirmed.push(node)
    }

    /// Two nodes of each set have confirmed the item.
    pub(crate) fn has_two_of_each(&self, sets: &[[u8; 3]]) -> bool
        ensures { result ≡ two_of_each sets.now self.now }
    {
        let confirmed = self.confirmed.as_slice();
        sets.iter().all(|set| has_two(set, confirmed))
    }
}

impl Numbered for Item {
    ghost use Rattle.block_resync.specs.Outbox.{number_of};

    ghost number = { number_of };

    fn number(&self) -> u64 {
        self.number
    }
}
