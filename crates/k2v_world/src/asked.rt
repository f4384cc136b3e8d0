//! What is kept of a request.
ghost use Rattle.std.specs.Prelude.{◌≡◌};
ghost use Rattle.std.specs.List.{position};
ghost use Rattle.std.specs.Ordering.{is_eq};
ghost use Rattle.k2v_model.specs.Orders.{is_write as is_write_of};
ghost use Rattle.k2v_world.specs.Kept.{is_open_write};

use blake2_hash::Hash32;
use crdt_core::{Map, Max};
use k2v_model::{Ask, Item, Order};

/// What a request is doing, or how it ended.
#[derive(Drop)]
pub enum Stage {
    /// It asks for its item's row.
    Reading,
    /// It is a write that stores a row.
    Storing,
    /// It was a read that finished, with this token.
    Shown(Map<u8, Max<u64>>),
    /// It was a write that finished, or ended without an answer.
    Over,
}

/// A request: the node at which it began, what it was ordered to do, the digest of its bucket's name, and its stage.
#[derive(Drop)]
pub struct Asked {
    pub node: u8,
    pub order: Order,
    pub bucket: Hash32,
    pub stage: Stage,
}

/// Whether a request writes.
pub fn is_write(ask: &Ask) -> bool
    ensures { result ≡ is_write_of ask.now }
{
    matches!(ask, Ask::Write { .. })
}

/// The place of the first open write of this item at this node.
pub fn open_write(requests: &[Asked], node: u8, bucket: &Hash32, item: &Item) -> Option<usize>
    ensures { result ≡ position
        (is_open_write node (bucket.now, (item.now.pk, item.now.sk))) requests.now }
{
    requests
        .iter()
        .position(|asked| asked.is_open_write_of(node, bucket, item))
}

impl Asked {
    ghost use Rattle.k2v_world.specs.Kept.{waits, is_reading, is_storing, is_shown, is_of};

    /// It asks for its item's row.
    pub fn is_reading(&self) -> bool
        ensures { result ≡ is_reading self.now.stage }
    {
        matches!(self.stage, Stage::Reading)
    }

    /// It stores a row.
    pub fn is_storing(&self) -> bool
        ensures { result ≡ is_storing self.now.stage }
    {
        matches!(self.stage, Stage::Storing)
    }

    /// It is open.
    pub fn is_open(&self) -> bool
        ensures { result ≡ waits self.now.stage }
    {
        matches!(self.stage, Stage::Reading | Stage::Storing)
    }

    /// It was a read that finished.
    pub fn is_shown(&self) -> bool
        ensures { result ≡ is_shown self.now.stage }
    {
        matches!(self.stage, Stage::Shown(_))
    }

    /// It is of the item with these keys in the bucket whose name has this digest.
    pub fn is_of(&self, bucket: &Hash32, item: &Item) -> bool
        ensures { result ≡ is_of (bucket.now, (item.now.pk, item.now.sk)) self.now }
    {
        let own = &self.order.item;
        self.bucket
            .cmp(bucket)
            .then(own.pk.len().cmp(&item.pk.len()))
            .then(own.pk.cmp(&item.pk))
            .then(own.sk.cmp(&item.sk))
            .is_eq()
    }

    /// It is an open write of this item at this node.
    pub fn is_open_write_of(&self, node: u8, bucket: &Hash32, item: &Item) -> bool
        ensures { result ≡ is_open_write node (bucket.now, (item.now.pk, item.now.sk)) self.now }
    {
        is_write(&self.order.ask) && self.is_open() && self.node == node && self.is_of(bucket, item)
    }
}
