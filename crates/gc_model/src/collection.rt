//! One collection.
use crdt_core::{Bytes, List};
use numbered_list::Numbered;

/// A row whose delete marker is to be forgotten, and which nodes have confirmed that so far.
#[derive(Drop)]
pub struct Collection {
    /// Counted from 1, in the order in which collections began.
    pub number: u64,
    /// The row's key in its table.
    pub key: Bytes,
    /// The round that is open, 1 or 2.
    pub round: u8,
    /// The row's bytes when the collection began.
    pub row: Bytes,
    /// The own node, which confirms each round as it begins.
    pub own: u8,
    /// The own node's newest layout version when the collection began.
    pub newest: u32,
    /// The own clock when the 16th node confirmed round 1, in milliseconds.
    pub ready: Option<u64>,
    /// The nodes that confirmed round 1, each once, with the newest layout version that it gave first.
    pub first: List<(u8, u32)>,
    /// The nodes that have confirmed round 2, each once.
    pub again: List<u8>,
}

/// Where an answer leads.
#[derive(Clone, Copy, Debug, PartialEq, Eq)]
pub enum GcEnd {
    /// Other nodes are waited for, or the answer says nothing.
    Wait,
    /// A node's newest layout version changed between its two answers: the collection is closed.
    Closed,
    /// All 16 nodes have confirmed the open round.
    Complete,
}

impl Numbered for Collection {
    ghost use Rattle.gc_model.specs.Collecting.{number_of};

    ghost number = { number_of };

    fn number(&self) -> u64 {
        self.number
    }
}
