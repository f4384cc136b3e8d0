//! The events of a schedule, and what each answers.
use cluster_machine::Words;
use cluster_machine::applied::{Line, Refusal};
use crdt_core::{Bytes, List};
use layout_roles::{Kind, Redundancy, Zone};

/// A line of a schedule. Nodes are 1 to 16.
#[derive(Drop)]
pub enum Event {
    /// Nodes 1, 2 and 3 get the first layout version.
    Trio,
    /// Sets the size of blocks, in bytes, for later requests.
    Block(u32),
    /// Adds a bucket of this name.
    Bucket(Bytes),
    /// Stages a node's role, or that it has none.
    Role {
        node: u8,
        role: Option<(Zone, Kind)>,
    },
    /// Stages in how many zones the three copies have to lie.
    Redundancy(Redundancy),
    /// Computes a layout from what is staged, and applies it at a node.
    Apply(u8),
    /// Adds milliseconds to the time.
    Tick(u64),
    /// Sets by how many milliseconds a node's clock is ahead of the time.
    Skew {
        node: u8,
        ms: u64,
    },
    /// Begins to write an object of `size` bytes at a node: byte i, from 0, is `fill` + i modulo 251.
    Put {
        node: u8,
        bucket: Bytes,
        key: Bytes,
        size: u32,
        fill: u8,
    },
    /// Begins to read an object at a node.
    Get {
        node: u8,
        bucket: Bytes,
        key: Bytes,
    },
    /// Begins to read what is said of an object, without its bytes.
    Head {
        node: u8,
        bucket: Bytes,
        key: Bytes,
    },
    /// Begins to store a delete marker.
    Delete {
        node: u8,
        bucket: Bytes,
        key: Bytes,
    },
    /// Begins to write an object's bytes under another name.
    Copy {
        node: u8,
        from_bucket: Bytes,
        from_key: Bytes,
        bucket: Bytes,
        key: Bytes,
    },
    /// Begins to read the keys of a bucket that begin with a prefix.
    List {
        node: u8,
        bucket: Bytes,
        prefix: Bytes,
    },
    /// Delivers the message with this number, any number of times.
    Deliver(u64),
    /// Loses the message with this number: it can't be delivered any more.
    Lose(u64),
    /// Delivers up to this many times the least message that was neither delivered nor lost.
    Drain(u32),
    /// Ends a request that is open.
    Expire(u64),
    /// A node loses what it keeps in memory alone: its requests, its round, and who confirmed its outbox.
    Restart(u8),
    /// A node sends its view to another.
    Gossip {
        from: u8,
        to: u8,
    },
    /// A node raises its ack.
    Ack(u8),
    /// A node begins a round, or sends again what nobody confirmed in the one that is open.
    Sync(u8),
    /// A node raises its sync-ack.
    SyncAck(u8),
    /// A node drops the layout versions that nobody needs.
    Clean(u8),
    /// A node sends its outbox, and deletes the blocks that are due.
    Work(u8),
    /// A node sends its rows to those that share their partitions with it.
    Repair(u8),
    /// A node begins collections of old delete markers, goes on with those that are open, and closes those whose row or
    /// whose layout has changed.
    Collect(u8),
}

/// An event and the line of the schedule that spells it, counted from 1.
#[derive(Drop)]
pub struct Numbered {
    pub line: u64,
    pub event: Event,
}

/// What an event answers: why it was refused, or its words, and what happened.
#[derive(Drop)]
pub struct Told {
    pub refused: Option<Refusal>,
    pub words: Words,
    pub lines: List<Line>,
}
