//! What happened in a run over items, one line each, and why a request is refused.
use cluster_machine::applied::{Line, Refusal};
use crdt_core::List;

/// A value that a read shows.
#[derive(Debug, Drop)]
pub struct ShownValue {
    /// The node at which it was written.
    pub node: u8,
    /// The number of the request that wrote it.
    pub time: u64,
    /// How many bytes it has.
    pub size: u64,
    /// Their MD5.
    pub md5: [u8; 16],
}

/// A line of the transcript, without its text.
#[derive(Drop)]
pub enum ItemLine {
    /// A line of the cluster.
    Cluster(Line),
    /// A write finished that began at this node: a value was stored, or that there is none.
    WriteDone {
        request: u64,
        is_deletion: bool,
        node: u8,
    },
    /// A read finished: the values that it shows, by node and number.
    ReadDone {
        request: u64,
        values: List<ShownValue>,
    },
}

/// Why an event is refused.
#[derive(Drop)]
pub enum ItemRefusal {
    /// As a step of the cluster is, or since no bucket has the name.
    Cluster(Refusal),
    /// No finished read of the item has this number.
    NoSuchToken(u64),
    /// The write with this number, of the same item at the same node, is open.
    Busy(u64),
}
