//! A cut of a flow network.
use crate::vertex::Vertex;
use crdt_core::List;

/// A cut of the network for a partition size.
#[derive(Debug, Drop)]
pub struct Cut {
    /// The partition size in bytes.
    pub size: u64,
    /// The capacities of the edges that leave the side, added up.
    pub weight: u32,
    /// The vertices on the source's side, in order: the source, then by partitions, then the nodes.
    pub side: List<Vertex>,
}
