//! What is answered.
use crdt_core::List;
use layout_flow::Vertex;
use layout_roles::Assignment;

/// The assignment that moves the fewest copies, and what shows it.
#[derive(Debug, Drop)]
pub struct Moved {
    pub sets: Assignment,
    /// How many pairs of partition and node the old assignment hasn't.
    pub moves: u32,
    /// For each vertex but the source, whose potential is 0, its potential, in order: the partitions with up, down and
    /// their zones, the nodes, the sink. Their bound is the number of moves.
    pub potentials: List<(Vertex, i64)>,
}
