//! The vertices of the flow network.

/// A vertex of the flow network. Partitions are 0 to 255; a zone's number is its place in the order of
/// the names of the zones that have storage nodes.
#[derive(Clone, Copy, Debug, PartialEq, Eq)]
pub enum Vertex {
    Source,
    /// Where a partition's copies in different zones start.
    Up(u8),
    /// Where a partition's further copies start.
    Down(u8),
    /// A partition, then a zone.
    Zone(u8, u8),
    Node(u8),
    Sink,
}
