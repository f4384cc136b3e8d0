//! In how many zones the three nodes of a partition have to be.

/// In how many different zones the three nodes of a partition lie.
#[derive(Clone, Copy, Debug, PartialEq, Eq)]
pub enum Redundancy {
    /// In at least this many, 1 to 3.
    AtLeast(u8),
    /// In as many as there are zones with storage nodes, 3 at most.
    Maximum,
}
