//! What a node shows of itself.
use blake2_hash::Hash32;

/// How many rows and blocks a node has, and the hash over the roots of its tables.
#[derive(Debug, PartialEq, Eq)]
pub struct NodeLine {
    pub node: u8,
    pub rows: u64,
    pub blocks: u64,
    pub top: Hash32,
}
