//! An answer to a range phase.
use crdt_core::List;

/// What a node answers to a range: rows in ascending order of keys, and whether it has more rows after them.
#[derive(Drop)]
pub struct RangeAnswer<R> {
    pub rows: List<R>,
    pub more: bool,
}
