//! What a merge tells.
use crdt_core::List;

/// What the merge of one row into a table changed: the rows that it calls for, in order, and whether the row at
/// its table and key needed a block before, and needs one after.
#[derive(Debug, Drop)]
pub struct Change<R> {
    pub triggered: List<R>,
    pub was_live: bool,
    pub is_live: bool,
}
