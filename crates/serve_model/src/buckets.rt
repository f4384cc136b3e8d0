//! The buckets of a server.
use crdt_core::{Bytes, List};
use layout_text::Access;

/// The buckets of a server, and who may use them.
#[derive(Drop)]
pub struct Buckets {
    /// Their names, in order.
    pub names: List<Bytes>,
    /// The keys by which requests must be signed. Where there is none, nobody need sign.
    pub access: Access,
}
