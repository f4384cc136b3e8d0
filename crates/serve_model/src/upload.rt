//! An object whose bytes come block by block.
use crdt_core::{Bytes, List};

/// An object whose bytes come block by block: its name, how many bytes are announced, and the headers that are stored beside
/// them.
#[derive(Drop)]
pub struct Upload {
    pub bucket: Bytes,
    pub key: Bytes,
    pub length: u64,
    pub headers: List<(Bytes, Bytes)>,
}
