//! What a head says.
use crdt_core::{Bytes, List};

/// The head of a request: its request line and its headers.
#[derive(Debug, Drop)]
pub struct Head {
    pub method: Bytes,
    pub target: Bytes,
    /// The minor version: 1 for HTTP/1.1.
    pub minor: u8,
    /// Names and values in order, without the white space around a value.
    pub headers: List<(Bytes, Bytes)>,
}
