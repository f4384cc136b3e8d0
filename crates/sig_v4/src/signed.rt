//! A request that a key signed.
use crdt_core::Bytes;

/// Which key signed a request, and which body it signed.
#[derive(Debug, Drop)]
pub struct Signed {
    /// The place of the key.
    pub place: usize,
    /// The SHA-256 of the body in lower-case hexadecimal; none where the body isn't signed.
    pub digest: Option<Bytes>,
}
