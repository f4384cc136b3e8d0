//! A request whose head was understood.
use crdt_core::Bytes;
use s3_model::Ask;

/// What is known of a request when its head was read: what it asks, and how it is to be answered.
#[derive(Drop)]
pub struct Request {
    pub ask: Ask,
    /// The place of the key that signed it; none where nobody need sign.
    pub who: Option<usize>,
    /// The SHA-256 of the body in lower-case hexadecimal, where it was signed.
    pub digest: Option<Bytes>,
    /// The path as it was sent.
    pub path: Bytes,
    /// Whether it is a HEAD, whose refusals have no body.
    pub is_head: bool,
    /// How many bytes its body has.
    pub length: u64,
    /// Whether the client waits for an interim answer before it sends the body.
    pub waits: bool,
    /// Whether the connection closes after the answer.
    pub closes: bool,
    /// When it was read, in milliseconds since 1970.
    pub time: u64,
}
