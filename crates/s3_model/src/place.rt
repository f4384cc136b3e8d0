//! What the path of a request names.
use crdt_core::Bytes;

/// What the path of a request names, decoded.
#[derive(Debug, Drop, PartialEq, Eq)]
pub enum Place {
    /// `/`: all buckets.
    Root,
    /// `/BUCKET` or `/BUCKET/`.
    Bucket(Bytes),
    /// `/BUCKET/KEY`: the key is all past the second slash.
    Object(Bytes, Bytes),
}
