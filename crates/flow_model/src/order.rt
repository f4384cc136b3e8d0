//! What a client asks of the store.
use crdt_core::{Bytes, List};

/// A request of a client. Names of buckets are configured ones, keys are bytes; headers are names and values in the
/// order in which they are stored and answered.
#[derive(Drop)]
pub enum Order {
    /// Writes an object.
    Put {
        bucket: Bytes,
        key: Bytes,
        body: Bytes,
        headers: List<(Bytes, Bytes)>,
    },
    /// Writes an object of so many bytes, 3,072 at least, which come block by block once it has begun.
    Stream {
        bucket: Bytes,
        key: Bytes,
        length: u64,
        headers: List<(Bytes, Bytes)>,
    },
    /// Reads an object.
    Get {
        bucket: Bytes,
        key: Bytes,
    },
    /// Reads what is said of an object, without its bytes.
    Head {
        bucket: Bytes,
        key: Bytes,
    },
    /// Stores a delete marker, whether or not there is an object.
    Delete {
        bucket: Bytes,
        key: Bytes,
    },
    /// Reads an object and writes its bytes under another name, with these headers in place of the source's where
    /// they are there.
    Copy {
        from_bucket: Bytes,
        from_key: Bytes,
        bucket: Bytes,
        key: Bytes,
        headers: Option<List<(Bytes, Bytes)>>,
    },
    /// Reads the keys of a bucket that begin with a prefix.
    List {
        bucket: Bytes,
        prefix: Bytes,
    },
}
