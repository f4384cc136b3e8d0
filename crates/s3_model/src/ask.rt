//! What a request asks.
use crate::page::ListAsk;
use crdt_core::{Bytes, List};

/// Which bytes of an object are asked (RFC 9110, section 14.1.2). Places are counted from 0.
#[derive(Debug, Clone, Copy, PartialEq, Eq)]
pub enum Range {
    /// The bytes from one place up to and with another, which isn't before it.
    Between(u64, u64),
    /// The bytes from a place on.
    From(u64),
    /// The last bytes, so many.
    Last(u64),
}

/// What a request asks: an operation of the S3 API, its bucket and key decoded. The headers are names in lower case
/// with their values, as an object's are stored.
#[derive(Debug, Drop, PartialEq, Eq)]
pub enum Ask {
    ListBuckets,
    HeadBucket(Bytes),
    /// ListObjectsV2.
    List {
        bucket: Bytes,
        ask: ListAsk,
        /// The parameters as they were given, decoded.
        delimiter: Option<Bytes>,
        /// Whether keys are to be percent-encoded in the answer.
        url: bool,
        token: Option<Bytes>,
        start_after: Option<Bytes>,
    },
    /// ListObjectsV2 of this bucket, with a parameter that is refused.
    BadList(Bytes),
    Get {
        bucket: Bytes,
        key: Bytes,
        range: Option<Range>,
    },
    Head {
        bucket: Bytes,
        key: Bytes,
        range: Option<Range>,
    },
    Delete {
        bucket: Bytes,
        key: Bytes,
    },
    Put {
        bucket: Bytes,
        key: Bytes,
        /// How many bytes the body has.
        length: u64,
        /// The value of Content-MD5 as it was sent.
        md5: Option<Bytes>,
        headers: List<(Bytes, Bytes)>,
    },
    Copy {
        /// The value of x-amz-copy-source as it was sent.
        from: Bytes,
        bucket: Bytes,
        key: Bytes,
        /// Headers in the place of the source's.
        headers: Option<List<(Bytes, Bytes)>>,
    },
}
