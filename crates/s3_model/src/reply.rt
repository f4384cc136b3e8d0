//! What a request is answered with.
use crate::fault::S3Fault;
use crate::page::Page;
use crdt_core::{Bytes, List};
use crdt_rows::{Meta, Version};

/// What an ask is answered with.
#[derive(Debug, Drop, PartialEq, Eq)]
pub enum Reply {
    /// The names of all buckets, to ListBuckets.
    Buckets(List<Bytes>),
    /// Nothing, to HeadBucket of a bucket that is there.
    Empty,
    /// An object's version, metadata and bytes, which are empty to HeadObject.
    Found {
        version: Version,
        meta: Meta,
        body: Bytes,
    },
    /// The version and the MD5 digest that PutObject wrote.
    Stored(Version, [u8; 16]),
    Deleted,
    /// The version and the MD5 digest that CopyObject wrote.
    Copied(Version, [u8; 16]),
    /// To ListObjectsV2.
    Page(Page),
    Refused {
        fault: S3Fault,
        /// The path of the request as it was sent, empty where its head wasn't read.
        path: Bytes,
        /// Whether the request was a HEAD, whose answers have no body.
        head: bool,
    },
}
