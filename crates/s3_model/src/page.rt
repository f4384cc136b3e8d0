//! Lists of a bucket's keys, page by page.
use crdt_core::{Bytes, List};
use crdt_rows::{Meta, Version};

/// Where a list starts.
#[derive(Debug, Drop, PartialEq, Eq)]
pub enum After {
    /// Past this key; the empty key is before all others.
    Key(Bytes),
    /// Past all keys with this prefix.
    Prefix(Bytes),
}

/// Which keys of a bucket are listed.
#[derive(Debug, Drop, PartialEq, Eq)]
pub struct ListAsk {
    /// Only keys with this prefix.
    pub prefix: Bytes,
    /// Keys with this past the prefix are shown as one common prefix. An empty one is none.
    pub delimiter: Bytes,
    pub after: After,
    /// How many entries a page has at most: no more than 1,000.
    pub max: u32,
}

/// What a list shows in one place.
#[derive(Debug, Drop, PartialEq, Eq)]
pub enum Entry {
    /// A key, with the version and the metadata of its object.
    Object(Bytes, Version, Meta),
    /// The common prefix of some keys, up to and with the delimiter.
    Common(Bytes),
}

/// The entries of a list that are shown together.
#[derive(Debug, Drop, PartialEq, Eq)]
pub struct Page {
    pub entries: List<Entry>,
    /// Whether the list goes on past them.
    pub truncated: bool,
}
