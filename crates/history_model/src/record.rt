//! What a history consists of.
ghost use Rattle.std.specs.Prelude.{◌≡◌};
ghost use Rattle.history_model.specs.Record.{request_of, is_read, is_write, is_list, is_delete, is_source};

use crdt_core::{Bytes, List};
use crdt_rows::Version;

/// What a request does.
#[derive(Clone, Copy, Debug, PartialEq, Eq)]
pub enum Kind {
    Put,
    Get,
    Head,
    Delete,
    Copy,
    List,
}

/// With what a request finished.
#[derive(Debug, Drop, PartialEq, Eq)]
pub enum Answer {
    /// A write's own version, or the version that a get or head shows.
    Version(Version),
    /// A get or head without an object, or a copy without a source.
    None,
    /// The keys that a list shows, each with its version.
    Listed(List<(Bytes, Version)>),
}

/// Why a request ended without an answer.
#[derive(Debug, Drop, PartialEq, Eq)]
pub enum Cause {
    Expired,
    Restarted,
    /// The client gave its upload up, and that it is aborted was stored.
    Aborted,
    /// With the identifier of the deleted version row.
    Superseded(u64),
}

#[derive(Debug, Drop, PartialEq, Eq)]
pub enum Record {
    /// A request with this number began at a node. The key of a list is its prefix, that of a copy its
    /// destination.
    Began {
        request: u64,
        node: u8,
        kind: Kind,
        bucket: Bytes,
        key: Bytes,
    },
    Finished {
        request: u64,
        answer: Answer,
    },
    Ended {
        request: u64,
        cause: Cause,
    },
}

/// Records in the order in which they happened.
#[derive(Debug, Drop, PartialEq, Eq)]
pub struct History(pub List<Record>);

impl Kind {
    /// Whether it shows what is there and changes nothing.
    pub fn is_read(self) -> bool
        ensures { result ≡ is_read self }
    {
        match self {
            Kind::Get | Kind::Head | Kind::List => true,
            Kind::Put | Kind::Delete | Kind::Copy => false,
        }
    }

    /// Whether it makes a version.
    pub fn is_write(self) -> bool
        ensures { result ≡ is_write self }
    {
        match self {
            Kind::Put | Kind::Delete | Kind::Copy => true,
            Kind::Get | Kind::Head | Kind::List => false,
        }
    }

    /// Whether it shows keys of a bucket.
    pub fn is_list(self) -> bool
        ensures { result ≡ is_list self }
    {
        match self {
            Kind::List => true,
            Kind::Put | Kind::Get | Kind::Head | Kind::Delete | Kind::Copy => false,
        }
    }

    /// Whether it makes a delete marker.
    pub fn is_delete(self) -> bool
        ensures { result ≡ is_delete self }
    {
        match self {
            Kind::Delete => true,
            Kind::Put | Kind::Copy | Kind::Get | Kind::Head | Kind::List => false,
        }
    }

    /// Whether it makes versions that a read can show.
    pub fn is_source(self) -> bool
        ensures { result ≡ is_source self }
    {
        match self {
            Kind::Put | Kind::Copy => true,
            Kind::Delete | Kind::Get | Kind::Head | Kind::List => false,
        }
    }
}

impl Record {
    /// The number of the request that it speaks of.
    pub fn request(&self) -> u64
        ensures { result ≡ request_of self.now }
    {
        match self {
            Record::Began { request, .. } => *request,
            Record::Finished { request, .. } => *request,
            Record::Ended { request, .. } => *request,
        }
    }
}
