//! What a request is in the middle of, and how it goes on.
use block_bytes::Block;
use crdt_core::{Bytes, List};
use crdt_rows::{AnyRow, BlockRef, Meta, ObjectRow, Version};
use object_bytes::{ObjectBytes, Pieces};
use shared_value::Shared;
use wire_messages::Phase;

/// An object's bucket and key.
#[derive(Drop)]
pub struct Name {
    /// The bucket's name, with the digest by which rows know the bucket: it is taken once.
    pub bucket: Block,
    pub key: Bytes,
}

/// The bytes of an object, and the headers that are stored beside them.
#[derive(Drop)]
pub struct Content {
    pub body: ObjectBytes,
    pub headers: List<(Bytes, Bytes)>,
}

/// The bytes of an object that come block by block: how many there are in all, and the headers that are stored beside them.
#[derive(Drop)]
pub struct Coming {
    pub length: u64,
    pub headers: List<(Bytes, Bytes)>,
}

/// What a write makes of its object.
#[derive(Drop)]
pub enum Wish {
    /// It is to hold these bytes.
    Content(Content),
    /// It is to hold bytes that are still to come.
    Stream(Coming),
    /// It is to be deleted: a marker stands for it.
    Marker,
}

/// What an object is read for.
#[derive(Drop)]
pub enum Aim {
    /// To answer with it.
    Get,
    /// To answer with what is said of it.
    Head,
    /// To write its bytes under this name, with these headers in place of its own where they are there.
    Copy {
        name: Name,
        headers: Option<List<(Bytes, Bytes)>>,
    },
}

/// What a request waits for.
#[derive(Drop)]
pub enum Stage {
    /// A write asks for the row of the object that it writes, to draw its version.
    Drawing {
        name: Name,
        wish: Wish,
    },
    /// An upload was announced, and its blocks are stored one after the other: `stored` of them so far, the one on
    /// its way included.
    Uploading {
        name: Name,
        version: Version,
        content: Content,
        stored: u64,
    },
    /// A streamed upload was announced, and what has come of its bytes is stored, the last block or the announcement being
    /// on its way.
    Receiving {
        name: Name,
        version: Version,
        coming: Coming,
        received: Pieces,
    },
    /// All that has come is stored: the upload waits for its next block, or, where all bytes have come, to be told whether
    /// it is kept.
    Needing {
        name: Name,
        version: Version,
        coming: Coming,
        received: Pieces,
    },
    /// It is stored that a streamed upload was given up.
    Aborting {
        version: Version,
    },
    /// The complete version is stored, with this meta; none for a delete marker.
    Completing {
        version: Version,
        meta: Option<Meta>,
    },
    /// A read asks for the object's row.
    Looking {
        name: Name,
        aim: Aim,
    },
    /// The object is kept in blocks: the read asks for the version's row, which names them.
    Opening {
        version: Version,
        meta: Meta,
        aim: Aim,
    },
    /// The read asks for a block. `body` has the bytes of the blocks before it, `left` are the blocks after it.
    Gathering {
        version: Version,
        meta: Meta,
        aim: Aim,
        left: List<BlockRef>,
        body: Pieces,
    },
    /// A list asks for a window of rows. `rows` are those to be shown of the windows before it.
    Listing {
        bucket: Block,
        prefix: Bytes,
        rows: List<Shared<ObjectRow>>,
    },
}

/// A request between its phases: its number, by which its version is identified, the size of blocks in bytes, which
/// isn't 0, and what it waits for.
#[derive(Drop)]
pub struct Flow {
    pub id: u64,
    pub block: u32,
    pub stage: Stage,
}

/// What a request does when its phase has ended.
#[derive(Drop)]
pub enum FlowStep {
    /// It goes on with this phase.
    More(Flow, Phase<AnyRow>),
    /// It waits for its client: for a block of so many bytes, or, where these are 0, to be told whether it is kept.
    Need(Flow, u64),
    /// It goes on waiting: the version's row is absent, or neither deleted nor whole, so that nothing comes any more; or
    /// the end was not one of its phase.
    Wait(Flow),
    /// It is done.
    End(FlowEnd),
}

/// With what a request ended.
#[derive(Drop)]
pub enum FlowEnd {
    /// A write stored this version, with this meta; none after a delete.
    Stored {
        version: Version,
        meta: Option<Meta>,
    },
    /// A get or head found this version; after a head without its bytes.
    Found {
        version: Version,
        meta: Meta,
        body: Pieces,
    },
    /// A get, head or copy found no object.
    Nothing,
    /// A list: the rows of the keys whose newest complete version is no delete marker, in order of keys.
    Listed(List<Shared<ObjectRow>>),
    /// A get or copy found its version's row deleted; the version's identifier.
    Superseded(u64),
    /// A streamed upload was given up.
    Aborted,
}
