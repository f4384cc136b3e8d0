//! The sizes of messages, counted by hand: 64, and what is carried. A reference row has 42 bytes.
use blake2_hash::Hash32;
use block_bytes::Block;
use crdt_core::{Bool, Bytes, List, Memory};
use crdt_rows::{AnyRow, RefRow};
use object_schema::S3Schema;
use std::alloc::Global;
use std::test::Fail;
use wire_messages::{Message, Tag, size};

fn reference(id: u64) -> AnyRow {
    AnyRow::Ref(RefRow {
        hash: Hash32([0x11; 32]),
        id,
        deleted: Bool(false),
    })
}

fn rows(alloc: Global) -> Result<Message<AnyRow>, Memory> {
    let mut rows = List::new(alloc);
    rows.push(reference(5))?;
    rows.push(reference(6))?;
    let more = true;
    Ok(Message::Rows {
        request: 1,
        phase: 1,
        rows,
        more,
    })
}

fn store(alloc: Global) -> Result<Message<AnyRow>, Memory> {
    let mut rows = List::new(alloc);
    rows.push((Bytes::from_slice(alloc, b"12345")?, None))?;
    let block = Block::new(alloc, Bytes::from_slice(alloc, b"seven..")?)?;
    rows.push((Bytes::from_slice(alloc, b"123456")?, Some(block)))?;
    Ok(Message::Store {
        tag: Tag::Item { number: 1 },
        newest: 1,
        p: 0,
        rows,
    })
}

#[derive(Clone, Copy)]
enum Kind {
    Rows,
    Store,
    Stored,
}

fn measured(alloc: Global, kind: Kind) -> Result<u64, Memory> {
    match kind {
        Kind::Rows => size::<S3Schema>(&rows(alloc)?),
        Kind::Store => size::<S3Schema>(&store(alloc)?),
        Kind::Stored => size::<S3Schema>(&Message::Stored(Tag::Item { number: 1 })),
    }
}

#[test]
fn sixty_four_and_what_is_carried(rt: HostRuntime) -> Result<(), Fail> {
    for (kind, bytes) in [
        (Kind::Rows, 64 + 84),
        (Kind::Store, 64 + 18),
        (Kind::Stored, 64),
    ] {
        assert_eq!(rt; measured(rt.alloc(), kind)?, bytes);
    }
    Ok(())
}
