//! Words that name an item.
ghost use Rattle.std.specs.Prelude.{IsTrue};
ghost use Rattle.row_codec.specs.Reads.{are_bytes};
ghost use Rattle.schedule_text.specs.Reads.{Reads};
ghost use Rattle.k2v_lines.specs.Words.{IsItem};

use crdt_core::Bytes;
use k2v_model::Item;
use layout_roles::is_bucket_name;
use schedule_text::{LineFault, object_key};
use std::alloc::Global;

// Bytes in hand are bytes.
fn bytes_in_range(bytes: &[u8])
    ensures { IsTrue (are_bytes bytes.now) }
{
    let _bytes = bytes;
}

/// The item that three words name: its bucket, its partition key and its sort key.
pub(crate) fn item(alloc: Global, bucket: &[u8], pk: &[u8], sk: &[u8]) -> Result<Item, LineFault>
    ensures { Reads (IsItem bucket.now pk.now sk.now) result }
{
    if !is_bucket_name(bucket) {
        return Err(LineFault::Outside);
    }
    bytes_in_range(pk);
    Ok(Item {
        bucket: Bytes::from_slice(alloc, bucket)?,
        pk: object_key(alloc, pk)?,
        sk: object_key(alloc, sk)?,
    })
}
