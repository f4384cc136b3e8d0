//! What a client asks of items.
ghost use Rattle.std.specs.Prelude.{IsTrue};
ghost use Rattle.row_codec.specs.Reads.{are_bytes};
ghost use Rattle.k2v_rows.specs.Later.{is_short};

use crdt_core::Bytes;
use k2v_rows::K2vValue;

/// What names an item.
#[derive(Drop)]
pub struct Item {
    /// The bucket's name.
    pub bucket: Bytes,
    /// The partition key, of fewer than 2^32 bytes.
    pub pk: Bytes,
    /// The sort key.
    pub sk: Bytes,
    /// 4 bytes say how long the partition key is.
    pub ghost short: { IsTrue (is_short pk) },
    /// Its elements are bytes. So each item's row has a place.
    pub ghost bytes: { IsTrue (are_bytes pk) },
}

/// What a request does with its item.
#[derive(Drop)]
pub enum Ask {
    /// Writes a value, or that there is none, in the place of all that the finished read with the number `token` showed;
    /// with 0 it replaces nothing.
    Write { value: K2vValue, token: u64 },
    /// Reads what stands.
    Read,
}

/// A request of a client.
#[derive(Drop)]
pub struct Order {
    pub item: Item,
    pub ask: Ask,
}
