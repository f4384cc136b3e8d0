//! What a schema is.
ghost use Rattle.std.specs.Prelude.{◌≡◌, ◌≤◌, ◌⊎◌, ◌^◌, ℕ, List, IsTrue, IfOk, IfErr, OnOk, OnErr, None, Some, length, option_map};
ghost use Rattle.crdt_core.specs.Outcomes.{OnlyWant, WantOr};
ghost use Rattle.crdt_core.specs.declared.memory.Memory.TheVariants.{Want};
ghost use Rattle.table_schema.specs.Words.{Words, partition_of};
ghost use Rattle.table_schema.specs.Laws.{Laws};
ghost use Rattle.table_schema.specs.declared.schema.RowFault.TheVariants.{NotARow, Memory as WantsMemory};

use blake2_hash::Hash32;
use crdt_core::{Bytes, Crdt, Memory};
use std::alloc::Global;

/// Why bytes gave no row.
#[derive(Debug, Drop, PartialEq, Eq)]
pub enum RowFault {
    /// No row has these bytes.
    NotARow,
    /// There was not enough memory for the row.
    Memory,
}

/// The rows of a cluster's tables. Of every row in hand the calls tell that it is proper: what its table, position
/// and key are made of fits its types.
pub trait Schema {
    type Row: Crdt;

    ghost words: { Words Self.Row };

    /// 1, 2 or 3.
    fn table(row: &Self::Row) -> u8
        ensures is { result ≡ words.table row.now }
        ensures proper { IsTrue (words.is_proper row.now) };

    /// Where the row is kept. Its first byte is the row's partition.
    fn position(row: &Self::Row) -> Hash32
        ensures is { result.0 ≡ words.position row.now }
        ensures proper { IsTrue (words.is_proper row.now) };

    /// The row's key in its table.
    fn key(alloc: Global, row: &Self::Row) -> Result<Bytes, Memory>
        ensures is { IfOk result (λ key. key ≡ words.key row.now) }
        ensures proper { IsTrue (words.is_proper row.now) }
        ensures want { OnlyWant result };

    /// The row says of itself that it was deleted.
    fn tombstone(row: &Self::Row) -> bool
        ensures { result ≡ words.is_tombstone row.now };

    /// The name of the block that the row needs, where it needs one.
    fn live_block(row: &Self::Row) -> Option<Hash32>
        ensures { option_map (λ hash. hash.0) result ≡ words.live_block row.now };

    /// Timestamp and identifier of the one version of a row whose only version is a delete marker.
    fn marker(row: &Self::Row) -> Option<(u64, u64)>
        ensures { result ≡ words.marker row.now };

    /// The rows that a row's change calls for, from what it was to what it is after a merge, in order.
    fn triggers(alloc: Global, old: &Self::Row, new: &Self::Row) -> Result<Vec<Self::Row>, Memory>
        ensures are { IfOk result (λ rows. rows.items ≡ words.triggered old.now new.now) }
        ensures want { OnlyWant result };

    /// The row's bytes. `Full` where a length or a count of the row is too great to be written.
    fn row_bytes(alloc: Global, row: &Self::Row) -> Result<Bytes, Memory>
        ensures are { IfOk result (λ bytes. words.spelling row.now ≡ Some bytes) }
        ensures causes { WantOr result (words.spelling row.now ≡ None) };

    /// How many bytes the row has; none is written. `Full` where a length or a count of the row is too great to be
    /// written, and `Want` where no memory has room for so many bytes.
    fn row_length(row: &Self::Row) -> Result<usize, Memory>
        ensures is { IfOk result (λ n. option_map length (words.spelling row.now) ≡ Some n) }
        ensures want { IfErr result (λ e. e ≡ Want → (bytes : List ℕ) →
            words.spelling row.now ≡ Some bytes → 2 ^ 64 ≤ length bytes) }
        ensures causes { WantOr result (words.spelling row.now ≡ None) };

    /// The row that has these bytes.
    fn row_from(alloc: Global, bytes: &[u8]) -> Result<Self::Row, RowFault>
        ensures is { IfOk result (λ r. words.read bytes.now ≡ Some r) }
        ensures causes { IfErr result (λ e. (e ≡ WantsMemory) ⊎
            ((e ≡ NotARow) × (words.read bytes.now ≡ None))) };

    ghost laws: { Laws Self.Row.join words };
}

/// The partition that a row lies in: the first byte of its position.
pub fn partition<S: Schema>(row: &S::Row) -> u8
    ensures is { result ≡ partition_of S.words row.now }
    ensures proper { IsTrue (S.words.is_proper row.now) }
{
    S::position(row).0[0]
}
