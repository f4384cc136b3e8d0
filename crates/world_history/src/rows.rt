//! The acknowledged writes of a history, by their keys and in the order of their acknowledgements.
ghost use Rattle.std.specs.Prelude.{◌≡◌, ◌≤◌, ◌<◌, length, slice_get, IsSorted, IfOk, true, false};
ghost use Rattle.std.specs.List.Sorted.{IsPartitionPoint};
ghost use Rattle.std.specs.List.{sum_by};
ghost use Rattle.std.specs.Ordering.{is_lt};
ghost use Rattle.world_history.specs.Table.{row_cmp, ack_at, IsTable, is_before, is_of, is_of_key, follows_key, is_listed_at, IsKeyEnd, one_if};
ghost use Rattle.crdt_core.specs.Outcomes.{OnlyWant};

use crate::finish::acknowledged;
use crate::index::Index;
use crdt_core::{Bytes, Memory};
use history_model::Record;
use std::alloc::Global;
use std::cmp::Ordering;

/// The key of a write, and the place of its acknowledgement.
#[derive(PartialEq, Eq, PartialOrd, Ord, Drop)]
pub struct Row {
    pub bucket: Bytes,
    pub key: Bytes,
    pub place: usize,
}

// The row of the write that began at this place, if one did and was acknowledged.
fn acknowledged_row(alloc: Global, index: &Index<'_>, place: usize) -> Result<Option<Row>, Memory>
    requires { place < length index.now.records.now }
    ensures told { IfOk result (λ row. row ≡ ack_at index.now.records.now place) }
    ensures want { OnlyWant result }
{
    match &index.records[place] {
        Record::Began {
            request,
            kind,
            bucket,
            key,
            ..
        } if kind.is_write() => match acknowledged(index, place, *request) {
            Some((end, _)) => Ok(Some(Row {
                bucket: Bytes::from_slice(alloc, bucket.as_slice())?,
                key: Bytes::from_slice(alloc, key.as_slice())?,
                place: end,
            })),
            None => Ok(None),
        },
        _ => Ok(None),
    }
}

// The rows of all acknowledged writes, in order.
fn all_rows(alloc: Global, index: &Index<'_>) -> Result<Vec<Row>, Memory>
    ensures told { IfOk result (λ rows. IsTable index.now.records.now rows.items) }
    ensures want { OnlyWant result }
{
    let mut rows = Vec::new(alloc);
    for place in 0..index.records.len() {
        if let Some(row) = acknowledged_row(alloc, index, place)? {
            match rows.push(row) {
                Ok(()) => {}
                Err(_) => return Err(Memory::Want),
            }
        }
    }
    rows.sort_unstable();
    Ok(rows)
}

// Whether a row stands before those of this key at this place or later.
fn is_before(row: &Row, bucket: &Bytes, key: &Bytes, place: usize) -> bool
    ensures { result ≡ is_before bucket.now key.now place row.now }
{
    match row.bucket.cmp(bucket) {
        Ordering::Less => true,
        Ordering::Greater => false,
        Ordering::Equal => match row.key.cmp(key) {
            Ordering::Less => true,
            Ordering::Greater => false,
            Ordering::Equal => row.place < place,
        },
    }
}

/// How many rows stand before those of this key at this place or later.
pub fn before(rows: &[Row], bucket: &Bytes, key: &Bytes, place: usize) -> usize
    requires { IsSorted row_cmp rows.now }
    ensures bound { result ≤ length rows.now }
    ensures count { result ≡ sum_by (λ r. one_if (is_before bucket.now key.now place r)) rows.now }
    ensures point { IsPartitionPoint (λ r. is_before bucket.now key.now place r ≡ true) (λ r. is_before bucket.now key.now place r ≡ false) rows.now result }
{
    rows.partition_point(
        |row: &Row| -> bool
            ensures { result ≡ is_before bucket.entry.now key.entry.now place row.now }
        { is_before(row, bucket, key, place) },
    )
}

/// How many rows there are of this key before this place.
pub fn count(rows: &[Row], bucket: &Bytes, key: &Bytes, place: usize) -> usize
    requires { IsSorted row_cmp rows.now }
    ensures { result ≡ sum_by (λ r. one_if (is_of bucket.now key.now place r)) rows.now }
{
    let high = before(rows, bucket, key, place);
    let low = before(rows, bucket, key, 0);
    high - low
}

// Whether a row is one of this key.
fn is_of_key(row: &Row, bucket: &Bytes, key: &Bytes) -> bool
    ensures { result ≡ is_of_key bucket.now key.now row.now }
{
    row.bucket == *bucket && row.key == *key
}

/// Whether there is a row before place k, and it is one of this key.
pub fn follows_key(rows: &[Row], k: usize, bucket: &Bytes, key: &Bytes) -> bool
    requires { k ≤ length rows.now }
    ensures { result ≡ follows_key rows.now k bucket.now key.now }
{
    k > 0 && is_of_key(&rows[k - 1], bucket, key)
}

/// Whether there is a row at k, and a list of the bucket with this prefix names its key.
pub fn is_listed_at(rows: &[Row], k: usize, bucket: &Bytes, prefix: &Bytes) -> bool
    ensures { result ≡ is_listed_at bucket.now prefix.now (slice_get rows.now k) }
{
    match rows.get(k) {
        Some(row) => row.bucket == *bucket && row.key.as_slice().starts_with(prefix.as_slice()),
        None => false,
    }
}

/// An index with the rows of the acknowledged writes.
#[derive(Drop)]
pub struct Table<'a> {
    pub index: Index<'a>,
    pub rows: Vec<Row>,
    pub ghost made: { IsTable index.records.now rows.items },
}

impl<'a> Table<'a> {
    pub fn new(alloc: Global, records: &'a [Record]) -> Result<Table<'a>, Memory>
        ensures told { IfOk result (λ table. table.index.records.now ≡ records.now) }
        ensures want { OnlyWant result }
    {
        let index = Index::new(alloc, records)?;
        let rows = all_rows(alloc, &index)?;
        Ok(Table { index, rows })
    }

    /// The end of the rows of the key that the row at k has.
    pub fn key_end(&self, k: usize) -> usize
        requires { k < length self.now.rows.items }
        ensures further { k < result }
        ensures bound { result ≤ length self.now.rows.items }
        ensures end { IsKeyEnd self.now.rows.items k (length self.now.index.records.now) result }
    {
        let rows = self.rows.as_slice();
        let row = &rows[k];
        before(rows, &row.bucket, &row.key, self.index.records.len())
    }
}
