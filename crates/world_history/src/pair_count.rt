//! How much there is to check in a history.
ghost use Rattle.std.specs.Prelude.{◌≡◌, ◌<◌, ◌-◌, ◌^◌, ◌≤◌, length, min, IfOk};
ghost use Rattle.crdt_core.specs.Outcomes.{OnlyWant};
ghost use Rattle.history_model.specs.Pairs.{is_owed, count_below, pair_count};
ghost use Rattle.std.specs.List.{sum_by};
ghost use Rattle.world_history.specs.Checks.{owed};
ghost use Rattle.world_history.specs.Table.{one_if, is_listed_before};

use crate::finish::finish;
use crate::rows::{Table, before, count, is_listed_at};
use crdt_core::{Bytes, Memory};
use history_model::{History, Kind, Record};
use std::alloc::Global;

// How many writes of keys with a prefix were acknowledged before place i, key by key.
fn writes_under(table: &Table<'_>, i: usize, bucket: &Bytes, prefix: &Bytes) -> usize
    requires { i ≤ length table.now.index.records.now }
    ensures { result ≡ sum_by (λ r. one_if (is_listed_before bucket.now prefix.now i r)) table.now.rows.items }
{
    let rows = table.rows.as_slice();
    let mut count = 0;
    let mut k = before(rows, bucket, prefix, 0);
    while is_listed_at(rows, k, bucket, prefix) {
        count += before(rows, bucket, &rows[k].key, i).saturating_sub(k);
        k = table.key_end(k);
    }
    count
}

// How many writes of keys that a read names were acknowledged before place i.
fn owed_to(table: &Table<'_>, i: usize, kind: Kind, bucket: &Bytes, own: &Bytes) -> usize
    requires { i ≤ length table.now.index.records.now }
    ensures { result ≡ count_below (is_owed table.now.index.records.now i kind bucket.now own.now) i }
{
    if kind.is_list() {
        return writes_under(table, i, bucket, own);
    }
    count(table.rows.as_slice(), bucket, own, i)
}

// How many pairs there are whose read began at place i.
fn pairs_at(table: &Table<'_>, i: usize) -> usize
    requires { i < length table.now.index.records.now }
    ensures { result ≡ owed table.now.index.records.now i }
{
    match &table.index.records[i] {
        Record::Began {
            request,
            kind,
            bucket,
            key,
            ..
        } if kind.is_read() && finish(&table.index, i, *request).is_some() => {
            owed_to(table, i, *kind, bucket, key)
        }
        _ => 0,
    }
}

/// How many pairs there are: 2^64 - 1 where there are more.
pub fn pairs_of(table: &Table<'_>) -> u64
    ensures { result ≡ min (pair_count table.now.index.records.now) (2 ^ 64 - 1) }
{
    let mut total = 0u64;
    for i in 0..table.index.records.len() {
        total = total.saturating_add(pairs_at(table, i) as u64);
    }
    total
}

/// How many pairs there are of a finished read and a write, acknowledged before that read began, of a key that
/// it names: 2^64 - 1 where there are more.
pub fn pairs(alloc: Global, h: &History) -> Result<u64, Memory>
    ensures counted { IfOk result (λ n. n ≡ min (pair_count h.now.0) (2 ^ 64 - 1)) }
    ensures want { OnlyWant result }
{
    let table = Table::new(alloc, h.0.as_slice())?;
    Ok(pairs_of(&table))
}
