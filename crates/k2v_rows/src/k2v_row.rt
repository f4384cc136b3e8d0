//! The writes of one item.
ghost use Rattle.std.specs.Prelude.{◌≡◌, IsTrue, nat_lt, OnOk, OnErr, IfOk};
ghost use Rattle.std.specs.List.{list_all};
ghost use Rattle.crdt_core.specs.Outcomes.{OnlyWant};
ghost use Rattle.crdt_core.specs.Map.{map_entries, map_single};
ghost use Rattle.k2v_rows.specs.Later.{is_short};
ghost use Rattle.k2v_rows.specs.Token.{token_entries, entries_join, discarded, raised};

use crate::value::K2vValue;
use crate::writes::Writes;
use blake2_hash::Hash32;
use crdt_core::{Bytes, Crdt, Map, Max, Memory, Value};
use std::alloc::Global;
use std::cmp::Ordering;

/// What stands of the writes of one item, node by node.
#[derive(Debug, Drop, PartialEq, Eq)]
pub struct K2vRow {
    /// The BLAKE2b-256 digest of the bucket's name.
    pub bucket: Hash32,
    /// The partition key, of fewer than 2^32 bytes.
    pub pk: Bytes,
    /// The sort key.
    pub sk: Bytes,
    /// The writes of each node.
    pub entries: Map<u8, Writes>,
    pub ghost short: { IsTrue (is_short pk) },
}

impl K2vRow {
    ghost use Rattle.std.specs.Prelude.{IsSome, IfSome, ◌↔◌, []};
    ghost use Rattle.k2v_rows.specs.Row.{item_key, item_cmp, can_put, discard_at, after_put};

    /// A row without writes, or none where the partition key has 2^32 bytes or more. Takes no memory.
    pub fn new(alloc: Global, bucket: Hash32, pk: Bytes, sk: Bytes) -> Option<K2vRow>
        ensures some { IsSome result ↔ IsTrue (is_short pk) }
        ensures key { IfSome result (λ row. item_key row ≡ (bucket, (pk, sk))) }
        ensures entries { IfSome result (λ row. map_entries row.entries ≡ []) }
    {
        K2vRow::with_entries(bucket, pk, sk, Map::new(alloc))
    }

    /// A row with these writes, or none where the partition key has 2^32 bytes or more. Takes no memory.
    pub fn with_entries(
        bucket: Hash32,
        pk: Bytes,
        sk: Bytes,
        entries: Map<u8, Writes>,
    ) -> Option<K2vRow>
        ensures some { IsSome result ↔ IsTrue (is_short pk) }
        ensures key { IfSome result (λ row. item_key row ≡ (bucket, (pk, sk))) }
        ensures entries { IfSome result (λ row. row.entries ≡ entries) }
    {
        if pk.len() < 1 << 32 {
            return Some(K2vRow {
                bucket,
                pk,
                sk,
                entries,
            });
        }
        None
    }

    /// What a reader of this row has seen: for each node the greatest of its discard time and the times of its
    /// values.
    pub fn token(&self) -> Result<Map<u8, Max<u64>>, Memory>
        ensures times { IfOk result
            (λ token. map_entries token ≡ token_entries (map_entries self.now.entries)) }
        ensures want { OnlyWant result }
    {
        let mut token = Map::new(self.entries.allocator());
        for entry in self.entries.as_slice() {
            token.join_at(entry.0, &Max(entry.1.greatest_time()))?;
        }
        Ok(token)
    }

    /// Whether one who has read what the token says may write at this node and time: the time is above every time
    /// of the token, and above the row's discard time of the node, which is 0 where there is none.
    pub fn can_put(&self, node: u8, time: u64, token: &Map<u8, Max<u64>>) -> bool
        ensures { result ≡ can_put self.now node time token.now }
    {
        self.discard_at(node) < time && are_before(token.as_slice(), time)
    }

    /// The time up to which the node's writes are discarded, or 0 where the row has none of them.
    pub fn discard_at(&self, node: u8) -> u64
        ensures { result ≡ discard_at self.now node }
    {
        match self.entries.get(&node) {
            Some(writes) => writes.discard.0,
            None => 0,
        }
    }

    /// Writes a value at a node and a time, by one who has read what the token says: it replaces all that the
    /// token has seen. A value that stands at this time already merges with the new one.
    pub fn put(
        &mut self,
        node: u8,
        time: u64,
        value: K2vValue,
        token: &Map<u8, Max<u64>>,
    ) -> Result<(), Memory>
        requires { IsTrue (can_put self.old node time token.now) }
        ensures put { OnOk result (self.new ≡ after_put self.old node time value token.now) }
        ensures unchanged { OnErr result (self.new ≡ self.old) }
        ensures want { OnlyWant result }
    {
        let mut entries = self.entries.copy()?;
        raise_all(&mut entries, token.as_slice())?;
        let write = Writes::single(self.entries.allocator(), time, value)?;
        entries.join_at(node, &write)?;
        self.entries = entries;
        Ok(())
    }

    fn order(&self, other: &K2vRow) -> Ordering
        ensures { result ≡ item_cmp (item_key self.now) (item_key other.now) }
    {
        self.bucket
            .cmp(&other.bucket)
            .then(self.pk.len().cmp(&other.pk.len()))
            .then(self.pk.cmp(&other.pk))
            .then(self.sk.cmp(&other.sk))
    }
}

// Raises each node's discard time to the token's time of that node.
#[tactic(auto, using(crate::proofs::Tokens::raised_more, crate::proofs::Tokens::raised_more_at))]
fn raise_all(entries: &mut Map<u8, Writes>, token: &[(u8, Max<u64>)]) -> Result<(), Memory>
    ensures raised { OnOk result (entries.new ≡ raised entries.old token.now) }
    ensures want { OnlyWant result }
{
    for seen in token {
        raise(entries, seen)?;
    }
    Ok(())
}

fn raise(entries: &mut Map<u8, Writes>, seen: &(u8, Max<u64>)) -> Result<(), Memory>
    ensures raised { OnOk result (entries.new ≡ entries_join entries.old
        (map_single seen.now.0 (discarded seen.now.1))) }
    ensures want { OnlyWant result }
{
    let discarded = Writes::discarded(entries.allocator(), seen.1.0);
    entries.join_at(seen.0, &discarded)
}

fn are_before(token: &[(u8, Max<u64>)], time: u64) -> bool
    ensures { result ≡ list_all (λ seen. nat_lt seen.1.0 time) token.now }
{
    token.iter().all(|seen| seen.1.0 < time)
}

impl Crdt for K2vRow {
    ghost use Rattle.k2v_rows.specs.Row.{row_join};
    ghost use Rattle.k2v_rows.specs.RowLaws.{row_laws};

    ghost join = { row_join };

    ghost join_laws = { row_laws };

    fn copy(&self) -> Result<K2vRow, Memory> {
        Ok(K2vRow {
            bucket: self.bucket,
            pk: self.pk.copy()?,
            sk: self.sk.copy()?,
            entries: self.entries.copy()?,
        })
    }

    fn merge(&mut self, other: &K2vRow) -> Result<(), Memory> {
        match self.order(other) {
            Ordering::Less => {
                *self = other.copy()?;
                Ok(())
            }
            Ordering::Equal => self.entries.merge(&other.entries),
            Ordering::Greater => Ok(()),
        }
    }
}
