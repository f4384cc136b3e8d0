//! What a request makes of the row that it read.
ghost use Rattle.std.specs.Prelude.{◌≡◌, ◌++◌, ◌∷◌, [], Some, None, IfOk, OnOk};
ghost use Rattle.std.specs.Option.{unwrap_or};
ghost use Rattle.crdt_core.specs.Map.{map_entries};
ghost use Rattle.crdt_core.specs.Outcomes.{OnlyWant};
ghost use Rattle.blake2_hash.specs.Hash.{digest_of};
ghost use Rattle.k2v_model.specs.Orders.{empty_row, asks_for as read_phase};
ghost use Rattle.k2v_model.specs.Run.{is_deletion as is_deletion_of, values_of, values_in, values_told as values_of_read};
ghost use Rattle.k2v_world.specs.Kept.{read_token};

use blake2_hash::Hash32;
use crdt_core::{List, Map, Max, Memory, Value};
use k2v_model::{Ask, Item, ShownValue};
use k2v_rows::{K2vRow, K2vValue, Writes};
use k2v_schema::K2vSchema;
use md5::{Digest, Md5};
use std::alloc::Global;
use table_schema::Schema;
use wire_messages::Phase;

/// The row of an item without writes.
fn unwritten(alloc: Global, bucket: Hash32, item: &Item) -> Result<K2vRow, Memory>
    requires { bucket ≡ digest_of item.now.bucket }
    ensures is { IfOk result (λ row. row ≡ empty_row item.now) }
    ensures want { OnlyWant result }
{
    Ok(K2vRow {
        bucket,
        pk: item.pk.copy()?,
        sk: item.sk.copy()?,
        entries: Map::new(alloc),
    })
}

/// The phase that asks for an item's row.
pub fn asks_for(alloc: Global, bucket: Hash32, item: &Item) -> Result<Phase<K2vRow>, Memory>
    requires { bucket ≡ digest_of item.now.bucket }
    ensures is { IfOk result (λ phase. phase ≡ read_phase item.now) }
    ensures want { OnlyWant result }
{
    let row = unwritten(alloc, bucket, item)?;
    Ok(Phase::Read {
        table: 1,
        position: K2vSchema::position(&row),
        key: K2vSchema::key(alloc, &row)?,
    })
}

/// The row that a request read, or the item's without writes where it read none.
pub fn base(
    alloc: Global,
    bucket: Hash32,
    item: &Item,
    read: Option<K2vRow>,
) -> Result<K2vRow, Memory>
    requires { bucket ≡ digest_of item.now.bucket }
    ensures is { IfOk result (λ row. row ≡ unwrap_or read (empty_row item.now)) }
    ensures want { OnlyWant result }
{
    match read {
        Some(row) => Ok(row),
        None => unwritten(alloc, bucket, item),
    }
}

/// The token of a read that gave this row; one that found none has no times.
pub fn token_of(alloc: Global, read: &Option<K2vRow>) -> Result<Map<u8, Max<u64>>, Memory>
    ensures is { IfOk result (λ token. token ≡ read_token read.now) }
    ensures want { OnlyWant result }
{
    match read {
        Some(row) => row.token(),
        None => Ok(Map::new(alloc)),
    }
}

/// Whether a request deletes.
pub fn is_deletion(ask: &Ask) -> bool
    ensures { result ≡ is_deletion_of ask.now }
{
    matches!(
        ask,
        Ask::Write {
            value: K2vValue::Deleted,
            ..
        }
    )
}

/// Appends a value that a write at a node left, unless it deleted.
fn push_value(
    shown: &mut List<ShownValue>,
    node: u8,
    entry: &(u64, Max<K2vValue>),
) -> Result<(), Memory>
    ensures ok { OnOk result (shown.new ≡ shown.old ++ values_of node (entry.now ∷ [])) }
    ensures want { OnlyWant result }
{
    match &entry.1.0 {
        K2vValue::Deleted => Ok(()),
        K2vValue::Value(bytes) => shown.push(ShownValue {
            node,
            time: entry.0,
            size: bytes.get().len() as u64,
            md5: Md5::digest(bytes.get().as_slice()),
        }),
    }
}

/// Appends the values of a node.
#[tactic(auto, using(crate::proofs::Values::values_first))]
fn push_values(shown: &mut List<ShownValue>, node: u8, writes: &Writes) -> Result<(), Memory>
    ensures ok { OnOk result (shown.new ≡ shown.old ++ values_of node
        (map_entries writes.now.values)) }
    ensures want { OnlyWant result }
{
    for entry in writes.values.as_slice() {
        push_value(shown, node, entry)?;
    }
    Ok(())
}

/// The values that a read tells of, by node and time; those of writes that deleted are left out.
pub fn values_told(alloc: Global, read: &Option<K2vRow>) -> Result<List<ShownValue>, Memory>
    ensures are { IfOk result (λ values. values ≡ values_of_read read.now) }
    ensures want { OnlyWant result }
{
    match read {
        Some(row) => values_shown(alloc, row),
        None => Ok(List::new(alloc)),
    }
}

/// The values that a row shows.
fn values_shown(alloc: Global, row: &K2vRow) -> Result<List<ShownValue>, Memory>
    ensures are { IfOk result (λ values. values ≡ values_in (map_entries row.now.entries)) }
    ensures want { OnlyWant result }
{
    let mut shown = List::new(alloc);
    for entry in row.entries.as_slice() {
        push_values(&mut shown, entry.0, &entry.1)?;
    }
    Ok(shown)
}
