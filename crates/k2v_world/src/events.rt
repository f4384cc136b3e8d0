//! The orders of a schedule.
ghost use Rattle.std.specs.Prelude.{◌≡◌, IfOk};
ghost use Rattle.crdt_core.specs.Outcomes.{OnlyWant};
ghost use Rattle.k2v_rows.specs.declared.value.K2vValue.TheVariants as wrote;
ghost use Rattle.k2v_model.specs.declared.order.Ask.TheVariants as ask;
ghost use Rattle.store_model.specs.Events.{object_bytes as bytes_of_object};

use crdt_core::{Bytes, Memory, Value};
use k2v_model::{Ask, Item, Order};
use k2v_rows::K2vValue;
use shared_value::Shared;
use std::alloc::Global;

/// A copy of an item.
fn copy_item(item: &Item) -> Result<Item, Memory>
    ensures same { IfOk result (λ copy. copy ≡ item.now) }
    ensures want { OnlyWant result }
{
    Ok(Item {
        bucket: item.bucket.copy()?,
        pk: item.pk.copy()?,
        sk: item.sk.copy()?,
    })
}

/// `size` bytes: byte i, from 0, is `fill` + i modulo 251.
fn value_bytes(alloc: Global, size: u32, fill: u8) -> Result<Bytes, Memory>
    ensures same { IfOk result (λ bytes. bytes ≡ bytes_of_object size fill) }
    ensures want { OnlyWant result }
{
    let mut bytes = Bytes::from_vec(Vec::with_capacity(alloc, size as usize)?);
    for i in 0..size {
        let byte = (u64::from(fill) + u64::from(i)) % 251;
        bytes.push(byte as u8)?;
    }
    Ok(bytes)
}

/// To write a value of `size` bytes, the first of which is `fill`, in the place of what a token has seen.
pub fn put(alloc: Global, item: &Item, size: u32, fill: u8, token: u64) -> Result<Order, Memory>
    ensures is { IfOk result (λ o. o ≡
        record { item = item.now; ask = ask.Write (wrote.Value (bytes_of_object size fill)) token }) }
    ensures want { OnlyWant result }
{
    let bytes = value_bytes(alloc, size, fill)?;
    Ok(Order {
        item: copy_item(item)?,
        ask: Ask::Write {
            value: K2vValue::Value(Shared::new(alloc, bytes)?),
            token,
        },
    })
}

/// To write that there is no value, in the place of what a token has seen.
pub fn delete(item: &Item, token: u64) -> Result<Order, Memory>
    ensures is { IfOk result (λ o. o ≡
        record { item = item.now; ask = ask.Write wrote.Deleted token }) }
    ensures want { OnlyWant result }
{
    Ok(Order {
        item: copy_item(item)?,
        ask: Ask::Write {
            value: K2vValue::Deleted,
            token,
        },
    })
}

/// To read an item.
pub fn get(item: &Item) -> Result<Order, Memory>
    ensures is { IfOk result (λ o. o ≡ record { item = item.now; ask = ask.Read }) }
    ensures want { OnlyWant result }
{
    Ok(Order {
        item: copy_item(item)?,
        ask: Ask::Read,
    })
}
