//! The orders of a schedule.
ghost use Rattle.std.specs.Prelude.{◌≡◌, [], None, IfOk};
ghost use Rattle.crdt_core.specs.Outcomes.{OnlyWant};
ghost use Rattle.flow_model.specs.declared.order.Order.TheVariants as order;
ghost use Rattle.store_model.specs.Events.{object_bytes as bytes_of_object};

use crdt_core::{Bytes, List, Memory, Value};
use flow_model::Order;
use std::alloc::Global;

// `size` bytes: byte i, from 0, is `fill` + i modulo 251.
fn object_bytes(alloc: Global, size: u32, fill: u8) -> Result<Bytes, Memory>
    ensures same { IfOk result (λ bytes. bytes ≡ bytes_of_object size fill) }
    ensures want { OnlyWant result }
{
    let mut bytes = Bytes::from_vec(Vec::with_capacity(alloc, size as usize)?);
    for i in 0..size {
        let byte = (u64::from(fill) + u64::from(i)) % 251;
        bytes.push(byte as u8)?;
    }
    Ok(bytes)
}

/// To write an object of `size` bytes, the first of which is `fill`, without headers.
pub fn put(alloc: Global, bucket: &Bytes, key: &Bytes, size: u32, fill: u8) -> Result<Order, Memory>
    ensures is { IfOk result (λ o. o ≡ order.Put bucket.now key.now (bytes_of_object size fill) []) }
    ensures want { OnlyWant result }
{
    Ok(Order::Put {
        bucket: bucket.copy()?,
        key: key.copy()?,
        body: object_bytes(alloc, size, fill)?,
        headers: List::new(alloc),
    })
}

/// To read an object.
pub fn get(bucket: &Bytes, key: &Bytes) -> Result<Order, Memory>
    ensures is { IfOk result (λ o. o ≡ order.Get bucket.now key.now) }
    ensures want { OnlyWant result }
{
    Ok(Order::Get {
        bucket: bucket.copy()?,
        key: key.copy()?,
    })
}

/// To read what is said of an object.
pub fn head(bucket: &Bytes, key: &Bytes) -> Result<Order, Memory>
    ensures is { IfOk result (λ o. o ≡ order.Head bucket.now key.now) }
    ensures want { OnlyWant result }
{
    Ok(Order::Head {
        bucket: bucket.copy()?,
        key: key.copy()?,
    })
}

/// To store a delete marker.
pub fn delete(bucket: &Bytes, key: &Bytes) -> Result<Order, Memory>
    ensures is { IfOk result (λ o. o ≡ order.Delete bucket.now key.now) }
    ensures want { OnlyWant result }
{
    Ok(Order::Delete {
        bucket: bucket.copy()?,
        key: key.copy()?,
    })
}

/// To write an object's bytes and headers under another name.
pub fn copy(
    from_bucket: &Bytes,
    from_key: &Bytes,
    bucket: &Bytes,
    key: &Bytes,
) -> Result<Order, Memory>
    ensures is { IfOk result (λ o. o ≡ order.Copy from_bucket.now from_key.now bucket.now key.now None) }
    ensures want { OnlyWant result }
{
    Ok(Order::Copy {
        from_bucket: from_bucket.copy()?,
        from_key: from_key.copy()?,
        bucket: bucket.copy()?,
        key: key.copy()?,
        headers: None,
    })
}

/// To read the keys of a bucket that begin with a prefix.
pub fn list(bucket: &Bytes, prefix: &Bytes) -> Result<Order, Memory>
    ensures is { IfOk result (λ o. o ≡ order.List bucket.now prefix.now) }
    ensures want { OnlyWant result }
{
    Ok(Order::List {
        bucket: bucket.copy()?,
        prefix: prefix.copy()?,
    })
}
