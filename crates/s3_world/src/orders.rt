//! What an order does, and for which object.
ghost use Rattle.std.specs.Prelude.{◌≡◌, IfOk};
ghost use Rattle.crdt_core.specs.Outcomes.{OnlyWant};
ghost use Rattle.store_model.specs.Orders.{kind_of as kind_of_order, name_of, buckets_of};
ghost use Rattle.store_model.specs.Run.{began_with as record_of_beginning, is_bucket as is_made, are_buckets as are_made};

use crdt_core::{Bytes, Memory, Value};
use flow_model::Order;
use history_model::{Kind, Record};
use name_set::Names;

/// What the request does.
pub fn kind_of(order: &Order) -> Kind
    ensures { result ≡ kind_of_order order.now }
{
    match order {
        Order::Put { .. } => Kind::Put,
        Order::Stream { .. } => Kind::Put,
        Order::Get { .. } => Kind::Get,
        Order::Head { .. } => Kind::Head,
        Order::Delete { .. } => Kind::Delete,
        Order::Copy { .. } => Kind::Copy,
        Order::List { .. } => Kind::List,
    }
}

// The bucket and the key that a request is for: a copy's are its destination's, and in place of a key a list has its
// prefix.
fn place_of(order: &Order) -> (&Bytes, &Bytes)
    ensures { record { bucket = result.0.now; key = result.1.now } ≡ name_of order.now }
{
    match order {
        Order::Put { bucket, key, .. } => (bucket, key),
        Order::Stream { bucket, key, .. } => (bucket, key),
        Order::Get { bucket, key } => (bucket, key),
        Order::Head { bucket, key } => (bucket, key),
        Order::Delete { bucket, key } => (bucket, key),
        Order::Copy { bucket, key, .. } => (bucket, key),
        Order::List { bucket, prefix } => (bucket, prefix),
    }
}

/// The record of a request that begins at a node.
pub fn began_with(request: u64, node: u8, order: &Order) -> Result<Record, Memory>
    ensures is { IfOk result (λ r. r ≡ record_of_beginning request node order.now) }
    ensures want { OnlyWant result }
{
    let (bucket, key) = place_of(order);
    Ok(Record::Began {
        request,
        node,
        kind: kind_of(order),
        bucket: bucket.copy()?,
        key: key.copy()?,
    })
}

/// Whether the bucket is one of these.
pub fn is_bucket(buckets: &Names, name: &Bytes) -> bool
    ensures { result ≡ is_made buckets.now name.now }
{
    buckets.has(name.as_slice())
}

/// Whether each bucket that the request names is one of these.
pub fn are_buckets(buckets: &Names, order: &Order) -> bool
    ensures { result ≡ are_made buckets.now (buckets_of order.now) }
{
    match order {
        Order::Put { bucket, .. } => is_bucket(buckets, bucket),
        Order::Stream { bucket, .. } => is_bucket(buckets, bucket),
        Order::Get { bucket, .. } => is_bucket(buckets, bucket),
        Order::Head { bucket, .. } => is_bucket(buckets, bucket),
        Order::Delete { bucket, .. } => is_bucket(buckets, bucket),
        Order::Copy {
            from_bucket,
            bucket,
            ..
        } => is_bucket(buckets, from_bucket) && is_bucket(buckets, bucket),
        Order::List { bucket, .. } => is_bucket(buckets, bucket),
    }
}
