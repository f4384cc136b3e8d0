//! What the store is asked.
ghost use Rattle.std.specs.Prelude.{◌≡◌, Some, option_map, IfOk};
ghost use Rattle.crdt_core.specs.Outcomes.{OnlyWant};
ghost use Rattle.flow_model.specs.declared.order.Order.TheVariants as asked;
ghost use Rattle.s3_model.specs.Sources.{source_of};
ghost use Rattle.serve_model.specs.Judging.{upload_of, order_of, shown_to, reply_without};

use crate::admitting::may_read;
use crate::judging::{is_long, is_missing};
use crdt_core::{Bytes, List, Memory, Value};
use flow_model::Order;
use s3_model::{Ask, Reply};
use s3_request::copy_source;
use serve_model::{Buckets, Request, Upload};
use std::alloc::Global;

/// Objects of so many bytes and more are kept in blocks.
const INLINE_LIMIT: u64 = 3072;

/// The upload whose bytes are taken block by block, if a request is one.
pub(crate) fn upload(buckets: &Buckets, request: &Request) -> Result<Option<Upload>, Memory>
    ensures same { IfOk result (λ upload. upload ≡ upload_of buckets.now request.now) }
    ensures want { OnlyWant result }
{
    let Ask::Put {
        bucket,
        key,
        headers,
        ..
    } = &request.ask
    else {
        return Ok(None);
    };
    let is_long_body = request.length >= INLINE_LIMIT;
    let is_refused = is_missing(&buckets.names, Some(bucket.as_slice())) || is_long(key.as_slice());
    if !(is_long_body && !is_refused) {
        return Ok(None);
    }
    Ok(Some(Upload {
        bucket: bucket.copy()?,
        key: key.copy()?,
        length: request.length,
        headers: headers.copy()?,
    }))
}

// A copy of these headers, if there are some.
fn copy_headers(
    headers: &Option<List<(Bytes, Bytes)>>,
) -> Result<Option<List<(Bytes, Bytes)>>, Memory>
    ensures same { IfOk result (λ copy. copy ≡ headers.now) }
    ensures want { OnlyWant result }
{
    match headers {
        Some(headers) => Ok(Some(headers.copy()?)),
        None => Ok(None),
    }
}

// What a copy asks, if its source names a bucket and a key.
fn copy_order(
    from: &Bytes,
    bucket: &Bytes,
    key: &Bytes,
    headers: &Option<List<(Bytes, Bytes)>>,
) -> Result<Option<Order>, Memory>
    ensures same { IfOk result
        (λ order. order ≡ option_map (λ s. asked.Copy s.0 s.1 bucket.now key.now headers.now)
        (source_of from.now)) }
    ensures want { OnlyWant result }
{
    let Some(source) = copy_source(from)? else {
        return Ok(None);
    };
    Ok(Some(Order::Copy {
        from_bucket: source.0,
        from_key: source.1,
        bucket: bucket.copy()?,
        key: key.copy()?,
        headers: copy_headers(headers)?,
    }))
}

/// What the store is asked, if it is asked anything.
pub(crate) fn order(ask: &Ask, body: Bytes) -> Result<Option<Order>, Memory>
    ensures same { IfOk result (λ order. order ≡ order_of ask.now body) }
    ensures want { OnlyWant result }
{
    match ask {
        Ask::ListBuckets | Ask::HeadBucket(_) | Ask::BadList(_) => Ok(None),
        Ask::List {
            bucket,
            ask: list,
            ..
        } => Ok(Some(Order::List {
            bucket: bucket.copy()?,
            prefix: list.prefix.copy()?,
        })),
        Ask::Get { bucket, key, .. } => Ok(Some(Order::Get {
            bucket: bucket.copy()?,
            key: key.copy()?,
        })),
        Ask::Head { bucket, key, .. } => Ok(Some(Order::Head {
            bucket: bucket.copy()?,
            key: key.copy()?,
        })),
        Ask::Delete { bucket, key } => Ok(Some(Order::Delete {
            bucket: bucket.copy()?,
            key: key.copy()?,
        })),
        Ask::Put {
            bucket,
            key,
            headers,
            ..
        } => Ok(Some(Order::Put {
            bucket: bucket.copy()?,
            key: key.copy()?,
            body,
            headers: headers.copy()?,
        })),
        Ask::Copy {
            from,
            bucket,
            key,
            headers,
        } => copy_order(from, bucket, key, headers),
    }
}

// The names that are shown to who asks.
fn shown(alloc: Global, buckets: &Buckets, who: Option<usize>) -> Result<List<Bytes>, Memory>
    ensures same { IfOk result (λ names. names ≡ shown_to buckets.now who) }
    ensures want { OnlyWant result }
{
    let mut shown: List<Bytes> = List::new(alloc);
    for name in buckets.names.as_slice() {
        if may_read(&buckets.access, who, name.as_slice()) {
            shown.push(name.copy()?)?;
        }
    }
    Ok(shown)
}

/// What is replied where the store isn't asked.
pub(crate) fn reply(
    alloc: Global,
    buckets: &Buckets,
    who: Option<usize>,
    ask: &Ask,
) -> Result<Reply, Memory>
    ensures same { IfOk result (λ reply. reply ≡ reply_without buckets.now who ask.now) }
    ensures want { OnlyWant result }
{
    match ask {
        Ask::ListBuckets => Ok(Reply::Buckets(shown(alloc, buckets, who)?)),
        _ => Ok(Reply::Empty),
    }
}
