//! Which refusal comes first once a body was read.
ghost use Rattle.std.specs.Prelude.{◌≡◌, Option, option_map, IfOk};
ghost use Rattle.crdt_core.specs.Outcomes.{OnlyWant};
ghost use Rattle.s3_model.specs.Sources.{is_long_key};
ghost use Rattle.serve_model.specs.Keys.{has_bucket as has_bucket_of};
ghost use Rattle.serve_model.specs.Judging.{bucket_of, key_of, is_missing as missing_of, has_wrong_digest as wrong_digest, has_bad_argument as bad_argument, source_bucket, differs as other_body, is_denied as denied, refusal_of};
ghost use Rattle.serve_loop.specs.Giving.{range_of};

use crate::admitting::may_read;
use crdt_core::{Bytes, List, Memory};
use layout_text::Access;
use s3_model::{Ask, Code, Range};
use s3_request::{copy_source, is_digest};
use serve_model::{Buckets, Request};
use sig_v4::is_body_of;
use std::alloc::Global;

/// How many bytes a key may have.
const KEY_LIMIT: usize = 1024;

/// The bucket that is asked.
pub(crate) fn bucket(ask: &Ask) -> Option<&[u8]>
    ensures { option_map (λ b. b.now) result ≡ bucket_of ask.now }
{
    match ask {
        Ask::ListBuckets => None,
        Ask::HeadBucket(bucket)
        | Ask::BadList(bucket)
        | Ask::List { bucket, .. }
        | Ask::Get { bucket, .. }
        | Ask::Head { bucket, .. }
        | Ask::Delete { bucket, .. }
        | Ask::Put { bucket, .. }
        | Ask::Copy { bucket, .. } => Some(bucket.as_slice()),
    }
}

/// The key that is asked, or an empty one.
pub(crate) fn key(ask: &Ask) -> &[u8]
    ensures { result.now ≡ key_of ask.now }
{
    match ask {
        Ask::ListBuckets | Ask::HeadBucket(_) | Ask::BadList(_) | Ask::List { .. } => &[],
        Ask::Get { key, .. }
        | Ask::Head { key, .. }
        | Ask::Delete { key, .. }
        | Ask::Put { key, .. }
        | Ask::Copy { key, .. } => key.as_slice(),
    }
}

/// The range that is asked.
pub(crate) fn range(ask: &Ask) -> Option<Range>
    ensures { result ≡ range_of ask.now }
{
    match ask {
        Ask::Get { range, .. } | Ask::Head { range, .. } => *range,
        _ => None,
    }
}

/// The bucket is one of these.
pub(crate) fn has_bucket(buckets: &[Bytes], name: &[u8]) -> bool
    ensures { result ≡ has_bucket_of buckets.now name.now }
{
    buckets.iter().any(|bucket| bucket.as_slice() == name)
}

/// A bucket is asked that isn't there.
pub(crate) fn is_missing(buckets: &List<Bytes>, bucket: Option<&[u8]>) -> bool
    ensures { result ≡ missing_of buckets.now (option_map (λ b. b.now) bucket.entry) }
{
    match bucket {
        Some(name) => !has_bucket(buckets.as_slice(), name),
        None => false,
    }
}

/// The key is too long.
pub(crate) fn is_long(key: &[u8]) -> bool
    ensures { result ≡ is_long_key key.now }
{
    key.len() > KEY_LIMIT
}

// The body isn't the one whose digest was sent.
fn has_wrong_digest(ask: &Ask, body: &[u8]) -> Result<bool, Memory>
    ensures same { IfOk result (λ wrong. wrong ≡ wrong_digest ask.now body.now) }
    ensures want { OnlyWant result }
{
    match ask {
        Ask::Put {
            md5: Some(value),
            ..
        } => Ok(!is_digest(value, body)?),
        _ => Ok(false),
    }
}

// A parameter of a list is none, or a copy's source names no bucket and key.
fn has_bad_argument(ask: &Ask) -> Result<bool, Memory>
    ensures same { IfOk result (λ bad. bad ≡ bad_argument ask.now) }
    ensures want { OnlyWant result }
{
    match ask {
        Ask::BadList(_) => Ok(true),
        Ask::Copy { from, .. } => Ok(copy_source(from)?.is_none()),
        _ => Ok(false),
    }
}

// The bucket from which is copied.
fn source(ask: &Ask) -> Result<Option<Bytes>, Memory>
    ensures same { IfOk result (λ bucket. bucket ≡ source_bucket ask.now) }
    ensures want { OnlyWant result }
{
    let Ask::Copy { from, .. } = ask else {
        return Ok(None);
    };
    match copy_source(from)? {
        Some(source) => Ok(Some(source.0)),
        None => Ok(None),
    }
}

// Who asks may not read the bucket from which is copied.
fn is_denied(access: &Access, who: Option<usize>, source: &Option<Bytes>) -> bool
    ensures { result ≡ denied access.now who source.now }
{
    match source {
        Some(bucket) => !may_read(access, who, bucket.as_slice()),
        None => false,
    }
}

// The bucket isn't there from which is copied.
fn lacks(buckets: &List<Bytes>, source: &Option<Bytes>) -> bool
    ensures { result ≡ missing_of buckets.now source.now }
{
    match source {
        Some(bucket) => !has_bucket(buckets.as_slice(), bucket.as_slice()),
        None => false,
    }
}

// A digest of the body was signed, and the body has another.
fn differs(alloc: Global, digest: &Option<Bytes>, body: &[u8]) -> Result<bool, Memory>
    ensures same { IfOk result (λ differs. differs ≡ other_body digest.now body.now) }
    ensures want { OnlyWant result }
{
    match digest {
        Some(digest) => Ok(!is_body_of(alloc, digest.as_slice(), body)?),
        None => Ok(false),
    }
}

/// The refusal that comes first once the body was read, if the store needn't be asked for it.
pub(crate) fn refusal(
    alloc: Global,
    buckets: &Buckets,
    request: &Request,
    body: &[u8],
) -> Result<Option<Code>, Memory>
    ensures same { IfOk result (λ code. code ≡ refusal_of buckets.now request.now body.now) }
    ensures want { OnlyWant result }
{
    let ask = &request.ask;
    if differs(alloc, &request.digest, body)? {
        return Ok(Some(Code::XAmzContentSHA256Mismatch));
    }
    if is_missing(&buckets.names, bucket(ask)) {
        return Ok(Some(Code::NoSuchBucket));
    }
    if is_long(key(ask)) {
        return Ok(Some(Code::KeyTooLongError));
    }
    if has_wrong_digest(ask, body)? {
        return Ok(Some(Code::BadDigest));
    }
    if has_bad_argument(ask)? {
        return Ok(Some(Code::InvalidArgument));
    }
    let source = source(ask)?;
    if is_denied(&buckets.access, request.who, &source) {
        return Ok(Some(Code::AccessDenied));
    }
    if lacks(&buckets.names, &source) {
        return Ok(Some(Code::NoSuchBucket));
    }
    Ok(None)
}
