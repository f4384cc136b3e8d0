//! What a head asks, or the first refusal that applies.
ghost use Rattle.std.specs.Prelude.{◌≡◌, IfOk, codes};
ghost use Rattle.crdt_core.specs.Outcomes.{OnlyWant};
ghost use Rattle.s3_model.specs.Asks.{is_method as is_method_of, asked_range, write_of, object_ask, bucket_ask, operation as operation_at, lacks_length, length_refusal as refusal_by_length, if_served, Understands};
ghost use Rattle.s3_model.specs.Headers.{body_limit};
ghost use Rattle.s3_model.specs.Words.{header as header_of};

use crate::header::{announced, has_refused_header, is_bad_length, put_length};
use crate::listing::{is_list, list};
use crate::range::range;
use crate::refusal::fault;
use crate::stored::{copy_headers, stored_headers};
use crate::target::{has_text_key, parameters, path, place, query};
use crate::word::header;
use crdt_core::{Bytes, Memory};
use http_model::Head;
use s3_model::{Ask, AskFault, Code, Place, Range, S3Fault};
use std::alloc::Global;

/// How many bytes a body may have.
const BODY_LIMIT: u64 = 16_777_216;

fn is_method(head: &Head, word: &[u8]) -> bool
    ensures { result ≡ is_method_of head.now word.now }
{
    head.method.as_slice() == word
}

// The range that the headers ask.
fn asked_range(head: &Head) -> Option<Range>
    ensures { result ≡ asked_range head.now }
{
    range(header(head.headers.as_slice(), b"range")?)
}

// The value of a header as it was sent.
fn sent(head: &Head, name: &[u8]) -> Result<Option<Bytes>, Memory>
    ensures same { IfOk result (λ value. value ≡ header_of head.now.headers name.now) }
    ensures want { OnlyWant result }
{
    match header(head.headers.as_slice(), name) {
        Some(value) => Ok(Some(Bytes::from_slice(head.target.allocator(), value)?)),
        None => Ok(None),
    }
}

fn upload(head: &Head, bucket: Bytes, key: Bytes) -> Result<Ask, Memory>
    ensures same { IfOk result (λ ask. ask ≡ write_of head.now bucket key None) }
    ensures want { OnlyWant result }
{
    let md5 = sent(head, b"content-md5")?;
    let headers = stored_headers(head.target.allocator(), head.headers.as_slice())?;
    Ok(Ask::Put {
        bucket,
        key,
        length: put_length(head),
        md5,
        headers,
    })
}

// PUT of a key: a copy where a source is named, else an upload.
fn write(head: &Head, bucket: Bytes, key: Bytes) -> Result<Ask, Memory>
    ensures same { IfOk result
        (λ ask. ask ≡ write_of head.now bucket key
        (header_of head.now.headers (codes "x-amz-copy-source"))) }
    ensures want { OnlyWant result }
{
    match sent(head, b"x-amz-copy-source")? {
        Some(from) => {
            let headers = copy_headers(head.target.allocator(), head.headers.as_slice())?;
            Ok(Ask::Copy {
                from,
                bucket,
                key,
                headers,
            })
        }
        None => upload(head, bucket, key),
    }
}

// What a method asks of a key.
fn object_ask(head: &Head, bucket: Bytes, key: Bytes) -> Result<Option<Ask>, Memory>
    ensures same { IfOk result (λ ask. ask ≡ object_ask head.now bucket key) }
    ensures want { OnlyWant result }
{
    if is_method(head, b"GET") {
        let range = asked_range(head);
        Ok(Some(Ask::Get { bucket, key, range }))
    } else if is_method(head, b"HEAD") {
        let range = asked_range(head);
        Ok(Some(Ask::Head { bucket, key, range }))
    } else if is_method(head, b"DELETE") {
        Ok(Some(Ask::Delete { bucket, key }))
    } else if is_method(head, b"PUT") {
        let ask = write(head, bucket, key)?;
        Ok(Some(ask))
    } else {
        Ok(None)
    }
}

// What a method and parameters ask of a bucket.
fn bucket_ask(
    head: &Head,
    bucket: Bytes,
    parameters: &[(Bytes, Bytes)],
) -> Result<Option<Ask>, Memory>
    ensures same { IfOk result (λ ask. ask ≡ bucket_ask head.now bucket parameters.now) }
    ensures want { OnlyWant result }
{
    if is_method(head, b"HEAD") && parameters.is_empty() {
        Ok(Some(Ask::HeadBucket(bucket)))
    } else if is_method(head, b"GET") && is_list(parameters) {
        let ask = list(head.target.allocator(), bucket, parameters)?;
        Ok(Some(ask))
    } else {
        Ok(None)
    }
}

// Which operation the method, the place and the parameters ask, if it is served.
fn operation(
    head: &Head,
    place: Place,
    parameters: &[(Bytes, Bytes)],
) -> Result<Option<Ask>, Memory>
    ensures same { IfOk result (λ ask. ask ≡ operation_at head.now place parameters.now) }
    ensures want { OnlyWant result }
{
    match place {
        Place::Root if is_method(head, b"GET") && parameters.is_empty() => Ok(Some(
            Ask::ListBuckets,
        )),
        Place::Bucket(bucket) => bucket_ask(head, bucket, parameters),
        Place::Object(bucket, key) if parameters.is_empty() => object_ask(head, bucket, key),
        Place::Root | Place::Object(_, _) => Ok(None),
    }
}

// An upload announces no length.
fn lacks_length(head: &Head, ask: &Ask) -> bool
    ensures { result ≡ lacks_length head.now ask.now }
{
    match ask {
        Ask::Put { .. } => header(head.headers.as_slice(), b"content-length").is_none(),
        _ => false,
    }
}

/// The first refusal by the announced length that applies to an ask: `MissingContentLength` where an upload announces
/// none, `InvalidRequest` where a length isn't 1 to 18 digits or two differ, `EntityTooLarge` above 16,777,216 bytes.
pub fn length_refusal(head: &Head, ask: &Ask) -> Option<S3Fault>
    ensures { result ≡ refusal_by_length head.now ask.now }
{
    if lacks_length(head, ask) {
        Some(fault(Code::MissingContentLength))
    } else if is_bad_length(head.headers.as_slice()) {
        Some(fault(Code::InvalidRequest))
    } else if announced(head) > BODY_LIMIT {
        Some(fault(Code::EntityTooLarge))
    } else {
        None
    }
}

// The operation, if the headers ask nothing that isn't served.
fn if_served(head: &Head, asked: Option<Ask>) -> Result<Ask, S3Fault>
    ensures { result ≡ if_served head.now asked }
{
    match asked {
        Some(ask) if !has_refused_header(head.headers.as_slice()) => Ok(ask),
        _ => Err(fault(Code::NotImplemented)),
    }
}

/// What a head asks, or the first refusal that applies to it, in this order: `InvalidRequest` where the target isn't
/// a path or its key isn't UTF-8; `NotImplemented` where method, path and parameters ask no operation that is served;
/// `NotImplemented` where a header isn't served. A list with a parameter that isn't in order is an ask of its own,
/// `BadList`; whether the announced length is in order, `length_refusal` says.
pub fn understand(head: &Head) -> Result<Ask, AskFault>
    ensures { Understands head.now result }
{
    let alloc = head.target.allocator();
    let target = head.target.as_slice();
    if !target.starts_with(b"/") {
        return Err(AskFault::Refused(fault(Code::InvalidRequest)));
    }
    let place = place(alloc, path(target))?;
    if !has_text_key(&place) {
        return Err(AskFault::Refused(fault(Code::InvalidRequest)));
    }
    let parameters = parameters(alloc, query(target))?;
    let asked = operation(head, place, parameters.as_slice())?;
    match if_served(head, asked) {
        Ok(ask) => Ok(ask),
        Err(fault) => Err(AskFault::Refused(fault)),
    }
}
