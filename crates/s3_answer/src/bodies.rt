//! The XML bodies of refusals, of ListBuckets and of CopyObject.
ghost use Rattle.std.specs.Prelude.{◌≡◌, ◌++◌, OnOk, IfOk, flat_map};
ghost use Rattle.crdt_core.specs.Outcomes.{OnlyWant};
ghost use Rattle.s3_model.specs.Bodies as bodies;
ghost use Rattle.s3_model.specs.Dates.{list_time as time_of};
ghost use Rattle.s3_model.specs.Xml as xml;

use crate::times::list_time;
use crate::xml::{append_element, append_text, close_tag, open_tag};
use crdt_core::{Bytes, Memory};
use crdt_rows::Version;
use s3_model::Code;
use std::alloc::Global;

const XML_START: &[u8] = b"<?xml version=\"1.0\" encoding=\"UTF-8\"?>\n";

const OWNER: &[u8] = b"<Owner><ID>garage-lab</ID><DisplayName>garage-lab</DisplayName></Owner>";

fn code_name(code: Code) -> &'static [u8]
    ensures { result.now ≡ bodies.code_name code }
{
    match code {
        Code::InvalidRequest => b"InvalidRequest",
        Code::NotImplemented => b"NotImplemented",
        Code::MissingContentLength => b"MissingContentLength",
        Code::EntityTooLarge => b"EntityTooLarge",
        Code::IncompleteBody => b"IncompleteBody",
        Code::NoSuchBucket => b"NoSuchBucket",
        Code::KeyTooLongError => b"KeyTooLongError",
        Code::BadDigest => b"BadDigest",
        Code::InvalidArgument => b"InvalidArgument",
        Code::NoSuchKey => b"NoSuchKey",
        Code::InvalidRange => b"InvalidRange",
        Code::AccessDenied => b"AccessDenied",
        Code::AuthorizationHeaderMalformed => b"AuthorizationHeaderMalformed",
        Code::InvalidAccessKeyId => b"InvalidAccessKeyId",
        Code::RequestTimeTooSkewed => b"RequestTimeTooSkewed",
        Code::SignatureDoesNotMatch => b"SignatureDoesNotMatch",
        Code::XAmzContentSHA256Mismatch => b"XAmzContentSHA256Mismatch",
    }
}

fn append_error(out: &mut Bytes, code: Code, path: &[u8]) -> Result<(), Memory>
    ensures ok { OnOk result (out.new ≡ out.old ++ bodies.error_parts code path.now) }
    ensures want { OnlyWant result }
{
    append_element(out, b"Code", code_name(code))?;
    append_element(out, b"Message", code_name(code))?;
    append_text(out, b"Resource", path)
}

/// The body of a refusal.
pub(crate) fn error_body(alloc: Global, code: Code, path: &[u8]) -> Result<Bytes, Memory>
    ensures text { IfOk result (λ t. t ≡ bodies.error_body code path.now) }
    ensures want { OnlyWant result }
{
    let mut out = Bytes::from_slice(alloc, XML_START)?;
    open_tag(&mut out, b"Error")?;
    append_error(&mut out, code, path)?;
    close_tag(&mut out, b"Error")?;
    Ok(out)
}

/// What stands before the content of the outermost element.
pub(crate) fn root_start(alloc: Global, name: &[u8]) -> Result<Bytes, Memory>
    ensures text { IfOk result (λ t. t ≡ bodies.root_start name.now) }
    ensures want { OnlyWant result }
{
    let mut out = Bytes::from_slice(alloc, XML_START)?;
    out.push(b'<')?;
    out.extend_from_slice(name)?;
    out.extend_from_slice(b" xmlns=\"http://s3.amazonaws.com/doc/2006-03-01/\">")?;
    Ok(out)
}

fn append_bucket_parts(out: &mut Bytes, name: &[u8]) -> Result<(), Memory>
    ensures ok { OnOk result (out.new ≡ out.old ++ bodies.bucket_parts name.now) }
    ensures want { OnlyWant result }
{
    append_text(out, b"Name", name)?;
    append_element(out, b"CreationDate", b"1970-01-01T00:00:00.000Z")
}

fn append_bucket(out: &mut Bytes, name: &[u8]) -> Result<(), Memory>
    ensures ok { OnOk result (out.new ≡ out.old ++ bodies.bucket_element name.now) }
    ensures want { OnlyWant result }
{
    open_tag(out, b"Bucket")?;
    append_bucket_parts(out, name)?;
    close_tag(out, b"Bucket")
}

fn append_buckets(out: &mut Bytes, names: &[Bytes]) -> Result<(), Memory>
    ensures ok { OnOk result (out.new ≡ out.old ++ flat_map bodies.bucket_element names.now) }
    ensures want { OnlyWant result }
{
    for name in names {
        append_bucket(out, name.as_slice())?;
    }
    Ok(())
}

fn append_all_buckets(out: &mut Bytes, names: &[Bytes]) -> Result<(), Memory>
    ensures ok { OnOk result (out.new ≡ out.old ++ bodies.buckets_parts names.now) }
    ensures want { OnlyWant result }
{
    out.extend_from_slice(OWNER)?;
    open_tag(out, b"Buckets")?;
    append_buckets(out, names)?;
    close_tag(out, b"Buckets")
}

/// The body of ListBuckets.
pub(crate) fn buckets_body(alloc: Global, names: &[Bytes]) -> Result<Bytes, Memory>
    ensures text { IfOk result (λ t. t ≡ bodies.buckets_body names.now) }
    ensures want { OnlyWant result }
{
    let mut out = root_start(alloc, b"ListAllMyBucketsResult")?;
    append_all_buckets(&mut out, names)?;
    close_tag(&mut out, b"ListAllMyBucketsResult")?;
    Ok(out)
}

/// When an object was written, in milliseconds.
pub(crate) fn append_time(out: &mut Bytes, ms: u64) -> Result<(), Memory>
    ensures ok { OnOk result (out.new ≡ out.old ++ bodies.time_element ms) }
    ensures want { OnlyWant result }
{
    let text = list_time(out.allocator(), ms)?;
    append_element(out, b"LastModified", text.as_slice())
}

fn quoted(alloc: Global, digest: &[u8; 16]) -> Result<Bytes, Memory>
    ensures text { IfOk result (λ t. t ≡ bodies.quoted_text digest.now) }
    ensures want { OnlyWant result }
{
    let hex = hex::encode(alloc, *digest)?;
    let mut text = Bytes::from_slice(alloc, b"&quot;")?;
    text.extend_from_slice(hex.as_bytes())?;
    text.extend_from_slice(b"&quot;")?;
    Ok(text)
}

/// The MD5 digest of an object.
pub(crate) fn append_etag(out: &mut Bytes, digest: &[u8; 16]) -> Result<(), Memory>
    ensures ok { OnOk result (out.new ≡ out.old ++ bodies.etag_element digest.now) }
    ensures want { OnlyWant result }
{
    let text = quoted(out.allocator(), digest)?;
    append_element(out, b"ETag", text.as_slice())
}

/// The body of CopyObject.
pub(crate) fn copied_body(
    alloc: Global,
    version: Version,
    digest: &[u8; 16],
) -> Result<Bytes, Memory>
    ensures text { IfOk result (λ t. t ≡ bodies.copied_body version digest.now) }
    ensures want { OnlyWant result }
{
    let mut out = root_start(alloc, b"CopyObjectResult")?;
    append_time(&mut out, version.ts)?;
    append_etag(&mut out, digest)?;
    close_tag(&mut out, b"CopyObjectResult")?;
    Ok(out)
}
