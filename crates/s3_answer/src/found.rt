//! An object, or the bytes of a range.
ghost use Rattle.std.specs.Prelude.{◌≡◌, ◌<◌, ◌++◌, [], Some, OnOk, IfOk, IfSome};
ghost use Rattle.crdt_core.specs.Outcomes.{OnlyWant};
ghost use Rattle.s3_model.specs.Answer as answers;
ghost use Rattle.s3_model.specs.Ranges.{span_of};

use crate::lines::{
    append_etag, append_header, append_length, append_number, append_stored, finish, start,
};
use crate::portion::Portion;
use crate::times::http_date;
use crdt_core::{Bytes, Memory};
use crdt_rows::{Meta, Version};
use s3_model::Range;
use std::alloc::Global;

/// The first and the last place of the bytes that a range is of an object of this size; none where it starts at or
/// past the end.
pub(crate) fn span_of(range: Range, size: u64) -> Option<(u64, u64)>
    ensures span { result ≡ span_of range size }
    ensures below { IfSome result (λ span. span.1 < 18446744073709551615) }
{
    match range {
        Range::Between(first, last) => {
            if first < size {
                Some((first, last.min(size - 1)))
            } else {
                None
            }
        }
        Range::From(first) => {
            if first < size {
                Some((first, size - 1))
            } else {
                None
            }
        }
        Range::Last(count) => {
            if count == 0 || size == 0 {
                None
            } else {
                Some((size - count.min(size), size - 1))
            }
        }
    }
}

fn append_object(out: &mut Bytes, count: u64, version: Version, meta: &Meta) -> Result<(), Memory>
    ensures ok { OnOk result (out.new ≡ out.old ++ answers.object_lines count version meta.now) }
    ensures want { OnlyWant result }
{
    append_length(out, count)?;
    append_etag(out, &meta.etag)?;
    append_header(out, b"Last-Modified", &http_date(version.ts))?;
    append_stored(out, meta.headers.as_slice())?;
    append_header(out, b"Accept-Ranges", b"bytes")
}

fn range_value(alloc: Global, first: u64, last: u64, size: u64) -> Result<Bytes, Memory>
    ensures text { IfOk result (λ t. t ≡ answers.range_value (first, last) size) }
    ensures want { OnlyWant result }
{
    let mut text = Bytes::from_slice(alloc, b"bytes ")?;
    append_number(&mut text, first)?;
    text.push(b'-')?;
    append_number(&mut text, last)?;
    text.push(b'/')?;
    append_number(&mut text, size)?;
    Ok(text)
}

fn whole_head(
    alloc: Global,
    version: Version,
    meta: &Meta,
    now: u64,
    close: bool,
) -> Result<Bytes, Memory>
    ensures text { IfOk result (λ t. t ≡ answers.whole_text version meta.now [] now close) }
    ensures want { OnlyWant result }
{
    let mut out = start(alloc, 200, now)?;
    append_object(&mut out, meta.size, version, meta)?;
    finish(&mut out, close)?;
    Ok(out)
}

fn append_part(
    out: &mut Bytes,
    first: u64,
    last: u64,
    version: Version,
    meta: &Meta,
) -> Result<(), Memory>
    requires { last < 18446744073709551615 }
    ensures ok { OnOk result (out.new ≡ out.old ++ answers.part_lines
        (first, last) version meta.now) }
    ensures want { OnlyWant result }
{
    append_object(out, (last + 1).saturating_sub(first), version, meta)?;
    let value = range_value(out.allocator(), first, last, meta.size)?;
    append_header(out, b"Content-Range", value.as_slice())
}

fn part_head(
    alloc: Global,
    first: u64,
    last: u64,
    version: Version,
    meta: &Meta,
    now: u64,
    close: bool,
) -> Result<Bytes, Memory>
    requires { last < 18446744073709551615 }
    ensures text { IfOk result
        (λ t. t ≡ answers.part_text (Some (first, last)) version meta.now [] now close) }
    ensures want { OnlyWant result }
{
    let mut out = start(alloc, 206, now)?;
    append_part(&mut out, first, last, version, meta)?;
    finish(&mut out, close)?;
    Ok(out)
}

/// The head of the answer with an object, or with a range of it: all but the bytes of its portion. It is empty
/// where there is no answer with them.
pub fn object_head(
    alloc: Global,
    range: Option<Range>,
    version: Version,
    meta: &Meta,
    now: u64,
    close: bool,
) -> Result<Bytes, Memory>
    ensures text { IfOk result (λ t. t ≡ answers.found_text range version meta.now [] now close) }
    ensures want { OnlyWant result }
{
    let Some(range) = range else {
        return whole_head(alloc, version, meta, now, close);
    };
    match span_of(range, meta.size) {
        Some((first, last)) => part_head(alloc, first, last, version, meta, now, close),
        None => Ok(Bytes::new(alloc)),
    }
}

/// The answer with an object: all its bytes, or those of a range that isn't refused.
pub(crate) fn found(
    alloc: Global,
    range: Option<Range>,
    version: Version,
    meta: &Meta,
    body: &[u8],
    now: u64,
    close: bool,
) -> Result<Bytes, Memory>
    ensures text { IfOk result
        (λ t. t ≡ answers.found_text range version meta.now body.now now close) }
    ensures want { OnlyWant result }
{
    let Some(portion) = Portion::of(range, meta.size) else {
        return Ok(Bytes::new(alloc));
    };
    let mut out = object_head(alloc, range, version, meta, now, close)?;
    out.extend_from_slice(portion.take(body).0)?;
    Ok(out)
}
