//! The answer to an ask.
ghost use Rattle.std.specs.Prelude.{◌≡◌, IfOk, Some, option_copied};
ghost use Rattle.crdt_core.specs.Outcomes.{OnlyWant};
ghost use Rattle.s3_model.specs.Answer as answers;

use crate::bodies::{buckets_body, copied_body, error_body};
use crate::found::{found, object_head};
use crate::lines::{append_etag, append_length, finish, start, xml_answer};
use crate::list::{Listing, list_body};
use crdt_core::{Bytes, Memory};
use crdt_rows::{Meta, Version};
use s3_model::{Ask, Page, Reply, S3Fault};
use std::alloc::Global;

/// A head with this length alone, and no body.
fn empty(alloc: Global, code: u16, now: u64, close: bool) -> Result<Bytes, Memory>
    ensures text { IfOk result (λ t. t ≡ answers.empty_text code now close) }
    ensures want { OnlyWant result }
{
    let mut out = start(alloc, code, now)?;
    append_length(&mut out, 0)?;
    finish(&mut out, close)?;
    Ok(out)
}

fn stored(alloc: Global, digest: &[u8; 16], now: u64, close: bool) -> Result<Bytes, Memory>
    ensures text { IfOk result (λ t. t ≡ answers.stored_text digest.now now close) }
    ensures want { OnlyWant result }
{
    let mut out = start(alloc, 200, now)?;
    append_length(&mut out, 0)?;
    append_etag(&mut out, digest)?;
    finish(&mut out, close)?;
    Ok(out)
}

fn deleted(alloc: Global, now: u64, close: bool) -> Result<Bytes, Memory>
    ensures text { IfOk result (λ t. t ≡ answers.deleted_text now close) }
    ensures want { OnlyWant result }
{
    let mut out = start(alloc, 204, now)?;
    finish(&mut out, close)?;
    Ok(out)
}

fn refused(
    alloc: Global,
    fault: S3Fault,
    path: &[u8],
    head: bool,
    now: u64,
    close: bool,
) -> Result<Bytes, Memory>
    ensures text { IfOk result (λ t. t ≡ answers.refused_text fault path.now head now close) }
    ensures want { OnlyWant result }
{
    if head {
        return empty(alloc, fault.status, now, close);
    }
    let body = error_body(alloc, fault.code, path)?;
    xml_answer(alloc, fault.status, now, close, body.as_slice())
}

fn buckets(alloc: Global, names: &[Bytes], now: u64, close: bool) -> Result<Bytes, Memory>
    ensures text { IfOk result (λ t. t ≡ answers.buckets_text names.now now close) }
    ensures want { OnlyWant result }
{
    let body = buckets_body(alloc, names)?;
    xml_answer(alloc, 200, now, close, body.as_slice())
}

fn copied(
    alloc: Global,
    version: Version,
    digest: &[u8; 16],
    now: u64,
    close: bool,
) -> Result<Bytes, Memory>
    ensures text { IfOk result (λ t. t ≡ answers.copied_text version digest.now now close) }
    ensures want { OnlyWant result }
{
    let body = copied_body(alloc, version, digest)?;
    xml_answer(alloc, 200, now, close, body.as_slice())
}

fn listed(alloc: Global, ask: &Ask, page: &Page, now: u64, close: bool) -> Result<Bytes, Memory>
    ensures text { IfOk result (λ t. t ≡ answers.page_text (Some ask.now) page.now now close) }
    ensures want { OnlyWant result }
{
    match ask {
        Ask::List {
            bucket,
            ask,
            delimiter,
            url,
            token,
            start_after,
        } => {
            let listing = Listing {
                bucket,
                ask,
                delimiter,
                url: *url,
                token,
                start_after,
            };
            let body = list_body(alloc, &listing, page)?;
            xml_answer(alloc, 200, now, close, body.as_slice())
        }
        _ => Ok(Bytes::new(alloc)),
    }
}

fn listed_if_asked(
    alloc: Global,
    ask: Option<&Ask>,
    page: &Page,
    now: u64,
    close: bool,
) -> Result<Bytes, Memory>
    ensures text { IfOk result
        (λ t. t ≡ answers.page_text (option_copied ask.entry) page.now now close) }
    ensures want { OnlyWant result }
{
    match ask {
        Some(ask) => listed(alloc, ask, page, now, close),
        None => Ok(Bytes::new(alloc)),
    }
}

fn object(
    alloc: Global,
    ask: Option<&Ask>,
    version: Version,
    meta: &Meta,
    body: &[u8],
    now: u64,
    close: bool,
) -> Result<Bytes, Memory>
    ensures text { IfOk result
        (λ t. t ≡ answers.object_text
        (option_copied ask.entry) version meta.now body.now now close) }
    ensures want { OnlyWant result }
{
    match ask {
        Some(Ask::Get { range, .. }) => found(alloc, *range, version, meta, body, now, close),
        Some(Ask::Head { range, .. }) => object_head(alloc, *range, version, meta, now, close),
        _ => Ok(Bytes::new(alloc)),
    }
}

/// The bytes with which an ask is answered. The time is that of the request, in milliseconds since 1970. The
/// connection closes after the answer where `close` says so. A reply to another operation than the ask's has no bytes,
/// and neither has an object with a range that starts at or past its end.
#[tactic(auto, unfolding(s3_model::specs::Answer::answer_text))]
pub fn answer(
    alloc: Global,
    ask: Option<&Ask>,
    reply: &Reply,
    now: u64,
    close: bool,
) -> Result<Bytes, Memory>
    ensures text { IfOk result
        (λ t. t ≡ answers.answer_text (option_copied ask.entry) reply.now now close) }
    ensures want { OnlyWant result }
{
    match reply {
        Reply::Buckets(names) => buckets(alloc, names.as_slice(), now, close),
        Reply::Empty => empty(alloc, 200, now, close),
        Reply::Found {
            version,
            meta,
            body,
        } => object(alloc, ask, *version, meta, body.as_slice(), now, close),
        Reply::Stored(_, digest) => stored(alloc, digest, now, close),
        Reply::Deleted => deleted(alloc, now, close),
        Reply::Copied(version, digest) => copied(alloc, *version, digest, now, close),
        Reply::Page(page) => listed_if_asked(alloc, ask, page, now, close),
        Reply::Refused { fault, path, head } => {
            refused(alloc, *fault, path.as_slice(), *head, now, close)
        }
    }
}
