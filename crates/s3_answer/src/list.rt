//! The body of ListObjectsV2.
ghost use Rattle.std.specs.Prelude.{◌≡◌, ◌++◌, OnOk, IfOk, flat_map, option_copied, codes};
ghost use Rattle.crdt_core.specs.Outcomes.{OnlyWant};
ghost use Rattle.s3_model.specs.Bodies as bodies;
ghost use Rattle.s3_model.specs.Xml as xml;

use crate::bodies::{append_etag, append_time, root_start};
use crate::url::written;
use crate::xml::{append_count, append_element, append_text, close_tag, open_tag};
use crdt_core::{Bytes, Memory};
use crdt_rows::{Meta, Version};
use s3_model::{Entry, ListAsk, Page};
use std::alloc::Global;

/// What was asked of a list and is said again in its answer.
#[derive(Clone, Copy)]
pub(crate) struct Listing<'a> {
    pub(crate) bucket: &'a Bytes,
    pub(crate) ask: &'a ListAsk,
    pub(crate) delimiter: &'a Option<Bytes>,
    pub(crate) url: bool,
    pub(crate) token: &'a Option<Bytes>,
    pub(crate) start_after: &'a Option<Bytes>,
}

/// An element with a key, percent-encoded where this is asked.
fn append_key(out: &mut Bytes, url: bool, name: &[u8], key: &[u8]) -> Result<(), Memory>
    ensures ok { OnOk result (out.new ≡ out.old ++ xml.text_element name.now
        (xml.written url key.now)) }
    ensures want { OnlyWant result }
{
    let text = written(out.allocator(), url, key)?;
    append_text(out, name, text.as_slice())
}

fn append_object_parts(
    out: &mut Bytes,
    url: bool,
    key: &[u8],
    version: Version,
    meta: &Meta,
) -> Result<(), Memory>
    ensures ok { OnOk result (out.new ≡ out.old ++
        bodies.object_parts url key.now version meta.now) }
    ensures want { OnlyWant result }
{
    append_key(out, url, b"Key", key)?;
    append_time(out, version.ts)?;
    append_etag(out, &meta.etag)?;
    append_count(out, b"Size", meta.size)?;
    append_element(out, b"StorageClass", b"STANDARD")
}

fn append_object(
    out: &mut Bytes,
    url: bool,
    key: &[u8],
    version: Version,
    meta: &Meta,
) -> Result<(), Memory>
    ensures ok { OnOk result (out.new ≡ out.old ++
        bodies.object_element url key.now version meta.now) }
    ensures want { OnlyWant result }
{
    open_tag(out, b"Contents")?;
    append_object_parts(out, url, key, version, meta)?;
    close_tag(out, b"Contents")
}

fn append_common(out: &mut Bytes, url: bool, prefix: &[u8]) -> Result<(), Memory>
    ensures ok { OnOk result (out.new ≡ out.old ++ bodies.common_element url prefix.now) }
    ensures want { OnlyWant result }
{
    open_tag(out, b"CommonPrefixes")?;
    append_key(out, url, b"Prefix", prefix)?;
    close_tag(out, b"CommonPrefixes")
}

fn append_if_object(out: &mut Bytes, url: bool, entry: &Entry) -> Result<(), Memory>
    ensures ok { OnOk result (out.new ≡ out.old ++ bodies.contents_of url entry.now) }
    ensures want { OnlyWant result }
{
    match entry {
        Entry::Object(key, version, meta) => {
            append_object(out, url, key.as_slice(), *version, meta)
        }
        Entry::Common(_) => Ok(()),
    }
}

fn append_if_common(out: &mut Bytes, url: bool, entry: &Entry) -> Result<(), Memory>
    ensures ok { OnOk result (out.new ≡ out.old ++ bodies.common_of url entry.now) }
    ensures want { OnlyWant result }
{
    match entry {
        Entry::Object(_, _, _) => Ok(()),
        Entry::Common(prefix) => append_common(out, url, prefix.as_slice()),
    }
}

fn append_objects(out: &mut Bytes, url: bool, entries: &[Entry]) -> Result<(), Memory>
    ensures ok { OnOk result (out.new ≡ out.old ++ flat_map (bodies.contents_of url) entries.now) }
    ensures want { OnlyWant result }
{
    for entry in entries {
        append_if_object(out, url, entry)?;
    }
    Ok(())
}

fn append_commons(out: &mut Bytes, url: bool, entries: &[Entry]) -> Result<(), Memory>
    ensures ok { OnOk result (out.new ≡ out.old ++ flat_map (bodies.common_of url) entries.now) }
    ensures want { OnlyWant result }
{
    for entry in entries {
        append_if_common(out, url, entry)?;
    }
    Ok(())
}

fn append_given(out: &mut Bytes, name: &[u8], text: &Option<Bytes>) -> Result<(), Memory>
    ensures ok { OnOk result (out.new ≡ out.old ++ bodies.given name.now text.now) }
    ensures want { OnlyWant result }
{
    match text {
        None => Ok(()),
        Some(text) => append_text(out, name, text.as_slice()),
    }
}

fn append_given_key(
    out: &mut Bytes,
    url: bool,
    name: &[u8],
    text: &Option<Bytes>,
) -> Result<(), Memory>
    ensures ok { OnOk result (out.new ≡ out.old ++ bodies.given_key url name.now text.now) }
    ensures want { OnlyWant result }
{
    match text {
        None => Ok(()),
        Some(text) => append_key(out, url, name, text.as_slice()),
    }
}

/// A token: a mark and a text, in hexadecimal.
fn token(alloc: Global, mark: u8, text: &[u8]) -> Result<Bytes, Memory>
    ensures text { IfOk result (λ t. t ≡ bodies.token mark text.now) }
    ensures want { OnlyWant result }
{
    let mut marked = Bytes::new(alloc);
    marked.push(mark)?;
    marked.extend_from_slice(text)?;
    let hex = hex::encode(alloc, marked.as_slice())?;
    Bytes::from_slice(alloc, hex.as_bytes())
}

/// The token with which the list goes on past an entry.
fn token_past(alloc: Global, last: Option<&Entry>) -> Result<Bytes, Memory>
    ensures text { IfOk result (λ t. t ≡ bodies.token_past (option_copied last.entry)) }
    ensures want { OnlyWant result }
{
    match last {
        None => Ok(Bytes::new(alloc)),
        Some(Entry::Object(key, _, _)) => token(alloc, b'k', key.as_slice()),
        Some(Entry::Common(prefix)) => token(alloc, b'p', prefix.as_slice()),
    }
}

fn append_next(out: &mut Bytes, page: &Page) -> Result<(), Memory>
    ensures ok { OnOk result (out.new ≡ out.old ++ bodies.next_element page.now) }
    ensures want { OnlyWant result }
{
    if !page.truncated {
        return Ok(());
    }
    let text = token_past(out.allocator(), page.entries.as_slice().last())?;
    append_element(out, b"NextContinuationToken", text.as_slice())
}

fn append_encoding(out: &mut Bytes, url: bool) -> Result<(), Memory>
    ensures ok { OnOk result (out.new ≡ out.old ++ bodies.encoding_element url) }
    ensures want { OnlyWant result }
{
    if url {
        append_element(out, b"EncodingType", b"url")
    } else {
        Ok(())
    }
}

fn truth(flag: bool) -> &'static [u8]
    ensures { result.now ≡ bodies.truth flag }
{
    if flag { b"true" } else { b"false" }
}

/// What was asked.
fn append_asked(out: &mut Bytes, listing: &Listing) -> Result<(), Memory>
    ensures ok { OnOk result (out.new ≡ out.old ++
        bodies.asked_elements listing.now.bucket.now listing.now.ask.now listing.now.delimiter.now listing.now.url) }
    ensures want { OnlyWant result }
{
    append_text(out, b"Name", listing.bucket.as_slice())?;
    append_key(out, listing.url, b"Prefix", listing.ask.prefix.as_slice())?;
    append_given_key(out, listing.url, b"Delimiter", listing.delimiter)?;
    append_count(out, b"MaxKeys", u64::from(listing.ask.max))?;
    append_encoding(out, listing.url)
}

/// How far the list comes.
fn append_counted(out: &mut Bytes, listing: &Listing, page: &Page) -> Result<(), Memory>
    ensures ok { OnOk result (out.new ≡ out.old ++
        bodies.counted_elements listing.now.url listing.now.token.now listing.now.start_after.now page.now) }
    ensures want { OnlyWant result }
{
    append_count(out, b"KeyCount", page.entries.len() as u64)?;
    append_element(out, b"IsTruncated", truth(page.truncated))?;
    append_given(out, b"ContinuationToken", listing.token)?;
    append_next(out, page)?;
    append_given_key(out, listing.url, b"StartAfter", listing.start_after)
}

fn append_entries(out: &mut Bytes, url: bool, entries: &[Entry]) -> Result<(), Memory>
    ensures ok { OnOk result (out.new ≡ out.old ++ bodies.entry_elements url entries.now) }
    ensures want { OnlyWant result }
{
    append_objects(out, url, entries)?;
    append_commons(out, url, entries)
}

/// The body of ListObjectsV2.
pub(crate) fn list_body(alloc: Global, listing: &Listing, page: &Page) -> Result<Bytes, Memory>
    ensures text { IfOk result
        (λ t. t ≡
        bodies.list_body listing.now.bucket.now listing.now.ask.now listing.now.delimiter.now listing.now.url listing.now.token.now listing.now.start_after.now page.now) }
    ensures want { OnlyWant result }
{
    let mut out = root_start(alloc, b"ListBucketResult")?;
    append_asked(&mut out, listing)?;
    append_counted(&mut out, listing, page)?;
    append_entries(&mut out, listing.url, page.entries.as_slice())?;
    close_tag(&mut out, b"ListBucketResult")?;
    Ok(out)
}
