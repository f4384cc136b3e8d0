//! The headers that are stored with an object.
ghost use Rattle.std.specs.Prelude.{◌≡◌, ◌++◌, ◌||◌, codes, IfOk, OnOk};
ghost use Rattle.std.specs.List.{list_any};
ghost use Rattle.crdt_core.specs.Outcomes.{OnlyWant};
ghost use Rattle.s3_model.specs.Headers.{is_stored, is_content_type, as_stored, own_stored, default_type, stored_headers, copy_headers};
ghost use Rattle.s3_request.specs.Keeping.{kept_of};
ghost use Rattle.s3_model.specs.Words.{is_said, header as header_of};

use crate::word::{begins_word, header, is_one_of, is_word};
use crdt_core::{Bytes, List, Memory};
use std::alloc::Global;

/// Headers that are stored by their name.
const STORED: [&[u8]; 6] = [
    b"content-type",
    b"cache-control",
    b"content-disposition",
    b"content-encoding",
    b"content-language",
    b"expires",
];

fn is_content_type(h: &(Bytes, Bytes)) -> bool
    ensures { result ≡ is_content_type h.now }
{
    is_word(h.0.as_slice(), b"content-type")
}

fn is_stored(h: &(Bytes, Bytes)) -> bool
    ensures { result ≡ is_stored h.now }
{
    is_one_of(&STORED, h.0.as_slice()) || begins_word(h.0.as_slice(), b"x-amz-meta-")
}

// A header as it is stored: its name in lower case.
fn as_stored(alloc: Global, h: &(Bytes, Bytes)) -> Result<(Bytes, Bytes), Memory>
    ensures same { IfOk result (λ stored. stored ≡ as_stored h.now) }
    ensures want { OnlyWant result }
{
    let name = h.0.as_slice().to_ascii_lowercase(alloc)?;
    let value = Bytes::from_slice(alloc, h.1.as_slice())?;
    Ok((Bytes::from_vec(name), value))
}

fn default_type(alloc: Global) -> Result<(Bytes, Bytes), Memory>
    ensures same { IfOk result (λ stored. stored ≡ default_type) }
    ensures want { OnlyWant result }
{
    let name = Bytes::from_slice(alloc, b"content-type")?;
    let value = Bytes::from_slice(alloc, b"application/octet-stream")?;
    Ok((name, value))
}

// Keeps the header if it is stored; of several Content-Types the first, so none where one came before.
fn keep(
    alloc: Global,
    h: &(Bytes, Bytes),
    typed: bool,
    stored: &mut List<(Bytes, Bytes)>,
) -> Result<(), Memory>
    ensures ok { OnOk result (stored.new ≡ stored.old ++ kept_of typed h.now) }
    ensures want { OnlyWant result }
{
    if is_stored(h) && !(typed && is_content_type(h)) {
        let header = as_stored(alloc, h)?;
        stored.push(header)
    } else {
        Ok(())
    }
}

// Keeps the headers that are stored, in order.
fn keep_all(
    alloc: Global,
    headers: &[(Bytes, Bytes)],
    stored: &mut List<(Bytes, Bytes)>,
) -> Result<(), Memory>
    ensures ok { OnOk result (stored.new ≡ stored.old ++ own_stored headers.now) }
    ensures want { OnlyWant result }
{
    let mut typed = false;
    for h in headers {
        keep(alloc, h, typed, stored)?;
        typed = is_either(typed, is_content_type(h));
    }
    Ok(())
}

fn is_either(a: bool, b: bool) -> bool
    ensures { result ≡ (a || b) }
{
    a || b
}

fn has_type(headers: &[(Bytes, Bytes)]) -> bool
    ensures { result ≡ list_any is_content_type headers.now }
{
    headers.iter().any(|h| is_content_type(h))
}

/// What is stored with an object: names in lower case, and values. A default Content-Type stands first.
pub(crate) fn stored_headers(
    alloc: Global,
    headers: &[(Bytes, Bytes)],
) -> Result<List<(Bytes, Bytes)>, Memory>
    ensures same { IfOk result (λ stored. stored ≡ stored_headers headers.now) }
    ensures want { OnlyWant result }
{
    let mut stored = List::new(alloc);
    if !has_type(headers) {
        stored.push(default_type(alloc)?)?;
    }
    keep_all(alloc, headers, &mut stored)?;
    Ok(stored)
}

// Whether a copy's headers come from its own request.
fn replaces(headers: &[(Bytes, Bytes)]) -> bool
    ensures { result ≡ is_said (header_of headers.now (codes "x-amz-metadata-directive"))
        (codes "REPLACE") }
{
    match header(headers, b"x-amz-metadata-directive") {
        Some(value) => is_word(value, b"REPLACE"),
        None => false,
    }
}

/// The headers in the place of the source's, where a copy says so.
pub(crate) fn copy_headers(
    alloc: Global,
    headers: &[(Bytes, Bytes)],
) -> Result<Option<List<(Bytes, Bytes)>>, Memory>
    ensures same { IfOk result (λ stored. stored ≡ copy_headers headers.now) }
    ensures want { OnlyWant result }
{
    if replaces(headers) {
        let stored = stored_headers(alloc, headers)?;
        Ok(Some(stored))
    } else {
        Ok(None)
    }
}
