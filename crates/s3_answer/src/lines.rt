//! The head of an answer, line by line.
ghost use Rattle.std.specs.Prelude.{◌≡◌, ◌++◌, OnOk, IfOk, codes, decimal, flat_map};
ghost use Rattle.crdt_core.specs.Outcomes.{OnlyWant};
ghost use Rattle.s3_model.specs.Dates.{http_date as date_of};
ghost use Rattle.s3_model.specs.Lines as lines;

use crate::times::http_date;
use crdt_core::{Bytes, Memory};
use http::StatusCode;
use itoa::Buffer;
use std::alloc::Global;

/// A number in decimal.
pub(crate) fn append_number(out: &mut Bytes, n: u64) -> Result<(), Memory>
    ensures ok { OnOk result (out.new ≡ out.old ++ decimal n) }
    ensures want { OnlyWant result }
{
    let mut buffer = Buffer::new();
    out.extend_from_slice(buffer.format(n).as_bytes())
}

/// One header line.
pub(crate) fn append_header(out: &mut Bytes, name: &[u8], value: &[u8]) -> Result<(), Memory>
    ensures ok { OnOk result (out.new ≡ out.old ++ lines.header_line name.now value.now) }
    ensures want { OnlyWant result }
{
    out.extend_from_slice(name)?;
    out.extend_from_slice(b": ")?;
    out.extend_from_slice(value)?;
    out.extend_from_slice(b"\r\n")
}

#[tactic(auto, unfolding(s3_model::specs::Lines::phrase))]
fn phrase(code: u16) -> &'static str
    ensures { result.now ≡ lines.phrase code }
{
    match StatusCode::from_u16(code) {
        Ok(status) => status.canonical_reason().unwrap_or(""),
        Err(_) => "",
    }
}

fn append_status(out: &mut Bytes, code: u16) -> Result<(), Memory>
    ensures ok { OnOk result (out.new ≡ out.old ++ lines.status_line code) }
    ensures want { OnlyWant result }
{
    out.extend_from_slice(b"HTTP/1.1 ")?;
    append_number(out, u64::from(code))?;
    out.push(b' ')?;
    out.extend_from_slice(phrase(code).as_bytes())?;
    out.extend_from_slice(b"\r\n")
}

/// What each answer begins with: its status line, and the date of the request in milliseconds.
pub(crate) fn start(alloc: Global, code: u16, now: u64) -> Result<Bytes, Memory>
    ensures text { IfOk result
        (λ t. t ≡ lines.status_line code ++ lines.header_line (codes "Date") (date_of now)) }
    ensures want { OnlyWant result }
{
    let mut out = Bytes::new(alloc);
    append_status(&mut out, code)?;
    append_header(&mut out, b"Date", &http_date(now))?;
    Ok(out)
}

pub(crate) fn append_length(out: &mut Bytes, length: u64) -> Result<(), Memory>
    ensures ok { OnOk result (out.new ≡ out.old ++ lines.length_line length) }
    ensures want { OnlyWant result }
{
    let mut buffer = Buffer::new();
    append_header(out, b"Content-Length", buffer.format(length).as_bytes())
}

fn quoted(alloc: Global, digest: &[u8; 16]) -> Result<Bytes, Memory>
    ensures text { IfOk result (λ t. t ≡ lines.quoted digest.now) }
    ensures want { OnlyWant result }
{
    let hex = hex::encode(alloc, *digest)?;
    let mut text = Bytes::from_slice(alloc, b"\"")?;
    text.extend_from_slice(hex.as_bytes())?;
    text.push(b'"')?;
    Ok(text)
}

pub(crate) fn append_etag(out: &mut Bytes, digest: &[u8; 16]) -> Result<(), Memory>
    ensures ok { OnOk result (out.new ≡ out.old ++ lines.etag_line digest.now) }
    ensures want { OnlyWant result }
{
    let value = quoted(out.allocator(), digest)?;
    append_header(out, b"ETag", value.as_slice())
}

fn is_type(header: &(Bytes, Bytes)) -> bool
    ensures { result ≡ lines.is_type header.now }
{
    header.0.as_slice() == b"content-type".as_slice()
}

fn append_type(out: &mut Bytes, header: &(Bytes, Bytes)) -> Result<(), Memory>
    ensures ok { OnOk result (out.new ≡ out.old ++ lines.type_line header.now) }
    ensures want { OnlyWant result }
{
    if is_type(header) {
        append_header(out, b"Content-Type", header.1.as_slice())
    } else {
        Ok(())
    }
}

fn append_other(out: &mut Bytes, header: &(Bytes, Bytes)) -> Result<(), Memory>
    ensures ok { OnOk result (out.new ≡ out.old ++ lines.other_line header.now) }
    ensures want { OnlyWant result }
{
    if is_type(header) {
        Ok(())
    } else {
        append_header(out, header.0.as_slice(), header.1.as_slice())
    }
}

fn append_types(out: &mut Bytes, headers: &[(Bytes, Bytes)]) -> Result<(), Memory>
    ensures ok { OnOk result (out.new ≡ out.old ++ flat_map lines.type_line headers.now) }
    ensures want { OnlyWant result }
{
    for header in headers {
        append_type(out, header)?;
    }
    Ok(())
}

fn append_others(out: &mut Bytes, headers: &[(Bytes, Bytes)]) -> Result<(), Memory>
    ensures ok { OnOk result (out.new ≡ out.old ++ flat_map lines.other_line headers.now) }
    ensures want { OnlyWant result }
{
    for header in headers {
        append_other(out, header)?;
    }
    Ok(())
}

/// The stored headers, the Content-Type first.
pub(crate) fn append_stored(out: &mut Bytes, headers: &[(Bytes, Bytes)]) -> Result<(), Memory>
    ensures ok { OnOk result (out.new ≡ out.old ++ lines.stored_lines headers.now) }
    ensures want { OnlyWant result }
{
    append_types(out, headers)?;
    append_others(out, headers)
}

/// The last lines of each head: whether the connection closes, and the empty one.
pub(crate) fn finish(out: &mut Bytes, close: bool) -> Result<(), Memory>
    ensures ok { OnOk result (out.new ≡ out.old ++ lines.close_line close ++ codes "\r\n") }
    ensures want { OnlyWant result }
{
    if close {
        append_header(out, b"Connection", b"close")?;
    }
    out.extend_from_slice(b"\r\n")
}

/// An answer whose body is XML.
pub(crate) fn xml_answer(
    alloc: Global,
    code: u16,
    now: u64,
    close: bool,
    body: &[u8],
) -> Result<Bytes, Memory>
    ensures text { IfOk result (λ t. t ≡ lines.xml_answer code now close body.now) }
    ensures want { OnlyWant result }
{
    let mut out = start(alloc, code, now)?;
    append_length(&mut out, body.len() as u64)?;
    append_header(&mut out, b"Content-Type", b"application/xml")?;
    finish(&mut out, close)?;
    out.extend_from_slice(body)?;
    Ok(out)
}
