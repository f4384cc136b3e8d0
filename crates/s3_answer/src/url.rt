//! Percent-encoding of keys (RFC 3986).
ghost use Rattle.std.specs.Prelude.{◌≡◌, ◌<◌, ◌++◌, OnOk, IfOk, flat_map};
ghost use Rattle.crdt_core.specs.Outcomes.{OnlyWant};
ghost use Rattle.s3_model.specs.Xml as xml;

use crdt_core::{Bytes, Memory};
use std::alloc::Global;

fn is_plain(byte: u8) -> bool
    ensures { result ≡ xml.is_plain byte }
{
    matches!(byte, b'a'..=b'z' | b'A'..=b'Z' | b'0'..=b'9' | b'-' | b'.' | b'_' | b'~' | b'/')
}

fn upper_digit(digit: u8) -> u8
    requires { digit < 16 }
    ensures { result ≡ xml.upper_digit digit }
{
    if digit < 10 { 48 + digit } else { 55 + digit }
}

fn append_byte(out: &mut Bytes, byte: u8) -> Result<(), Memory>
    ensures ok { OnOk result (out.new ≡ out.old ++ xml.url_byte byte) }
    ensures want { OnlyWant result }
{
    if is_plain(byte) {
        out.push(byte)
    } else {
        out.push(b'%')?;
        out.push(upper_digit(byte / 16))?;
        out.push(upper_digit(byte % 16))
    }
}

fn append_encoded(out: &mut Bytes, text: &[u8]) -> Result<(), Memory>
    ensures ok { OnOk result (out.new ≡ out.old ++ flat_map xml.url_byte text.now) }
    ensures want { OnlyWant result }
{
    for byte in text {
        append_byte(out, *byte)?;
    }
    Ok(())
}

/// A text, percent-encoded where this is asked.
pub(crate) fn written(alloc: Global, url: bool, text: &[u8]) -> Result<Bytes, Memory>
    ensures text { IfOk result (λ t. t ≡ xml.written url text.now) }
    ensures want { OnlyWant result }
{
    if url {
        let mut out = Bytes::new(alloc);
        append_encoded(&mut out, text)?;
        return Ok(out);
    }
    Bytes::from_slice(alloc, text)
}
