//! Elements of XML.
ghost use Rattle.std.specs.Prelude.{◌≡◌, ◌<◌, ◌++◌, OnOk, codes, flat_map, decimal};
ghost use Rattle.crdt_core.specs.Outcomes.{OnlyWant};
ghost use Rattle.s3_model.specs.Xml as xml;

use crdt_core::{Bytes, Memory};
use itoa::Buffer;

fn lower_digit(digit: u8) -> u8
    requires { digit < 16 }
    ensures { result ≡ xml.lower_digit digit }
{
    if digit < 10 { 48 + digit } else { 87 + digit }
}

fn append_small_hex(out: &mut Bytes, byte: u8) -> Result<(), Memory>
    requires { byte < 32 }
    ensures ok { OnOk result (out.new ≡ out.old ++ xml.small_hex byte) }
    ensures want { OnlyWant result }
{
    if byte < 16 {
        out.push(lower_digit(byte))
    } else {
        out.push(b'1')?;
        out.push(lower_digit(byte - 16))
    }
}

fn append_control(out: &mut Bytes, byte: u8) -> Result<(), Memory>
    requires { byte < 32 }
    ensures ok { OnOk result (out.new ≡ out.old ++ (codes "&#x" ++ xml.small_hex byte ++
        codes ";")) }
    ensures want { OnlyWant result }
{
    out.extend_from_slice(b"&#x")?;
    append_small_hex(out, byte)?;
    out.push(b';')
}

fn append_byte(out: &mut Bytes, byte: u8) -> Result<(), Memory>
    ensures ok { OnOk result (out.new ≡ out.old ++ xml.escaped_byte byte) }
    ensures want { OnlyWant result }
{
    if byte == b'&' {
        out.extend_from_slice(b"&amp;")
    } else if byte == b'<' {
        out.extend_from_slice(b"&lt;")
    } else if byte == b'>' {
        out.extend_from_slice(b"&gt;")
    } else if byte == b'"' {
        out.extend_from_slice(b"&quot;")
    } else if byte < 32 {
        append_control(out, byte)
    } else {
        out.push(byte)
    }
}

fn append_escaped(out: &mut Bytes, text: &[u8]) -> Result<(), Memory>
    ensures ok { OnOk result (out.new ≡ out.old ++ xml.escaped text.now) }
    ensures want { OnlyWant result }
{
    for byte in text {
        append_byte(out, *byte)?;
    }
    Ok(())
}

pub(crate) fn open_tag(out: &mut Bytes, name: &[u8]) -> Result<(), Memory>
    ensures ok { OnOk result (out.new ≡ out.old ++ xml.open_tag name.now) }
    ensures want { OnlyWant result }
{
    out.push(b'<')?;
    out.extend_from_slice(name)?;
    out.push(b'>')
}

pub(crate) fn close_tag(out: &mut Bytes, name: &[u8]) -> Result<(), Memory>
    ensures ok { OnOk result (out.new ≡ out.old ++ xml.close_tag name.now) }
    ensures want { OnlyWant result }
{
    out.extend_from_slice(b"</")?;
    out.extend_from_slice(name)?;
    out.push(b'>')
}

/// An element whose content is written as it is.
pub(crate) fn append_element(out: &mut Bytes, name: &[u8], content: &[u8]) -> Result<(), Memory>
    ensures ok { OnOk result (out.new ≡ out.old ++ xml.element name.now content.now) }
    ensures want { OnlyWant result }
{
    open_tag(out, name)?;
    out.extend_from_slice(content)?;
    close_tag(out, name)
}

/// An element with a text.
pub(crate) fn append_text(out: &mut Bytes, name: &[u8], text: &[u8]) -> Result<(), Memory>
    ensures ok { OnOk result (out.new ≡ out.old ++ xml.text_element name.now text.now) }
    ensures want { OnlyWant result }
{
    open_tag(out, name)?;
    append_escaped(out, text)?;
    close_tag(out, name)
}

/// An element with a number in decimal.
pub(crate) fn append_count(out: &mut Bytes, name: &[u8], n: u64) -> Result<(), Memory>
    ensures ok { OnOk result (out.new ≡ out.old ++ xml.element name.now (decimal n)) }
    ensures want { OnlyWant result }
{
    let mut buffer = Buffer::new();
    append_element(out, name, buffer.format(n).as_bytes())
}
