//! Texts in parts, and escaped texts.
ghost use Rattle.std.specs.Prelude.{◌≡◌, ◌∷◌, ◌++◌, ◌==◌, map, option_copied, IfOk, OnOk};
ghost use Rattle.std.specs.List.{filter, list_all, position_or_len, before_first, after_first, join_with_byte};
ghost use Rattle.crdt_core.specs.Outcomes.{OnlyWant};
ghost use Rattle.percent_encoding.specs.Percent.{percent_decode as decode};
ghost use Rattle.sig_request.specs.Texts as spec;

use crdt_core::{Bytes, List, Memory};
use percent_encoding::{percent_decode, percent_encode_byte};
use std::alloc::{AllocError, Global};
use std::cmp::Ordering;

/// Whether the first text comes before the second in order of bytes.
pub(crate) fn is_less(first: &[u8], second: &[u8]) -> bool
    ensures { result ≡ spec.is_less first.now second.now }
{
    first.cmp(second) == Ordering::Less
}

// The parts of a text, where they stand in it.
fn slices(alloc: Global, separator: u8, text: &[u8]) -> Result<Vec<&[u8]>, AllocError>
    ensures { IfOk result (λ slices. map
        (λ slice. slice.now) slices.items ≡ spec.parts separator text.now) }
{
    text.split(|byte| *byte == separator).collect(alloc)
}

// Texts of their own.
fn owned(alloc: Global, slices: &[&[u8]]) -> Result<List<Bytes>, Memory>
    ensures texts { IfOk result (λ texts. texts ≡ map (λ slice. slice.now) slices.now) }
    ensures want { OnlyWant result }
{
    let mut texts: List<Bytes> = List::new(alloc);
    for slice in slices {
        texts.push(Bytes::from_slice(alloc, slice)?)?;
    }
    Ok(texts)
}

/// The parts of a text between bytes of this kind.
pub fn parts(alloc: Global, separator: u8, text: &[u8]) -> Result<List<Bytes>, Memory>
    ensures parts { IfOk result (λ parts. parts ≡ spec.parts separator text.now) }
    ensures want { OnlyWant result }
{
    let slices = slices(alloc, separator, text)?;
    owned(alloc, &slices)
}

// The texts that aren't empty.
fn filled(alloc: Global, texts: &[Bytes]) -> Result<List<Bytes>, Memory>
    ensures words { IfOk result (λ words. words ≡ filter spec.is_filled texts.now) }
    ensures want { OnlyWant result }
{
    let mut words: List<Bytes> = List::new(alloc);
    for text in texts {
        if text.len() > 0 {
            words.push(Bytes::from_slice(alloc, text.as_slice())?)?;
        }
    }
    Ok(words)
}

/// The parts that aren't empty.
pub(crate) fn words(alloc: Global, separator: u8, text: &[u8]) -> Result<List<Bytes>, Memory>
    ensures words { IfOk result (λ words. words ≡ spec.words separator text.now) }
    ensures want { OnlyWant result }
{
    let parts = parts(alloc, separator, text)?;
    filled(alloc, parts.as_slice())
}

// The first text and the others with this byte between them.
fn joined_after(
    alloc: Global,
    separator: u8,
    first: &[u8],
    others: &[Bytes],
) -> Result<Bytes, Memory>
    ensures text { IfOk result (λ text. text ≡ join_with_byte separator (first.now ∷ others.now)) }
    ensures want { OnlyWant result }
{
    let mut text = Bytes::from_slice(alloc, first)?;
    for other in others {
        text.push(separator)?;
        text.extend_from_slice(other.as_slice())?;
    }
    Ok(text)
}

/// The texts with this byte between them.
pub(crate) fn joined(alloc: Global, separator: u8, texts: &[Bytes]) -> Result<Bytes, Memory>
    ensures text { IfOk result (λ text. text ≡ join_with_byte separator texts.now) }
    ensures want { OnlyWant result }
{
    match texts {
        [] => Ok(Bytes::new(alloc)),
        [first, others @ ..] => joined_after(alloc, separator, first.as_slice(), others),
    }
}

// Where the first such byte stands, or the length.
fn end_before(text: &[u8], separator: u8) -> usize
    ensures { result ≡ position_or_len (λ b. b == separator) text.now }
{
    for (i, byte) in text.iter().enumerate() {
        if *byte == separator {
            return i;
        }
    }
    text.len()
}

/// What stands before the first such byte, or all.
pub(crate) fn before(text: &[u8], separator: u8) -> &[u8]
    ensures { result.now ≡ before_first (λ b. b == separator) text.now }
{
    &text[..end_before(text, separator)]
}

/// What stands behind the first such byte, or nothing.
pub(crate) fn after(text: &[u8], separator: u8) -> &[u8]
    ensures { result.now ≡ after_first (λ b. b == separator) text.now }
{
    let end = end_before(text, separator);
    if end < text.len() {
        &text[end + 1..]
    } else {
        &[]
    }
}

/// What stands behind a beginning, where the text has it.
pub fn behind<'a>(beginning: &[u8], text: &'a [u8]) -> Option<&'a [u8]>
    ensures { option_copied result ≡ spec.behind beginning.now text.now }
{
    text.strip_prefix(beginning)
}

/// Without the spaces before it.
pub fn unspaced(text: &[u8]) -> &[u8]
    ensures { result.now ≡ spec.unspaced text.now }
{
    for (i, byte) in text.iter().enumerate() {
        if *byte != b' ' {
            return &text[i..];
        }
    }
    &[]
}

fn is_hexadecimal(byte: u8) -> bool
    ensures { result ≡ spec.is_hexadecimal byte }
{
    matches!(byte, b'0'..=b'9' | b'a'..=b'f')
}

fn are_hexadecimal(bytes: &[u8]) -> bool
    ensures { result ≡ list_all spec.is_hexadecimal bytes.now }
{
    bytes.iter().all(|byte| is_hexadecimal(*byte))
}

/// Whether these are 64 hexadecimal digits in lower case.
pub fn is_digest(text: &[u8]) -> bool
    ensures { result ≡ spec.is_digest text.now }
{
    text.len() == 64 && are_hexadecimal(text)
}

fn is_kept(in_path: bool, byte: u8) -> bool
    ensures { result ≡ spec.is_kept in_path byte }
{
    byte.is_ascii_alphanumeric()
        || byte == b'-'
        || byte == b'.'
        || byte == b'_'
        || byte == b'~'
        || (in_path && byte == b'/')
}

fn append_escaped(out: &mut Bytes, in_path: bool, byte: u8) -> Result<(), Memory>
    ensures ok { OnOk result (out.new ≡ out.old ++ spec.escaped_byte in_path byte) }
    ensures want { OnlyWant result }
{
    if is_kept(in_path, byte) {
        out.push(byte)
    } else {
        out.extend_from_slice(percent_encode_byte(byte).as_bytes())
    }
}

/// The bytes with all but letters, digits, `-`, `.`, `_` and `~` escaped, and in a path all but `/` too.
pub(crate) fn escaped(alloc: Global, in_path: bool, bytes: &[u8]) -> Result<Bytes, Memory>
    ensures text { IfOk result (λ text. text ≡ spec.escaped in_path bytes.now) }
    ensures want { OnlyWant result }
{
    let mut text = Bytes::new(alloc);
    for byte in bytes {
        append_escaped(&mut text, in_path, *byte)?;
    }
    Ok(text)
}

/// What escapes stand for; a `%` without two hexadecimal digits stands for itself.
pub(crate) fn decoded(alloc: Global, bytes: &[u8]) -> Result<Bytes, Memory>
    ensures text { IfOk result (λ text. text ≡ decode bytes.now) }
    ensures want { OnlyWant result }
{
    let mut text = Vec::new(alloc);
    percent_decode(bytes).append_to(&mut text)?;
    Ok(Bytes::from_vec(text))
}
