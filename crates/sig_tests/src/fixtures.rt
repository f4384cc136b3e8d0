//! Requests as text, and the words for answers.
use crdt_core::{Bytes, List, Memory};
use http_model::Head;
use layout_text::Key;
use sig_v4::{Refusal, Signed, check};
use std::alloc::Global;

/// A request line without its version and headers, a line each; the clock; the word for the answer.
pub type Request = (&'static [u8], u64, &'static [u8]);

// What stands before and behind the first such byte.
fn cut(text: &[u8], separator: u8) -> (&[u8], &[u8]) {
    match text.iter().position(|byte| *byte == separator) {
        Some(end) if end < text.len() => (&text[..end], &text[end + 1..]),
        _ => (text, &[]),
    }
}

/// The head that a text is.
pub fn head_of(alloc: Global, text: &[u8]) -> Result<Head, Memory> {
    let (line, rest) = cut(text, b'\n');
    let (method, target) = cut(line, b' ');
    let mut headers: List<(Bytes, Bytes)> = List::new(alloc);
    for line in rest.split(|byte| *byte == b'\n') {
        if line.len() > 0 {
            let (name, value) = cut(line, b':');
            let name = Bytes::from_slice(alloc, name)?;
            headers.push((name, Bytes::from_slice(alloc, value)?))?;
        }
    }
    Ok(Head {
        method: Bytes::from_slice(alloc, method)?,
        target: Bytes::from_slice(alloc, target)?,
        minor: 1,
        headers,
    })
}

/// A key without buckets.
pub fn key(alloc: Global, id: &[u8], secret: &[u8]) -> Result<Key, Memory> {
    Ok(Key {
        id: Bytes::from_slice(alloc, id)?,
        secret: Bytes::from_slice(alloc, secret)?,
        read: List::new(alloc),
        write: List::new(alloc),
    })
}

/// A word for each place of a key.
fn key_word(place: usize) -> &'static [u8] {
    match place {
        0 => b"key 0",
        1 => b"key 1",
        _ => b"another key",
    }
}

/// A word for each answer.
pub fn word(answer: Result<Signed, Refusal>) -> &'static [u8] {
    match answer {
        Ok(signed) => key_word(signed.place),
        Err(Refusal::Unsigned) => b"unsigned",
        Err(Refusal::Malformed) => b"malformed",
        Err(Refusal::UnknownKey) => b"unknown key",
        Err(Refusal::Skewed) => b"skewed",
        Err(Refusal::WrongSignature) => b"wrong signature",
        Err(Refusal::Memory) => b"memory",
    }
}

/// What the check of a request answers.
pub fn answer(
    alloc: Global,
    keys: &[Key],
    region: &[u8],
    request: Request,
) -> Result<&'static [u8], Memory> {
    let head = head_of(alloc, request.0)?;
    Ok(word(check(alloc, &head, keys, region, request.1)))
}
