//! Heads from text, and asks as text.
ghost use Rattle.std.specs.Prelude.{IfOk, IsSome};

use crdt_core::{Bytes, List};
use http_wire::{Head, Kept, read_head};
use lab_outside::{Failed, Link, PieceLink};
use s3_model::{After, Ask, AskFault, ListAsk, Range};
use s3_request::{length_refusal, understand};
use std::alloc::{AllocError, Global};
use std::test::Fail;

/// The link with its first connection, which is there.
fn present<L: Link + Drop>(link: L) -> Result<L, Failed>
    ensures { IfOk result (λ link. IsSome (L.present link)) }
{
    let mut link = link;
    match link.next() {
        Ok(true) => Ok(link),
        _ => Err(Failed),
    }
}

/// The head in these bytes.
pub fn head(alloc: Global, bytes: &[u8]) -> Result<Head, Fail> {
    let bytes = bytes.to_vec(alloc)?;
    let mut link = present(PieceLink::new(bytes, 4096, Vec::new(alloc)))?;
    let mut kept = Kept::new(alloc);
    let head = read_head(alloc, &mut link, &mut kept)?;
    Ok(head)
}

/// What a head asks that is understood and whose length is in order.
fn admitted(head: &Head) -> Result<Ask, AskFault> {
    let ask = understand(head)?;
    match length_refusal(head, &ask) {
        Some(fault) => Err(AskFault::Refused(fault)),
        None => Ok(ask),
    }
}

/// What a head asks, as text.
fn understood(alloc: Global, head: &Head) -> Result<Vec<u8>, AllocError> {
    text(alloc, &admitted(head))
}

/// What the head in these bytes asks, as text.
pub fn asked(alloc: Global, bytes: &[u8]) -> Result<Vec<u8>, Fail> {
    let head = head(alloc, bytes)?;
    let text = understood(alloc, &head)?;
    Ok(text)
}

/// A word for each range: `A-B`, `A-` or `-N`.
fn range_text(alloc: Global, range: &Option<Range>) -> Result<Vec<u8>, AllocError> {
    let text = match range {
        None => format!(in alloc; "all")?,
        Some(Range::Between(first, last)) => format!(in alloc; "{first}-{last}")?,
        Some(Range::From(first)) => format!(in alloc; "{first}-")?,
        Some(Range::Last(count)) => format!(in alloc; "-{count}")?,
    };
    text.as_bytes().to_vec(alloc)
}

fn add(text: &mut Vec<u8>, words: &[&[u8]]) -> Result<(), AllocError> {
    for word in words {
        if !text.is_empty() {
            text.extend_from_slice(b" ")?;
        }
        text.extend_from_slice(word)?;
    }
    Ok(())
}

fn add_headers(text: &mut Vec<u8>, headers: &List<(Bytes, Bytes)>) -> Result<(), AllocError> {
    for (name, value) in headers.as_slice() {
        text.extend_from_slice(b"[")?;
        text.extend_from_slice(name.as_slice())?;
        text.extend_from_slice(b"=")?;
        text.extend_from_slice(value.as_slice())?;
        text.extend_from_slice(b"]")?;
    }
    Ok(())
}

fn or_none(value: &Option<Bytes>) -> &[u8] {
    match value {
        Some(value) => value.as_slice(),
        None => b"none",
    }
}

/// Where a list begins: after a key, or past a prefix.
fn add_after(text: &mut Vec<u8>, after: &After) -> Result<(), AllocError> {
    match after {
        After::Key(key) => add(text, &[b"after", key.as_slice()]),
        After::Prefix(prefix) => add(text, &[b"past", prefix.as_slice()]),
    }
}

/// A list's bucket, prefix, delimiter and greatest count.
fn add_list<'a>(
    alloc: Global,
    text: &mut Vec<u8>,
    bucket: &'a Bytes,
    ask: &'a ListAsk,
    delimiter: &'a Option<Bytes>,
) -> Result<(), AllocError> {
    let max = format!(in alloc; "{}", ask.max)?;
    add(
        text,
        &[
            b"List",
            bucket.as_slice(),
            b"prefix",
            ask.prefix.as_slice(),
            b"by",
            or_none(delimiter),
            max.as_bytes(),
        ],
    )?;
    Ok(())
}

/// A word, an object, and the range that is asked of it.
fn add_part<'a>(
    alloc: Global,
    text: &mut Vec<u8>,
    word: &'a [u8],
    (bucket, key): (&'a Bytes, &'a Bytes),
    range: &Option<Range>,
) -> Result<(), AllocError> {
    let range = range_text(alloc, range)?;
    add(text, &[word, bucket.as_slice(), key.as_slice(), &range])?;
    Ok(())
}

/// An object that is put, its length and its digest.
fn add_put<'a>(
    alloc: Global,
    text: &mut Vec<u8>,
    (bucket, key): (&'a Bytes, &'a Bytes),
    length: u64,
    md5: &'a Option<Bytes>,
) -> Result<(), AllocError> {
    let length = format!(in alloc; "{length}")?;
    add(
        text,
        &[
            b"Put",
            bucket.as_slice(),
            key.as_slice(),
            length.as_bytes(),
            or_none(md5),
            b"",
        ],
    )?;
    Ok(())
}

/// An ask as its words.
fn add_ask(alloc: Global, text: &mut Vec<u8>, ask: &Ask) -> Result<(), AllocError> {
    match ask {
        Ask::ListBuckets => add(text, &[b"ListBuckets"]),
        Ask::HeadBucket(bucket) => add(text, &[b"HeadBucket", bucket.as_slice()]),
        Ask::BadList(bucket) => add(text, &[b"BadList", bucket.as_slice()]),
        Ask::List {
            bucket,
            ask,
            delimiter,
            url,
            token,
            start_after,
        } => {
            add_list(alloc, text, bucket, ask, delimiter)?;
            add_after(text, &ask.after)?;
            add(
                text,
                &[
                    if *url { b"url" } else { b"plain" },
                    or_none(token),
                    or_none(start_after),
                ],
            )
        }
        Ask::Get { bucket, key, range } => add_part(alloc, text, b"Get", (bucket, key), range),
        Ask::Head { bucket, key, range } => add_part(alloc, text, b"Head", (bucket, key), range),
        Ask::Delete { bucket, key } => {
            add(text, &[b"Delete", bucket.as_slice(), key.as_slice()])
        }
        Ask::Put {
            bucket,
            key,
            length,
            md5,
            headers,
        } => {
            add_put(alloc, text, (bucket, key), *length, md5)?;
            add_headers(text, headers)
        }
        Ask::Copy {
            from,
            bucket,
            key,
            headers,
        } => {
            add(
                text,
                &[
                    b"Copy",
                    from.as_slice(),
                    bucket.as_slice(),
                    key.as_slice(),
                    b"",
                ],
            )?;
            match headers {
                Some(headers) => add_headers(text, headers),
                None => Ok(()),
            }
        }
    }
}

/// What keeps a head from being an ask, as its words.
fn add_fault(alloc: Global, text: &mut Vec<u8>, fault: &AskFault) -> Result<(), AllocError> {
    match fault {
        AskFault::Refused(fault) => {
            let words = format!(in alloc; "refused {} {:?}", fault.status, fault.code)?;
            add(text, &[words.as_bytes()])?;
            if fault.close {
                add(text, &[b"close"])?;
            }
            Ok(())
        }
        AskFault::Memory => add(text, &[b"memory"]),
    }
}

/// An ask as its words, or `refused STATUS CODE`, with `close` where the connection closes.
fn text(alloc: Global, answer: &Result<Ask, AskFault>) -> Result<Vec<u8>, AllocError> {
    let mut text = Vec::new(alloc);
    match answer {
        Ok(ask) => add_ask(alloc, &mut text, ask)?,
        Err(fault) => add_fault(alloc, &mut text, fault)?,
    }
    Ok(text)
}
