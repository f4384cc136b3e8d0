//! Pages of lists, with and without a delimiter, from the start and from a token.
use crate::stored::{ETAG, meta, row};
use crdt_core::{Bytes, List, Memory};
use crdt_rows::ObjectRow;
use s3_list::page;
use s3_model::{After, Entry, ListAsk, Page};
use shared_value::Shared;
use std::alloc::{AllocError, Global};
use std::test::Fail;

/// The rows of a bucket: a deleted key, and four that are there.
fn rows(alloc: Global) -> Result<List<Shared<ObjectRow>>, Memory> {
    let mut rows = List::new(alloc);
    rows.push(row(alloc, b"a&<b", true)?)?;
    rows.push(row(alloc, b"gone", false)?)?;
    rows.push(row(alloc, b"x/1", true)?)?;
    rows.push(row(alloc, b"x/2", true)?)?;
    rows.push(row(alloc, b"y", true)?)?;
    Ok(rows)
}

fn ask(
    alloc: Global,
    prefix: &[u8],
    delimiter: &[u8],
    after: After,
    max: u32,
) -> Result<ListAsk, Memory> {
    Ok(ListAsk {
        prefix: Bytes::from_slice(alloc, prefix)?,
        delimiter: Bytes::from_slice(alloc, delimiter)?,
        after,
        max,
    })
}

fn past_key(alloc: Global, key: &[u8]) -> Result<After, Memory> {
    Ok(After::Key(Bytes::from_slice(alloc, key)?))
}

fn past_prefix(alloc: Global, prefix: &[u8]) -> Result<After, Memory> {
    Ok(After::Prefix(Bytes::from_slice(alloc, prefix)?))
}

/// A line for each entry, common prefixes with a star, and dots where the list goes on.
fn text(alloc: Global, page: &Page) -> Result<Vec<u8>, AllocError> {
    let mut text = Vec::new(alloc);
    for entry in page.entries.as_slice() {
        match entry {
            Entry::Object(key, _, _) => text.extend_from_slice(key.as_slice())?,
            Entry::Common(prefix) => {
                text.extend_from_slice(prefix.as_slice())?;
                text.extend_from_slice(b"*")?;
            }
        }
        text.extend_from_slice(b" ")?;
    }
    if page.truncated {
        text.extend_from_slice(b"..")?;
    }
    Ok(text)
}

/// What is listed of the rows.
fn listed(
    alloc: Global,
    prefix: &[u8],
    delimiter: &[u8],
    after: After,
    max: u32,
) -> Result<Vec<u8>, Fail> {
    let rows = rows(alloc)?;
    let shown = page(
        alloc,
        rows.as_slice(),
        &ask(alloc, prefix, delimiter, after, max)?,
    )?;
    let text = text(alloc, &shown)?;
    Ok(text)
}

#[test]
fn list_with_delimiter_and_token(rt: HostRuntime) -> Result<(), Fail> {
    let alloc = rt.alloc();
    let all = past_key(alloc, b"")?;
    assert!(rt; listed(alloc, b"", b"/", all, 2)?.as_slice() == b"a&<b x/* ..".as_slice());
    let token = past_prefix(alloc, b"x/")?;
    assert!(rt; listed(alloc, b"", b"/", token, 2)?.as_slice() == b"y ".as_slice());
    Ok(())
}

#[test]
fn max_keys(rt: HostRuntime) -> Result<(), Fail> {
    let alloc = rt.alloc();
    assert!(rt; listed(alloc, b"", b"", past_key(alloc, b"")?, 0)?.is_empty());
    assert!(rt;
        listed(alloc, b"", b"", past_key(alloc, b"")?, 3)?.as_slice()
            == b"a&<b x/1 x/2 ..".as_slice()
    );
    assert!(rt;
        listed(alloc, b"", b"", past_key(alloc, b"")?, 4)?.as_slice()
            == b"a&<b x/1 x/2 y ".as_slice()
    );
    assert!(rt;
        listed(alloc, b"", b"/", past_key(alloc, b"x/1")?, 4)?.as_slice() == b"x/* y ".as_slice()
    );
    Ok(())
}

#[test]
fn prefixes_and_delimiters(rt: HostRuntime) -> Result<(), Fail> {
    let alloc = rt.alloc();
    assert!(rt;
        listed(alloc, b"x/", b"/", past_key(alloc, b"")?, 9)?.as_slice() == b"x/1 x/2 ".as_slice()
    );
    assert!(rt;
        listed(alloc, b"x", b"/", past_key(alloc, b"")?, 9)?.as_slice() == b"x/* ".as_slice()
    );
    assert!(rt;
        listed(alloc, b"", b"&<", past_key(alloc, b"")?, 9)?.as_slice()
            == b"a&<* x/1 x/2 y ".as_slice()
    );
    assert!(rt; listed(alloc, b"", b"", past_prefix(alloc, b"")?, 9)?.is_empty());
    Ok(())
}

#[test]
fn an_entry_has_the_version_and_the_metadata(rt: HostRuntime) -> Result<(), Fail> {
    let alloc = rt.alloc();
    let rows = rows(alloc)?;
    let ask = ask(alloc, b"y", b"", past_key(alloc, b"")?, 9)?;
    let shown = page(alloc, rows.as_slice(), &ask)?;
    assert!(rt;
        matches!(
            shown.entries.get(0),
            Some(Entry::Object(_, version, meta))
                if version.ts == 951_782_400_999 && meta.size == 3 && meta.etag == ETAG
        )
    );
    assert!(rt; meta(alloc)?.headers.len() == 2);
    Ok(())
}
