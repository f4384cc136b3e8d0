//! A server with keys: which requests it carries out, and which refusal of two it answers.
use crate::signed_copies::{BODIES, BUCKETS, COPIES};
use crate::signed_gets::{METHODS, SIGNED_GET};
use crate::signed_more_pairs::{
    BODY_PAIRS, DENIED_PAIRS, FORGED_PAIRS, LENGTH_PAIRS, SKEWED_PAIRS,
};
use crate::signed_pairs::{
    MALFORMED_PAIRS, TARGET_PAIRS, UNKNOWN_KEY_PAIRS, UNSERVED_PAIRS, UNSIGNED_PAIRS,
};
use crate::signed_refusals::Pair;
use lab_outside::Status;
use std::alloc::Global;
use std::test::Fail;
use test_links::{ONE_CONNECTION, THREE_NODES, recorded, served_with};

/// What comes over one connection, and what is written to it.
pub type Row = (&'static [u8], &'static [u8]);

/// Two buckets, of which each key has other lists.
const KEYS: &[u8] = b"\
    [[key]]\n\
    id = 'GKFULL'\n\
    secret = 'full/secret+1'\n\
    read = ['pics', 'docs', 'pics']\n\
    write = ['docs', 'pics']\n\
    [[key]]\n\
    id = 'GKREAD'\n\
    secret = 'readsecret'\n\
    read = ['pics']\n\
    write = []\n\
    [[key]]\n\
    id = 'GKWRITE'\n\
    secret = 'writesecret'\n\
    read = []\n\
    write = ['pics']\n\
    [[key]]\n\
    id = 'GKCOPY'\n\
    secret = 'copysecret'\n\
    read = ['docs']\n\
    write = ['pics']\n\
    [[key]]\n\
    id = 'GKNONE'\n\
    secret = 'nosecret'\n\
    read = []\n\
    write = []\n";

/// The configuration of three nodes with the two buckets and the keys.
pub fn configuration(alloc: Global) -> Result<Vec<u8>, Fail> {
    let mut text = b"buckets = ['pics', 'docs']\n".to_vec(alloc)?;
    text.extend_from_slice(nodes())?;
    text.extend_from_slice(KEYS)?;
    Ok(text)
}

/// The nodes of the configuration, behind its line of buckets.
fn nodes() -> &'static [u8] {
    match THREE_NODES.iter().position(|byte| *byte == b'\n') {
        Some(end) if end < THREE_NODES.len() => &THREE_NODES[end..],
        _ => THREE_NODES,
    }
}

/// How a server with the keys ends on one connection that has these bytes, and what is written to it.
fn session(alloc: Global, bytes: &[u8]) -> Result<(Status, Vec<u8>), Fail> {
    let mut link = recorded(alloc, bytes, 65_536)?;
    let end = served_with(alloc, &configuration(alloc)?, ONE_CONNECTION, &mut link)?;
    Ok((end.status, link.written().to_vec(alloc)?))
}

/// Whether a row is answered as it is written.
fn is_answered(alloc: Global, (bytes, wanted): Row) -> Result<bool, Fail> {
    let (status, written) = session(alloc, bytes)?;
    Ok(status == Status::Done && written.as_slice() == wanted)
}

#[test]
fn signed_get(rt: HostRuntime) -> Result<(), Fail> {
    for row in SIGNED_GET {
        assert!(rt; is_answered(rt.alloc(), row)?, "{:?}", row.0);
    }
    Ok(())
}

#[test]
fn methods_with_one_list(rt: HostRuntime) -> Result<(), Fail> {
    for row in METHODS {
        assert!(rt; is_answered(rt.alloc(), row)?, "{:?}", row.0);
    }
    Ok(())
}

#[test]
fn copies_between_buckets(rt: HostRuntime) -> Result<(), Fail> {
    for row in COPIES {
        assert!(rt; is_answered(rt.alloc(), row)?, "{:?}", row.0);
    }
    Ok(())
}

#[test]
fn lists_of_buckets(rt: HostRuntime) -> Result<(), Fail> {
    for row in BUCKETS {
        assert!(rt; is_answered(rt.alloc(), row)?, "{:?}", row.0);
    }
    Ok(())
}

#[test]
fn signed_bodies(rt: HostRuntime) -> Result<(), Fail> {
    for row in BODIES {
        assert!(rt; is_answered(rt.alloc(), row)?, "{:?}", row.0);
    }
    Ok(())
}

/// What the answer of a pair ends with.
fn end_of(alloc: Global, body: &[u8], path: &[u8]) -> Result<Vec<u8>, Fail> {
    let mut end = body.to_vec(alloc)?;
    end.extend_from_slice(path)?;
    end.extend_from_slice(b"</Resource></Error>")?;
    Ok(end)
}

/// Whether a pair is answered with its refusal and nothing else.
fn is_refused(alloc: Global, (bytes, (start, body), path): Pair) -> Result<bool, Fail> {
    let (status, written) = session(alloc, bytes)?;
    let end = end_of(alloc, body, path)?;
    Ok(status == Status::Done && written.starts_with(start) && written.ends_with(&end))
}

/// The request of the first of these pairs that is answered otherwise.
fn differing(alloc: Global, pairs: &[Pair]) -> Result<Option<&'static [u8]>, Fail> {
    for pair in pairs {
        if !is_refused(alloc, *pair)? {
            return Ok(Some(pair.0));
        }
    }
    Ok(None)
}

#[test]
fn bad_target_first(rt: HostRuntime) -> Result<(), Fail> {
    assert_eq!(rt; differing(rt.alloc(), &TARGET_PAIRS)?, None);
    Ok(())
}

#[test]
fn unserved_first(rt: HostRuntime) -> Result<(), Fail> {
    assert_eq!(rt; differing(rt.alloc(), &UNSERVED_PAIRS)?, None);
    Ok(())
}

#[test]
fn unsigned_first(rt: HostRuntime) -> Result<(), Fail> {
    assert_eq!(rt; differing(rt.alloc(), &UNSIGNED_PAIRS)?, None);
    Ok(())
}

#[test]
fn malformed_first(rt: HostRuntime) -> Result<(), Fail> {
    assert_eq!(rt; differing(rt.alloc(), &MALFORMED_PAIRS)?, None);
    Ok(())
}

#[test]
fn unknown_key_first(rt: HostRuntime) -> Result<(), Fail> {
    assert_eq!(rt; differing(rt.alloc(), &UNKNOWN_KEY_PAIRS)?, None);
    Ok(())
}

#[test]
fn skewed_first(rt: HostRuntime) -> Result<(), Fail> {
    assert_eq!(rt; differing(rt.alloc(), &SKEWED_PAIRS)?, None);
    Ok(())
}

#[test]
fn forged_first(rt: HostRuntime) -> Result<(), Fail> {
    assert_eq!(rt; differing(rt.alloc(), &FORGED_PAIRS)?, None);
    Ok(())
}

#[test]
fn denied_first(rt: HostRuntime) -> Result<(), Fail> {
    assert_eq!(rt; differing(rt.alloc(), &DENIED_PAIRS)?, None);
    Ok(())
}

#[test]
fn length_first(rt: HostRuntime) -> Result<(), Fail> {
    assert_eq!(rt; differing(rt.alloc(), &LENGTH_PAIRS)?, None);
    Ok(())
}

#[test]
fn body_first(rt: HostRuntime) -> Result<(), Fail> {
    assert_eq!(rt; differing(rt.alloc(), &BODY_PAIRS)?, None);
    Ok(())
}

/// The line with which a configuration is refused.
fn refusal(alloc: Global, more: &[u8]) -> Result<(Status, Vec<u8>), Fail> {
    let mut text = b"buckets = ['pics']\n".to_vec(alloc)?;
    text.extend_from_slice(more)?;
    text.extend_from_slice(nodes())?;
    let mut link = recorded(alloc, b"", 16)?;
    let end = served_with(alloc, &text, ONE_CONNECTION, &mut link)?;
    Ok((end.status, end.output))
}

/// What stands in a configuration, and its refusal: the fields before the region and the key come first, and the region
/// before the key; the layout after both. What isn't UTF-8 is no TOML.
const CONFIGURATIONS: [Row; 6] = [
    (b"region = '\xff'\n", b"bad toml\n"),
    (b"# \x80\nregion = 'A'\n", b"bad toml\n"),
    (b"region = 'A'\nkey = 1\n", b"bad field region\n"),
    (
        b"key = [{id = 'a', secret = 'b', read = [], write = ['docs']}]\n",
        b"bad field key\n",
    ),
    (b"redundancy = 4\nregion = 'A'\n", b"bad field redundancy\n"),
    (
        b"key = 1\n[[node]]\nid = 4\nzone = 'd'\n",
        b"bad field capacity\n",
    ),
];

#[test]
fn bad_regions_and_keys(rt: HostRuntime) -> Result<(), Fail> {
    for (more, line) in CONFIGURATIONS {
        let (status, written) = refusal(rt.alloc(), more)?;
        assert_eq!(rt; status, Status::Refused);
        assert_eq!(rt; written.as_slice(), line);
    }
    Ok(())
}
