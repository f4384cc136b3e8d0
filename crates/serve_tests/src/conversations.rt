//! Conversations of signed requests, and with a layout change: each call of a server's links fails in turn (test_links), and
//! one connection is cut after each byte.
use crate::changes::{PUT_AND_GET, PUT_AND_GET_ANSWERS, TO_NEW_NODES};
use crate::signed_gets::SIGNED_GET;
use crate::{changes, signed};
use lab_outside::Status;
use std::alloc::Global;
use std::test::Fail;
use test_links::{
    Conversation, ONE_CONNECTION, ONE_LAYOUT, SHORT_ANSWER, goes_on, recorded, served_with,
};

/// The answer to the put of `abc`.
const PUT_ANSWER: &[u8] = b"\
    HTTP/1.1 200 OK\r\n\
    Date: Tue, 14 Nov 2023 22:13:20 GMT\r\n\
    Content-Length: 0\r\n\
    ETag: \"900150983cd24fb0d6963f7d28e17f72\"\r\n\r\n";

/// What a server's lines begin with that went on to new nodes.
const TWO_LAYOUTS: &[u8] = b"p 0 255 1 2 3\np 0 255 4 5 6\nnode 1 rows ";

/// A put and a get that are signed.
fn signed_requests(alloc: Global) -> Result<Conversation, Fail> {
    let rows = SIGNED_GET;
    let (asks, answers) = rows[0];
    Ok(Conversation {
        configuration: signed::configuration(alloc)?,
        asks: asks.to_vec(alloc)?,
        answers: answers.to_vec(alloc)?,
        size: 100,
        lines: ONE_LAYOUT,
    })
}

/// A put and a get, between which the layout changes.
fn with_a_change(alloc: Global) -> Result<Conversation, Fail> {
    Ok(Conversation {
        configuration: changes::configuration(alloc, &[TO_NEW_NODES])?,
        asks: PUT_AND_GET.to_vec(alloc)?,
        answers: PUT_AND_GET_ANSWERS.to_vec(alloc)?,
        size: 50,
        lines: TWO_LAYOUTS,
    })
}

#[test]
fn signed_requests_with_each_call_failing(rt: HostRuntime) -> Result<(), Fail> {
    let it = signed_requests(rt.alloc())?;
    assert!(rt; goes_on(rt.alloc(), &it, 2)?);
    Ok(())
}

#[test]
fn a_change_with_each_call_failing(rt: HostRuntime) -> Result<(), Fail> {
    let it = with_a_change(rt.alloc())?;
    assert!(rt; goes_on(rt.alloc(), &it, 2)?);
    Ok(())
}

/// What is answered where a put and a get are cut after so many bytes: nothing before the put's head is whole, and the refusal
/// of its body before its three bytes have come.
fn wanted(it: &Conversation, head: usize, count: usize) -> &[u8] {
    let put = head.saturating_add(3);
    if count < head {
        b""
    } else if count < put {
        SHORT_ANSWER
    } else if count < it.asks.len() {
        PUT_ANSWER
    } else {
        &it.answers
    }
}

/// The first byte from `from` to `to` after which a put and a get are cut and answered otherwise than they should. The layout
/// changes once the put has reached the cluster.
fn differing(
    alloc: Global,
    it: &Conversation,
    head: usize,
    from: usize,
    to: usize,
) -> Result<Option<usize>, Fail> {
    for count in from..=to {
        let mut link = recorded(alloc, it.asks.get(..count).unwrap_or(b""), 65_536)?;
        let end = served_with(alloc, &it.configuration, ONE_CONNECTION, &mut link)?;
        let lines = if count < head.saturating_add(3) {
            ONE_LAYOUT
        } else {
            it.lines
        };
        let is_right = end.status == Status::Done && end.output.starts_with(lines);
        if !is_right || link.written() != wanted(it, head, count) {
            return Ok(Some(count));
        }
    }
    Ok(None)
}

/// A signed put's head has 398 bytes.
#[test]
fn signed_put_cut_after_each_byte(rt: HostRuntime) -> Result<(), Fail> {
    let it = signed_requests(rt.alloc())?;
    assert_eq!(rt; differing(rt.alloc(), &it, 398, 0, 400)?, None);
    Ok(())
}

#[test]
fn signed_get_cut_after_each_byte(rt: HostRuntime) -> Result<(), Fail> {
    let it = signed_requests(rt.alloc())?;
    assert_eq!(rt; differing(rt.alloc(), &it, 398, 401, it.asks.len())?, None);
    Ok(())
}

#[test]
fn a_change_cut_after_each_byte(rt: HostRuntime) -> Result<(), Fail> {
    let it = with_a_change(rt.alloc())?;
    assert_eq!(rt; differing(rt.alloc(), &it, 47, 0, it.asks.len())?, None);
    Ok(())
}
