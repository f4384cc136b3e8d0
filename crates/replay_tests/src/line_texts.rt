//! Transcript lines written by hand.
use blake2_hash::Hash32;
use cluster_machine::applied::{Line, Refusal};
use cluster_machine::{DoneWord, EndWord, SentKind, Words};
use crdt_core::{Bytes, List, Memory};
use event_text::{end_text, line_text, name, node_text, told_text};
use layout_flow::Cut;
use std::alloc::Global;
use std::test::Fail;
use store_model::Event;

/// The MD5 of `abc` (RFC 1321).
const ABC: [u8; 16] = [
    0x90, 0x01, 0x50, 0x98, 0x3c, 0xd2, 0x4f, 0xb0, 0xd6, 0x96, 0x3f, 0x7d, 0x28, 0xe1, 0x7f, 0x72,
];

const VERSION: Option<(u64, u64)> = Some((1000, 1));

fn done(
    request: u64,
    word: DoneWord,
    version: Option<(u64, u64)>,
    size: Option<u64>,
    md5: Option<[u8; 16]>,
) -> Line {
    Line::Done {
        request,
        word,
        version,
        size,
        md5,
    }
}

fn sent(number: u64, kind: SentKind, from: u8, to: u8) -> Line {
    Line::Sent {
        number,
        kind,
        from,
        to,
    }
}

fn ended(word: EndWord) -> Line {
    Line::Ended { request: 4, word }
}

const DROPPED: Line = Line::Dropped {
    node: 16,
    ts: 86_400_000,
    id: 12,
};

#[test]
fn writes_each_kind_of_line(rt: HostRuntime) -> Result<(), Fail> {
    let rows: [(Line, &[u8]); 15] = [
        (Line::Got(14), b"got 14\n"),
        (sent(16, SentKind::Row, 2, 12), b"sent 16 row 2 12\n"),
        (
            done(1, DoneWord::Put, VERSION, None, None),
            b"done 1 put 1000/1\n",
        ),
        (
            done(2, DoneWord::Get, VERSION, Some(3), Some(ABC)),
            b"done 2 get 1000/1 3 900150983cd24fb0d6963f7d28e17f72\n",
        ),
        (
            done(30, DoneWord::Get, None, None, None),
            b"done 30 get none\n",
        ),
        (
            done(3, DoneWord::Head, VERSION, Some(65_536), None),
            b"done 3 head 1000/1 65536\n",
        ),
        (
            done(4, DoneWord::Delete, VERSION, None, None),
            b"done 4 delete 1000/1\n",
        ),
        (
            done(5, DoneWord::Copy, None, None, None),
            b"done 5 copy none\n",
        ),
        (Line::Synced(16, 2), b"synced 16 2\n"),
        (sent(13, SentKind::Tomb, 1, 16), b"sent 13 tomb 1 16\n"),
        (sent(87, SentKind::Forget, 1, 2), b"sent 87 forget 1 2\n"),
        (DROPPED, b"dropped 16 86400000/12\n"),
        (ended(EndWord::Expired), b"ended 4 expired\n"),
        (ended(EndWord::Restarted), b"ended 4 restarted\n"),
        (ended(EndWord::Superseded), b"ended 4 superseded\n"),
    ];
    for (line, text) in &rows {
        assert_eq!(rt; line_text(rt.alloc(), line)?.as_slice(), *text);
    }
    Ok(())
}

fn listed(alloc: Global) -> Result<Line, Memory> {
    let mut keys = List::new(alloc);
    keys.push((Bytes::from_slice(alloc, b"a")?, 1000, 1, 3))?;
    keys.push((Bytes::from_slice(alloc, b"b/c")?, 2000, 12, 0))?;
    Ok(Line::Listed { request: 5, keys })
}

#[test]
fn writes_a_list_of_keys(rt: HostRuntime) -> Result<(), Fail> {
    let written = line_text(rt.alloc(), &listed(rt.alloc())?)?;
    let wanted = b"done 5 list 2\nkey a 1000/1 3\nkey b/c 2000/12 0\n".as_slice();
    assert_eq!(rt; written.as_slice(), wanted);
    Ok(())
}

#[test]
fn writes_the_lines_of_an_event(rt: HostRuntime) -> Result<(), Fail> {
    let lines = [
        sent(1, SentKind::Get, 1, 1),
        sent(2, SentKind::Stored, 1, 2),
    ];
    let put = told_text(rt.alloc(), 4, b"put", &None, &Words::One(1), &lines)?;
    let wanted = b"4 put ok 1\nsent 1 get 1 1\nsent 2 stored 1 2\n".as_slice();
    assert_eq!(rt; put.as_slice(), wanted);
    Ok(())
}

#[test]
fn writes_the_words_of_an_event(rt: HostRuntime) -> Result<(), Fail> {
    let rows: [(Words, &[u8]); 3] = [
        (Words::Empty, b"8 sync ok\n"),
        (Words::Idle(1, 3), b"8 sync ok idle 1 3\n"),
        (Words::Two(12, 0), b"8 sync ok 12 0\n"),
    ];
    for (words, text) in rows {
        let written = told_text(rt.alloc(), 8, b"sync", &None, &words, &[])?;
        assert_eq!(rt; written.as_slice(), text);
    }
    Ok(())
}

#[test]
fn writes_refusals_with_their_numbers(rt: HostRuntime) -> Result<(), Fail> {
    let cut = Cut {
        size: 1,
        weight: 767,
        side: List::new(rt.alloc()),
    };
    let rows: [(Refusal, &[u8]); 11] = [
        (
            Refusal::VersionTaken(1),
            b"7 apply refused VersionTaken 1\n",
        ),
        (Refusal::NotMember, b"7 apply refused NotMember\n"),
        (Refusal::NoSuchBucket, b"7 apply refused NoSuchBucket\n"),
        (Refusal::NoSuchMessage, b"7 apply refused NoSuchMessage\n"),
        (Refusal::TooFewNodes(0), b"7 apply refused TooFewNodes 0\n"),
        (
            Refusal::TooFewZones(2, 3),
            b"7 apply refused TooFewZones 2 3\n",
        ),
        (
            Refusal::NoAssignment(cut),
            b"7 apply refused NoAssignment 767\n",
        ),
        (Refusal::VersionLimit, b"7 apply refused VersionLimit\n"),
        (Refusal::Lost, b"7 apply refused Lost\n"),
        (Refusal::NoSuchRequest, b"7 apply refused NoSuchRequest\n"),
        (Refusal::AlreadyEnded, b"7 apply refused AlreadyEnded\n"),
    ];
    for (refusal, text) in rows {
        let written = told_text(rt.alloc(), 7, b"apply", &Some(refusal), &Words::Empty, &[])?;
        assert_eq!(rt; written.as_slice(), text);
    }
    Ok(())
}

#[test]
fn writes_the_line_of_a_node(rt: HostRuntime) -> Result<(), Fail> {
    let mut top = [0; 32];
    top[0] = 0xab;
    top[31] = 1;
    let written = node_text(rt.alloc(), 16, 12, 3, &Hash32(top))?;
    let wanted =
        b"node 16 rows 12 blocks 3 top ab00000000000000000000000000000000000000000000000000000000000001\n".as_slice();
    assert_eq!(rt; written.as_slice(), wanted);
    Ok(())
}

#[test]
fn writes_the_last_line(rt: HostRuntime) -> Result<(), Fail> {
    let greatest = end_text(rt.alloc(), 7, 2, u64::MAX)?;
    let wanted = b"end 7 2 18446744073709551615\n".as_slice();
    assert_eq!(rt; greatest.as_slice(), wanted);
    Ok(())
}

#[test]
fn names_events(rt: HostRuntime) {
    let rows: [(Event, &[u8]); 10] = [
        (Event::Trio, b"trio"),
        (Event::Tick(0), b"tick"),
        (Event::Deliver(1), b"deliver"),
        (Event::Drain(1), b"drain"),
        (Event::Gossip { from: 1, to: 2 }, b"gossip"),
        (Event::SyncAck(3), b"syncack"),
        (Event::Lose(1), b"lose"),
        (Event::Work(3), b"work"),
        (Event::Repair(3), b"repair"),
        (Event::Collect(3), b"collect"),
    ];
    for (event, word) in &rows {
        assert_eq!(rt; name(event), *word);
    }
}
