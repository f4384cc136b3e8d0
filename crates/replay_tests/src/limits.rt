//! The limits on a schedule and on its run, and lists that take more than one window. Sums of message sizes are counted
//! by hand from docs/FORMATS.md.
use crate::layout_changes::{ROUND_MOVES_ONE_PARTITION, without_messages};
use crate::transcripts::played;
use lab_outside::Status;
use replay_run::Account;
use std::alloc::Global;
use std::test::Fail;

/// So many times `tick 0`, and then a last line.
fn ticks(alloc: Global, count: usize, last: &[u8]) -> Result<Vec<u8>, Fail> {
    let mut text = Vec::new(alloc);
    for _ in 0..count {
        text.extend_from_slice(b"tick 0\n")?;
    }
    text.extend_from_slice(last)?;
    Ok(text)
}

/// So many puts of objects of this size at node 1, each drained, and then the last lines.
fn puts(alloc: Global, count: u16, size: usize, last: &[u8]) -> Result<Vec<u8>, Fail> {
    let mut text = b"trio\nbucket pics\n".to_vec(alloc)?;
    for i in 0..count {
        let key = 1000 + usize::from(i);
        let lines = format!(in alloc; "put 1 pics {key} {size} 0\ndrain 100\n")?;
        text.extend_from_slice(lines.as_bytes())?;
    }
    text.extend_from_slice(last)?;
    Ok(text)
}

/// The 100,001st event ends the reading, unless a bad line comes before it.
#[test]
fn limit_of_events(rt: HostRuntime) -> Result<(), Fail> {
    let rows: [(usize, &[u8], Status, &[u8]); 3] = [
        (100_001, b"", Status::Limit, b"limit events 100000\n"),
        (
            100_000,
            b"tick  0\ntick 0\n",
            Status::Refused,
            b"bad line 100001\n",
        ),
        (1, b"tick  0\n", Status::Refused, b"bad line 2\n"),
    ];
    for (count, last, wanted, text) in rows {
        let input = ticks(rt.alloc(), count, last)?;
        let (status, found) = played(rt.alloc(), Account::Transcript, &input, &[], &[])?;
        assert_eq!(rt; status, wanted);
        assert_eq!(rt; found.as_slice(), text);
    }
    let input = ticks(rt.alloc(), 100_000, b"")?;
    let (status, text) = played(rt.alloc(), Account::Transcript, &input, &[], &[])?;
    assert_eq!(rt; status, Status::Done);
    assert!(rt; text.ends_with(b"\n100000 tick ok\nend 100000 0 0\n"));
    Ok(())
}

/// A comment of 8,388,608 bytes is an empty schedule, and one byte more is too much.
#[test]
fn limit_of_input(rt: HostRuntime) -> Result<(), Fail> {
    let mut input = Vec::new(rt.alloc());
    for _ in 0..2048 {
        input.extend_from_slice(&[b'#'; 4096])?;
    }
    let (status, text) = played(rt.alloc(), Account::Transcript, &input, &[], &[])?;
    assert_eq!(rt; status, Status::Done);
    assert_eq!(rt; text.as_slice(), b"end 0 0 0\n".as_slice());
    input.push(b'#')?;
    let (status, text) = played(rt.alloc(), Account::Transcript, &input, &[], &[])?;
    assert_eq!(rt; status, Status::Limit);
    assert_eq!(rt; text.as_slice(), b"limit input 8388608\n".as_slice());
    Ok(())
}

/// Each put has three of each of these messages: a get with a key of 32 + 4 bytes (100), an answer without a row (64),
/// the object's row with the version uploading (64 + 62), the version's row with its block (64 + 62), the block's reference
/// with the block (64 + 42 + 65,536), the object's row with the version in blocks (64 + 122), and four confirmations (64
/// each): 199,500 bytes in 30 messages. So 1,345 puts send 268,327,500 bytes, and the 1,346th passes 268,435,456 in its
/// drain, with the second of the three blocks.
#[test]
fn limit_of_bytes_sent(rt: HostRuntime) -> Result<(), Fail> {
    let end: &[u8] =
        b"\n2693 put ok 1346\nsent 40351 get 1 1\nsent 40352 get 1 2\nsent 40353 get 1 3\nlimit sent 268435456\n";
    let input = puts(rt.alloc(), 1400, 65_536, b"")?;
    let (status, text) = played(rt.alloc(), Account::Transcript, &input, &[], &[])?;
    assert_eq!(rt; status, Status::Limit);
    assert!(rt; text.ends_with(end));
    Ok(())
}

/// The same puts of one key. A get has a key of 32 + 1 bytes (97), and rows of the object have three bytes less: the first put
/// sends 199,473 bytes. Each later one is answered the row with the version in blocks (64 + 119), and sends 199,830. So 1,343
/// puts send 268,371,333 bytes, and the 1,344th passes the limit with the first of its three blocks.
#[test]
fn limit_of_bytes_sent_under_one_key(rt: HostRuntime) -> Result<(), Fail> {
    let end: &[u8] =
        b"\n2689 put ok 1344\nsent 40291 get 1 1\nsent 40292 get 1 2\nsent 40293 get 1 3\nlimit sent 268435456\n";
    let mut input = b"trio\nbucket pics\n".to_vec(rt.alloc())?;
    for _ in 0..1400 {
        input.extend_from_slice(b"put 1 pics a 65536 0\ndrain 1000\n")?;
    }
    let (status, text) = played(rt.alloc(), Account::Transcript, &input, &[], &[])?;
    assert_eq!(rt; status, Status::Limit);
    assert!(rt; text.ends_with(end));
    Ok(())
}

/// Each put has 12 messages, and the list two windows of three questions and three answers.
#[test]
fn list_in_two_windows(rt: HostRuntime) -> Result<(), Fail> {
    let input = puts(rt.alloc(), 1001, 1, b"list 2 pics *\ndrain 100\n")?;
    let (status, text) = played(rt.alloc(), Account::Transcript, &input, &[], &[])?;
    assert_eq!(rt; status, Status::Done);
    assert!(rt; text.ends_with(b"\nend 2006 1002 12024\n"));
    let told = without_messages(rt.alloc(), &text)?;
    let listed: &[u8] = b"done 1002 list 1001";
    assert!(rt; told.split(|byte| *byte == b'\n').any(|line| line == listed));
    Ok(())
}

/// The bucket's one partition has 1,001 rows, which a round moves to the nodes of the next layout. Its walks go down by each
/// of 256 first bytes, so they need a longer drain than those of one row.
#[test]
fn round_of_many_rows(rt: HostRuntime) -> Result<(), Fail> {
    let first = b"trio\nbucket pics\nput 1 pics a 1 97\ndrain 100\n";
    let round = ROUND_MOVES_ONE_PARTITION.strip_prefix(first).unwrap_or(b"");
    let mut input = puts(rt.alloc(), 1001, 1, round)?;
    input.extend_from_slice(b"drain 100000\n")?;
    let (status, text) = played(rt.alloc(), Account::Transcript, &input, &[], &[])?;
    assert_eq!(rt; status, Status::Done);
    let told = without_messages(rt.alloc(), &text)?;
    for wanted in [
        b"node 4 rows 1001 ",
        b"node 5 rows 1001 ",
        b"node 6 rows 1001 ",
    ] {
        assert!(rt;
            told.split(|byte| *byte == b'\n')
                .any(|line| line.starts_with(wanted))
        );
    }
    Ok(())
}
