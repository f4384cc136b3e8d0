//! Accounts of requests: transcripts of one put and one get, with a line other than it should be.
use crate::audits::{audited, count_lines, joined, repeated, replaced};
use lab_outside::Status;
use std::alloc::Global;
use std::test::Fail;

pub const FIRST_SCHEDULE: &[u8] = b"\
    trio\n\
    bucket pics\n\
    tick 1000\n\
    put 1 pics a 3 97\n\
    drain 100\n\
    get 2 pics a\n\
    drain 100\n";

/// What a replay of it tells.
pub const FIRST_TRANSCRIPT: &[u8] = b"\
    1 trio ok\n\
    2 bucket ok\n\
    3 tick ok\n\
    4 put ok 1\n\
    sent 1 get 1 1\n\
    sent 2 get 1 2\n\
    sent 3 get 1 3\n\
    5 drain ok\n\
    got 1\n\
    sent 4 row 1 1\n\
    got 2\n\
    sent 5 row 2 1\n\
    got 3\n\
    sent 6 row 3 1\n\
    got 4\n\
    got 5\n\
    sent 7 store 1 1\n\
    sent 8 store 1 2\n\
    sent 9 store 1 3\n\
    got 6\n\
    got 7\n\
    sent 10 stored 1 1\n\
    got 8\n\
    sent 11 stored 2 1\n\
    got 9\n\
    sent 12 stored 3 1\n\
    got 10\n\
    got 11\n\
    done 1 put 1000/1\n\
    got 12\n\
    6 get ok 2\n\
    sent 13 get 2 1\n\
    sent 14 get 2 2\n\
    sent 15 get 2 3\n\
    7 drain ok\n\
    got 13\n\
    sent 16 row 1 2\n\
    got 14\n\
    sent 17 row 2 2\n\
    got 15\n\
    sent 18 row 3 2\n\
    got 16\n\
    got 17\n\
    done 2 get 1000/1 3 900150983cd24fb0d6963f7d28e17f72\n\
    got 18\n\
    node 1 rows 1 blocks 0 top 087ba7b7095045284bb9c4115b2a2c69aa1046e928faf9626fd9ebcdeff5c1ff\n\
    node 2 rows 1 blocks 0 top 087ba7b7095045284bb9c4115b2a2c69aa1046e928faf9626fd9ebcdeff5c1ff\n\
    node 3 rows 1 blocks 0 top 087ba7b7095045284bb9c4115b2a2c69aa1046e928faf9626fd9ebcdeff5c1ff\n\
    end 7 2 18\n";

/// The line of the get's answer, counted from 0.
const ANSWER: usize = 43;

/// The line `got 18`, counted from 0.
const LAST_DELIVERY: usize = 44;

/// What is found of this transcript of that schedule.
pub fn found(alloc: Global, transcript: &[u8]) -> Result<(Status, Vec<u8>), Fail> {
    audited(alloc, &joined(alloc, FIRST_SCHEDULE, transcript)?)
}

#[test]
fn audit_of_first_put_and_get(rt: HostRuntime) -> Result<(), Fail> {
    let (status, text) = found(rt.alloc(), FIRST_TRANSCRIPT)?;
    assert_eq!(rt; status, Status::Done);
    assert_eq!(rt; text.as_slice(), b"audit ok 1\n".as_slice());
    Ok(())
}

#[test]
fn last_line_without_its_line_feed(rt: HostRuntime) -> Result<(), Fail> {
    let (status, text) = found(rt.alloc(), &FIRST_TRANSCRIPT[..FIRST_TRANSCRIPT.len() - 1])?;
    assert_eq!(rt; status, Status::Done);
    assert_eq!(rt; text.as_slice(), b"audit ok 1\n".as_slice());
    Ok(())
}

#[test]
fn stale_answer(rt: HostRuntime) -> Result<(), Fail> {
    let transcript = replaced(rt.alloc(), FIRST_TRANSCRIPT, ANSWER, b"done 2 get none")?;
    let (status, text) = found(rt.alloc(), &transcript)?;
    assert_eq!(rt; status, Status::Refused);
    assert_eq!(rt; text.as_slice(), b"stale 2\n".as_slice());
    Ok(())
}

#[test]
fn missing_line(rt: HostRuntime) -> Result<(), Fail> {
    let transcript = repeated(rt.alloc(), FIRST_TRANSCRIPT, LAST_DELIVERY, 0)?;
    let (status, text) = found(rt.alloc(), &transcript)?;
    assert_eq!(rt; status, Status::Refused);
    assert_eq!(rt; text.as_slice(), b"differs 45\n".as_slice());
    Ok(())
}

/// A line in place of another, with what is found then.
#[test]
fn other_lines(rt: HostRuntime) -> Result<(), Fail> {
    let rows: [(usize, &[u8], &[u8]); 10] = [
        (0, b"1 trio", b"unreadable 1\n"),
        (0, b"1 bucket ok", b"unreadable 1\n"),
        (0, b"1  trio ok", b"unreadable 1\n"),
        (0, b"1 trio refused VersionTaken 1", b"differs 1\n"),
        (3, b"4 put ok", b"unreadable 4\n"),
        (3, b"4 put ok 3", b"unreadable 29\n"),
        (4, b"sent 1 get 1 9", b"differs 5\n"),
        (4, b"fresh 1", b"differs 5\n"),
        (ANSWER, b"done 2 put 1000/1", b"unreadable 44\n"),
        (
            ANSWER,
            b"done 2 get 1000/1 4 900150983cd24fb0d6963f7d28e17f72",
            b"differs 44\n",
        ),
    ];
    for (at, line, finding) in rows {
        let transcript = replaced(rt.alloc(), FIRST_TRANSCRIPT, at, line)?;
        let (status, text) = found(rt.alloc(), &transcript)?;
        assert_eq!(rt; status, Status::Refused);
        assert_eq!(rt; text.as_slice(), finding);
    }
    Ok(())
}

/// Each line left out, and each twice: none is found well.
#[test]
fn lines_left_out_and_repeated(rt: HostRuntime) -> Result<(), Fail> {
    for at in 0..count_lines(FIRST_TRANSCRIPT) {
        for times in [0, 2] {
            let transcript = repeated(rt.alloc(), FIRST_TRANSCRIPT, at, times)?;
            let (status, _) = found(rt.alloc(), &transcript)?;
            assert_eq!(rt; status, Status::Refused);
        }
    }
    Ok(())
}

/// Transcripts that end too early or too late.
#[test]
fn first_and_further_lines(rt: HostRuntime) -> Result<(), Fail> {
    let (status, text) = found(rt.alloc(), b"")?;
    assert_eq!(rt; status, Status::Refused);
    assert_eq!(rt; text.as_slice(), b"differs 1\n".as_slice());
    let mut longer = FIRST_TRANSCRIPT.to_vec(rt.alloc())?;
    longer.extend_from_slice(b"got 18\n")?;
    let (status, text) = found(rt.alloc(), &longer)?;
    assert_eq!(rt; status, Status::Refused);
    assert_eq!(rt; text.as_slice(), b"differs 50\n".as_slice());
    Ok(())
}
