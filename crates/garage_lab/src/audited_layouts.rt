//! Transcripts that print a layout, worked out by hand.
//!
//! Three nodes with 256,000 bytes in three zones keep the 256 partitions of 1,000 bytes each. With 1,001 bytes each node has
//! room for 255, so the cut whose side has every vertex but the sink weighs three times 255, which is 765. A node that isn't
//! on the side costs the 256 edges to it in place of its room: with one or two left out the cut is lighter than 768 all the
//! same. The top is the BLAKE2b-256 of 768 times 32 zero bytes, by Python's hashlib.
use crate::audits::{audited, count_lines, joined, repeated, replaced};
use lab_outside::Status;
use std::alloc::Global;
use std::test::Fail;

const SCHEDULE: &[u8] = b"\
    role 1 a 256000\n\
    role 2 b 256000\n\
    role 3 c 256000\n\
    apply 1\n";

const TRANSCRIPT: &[u8] = b"\
    1 role ok\n\
    2 role ok\n\
    3 role ok\n\
    4 apply ok 1\n\
    size 1000\n\
    redundancy 3\n\
    p 0 255 1 2 3\n\
    cut 1001 765\n\
    c 0 255 up down z:a z:b z:c\n\
    cn 1 2 3\n\
    node 1 rows 0 blocks 0 top 7e1c26a17bd3d7fa395f34897712e0533bd0d69b934e542d6a4a4fb3ce779cda\n\
    end 4 0 0\n";

/// What is found of this transcript of that schedule.
fn found(alloc: Global, transcript: &[u8]) -> Result<(Status, Vec<u8>), Fail> {
    audited(alloc, &joined(alloc, SCHEDULE, transcript)?)
}

#[test]
fn printed_layout_is_lawful(rt: HostRuntime) -> Result<(), Fail> {
    let (status, text) = found(rt.alloc(), TRANSCRIPT)?;
    assert_eq!(rt; status, Status::Done);
    assert_eq!(rt; text.as_slice(), b"audit ok 0\n".as_slice());
    Ok(())
}

/// A line in place of another, with what is found then.
#[test]
fn other_lines_of_a_layout(rt: HostRuntime) -> Result<(), Fail> {
    let rows: [(usize, &[u8], &[u8]); 17] = [
        (4, b"size 0", b"unlawful 5\n"),
        (4, b"size 999", b"unlawful 5\n"),
        (4, b"size 1001", b"unlawful 5\n"),
        (5, b"redundancy 2", b"differs 6\n"),
        (6, b"p 0 254 1 2 3", b"unlawful 5\n"),
        (6, b"p 1 255 1 2 3", b"unlawful 5\n"),
        (6, b"p 0 255 1 2 4", b"unlawful 5\n"),
        (6, b"p 0 255 1 2 2", b"unlawful 5\n"),
        (6, b"p 0 255 3 2 1", b"differs 7\n"),
        (7, b"cut 1001 764", b"differs 8\n"),
        (8, b"c 0 254 up down z:a z:b z:c", b"unlawful 5\n"),
        (8, b"c 0 255 up down z:a z:b z:d", b"unlawful 5\n"),
        (9, b"cn 1 2", b"differs 8\n"),
        (9, b"cn 1", b"differs 8\n"),
        (9, b"cn", b"unlawful 5\n"),
        (9, b"cn 3 2 1", b"differs 10\n"),
        (8, b"c 0 255 up down z:c z:b z:a", b"differs 9\n"),
    ];
    for (at, line, finding) in rows {
        let transcript = replaced(rt.alloc(), TRANSCRIPT, at, line)?;
        let (status, text) = found(rt.alloc(), &transcript)?;
        assert_eq!(rt; status, Status::Refused);
        assert_eq!(rt; text.as_slice(), finding);
    }
    Ok(())
}

/// Each line left out, and each twice: none is found well.
#[test]
fn lines_of_a_layout_left_out_and_repeated(rt: HostRuntime) -> Result<(), Fail> {
    for at in 0..count_lines(TRANSCRIPT) {
        for times in [0, 2] {
            let transcript = repeated(rt.alloc(), TRANSCRIPT, at, times)?;
            let (status, _) = found(rt.alloc(), &transcript)?;
            assert_eq!(rt; status, Status::Refused);
        }
    }
    Ok(())
}

/// The sets of two runs, without a gap and with one, and a layout that is judged by what the transcript says was staged.
#[test]
fn other_transcripts_of_a_layout(rt: HostRuntime) -> Result<(), Fail> {
    let rows: [(usize, &[u8], &[u8]); 3] = [
        (6, b"p 0 99 1 2 3\np 100 255 1 2 3", b"differs 7\n"),
        (6, b"p 0 99 1 2 3\np 101 255 1 2 3", b"unlawful 5\n"),
        (1, b"2 role refused NotMember", b"unlawful 5\n"),
    ];
    for (at, line, finding) in rows {
        let transcript = replaced(rt.alloc(), TRANSCRIPT, at, line)?;
        let (status, text) = found(rt.alloc(), &transcript)?;
        assert_eq!(rt; status, Status::Refused);
        assert_eq!(rt; text.as_slice(), finding);
    }
    Ok(())
}
