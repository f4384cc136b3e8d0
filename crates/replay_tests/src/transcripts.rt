//! What no clause says: that the answers come with ample memory, and which text a schedule has in whole.
use lab_outside::{MemSink, MemSource, Status, SureSink, SureSource};
use replay_command::run_replay;
use replay_run::Account;
use std::alloc::Global;
use std::test::Fail;

/// Three nodes, one put, one get.
const FIRST_PUT_AND_GET: &[u8] =
    b"trio\nbucket pics\ntick 1000\nput 1 pics a 3 97\ndrain 100\nget 2 pics a\ndrain 100\n";

/// The same, with message 14 delivered twice before the last line.
const REPEATED_GET_ANSWERS: &[u8] =
    b"trio\nbucket pics\ntick 1000\nput 1 pics a 3 97\ndrain 100\nget 2 pics a\ndeliver 14\ndeliver 14\ndrain 100";

/// What is told of the first six lines of both.
const PUT: &[u8] = b"\
    1 trio ok\n\
    2 bucket ok\n\
    3 tick ok\n\
    4 put ok 1\n\
    sent 1 get 1 1\n\
    sent 2 get 1 2\n\
    sent 3 get 1 3\n\
    5 drain ok\n\
    got 1\n\
    sent 4 row 1 1\n\
    got 2\n\
    sent 5 row 2 1\n\
    got 3\n\
    sent 6 row 3 1\n\
    got 4\n\
    got 5\n\
    sent 7 store 1 1\n\
    sent 8 store 1 2\n\
    sent 9 store 1 3\n\
    got 6\n\
    got 7\n\
    sent 10 stored 1 1\n\
    got 8\n\
    sent 11 stored 2 1\n\
    got 9\n\
    sent 12 stored 3 1\n\
    got 10\n\
    got 11\n\
    done 1 put 1000/1\n\
    got 12\n\
    6 get ok 2\n\
    sent 13 get 2 1\n\
    sent 14 get 2 2\n\
    sent 15 get 2 3\n";

const FIRST_GET: &[u8] = b"\
    7 drain ok\n\
    got 13\n\
    sent 16 row 1 2\n\
    got 14\n\
    sent 17 row 2 2\n\
    got 15\n\
    sent 18 row 3 2\n\
    got 16\n\
    got 17\n\
    done 2 get 1000/1 3 900150983cd24fb0d6963f7d28e17f72\n\
    got 18\n\
    node 1 rows 1 blocks 0 top 087ba7b7095045284bb9c4115b2a2c69aa1046e928faf9626fd9ebcdeff5c1ff\n\
    node 2 rows 1 blocks 0 top 087ba7b7095045284bb9c4115b2a2c69aa1046e928faf9626fd9ebcdeff5c1ff\n\
    node 3 rows 1 blocks 0 top 087ba7b7095045284bb9c4115b2a2c69aa1046e928faf9626fd9ebcdeff5c1ff\n\
    end 7 2 18\n";

const REPEATED_GET: &[u8] = b"\
    7 deliver ok\n\
    got 14\n\
    sent 16 row 2 2\n\
    8 deliver ok\n\
    got 14\n\
    sent 17 row 2 2\n\
    9 drain ok\n\
    got 13\n\
    sent 18 row 1 2\n\
    got 15\n\
    sent 19 row 3 2\n\
    got 16\n\
    got 17\n\
    got 18\n\
    done 2 get 1000/1 3 900150983cd24fb0d6963f7d28e17f72\n\
    got 19\n\
    node 1 rows 1 blocks 0 top 087ba7b7095045284bb9c4115b2a2c69aa1046e928faf9626fd9ebcdeff5c1ff\n\
    node 2 rows 1 blocks 0 top 087ba7b7095045284bb9c4115b2a2c69aa1046e928faf9626fd9ebcdeff5c1ff\n\
    node 3 rows 1 blocks 0 top 087ba7b7095045284bb9c4115b2a2c69aa1046e928faf9626fd9ebcdeff5c1ff\n\
    end 9 2 19\n";

/// A layout is applied while a put is open.
const ACK_WAITS_FOR_OPEN_REQUEST: &[u8] = b"\
    trio\n\
    bucket pics\n\
    role 1 a gateway\n\
    role 2 b gateway\n\
    role 3 c gateway\n\
    role 4 a 1000\n\
    role 5 b 1000\n\
    role 6 c 1000\n\
    put 1 pics a 1 97\n\
    apply 1\n\
    ack 1\n\
    expire 1\n\
    ack 1\n";

/// Its transcript.
const OPEN_REQUEST_TEXT: &[u8] = b"\
    1 trio ok\n\
    2 bucket ok\n\
    3 role ok\n\
    4 role ok\n\
    5 role ok\n\
    6 role ok\n\
    7 role ok\n\
    8 role ok\n\
    9 put ok 1\n\
    sent 1 get 1 1\n\
    sent 2 get 1 2\n\
    sent 3 get 1 3\n\
    10 apply ok 2\n\
    size 3\n\
    redundancy 3\n\
    p 0 255 4 5 6\n\
    cut 4 750\n\
    c 0 255 up z:a z:b z:c\n\
    cn 4 5 6\n\
    11 ack ok 1\n\
    12 expire ok\n\
    ended 1 expired\n\
    13 ack ok 2\n\
    node 1 rows 0 blocks 0 top 7e1c26a17bd3d7fa395f34897712e0533bd0d69b934e542d6a4a4fb3ce779cda\n\
    node 2 rows 0 blocks 0 top 7e1c26a17bd3d7fa395f34897712e0533bd0d69b934e542d6a4a4fb3ce779cda\n\
    node 3 rows 0 blocks 0 top 7e1c26a17bd3d7fa395f34897712e0533bd0d69b934e542d6a4a4fb3ce779cda\n\
    end 13 1 3\n";

/// Node 3 leaves, and learns of it before node 2 does.
const MEMBER_OF_ITS_NEWEST_VERSION: &[u8] = b"\
    trio\n\
    bucket pics\n\
    role 3 none\n\
    role 4 c 1000\n\
    apply 1\n\
    gossip 1 3\n\
    drain 1\n\
    get 3 pics a\n\
    apply 2\n\
    get 2 pics a\n\
    get 2 none a\n";

/// Its transcript.
const LEAVING_TEXT: &[u8] = b"\
    1 trio ok\n\
    2 bucket ok\n\
    3 role ok\n\
    4 role ok\n\
    5 apply ok 2\n\
    size 3\n\
    redundancy 3\n\
    p 0 255 1 2 4\n\
    cut 4 750\n\
    c 0 255 up z:a z:b z:c\n\
    cn 1 2 4\n\
    6 gossip ok\n\
    sent 1 view 1 3\n\
    7 drain ok\n\
    got 1\n\
    8 get refused NotMember\n\
    9 apply refused VersionTaken 2\n\
    10 get ok 1\n\
    sent 2 get 2 1\n\
    sent 3 get 2 2\n\
    sent 4 get 2 3\n\
    11 get refused NoSuchBucket\n\
    node 1 rows 0 blocks 0 top 7e1c26a17bd3d7fa395f34897712e0533bd0d69b934e542d6a4a4fb3ce779cda\n\
    node 2 rows 0 blocks 0 top 7e1c26a17bd3d7fa395f34897712e0533bd0d69b934e542d6a4a4fb3ce779cda\n\
    node 3 rows 0 blocks 0 top 7e1c26a17bd3d7fa395f34897712e0533bd0d69b934e542d6a4a4fb3ce779cda\n\
    end 11 1 4\n";

/// What a run writes over an empty world that refuses each event.
const EMPTY_WORLD: &[u8] = b"apply 1\ndeliver 1\nexpire 1\n";

const EMPTY_WORLD_TEXT: &[u8] =
    b"1 apply refused TooFewNodes 0\n2 deliver refused NoSuchMessage\n3 expire refused NoSuchRequest\nend 3 0 0\n";

/// Repairs of a node without rows and of none, and a lost message that wasn't sent.
const REPAIR_WITHOUT_ROWS: &[u8] = b"trio\nrepair 1\nrepair 4\nlose 1\n";

const REPAIR_TEXT: &[u8] = b"\
    1 trio ok\n\
    2 repair ok\n\
    3 repair refused NotMember\n\
    4 lose refused NoSuchMessage\n\
    node 1 rows 0 blocks 0 top 7e1c26a17bd3d7fa395f34897712e0533bd0d69b934e542d6a4a4fb3ce779cda\n\
    node 2 rows 0 blocks 0 top 7e1c26a17bd3d7fa395f34897712e0533bd0d69b934e542d6a4a4fb3ce779cda\n\
    node 3 rows 0 blocks 0 top 7e1c26a17bd3d7fa395f34897712e0533bd0d69b934e542d6a4a4fb3ce779cda\n\
    end 4 0 0\n";

/// Node 3 never got a row: the repair pushes it there, and nothing to node 2, which has the same.
const REPAIR_PUSHES_WHAT_DIFFERS: &[u8] = b"\
    trio\n\
    bucket pics\n\
    put 1 pics a 1 97\n\
    drain 6\n\
    lose 9\n\
    drain 10\n\
    repair 1\n\
    drain 10\n";

const REPAIR_PUSHES_TEXT: &[u8] = b"\
    1 trio ok\n\
    2 bucket ok\n\
    3 put ok 1\n\
    sent 1 get 1 1\n\
    sent 2 get 1 2\n\
    sent 3 get 1 3\n\
    4 drain ok\n\
    got 1\n\
    sent 4 row 1 1\n\
    got 2\n\
    sent 5 row 2 1\n\
    got 3\n\
    sent 6 row 3 1\n\
    got 4\n\
    got 5\n\
    sent 7 store 1 1\n\
    sent 8 store 1 2\n\
    sent 9 store 1 3\n\
    got 6\n\
    5 lose ok\n\
    6 drain ok\n\
    got 7\n\
    sent 10 stored 1 1\n\
    got 8\n\
    sent 11 stored 2 1\n\
    got 10\n\
    got 11\n\
    done 1 put 1/1\n\
    7 repair ok\n\
    sent 12 walk 1 2\n\
    sent 13 walk 1 3\n\
    8 drain ok\n\
    got 12\n\
    sent 14 same 2 1\n\
    got 13\n\
    sent 15 differ 3 1\n\
    got 14\n\
    got 15\n\
    sent 16 store 1 3\n\
    got 16\n\
    sent 17 stored 3 1\n\
    got 17\n\
    node 1 rows 1 blocks 0 top e08502143c1177c4ca538ffec27c9eaa1bb9e0d3d5cdecdacfaf035de8fa2ff5\n\
    node 2 rows 1 blocks 0 top e08502143c1177c4ca538ffec27c9eaa1bb9e0d3d5cdecdacfaf035de8fa2ff5\n\
    node 3 rows 1 blocks 0 top e08502143c1177c4ca538ffec27c9eaa1bb9e0d3d5cdecdacfaf035de8fa2ff5\n\
    end 8 1 17\n";

/// The last line lacks its line feed.
const TRIO_WITHOUT_LINE_FEED: &[u8] = b"trio";

const TRIO_TEXT: &[u8] = b"\
    1 trio ok\n\
    node 1 rows 0 blocks 0 top 7e1c26a17bd3d7fa395f34897712e0533bd0d69b934e542d6a4a4fb3ce779cda\n\
    node 2 rows 0 blocks 0 top 7e1c26a17bd3d7fa395f34897712e0533bd0d69b934e542d6a4a4fb3ce779cda\n\
    node 3 rows 0 blocks 0 top 7e1c26a17bd3d7fa395f34897712e0533bd0d69b934e542d6a4a4fb3ce779cda\n\
    end 1 0 0\n";

/// Of a put's rows one is lost, one comes twice, and of a get's questions one is lost.
const LOST_STORE_AND_REPEATED_DELIVERIES: &[u8] = b"\
    trio\n\
    bucket pics\n\
    put 1 pics a 1 97\n\
    drain 6\n\
    lose 9\n\
    deliver 7\n\
    deliver 7\n\
    deliver 8\n\
    drain 10\n\
    get 3 pics a\n\
    lose 13\n\
    drain 10\n";

/// Its transcript: two answers of node 1 confirm once, and nodes 2 and 3 answer the get.
const LOST_STORE_TEXT: &[u8] = b"\
    1 trio ok\n\
    2 bucket ok\n\
    3 put ok 1\n\
    sent 1 get 1 1\n\
    sent 2 get 1 2\n\
    sent 3 get 1 3\n\
    4 drain ok\n\
    got 1\n\
    sent 4 row 1 1\n\
    got 2\n\
    sent 5 row 2 1\n\
    got 3\n\
    sent 6 row 3 1\n\
    got 4\n\
    got 5\n\
    sent 7 store 1 1\n\
    sent 8 store 1 2\n\
    sent 9 store 1 3\n\
    got 6\n\
    5 lose ok\n\
    6 deliver ok\n\
    got 7\n\
    sent 10 stored 1 1\n\
    7 deliver ok\n\
    got 7\n\
    sent 11 stored 1 1\n\
    8 deliver ok\n\
    got 8\n\
    sent 12 stored 2 1\n\
    9 drain ok\n\
    got 10\n\
    got 11\n\
    got 12\n\
    done 1 put 1/1\n\
    10 get ok 2\n\
    sent 13 get 3 1\n\
    sent 14 get 3 2\n\
    sent 15 get 3 3\n\
    11 lose ok\n\
    12 drain ok\n\
    got 14\n\
    sent 16 row 2 3\n\
    got 15\n\
    sent 17 row 3 3\n\
    got 16\n\
    got 17\n\
    done 2 get 1/1 1 0cc175b9c0f1b6a831c399e269772661\n\
    node 1 rows 1 blocks 0 top e08502143c1177c4ca538ffec27c9eaa1bb9e0d3d5cdecdacfaf035de8fa2ff5\n\
    node 2 rows 1 blocks 0 top e08502143c1177c4ca538ffec27c9eaa1bb9e0d3d5cdecdacfaf035de8fa2ff5\n\
    node 3 rows 0 blocks 0 top 7e1c26a17bd3d7fa395f34897712e0533bd0d69b934e542d6a4a4fb3ce779cda\n\
    end 12 2 17\n";

/// Three nodes in one zone, where three zones are asked for, and then two.
const REDUNDANCY_OVER_ONE_ZONE: &[u8] = b"\
    redundancy 3\n\
    role 1 a 1000\n\
    role 2 a 1000\n\
    role 3 a 1000\n\
    apply 1\n\
    redundancy 2\n\
    apply 1\n";

const REDUNDANCY_TEXT: &[u8] = b"\
    1 redundancy ok\n\
    2 role ok\n\
    3 role ok\n\
    4 role ok\n\
    5 apply refused TooFewZones 1 3\n\
    6 redundancy ok\n\
    7 apply refused TooFewZones 1 2\n\
    end 7 0 0\n";

/// The status and the bytes of a replay whose reads and writes with these numbers fail.
pub fn played(
    alloc: Global,
    account: Account,
    input: &[u8],
    reads: &[u64],
    writes: &[u64],
) -> Result<(Status, Vec<u8>), Fail> {
    let mut source = MemSource::new(input.to_vec(alloc)?, reads.to_vec(alloc)?);
    let mut sink = MemSink::new(alloc, writes.to_vec(alloc)?);
    let status = run_replay(alloc, account, &mut source, &mut sink);
    Ok((status, sink.bytes().to_vec(alloc)?))
}

/// Whether a text is the one and then the other.
fn is_joined(text: &[u8], first: &[u8], second: &[u8]) -> bool {
    text.starts_with(first) && &text[first.len().min(text.len())..] == second
}

/// Whether a run over a source and a sink without faults writes the transcript.
fn is_surely_written(alloc: Global) -> Result<bool, Fail> {
    let mut source = SureSource::new(FIRST_PUT_AND_GET.to_vec(alloc)?);
    let mut sink = SureSink::new(alloc, 4096)?;
    let status = run_replay(alloc, Account::Transcript, &mut source, &mut sink);
    let text = sink.bytes().unwrap_or(b"");
    Ok(status == Status::Done && is_joined(text, PUT, FIRST_GET))
}

#[test]
fn first_put_and_get(rt: HostRuntime) -> Result<(), Fail> {
    assert!(rt; is_surely_written(rt.alloc())?);
    Ok(())
}

/// Schedules with their whole transcripts, each in two parts.
#[test]
fn transcripts(rt: HostRuntime) -> Result<(), Fail> {
    let rows: [(&[u8], &[u8], &[u8]); 11] = [
        (FIRST_PUT_AND_GET, PUT, FIRST_GET),
        (REPEATED_GET_ANSWERS, PUT, REPEATED_GET),
        (b"", b"end 0 0 0\n", b""),
        (ACK_WAITS_FOR_OPEN_REQUEST, OPEN_REQUEST_TEXT, b""),
        (MEMBER_OF_ITS_NEWEST_VERSION, LEAVING_TEXT, b""),
        (EMPTY_WORLD, EMPTY_WORLD_TEXT, b""),
        (REPAIR_WITHOUT_ROWS, REPAIR_TEXT, b""),
        (REPAIR_PUSHES_WHAT_DIFFERS, REPAIR_PUSHES_TEXT, b""),
        (TRIO_WITHOUT_LINE_FEED, TRIO_TEXT, b""),
        (LOST_STORE_AND_REPEATED_DELIVERIES, LOST_STORE_TEXT, b""),
        (REDUNDANCY_OVER_ONE_ZONE, REDUNDANCY_TEXT, b""),
    ];
    for (schedule, first, second) in rows {
        let (status, text) = played(rt.alloc(), Account::Transcript, schedule, &[], &[])?;
        assert_eq!(rt; status, Status::Done);
        assert!(rt; is_joined(&text, first, second));
    }
    Ok(())
}

#[test]
fn kth_read_fails(rt: HostRuntime) -> Result<(), Fail> {
    for (k, wanted) in [
        (1, Status::ReadFault),
        (2, Status::ReadFault),
        (3, Status::Done),
    ] {
        let (status, text) = played(
            rt.alloc(),
            Account::Transcript,
            FIRST_PUT_AND_GET,
            &[k],
            &[],
        )?;
        assert_eq!(rt; status, wanted, "at read {k}");
        assert_eq!(rt; text.is_empty(), k < 3, "at read {k}");
    }
    Ok(())
}

/// Whether a text is less than the transcript, and begins as it does.
fn is_cut_short(text: &[u8]) -> bool {
    match text.strip_prefix(PUT) {
        Some(rest) => rest.len() < FIRST_GET.len() && FIRST_GET.starts_with(rest),
        None => PUT.starts_with(text),
    }
}

#[test]
fn kth_write_fails(rt: HostRuntime) -> Result<(), Fail> {
    let mut last = 0;
    for k in 1..=8 {
        let (status, text) = played(
            rt.alloc(),
            Account::Transcript,
            FIRST_PUT_AND_GET,
            &[],
            &[k],
        )?;
        assert_eq!(rt; status, Status::WriteFault, "at write {k}");
        assert!(rt; is_cut_short(&text), "at write {k}");
        assert!(rt; k == 1 || last < text.len(), "at write {k}");
        last = text.len();
    }
    let (status, _) = played(
        rt.alloc(),
        Account::Transcript,
        FIRST_PUT_AND_GET,
        &[],
        &[9],
    )?;
    assert_eq!(rt; status, Status::Done);
    Ok(())
}

/// The first line that is none of a schedule is named: a word that is no event, and bytes above 127 in a key. In a comment they
/// are nothing.
#[test]
fn line_out_of_grammar(rt: HostRuntime) -> Result<(), Fail> {
    let rows: [(&[u8], Status, &[u8]); 4] = [
        (b"trio\n\nfoo\nbar\n", Status::Refused, b"bad line 3\n"),
        (
            b"trio\nbucket pics\nput 1 pics caf\xc3\xa9 1 97\nfoo\n",
            Status::Refused,
            b"bad line 3\n",
        ),
        (b"\n\nget 1 pics \xff", Status::Refused, b"bad line 3\n"),
        (b"# caf\xc3\xa9 \xff\n", Status::Done, b"end 0 0 0\n"),
    ];
    for (input, wanted, line) in rows {
        let (status, text) = played(rt.alloc(), Account::Transcript, input, &[], &[])?;
        assert_eq!(rt; status, wanted);
        assert_eq!(rt; text.as_slice(), line);
    }
    Ok(())
}
