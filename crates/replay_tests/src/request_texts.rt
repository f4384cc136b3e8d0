//! Transcripts of each kind of request, and of messages that are lost and nodes that restart, written by hand.
use crate::layout_changes::without_messages;
use crate::transcripts::played;
use lab_outside::Status;
use replay_run::Account;
use std::test::Fail;

/// A copy, and then a delete of its source.
const COPY_OUTLIVES_ITS_SOURCE: &[u8] = b"\
    trio\n\
    bucket pics\n\
    bucket docs\n\
    tick 1000\n\
    put 1 pics a 3 97\n\
    drain 100\n\
    copy 2 pics a docs b\n\
    drain 100\n\
    delete 3 pics a\n\
    drain 100\n\
    get 1 pics a\n\
    drain 100\n\
    get 1 docs b\n\
    drain 100\n";

/// Its transcript, without the messages.
const COPY_TEXT: &[u8] = b"\
    1 trio ok\n\
    2 bucket ok\n\
    3 bucket ok\n\
    4 tick ok\n\
    5 put ok 1\n\
    6 drain ok\n\
    done 1 put 1000/1\n\
    7 copy ok 2\n\
    8 drain ok\n\
    done 2 copy 1000/2\n\
    9 delete ok 3\n\
    10 drain ok\n\
    done 3 delete 1001/3\n\
    11 get ok 4\n\
    12 drain ok\n\
    done 4 get none\n\
    13 get ok 5\n\
    14 drain ok\n\
    done 5 get 1000/2 3 900150983cd24fb0d6963f7d28e17f72\n\
    node 1 rows 2 blocks 0 top fe1f9af152ec839c2a34a37be66b562496d8f768400c49fe786abb203d16d375\n\
    node 2 rows 2 blocks 0 top fe1f9af152ec839c2a34a37be66b562496d8f768400c49fe786abb203d16d375\n\
    node 3 rows 2 blocks 0 top fe1f9af152ec839c2a34a37be66b562496d8f768400c49fe786abb203d16d375\n\
    end 14 5 54\n";

/// How it ends, with the messages.
const COPY_END: &[u8] = b"\
    13 get ok 5\n\
    sent 49 get 1 1\n\
    sent 50 get 1 2\n\
    sent 51 get 1 3\n\
    14 drain ok\n\
    got 49\n\
    sent 52 row 1 1\n\
    got 50\n\
    sent 53 row 2 1\n\
    got 51\n\
    sent 54 row 3 1\n\
    got 52\n\
    got 53\n\
    done 5 get 1000/2 3 900150983cd24fb0d6963f7d28e17f72\n\
    got 54\n\
    node 1 rows 2 blocks 0 top fe1f9af152ec839c2a34a37be66b562496d8f768400c49fe786abb203d16d375\n\
    node 2 rows 2 blocks 0 top fe1f9af152ec839c2a34a37be66b562496d8f768400c49fe786abb203d16d375\n\
    node 3 rows 2 blocks 0 top fe1f9af152ec839c2a34a37be66b562496d8f768400c49fe786abb203d16d375\n\
    end 14 5 54\n";

/// Deletes of a key that was never written.
const DELETES_OF_AN_ABSENT_KEY: &[u8] = b"\
    trio\n\
    bucket pics\n\
    tick 1000\n\
    delete 1 pics a\n\
    drain 100\n\
    delete 2 pics a\n\
    drain 100\n\
    get 3 pics a\n\
    drain 100\n\
    head 3 pics a\n\
    drain 100\n";

const DELETES_TEXT: &[u8] = b"\
    1 trio ok\n\
    2 bucket ok\n\
    3 tick ok\n\
    4 delete ok 1\n\
    5 drain ok\n\
    done 1 delete 1000/1\n\
    6 delete ok 2\n\
    7 drain ok\n\
    done 2 delete 1001/2\n\
    8 get ok 3\n\
    9 drain ok\n\
    done 3 get none\n\
    10 head ok 4\n\
    11 drain ok\n\
    done 4 head none\n\
    node 1 rows 1 blocks 0 top bd99866c0956d700b718131b10e2085c6f460d121f71cb9b8528ee477a7b7ac5\n\
    node 2 rows 1 blocks 0 top bd99866c0956d700b718131b10e2085c6f460d121f71cb9b8528ee477a7b7ac5\n\
    node 3 rows 1 blocks 0 top bd99866c0956d700b718131b10e2085c6f460d121f71cb9b8528ee477a7b7ac5\n\
    end 11 4 36\n";

/// What is said of an object, without its bytes, and the keys of its bucket.
const HEAD_AND_LIST: &[u8] = b"\
    trio\n\
    bucket pics\n\
    tick 1000\n\
    put 1 pics b 3 97\n\
    drain 100\n\
    head 2 pics b\n\
    drain 100\n\
    put 3 pics a 4 97\n\
    drain 100\n\
    list 1 pics *\n\
    drain 100\n";

const HEAD_TEXT: &[u8] = b"\
    1 trio ok\n\
    2 bucket ok\n\
    3 tick ok\n\
    4 put ok 1\n\
    5 drain ok\n\
    done 1 put 1000/1\n\
    6 head ok 2\n\
    7 drain ok\n\
    done 2 head 1000/1 3\n\
    8 put ok 3\n\
    9 drain ok\n\
    done 3 put 1000/3\n\
    10 list ok 4\n\
    11 drain ok\n\
    done 4 list 2\n\
    key a 1000/3 4\n\
    key b 1000/1 3\n\
    node 1 rows 2 blocks 0 top 33a5dffa5b19d1b706c94406d92db0df35145de206ce43a4f3dd6575c6289111\n\
    node 2 rows 2 blocks 0 top 33a5dffa5b19d1b706c94406d92db0df35145de206ce43a4f3dd6575c6289111\n\
    node 3 rows 2 blocks 0 top 33a5dffa5b19d1b706c94406d92db0df35145de206ce43a4f3dd6575c6289111\n\
    end 11 4 36\n";

/// An object of two blocks. The MD5 is of its 4,097 bytes.
const TWO_BLOCKS: &[u8] =
    b"trio\nbucket pics\ntick 1000\nblock 4096\nput 1 pics a 4097 97\ndrain 1000\nget 2 pics a\ndrain 1000\n";

const BLOCKS_TEXT: &[u8] = b"\
    1 trio ok\n\
    2 bucket ok\n\
    3 tick ok\n\
    4 block ok\n\
    5 put ok 1\n\
    6 drain ok\n\
    done 1 put 1000/1\n\
    7 get ok 2\n\
    8 drain ok\n\
    done 2 get 1000/1 4097 bf42725ddfc8e00fa363605dbb7d1c2e\n\
    node 1 rows 4 blocks 2 top 33781ee0592674fca9502287d2f48315db994f9b7f7ded08a129cbf3113e7ae9\n\
    node 2 rows 4 blocks 2 top 33781ee0592674fca9502287d2f48315db994f9b7f7ded08a129cbf3113e7ae9\n\
    node 3 rows 4 blocks 2 top 33781ee0592674fca9502287d2f48315db994f9b7f7ded08a129cbf3113e7ae9\n\
    end 8 2 66\n";

/// Objects just below the size at which blocks begin, at it, of one whole block, and of a block and a byte. The first blocks
/// of the last two are one.
const SIZES_AROUND_A_BLOCK: &[u8] = b"\
    trio\n\
    bucket pics\n\
    block 4096\n\
    put 1 pics a 3071 0\n\
    drain 1000\n\
    put 1 pics b 3072 0\n\
    drain 1000\n\
    put 1 pics c 4096 0\n\
    drain 1000\n\
    put 1 pics d 4097 0\n\
    drain 1000\n";

const SIZES_TEXT: &[u8] = b"\
    1 trio ok\n\
    2 bucket ok\n\
    3 block ok\n\
    4 put ok 1\n\
    5 drain ok\n\
    done 1 put 1/1\n\
    6 put ok 2\n\
    7 drain ok\n\
    done 2 put 1/2\n\
    8 put ok 3\n\
    9 drain ok\n\
    done 3 put 1/3\n\
    10 put ok 4\n\
    11 drain ok\n\
    done 4 put 1/4\n\
    node 1 rows 11 blocks 3 top 9124f35ec8372efed856b6a6a82473227c960d2ac352b698af44c3ff261f5c5e\n\
    node 2 rows 11 blocks 3 top 9124f35ec8372efed856b6a6a82473227c960d2ac352b698af44c3ff261f5c5e\n\
    node 3 rows 11 blocks 3 top 9124f35ec8372efed856b6a6a82473227c960d2ac352b698af44c3ff261f5c5e\n\
    end 11 4 ";

/// A block whose object is deleted, and which node 1 gives up ten minutes after.
const DELETED_BLOCK: &[u8] = b"\
    trio\n\
    bucket pics\n\
    put 1 pics a 3072 0\n\
    drain 100\n\
    delete 1 pics a\n\
    drain 100\n\
    work 1\n\
    drain 100\n\
    work 1\n\
    drain 100\n\
    tick 599999\n\
    work 1\n\
    tick 1\n\
    work 1\n";

const DELETED_TEXT: &[u8] = b"\
    1 trio ok\n\
    2 bucket ok\n\
    3 put ok 1\n\
    4 drain ok\n\
    done 1 put 1/1\n\
    5 delete ok 2\n\
    6 drain ok\n\
    done 2 delete 2/2\n\
    7 work ok 1 0\n\
    8 drain ok\n\
    9 work ok 1 0\n\
    10 drain ok\n\
    11 tick ok\n\
    12 work ok 0 0\n\
    13 tick ok\n\
    14 work ok 0 1\n\
    node 1 rows 3 blocks 0 top 54c79caf1a6f6a1ca982102abe568ef1c81de49bfbe840aa7d22889f28189420\n\
    node 2 rows 3 blocks 1 top 54c79caf1a6f6a1ca982102abe568ef1c81de49bfbe840aa7d22889f28189420\n\
    node 3 rows 3 blocks 1 top 54c79caf1a6f6a1ca982102abe568ef1c81de49bfbe840aa7d22889f28189420\n\
    end 14 2 ";

/// A copy of a key that was never written.
const COPY_OF_AN_ABSENT_KEY: &[u8] =
    b"trio\nbucket pics\ntick 1000\ncopy 1 pics a pics b\ndrain 100\n";

const ABSENT_COPY_TEXT: &[u8] = b"\
    1 trio ok\n\
    2 bucket ok\n\
    3 tick ok\n\
    4 copy ok 1\n\
    sent 1 get 1 1\n\
    sent 2 get 1 2\n\
    sent 3 get 1 3\n\
    5 drain ok\n\
    got 1\n\
    sent 4 row 1 1\n\
    got 2\n\
    sent 5 row 2 1\n\
    got 3\n\
    sent 6 row 3 1\n\
    got 4\n\
    got 5\n\
    done 1 copy none\n\
    got 6\n\
    node 1 rows 0 blocks 0 top 7e1c26a17bd3d7fa395f34897712e0533bd0d69b934e542d6a4a4fb3ce779cda\n\
    node 2 rows 0 blocks 0 top 7e1c26a17bd3d7fa395f34897712e0533bd0d69b934e542d6a4a4fb3ce779cda\n\
    node 3 rows 0 blocks 0 top 7e1c26a17bd3d7fa395f34897712e0533bd0d69b934e542d6a4a4fb3ce779cda\n\
    end 5 1 6\n";

/// A request whose node restarts, and one of its messages lost.
const LOST_AND_RESTARTED: &[u8] = b"\
    trio\n\
    bucket pics\n\
    tick 1000\n\
    skew 1 500\n\
    put 1 pics a 1 97\n\
    lose 1\n\
    deliver 1\n\
    lose 1\n\
    restart 1\n\
    expire 1\n\
    work 2\n\
    repair 3\n\
    put 1 pics a 1 97\n\
    drain 100\n";

const RESTARTED_TEXT: &[u8] = b"\
    1 trio ok\n\
    2 bucket ok\n\
    3 tick ok\n\
    4 skew ok\n\
    5 put ok 1\n\
    6 lose ok\n\
    7 deliver refused Lost\n\
    8 lose refused Lost\n\
    9 restart ok\n\
    ended 1 restarted\n\
    10 expire refused AlreadyEnded\n\
    11 work ok 0 0\n\
    12 repair ok\n\
    13 put ok 2\n\
    14 drain ok\n\
    done 2 put 1500/2\n\
    node 1 rows 1 blocks 0 top 59e4fe432da9f397be7643fc018a0244e119659a69a3629c23d5853caa8dff49\n\
    node 2 rows 1 blocks 0 top 59e4fe432da9f397be7643fc018a0244e119659a69a3629c23d5853caa8dff49\n\
    node 3 rows 1 blocks 0 top 59e4fe432da9f397be7643fc018a0244e119659a69a3629c23d5853caa8dff49\n\
    end 14 2 17\n";

/// A list of which one answer is lost, and which the other two finish, without the key that was deleted.
const LIST_WITHOUT_DELETED_KEYS: &[u8] = b"\
    trio\n\
    bucket pics\n\
    tick 1000\n\
    put 1 pics a 3 97\n\
    drain 100\n\
    put 1 pics b 4 97\n\
    drain 100\n\
    delete 2 pics a\n\
    drain 100\n\
    list 1 pics *\n\
    deliver 37\n\
    deliver 38\n\
    deliver 39\n\
    lose 40\n\
    deliver 41\n\
    deliver 42\n";

const LOST_ANSWER_TEXT: &[u8] = b"\
    1 trio ok\n\
    2 bucket ok\n\
    3 tick ok\n\
    4 put ok 1\n\
    5 drain ok\n\
    done 1 put 1000/1\n\
    6 put ok 2\n\
    7 drain ok\n\
    done 2 put 1000/2\n\
    8 delete ok 3\n\
    9 drain ok\n\
    done 3 delete 1001/3\n\
    10 list ok 4\n\
    11 deliver ok\n\
    12 deliver ok\n\
    13 deliver ok\n\
    14 lose ok\n\
    15 deliver ok\n\
    16 deliver ok\n\
    done 4 list 1\n\
    key b 1000/2 4\n\
    node 1 rows 2 blocks 0 top ";

/// The put is acknowledged by two of three nodes when its node restarts.
const RESTART_AFTER_QUORUM: &[u8] =
    b"trio\nbucket pics\nput 1 pics a 1 97\ndrain 9\nrestart 1\nget 2 pics a\ndrain 100\n";

const QUORUM_TEXT: &[u8] = b"\
    1 trio ok\n\
    2 bucket ok\n\
    3 put ok 1\n\
    4 drain ok\n\
    5 restart ok\n\
    ended 1 restarted\n\
    6 get ok 2\n\
    7 drain ok\n\
    done 2 get 1/1 1 0cc175b9c0f1b6a831c399e269772661\n\
    node 1 rows 1 blocks 0 top e08502143c1177c4ca538ffec27c9eaa1bb9e0d3d5cdecdacfaf035de8fa2ff5\n";

/// Two puts read an empty row, so both take the clock's time; then one node's clock is ahead.
const CONCURRENT_PUTS_AND_SKEW: &[u8] = b"\
    trio\n\
    bucket pics\n\
    tick 5000\n\
    put 1 pics a 1 97\n\
    put 2 pics a 1 98\n\
    drain 100\n\
    get 3 pics a\n\
    drain 100\n\
    skew 1 3600000\n\
    put 1 pics a 1 97\n\
    drain 100\n\
    put 2 pics a 1 98\n\
    drain 100\n";

const SKEW_TEXT: &[u8] = b"\
    1 trio ok\n\
    2 bucket ok\n\
    3 tick ok\n\
    4 put ok 1\n\
    5 put ok 2\n\
    6 drain ok\n\
    done 1 put 5000/1\n\
    done 2 put 5000/2\n\
    7 get ok 3\n\
    8 drain ok\n\
    done 3 get 5000/2 1 92eb5ffee6ae2fec3ad71c777531578f\n\
    9 skew ok\n\
    10 put ok 4\n\
    11 drain ok\n\
    done 4 put 3605000/4\n\
    12 put ok 5\n\
    13 drain ok\n\
    done 5 put 3605001/5\n\
    node 1 rows 1 blocks 0 top ";

/// Requests of every kind, a restart, an expiry, and a get whose version row is read after its object was deleted. The
/// finished reads and the writes of their keys that were acknowledged before them, in order: 1 of `a`, 2 of `a` and `b`,
/// 1 of `c`, 2 of `b`, 1 of `a`, 2 of `b`, 2 of `d`.
const CHECKED: &[u8] = b"\
    trio\n\
    bucket pics\n\
    block 4096\n\
    put 1 pics a 3 97\n\
    drain 100\n\
    put 2 pics b 3 98\n\
    drain 100\n\
    get 3 pics a\n\
    drain 100\n\
    list 1 pics *\n\
    drain 100\n\
    copy 1 pics a pics c\n\
    drain 100\n\
    head 2 pics c\n\
    drain 100\n\
    delete 3 pics b\n\
    drain 100\n\
    get 2 pics b\n\
    drain 100\n\
    put 1 pics a 4 97\n\
    drain 3\n\
    restart 1\n\
    get 3 pics a\n\
    drain 100\n\
    get 1 pics a\n\
    expire 11\n\
    drain 100\n\
    list 2 pics b\n\
    drain 100\n\
    put 1 pics d 3072 0\n\
    drain 100\n\
    get 2 pics d\n\
    deliver 133\n\
    deliver 134\n\
    deliver 136\n\
    deliver 137\n\
    delete 1 pics d\n\
    deliver 141\n\
    deliver 142\n\
    deliver 144\n\
    deliver 145\n\
    deliver 146\n\
    deliver 147\n\
    deliver 148\n\
    deliver 149\n\
    deliver 150\n\
    work 1\n\
    deliver 152\n\
    deliver 153\n\
    deliver 154\n\
    deliver 138\n\
    deliver 139\n\
    deliver 158\n\
    deliver 159\n\
    drain 200\n\
    get 1 pics d\n\
    drain 100\n";

const CHECKED_END: &[u8] = b"fresh 11\nend 57 16 168\n";

/// Schedules with their transcripts, of which the messages are left out, and how each ends with its messages.
#[test]
fn transcripts_of_requests(rt: HostRuntime) -> Result<(), Fail> {
    let rows: [(&[u8], &[u8], &[u8]); 5] = [
        (COPY_OUTLIVES_ITS_SOURCE, COPY_TEXT, COPY_END),
        (DELETES_OF_AN_ABSENT_KEY, DELETES_TEXT, b"end 11 4 36\n"),
        (HEAD_AND_LIST, HEAD_TEXT, b"end 11 4 36\n"),
        (TWO_BLOCKS, BLOCKS_TEXT, b"end 8 2 66\n"),
        (LOST_AND_RESTARTED, RESTARTED_TEXT, b"end 14 2 17\n"),
    ];
    for (schedule, wanted, end) in rows {
        let (status, text) = played(rt.alloc(), Account::Transcript, schedule, &[], &[])?;
        assert_eq!(rt; status, Status::Done);
        assert!(rt; text.ends_with(end));
        assert_eq!(rt; without_messages(rt.alloc(), &text)?.as_slice(), wanted);
    }
    Ok(())
}

/// Schedules with the first part of their transcripts, of which the messages are left out.
#[test]
fn transcripts_of_blocks_and_lists(rt: HostRuntime) -> Result<(), Fail> {
    let rows: [(&[u8], &[u8]); 5] = [
        (SIZES_AROUND_A_BLOCK, SIZES_TEXT),
        (DELETED_BLOCK, DELETED_TEXT),
        (LIST_WITHOUT_DELETED_KEYS, LOST_ANSWER_TEXT),
        (RESTART_AFTER_QUORUM, QUORUM_TEXT),
        (CONCURRENT_PUTS_AND_SKEW, SKEW_TEXT),
    ];
    for (schedule, wanted) in rows {
        let (status, text) = played(rt.alloc(), Account::Transcript, schedule, &[], &[])?;
        assert_eq!(rt; status, Status::Done);
        let told = without_messages(rt.alloc(), &text)?;
        assert_eq!(rt; &told[..wanted.len().min(told.len())], wanted);
    }
    Ok(())
}

#[test]
fn copy_of_an_absent_key(rt: HostRuntime) -> Result<(), Fail> {
    let (status, text) = played(
        rt.alloc(),
        Account::Transcript,
        COPY_OF_AN_ABSENT_KEY,
        &[],
        &[],
    )?;
    assert_eq!(rt; status, Status::Done);
    assert_eq!(rt; text.as_slice(), ABSENT_COPY_TEXT);
    Ok(())
}

/// A get that read its object's row before a delete, and its block after it; then the deleted reference is queued.
const GET_BESIDE_A_DELETE: &[u8] = b"\
    trio\n\
    bucket pics\n\
    put 1 pics a 3072 0\n\
    drain 100\n\
    get 1 pics a\n\
    drain 3\n\
    delete 2 pics a\n\
    drain 30\n\
    work 1\n\
    drain 100\n";

/// What the transcript has of it, in this order. The MD5 is of the object's 3,072 bytes.
const OUTLIVED_PARTS: [&[u8]; 6] = [
    b"8 drain ok\n",
    b"got 56\ndone 3 delete 2/3\n",
    b"got 58\ndone 2 get 1/1 3072 9fbab1246f634b8947f77fcc0f880856\n",
    b"9 work ok 1 0\nsent 61 store 1 1\nsent 62 store 1 2\nsent 63 store 1 3\n10 drain ok\n",
    b"node 1 rows 3 blocks 1 top ",
    b"node 3 rows 3 blocks 1 top ",
];

/// Where a text goes on after the first place of a part.
fn past<'a>(text: &'a [u8], part: &[u8]) -> Option<&'a [u8]> {
    for start in 0..text.len() {
        let rest = &text[start..];
        if rest.starts_with(part) {
            return rest.get(part.len()..);
        }
    }
    None
}

/// A get that has found its version is answered with the bytes, although a delete is acknowledged before it ends, and each
/// node keeps the block as long as its reference is live.
#[test]
fn get_outlives_delete(rt: HostRuntime) -> Result<(), Fail> {
    let (status, text) = played(
        rt.alloc(),
        Account::Transcript,
        GET_BESIDE_A_DELETE,
        &[],
        &[],
    )?;
    assert_eq!(rt; status, Status::Done);
    let mut rest = text.as_slice();
    for part in OUTLIVED_PARTS {
        let Some(later) = past(rest, part) else {
            return Err(Fail::new("a part that is missing"));
        };
        rest = later;
    }
    Ok(())
}

/// The get of an object that was deleted and cleaned up meanwhile is superseded, and counts for nothing in the check.
#[test]
fn get_is_superseded(rt: HostRuntime) -> Result<(), Fail> {
    let (status, text) = played(rt.alloc(), Account::Checked, CHECKED, &[], &[])?;
    assert_eq!(rt; status, Status::Done);
    assert!(rt; text.ends_with(CHECKED_END));
    let superseded: &[u8] = b"54 deliver ok\ngot 159\nended 14 superseded\n";
    assert!(rt;
        text.windows(superseded.len())
            .any(|part| part == superseded)
    );
    Ok(())
}
