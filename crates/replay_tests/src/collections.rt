//! Delete markers and their collections: whole transcripts, worked out by hand.
use crate::transcripts::played;
use lab_outside::Status;
use replay_run::Account;
use std::alloc::Global;
use std::test::Fail;

/// Lines of a transcript.
#[derive(Clone, Copy)]
enum Part {
    Text(&'static [u8]),
    /// Node 1 sends a message of this kind to each of nodes 2 to 16, the first of them with this number.
    Sent(&'static str, u64),
    /// Tombstones come, the first of them with this number, to each node from this one to node 16, and are confirmed, first by
    /// a message with this number.
    Confirmed { first: u64, node: u64, answer: u64 },
    /// So many messages come, from this number on, and do nothing.
    Come(u64, u64),
}

/// A key that was never written is deleted: all three nodes keep its marker, 1/1.
const DELETED: &[u8] = b"\
    1 trio ok\n\
    2 bucket ok\n\
    3 delete ok 1\n\
    sent 1 get 1 1\n\
    sent 2 get 1 2\n\
    sent 3 get 1 3\n\
    4 drain ok\n\
    got 1\n\
    sent 4 row 1 1\n\
    got 2\n\
    sent 5 row 2 1\n\
    got 3\n\
    sent 6 row 3 1\n\
    got 4\n\
    got 5\n\
    sent 7 store 1 1\n\
    sent 8 store 1 2\n\
    sent 9 store 1 3\n\
    got 6\n\
    got 7\n\
    sent 10 stored 1 1\n\
    got 8\n\
    sent 11 stored 2 1\n\
    got 9\n\
    sent 12 stored 3 1\n\
    got 10\n\
    got 11\n\
    done 1 delete 1/1\n\
    got 12\n";

/// A day later the first round of the marker's collection is made.
const DAY_LATER: &[Part] = &[
    Part::Text(DELETED),
    Part::Text(b"5 tick ok\n6 tick ok\n7 collect ok 1 1\n"),
    Part::Sent("tomb", 13),
    Part::Text(b"8 drain ok\n"),
    Part::Confirmed {
        first: 13,
        node: 2,
        answer: 28,
    },
    Part::Come(28, 15),
];

/// The lines of three nodes without rows.
const NO_ROWS: &[u8] = b"\
    node 1 rows 0 blocks 0 top 7e1c26a17bd3d7fa395f34897712e0533bd0d69b934e542d6a4a4fb3ce779cda\n\
    node 2 rows 0 blocks 0 top 7e1c26a17bd3d7fa395f34897712e0533bd0d69b934e542d6a4a4fb3ce779cda\n\
    node 3 rows 0 blocks 0 top 7e1c26a17bd3d7fa395f34897712e0533bd0d69b934e542d6a4a4fb3ce779cda\n";

/// The lines of three nodes with the row of a put at 97200001/2.
const PUT_ROWS: &[u8] = b"\
    node 1 rows 1 blocks 0 top 79935233a3ce35f156540825da7427100bc84732287cc51c67e824468f8b6397\n\
    node 2 rows 1 blocks 0 top 79935233a3ce35f156540825da7427100bc84732287cc51c67e824468f8b6397\n\
    node 3 rows 1 blocks 0 top 79935233a3ce35f156540825da7427100bc84732287cc51c67e824468f8b6397\n";

/// A marker is a day old to the millisecond and isn't collected yet, then is, in two rounds three hours apart.
const COLLECTED: &[u8] = b"\
    trio\n\
    bucket pics\n\
    delete 1 pics a\n\
    drain 100\n\
    tick 86400000\n\
    collect 1\n\
    tick 1\n\
    collect 1\n\
    drain 100\n\
    tick 10800000\n\
    collect 1\n\
    drain 100\n\
    get 2 pics a\n\
    drain 100\n";

const COLLECTED_TEXT: &[Part] = &[
    Part::Text(DELETED),
    Part::Text(b"5 tick ok\n6 collect ok 0 0\n7 tick ok\n8 collect ok 1 1\n"),
    Part::Sent("tomb", 13),
    Part::Text(b"9 drain ok\n"),
    Part::Confirmed {
        first: 13,
        node: 2,
        answer: 28,
    },
    Part::Come(28, 15),
    Part::Text(b"10 tick ok\n11 collect ok 0 1\n"),
    Part::Sent("tomb", 43),
    Part::Text(b"12 drain ok\n"),
    Part::Confirmed {
        first: 43,
        node: 2,
        answer: 58,
    },
    Part::Come(58, 15),
    Part::Text(b"dropped 1 1/1\n"),
    Part::Sent("forget", 73),
    Part::Text(b"got 73\ndropped 2 1/1\ngot 74\ndropped 3 1/1\n"),
    Part::Come(75, 13),
    Part::Text(
        b"\
        13 get ok 2\n\
        sent 88 get 2 1\n\
        sent 89 get 2 2\n\
        sent 90 get 2 3\n\
        14 drain ok\n\
        got 88\n\
        sent 91 row 1 2\n\
        got 89\n\
        sent 92 row 2 2\n\
        got 90\n\
        sent 93 row 3 2\n\
        got 91\n\
        got 92\n\
        done 2 get none\n\
        got 93\n",
    ),
    Part::Text(NO_ROWS),
    Part::Text(b"end 14 2 93\n"),
];

/// Between the rounds node 1 learns of version 2: the collection is closed, and the marker stays.
const NEW_VERSION: &[u8] = b"\
    trio\n\
    bucket pics\n\
    delete 1 pics a\n\
    drain 100\n\
    tick 86400000\n\
    collect 1\n\
    tick 1\n\
    collect 1\n\
    drain 100\n\
    tick 10800000\n\
    role 4 c 500\n\
    apply 1\n\
    gossip 1 5\n\
    drain 100\n\
    collect 1\n\
    drain 100\n\
    get 2 pics a\n\
    drain 100\n";

/// Its transcript up to the layout that is applied, and past it.
const BEFORE_VERSION: &[Part] = &[
    Part::Text(DELETED),
    Part::Text(b"5 tick ok\n6 collect ok 0 0\n7 tick ok\n8 collect ok 1 1\n"),
    Part::Sent("tomb", 13),
    Part::Text(b"9 drain ok\n"),
    Part::Confirmed {
        first: 13,
        node: 2,
        answer: 28,
    },
    Part::Come(28, 15),
    Part::Text(b"10 tick ok\n11 role ok\n12 apply ok 2\nsize 3\nredundancy 3\n"),
];

const PAST_VERSION: &[Part] = &[Part::Text(
    b"\
        13 gossip ok\n\
        sent 43 view 1 5\n\
        14 drain ok\n\
        got 43\n\
        15 collect ok 0 0\n\
        16 drain ok\n\
        17 get ok 2\n\
        sent 44 get 2 1\n\
        sent 45 get 2 2\n\
        sent 46 get 2 3\n\
        18 drain ok\n\
        got 44\n\
        sent 47 row 1 2\n\
        got 45\n\
        sent 48 row 2 2\n\
        got 46\n\
        sent 49 row 3 2\n\
        got 47\n\
        got 48\n\
        done 2 get none\n\
        got 49\n\
        node 1 rows 1 blocks 0 top e4e4741a8a74eca8b3630236a08ed0d1403ae06a237f06deff235931bb3bb510\n\
        node 2 rows 1 blocks 0 top e4e4741a8a74eca8b3630236a08ed0d1403ae06a237f06deff235931bb3bb510\n\
        node 3 rows 1 blocks 0 top e4e4741a8a74eca8b3630236a08ed0d1403ae06a237f06deff235931bb3bb510\n\
        node 5 rows 0 blocks 0 top 7e1c26a17bd3d7fa395f34897712e0533bd0d69b934e542d6a4a4fb3ce779cda\n\
        end 18 2 49\n",
)];

/// Between the rounds the marker is overwritten: its collection is closed.
const OVERWRITTEN: &[u8] = b"\
    trio\n\
    bucket pics\n\
    delete 1 pics a\n\
    drain 100\n\
    tick 86400000\n\
    tick 1\n\
    collect 1\n\
    drain 100\n\
    put 2 pics a 1 97\n\
    drain 100\n\
    tick 10800000\n\
    collect 1\n\
    drain 100\n\
    get 3 pics a\n\
    drain 100\n";

const OVERWRITTEN_TEXT: &[u8] = b"\
    9 put ok 2\n\
    sent 43 get 2 1\n\
    sent 44 get 2 2\n\
    sent 45 get 2 3\n\
    10 drain ok\n\
    got 43\n\
    sent 46 row 1 2\n\
    got 44\n\
    sent 47 row 2 2\n\
    got 45\n\
    sent 48 row 3 2\n\
    got 46\n\
    got 47\n\
    sent 49 store 2 1\n\
    sent 50 store 2 2\n\
    sent 51 store 2 3\n\
    got 48\n\
    got 49\n\
    sent 52 stored 1 2\n\
    got 50\n\
    sent 53 stored 2 2\n\
    got 51\n\
    sent 54 stored 3 2\n\
    got 52\n\
    got 53\n\
    done 2 put 86400001/2\n\
    got 54\n\
    11 tick ok\n\
    12 collect ok 0 0\n\
    13 drain ok\n\
    14 get ok 3\n\
    sent 55 get 3 1\n\
    sent 56 get 3 2\n\
    sent 57 get 3 3\n\
    15 drain ok\n\
    got 55\n\
    sent 58 row 1 3\n\
    got 56\n\
    sent 59 row 2 3\n\
    got 57\n\
    sent 60 row 3 3\n\
    got 58\n\
    got 59\n\
    done 3 get 86400001/2 1 0cc175b9c0f1b6a831c399e269772661\n\
    got 60\n\
    node 1 rows 1 blocks 0 top e9a906ac54636bede4454746d468a5569f0636a8b586868991a52b02f3706000\n\
    node 2 rows 1 blocks 0 top e9a906ac54636bede4454746d468a5569f0636a8b586868991a52b02f3706000\n\
    node 3 rows 1 blocks 0 top e9a906ac54636bede4454746d468a5569f0636a8b586868991a52b02f3706000\n\
    end 15 3 60\n";

/// Node 1 stores a put while the second round is confirmed: the round is complete, and nothing is dropped.
const PUT_MEANWHILE: &[u8] = b"\
    trio\n\
    bucket pics\n\
    delete 1 pics a\n\
    drain 100\n\
    tick 86400000\n\
    tick 1\n\
    collect 1\n\
    drain 100\n\
    tick 10800000\n\
    collect 1\n\
    drain 15\n\
    put 1 pics a 1 97\n\
    deliver 73\n\
    deliver 74\n\
    deliver 76\n\
    deliver 77\n\
    deliver 78\n\
    drain 100\n\
    collect 1\n";

const PUT_MEANWHILE_TEXT: &[Part] = &[
    Part::Text(b"9 tick ok\n10 collect ok 0 1\n"),
    Part::Sent("tomb", 43),
    Part::Text(b"11 drain ok\n"),
    Part::Confirmed {
        first: 43,
        node: 2,
        answer: 58,
    },
    Part::Text(
        b"\
        12 put ok 2\n\
        sent 73 get 1 1\n\
        sent 74 get 1 2\n\
        sent 75 get 1 3\n\
        13 deliver ok\n\
        got 73\n\
        sent 76 row 1 1\n\
        14 deliver ok\n\
        got 74\n\
        sent 77 row 2 1\n\
        15 deliver ok\n\
        got 76\n\
        16 deliver ok\n\
        got 77\n\
        sent 78 store 1 1\n\
        sent 79 store 1 2\n\
        sent 80 store 1 3\n\
        17 deliver ok\n\
        got 78\n\
        sent 81 stored 1 1\n\
        18 drain ok\n",
    ),
    Part::Come(58, 15),
    Part::Text(
        b"\
        got 75\n\
        sent 82 row 3 1\n\
        got 79\n\
        sent 83 stored 2 1\n\
        got 80\n\
        sent 84 stored 3 1\n\
        got 81\n\
        got 82\n\
        got 83\n\
        done 2 put 97200001/2\n\
        got 84\n\
        19 collect ok 0 0\n",
    ),
    Part::Text(PUT_ROWS),
    Part::Text(b"end 19 2 84\n"),
];

/// Node 1 restarts between the rounds: another collection begins, from its first round on, and a confirmation of the one before
/// doesn't count.
const RESTARTED: &[u8] = b"\
    trio\n\
    bucket pics\n\
    delete 1 pics a\n\
    drain 100\n\
    tick 86400000\n\
    tick 1\n\
    collect 1\n\
    drain 100\n\
    tick 10800000\n\
    restart 1\n\
    collect 1\n\
    deliver 42\n\
    drain 100\n\
    tick 10799999\n\
    collect 1\n\
    tick 1\n\
    collect 1\n\
    drain 100\n";

const RESTARTED_TEXT: &[Part] = &[
    Part::Text(b"9 tick ok\n10 restart ok\n11 collect ok 1 1\n"),
    Part::Sent("tomb", 43),
    Part::Text(b"12 deliver ok\ngot 42\n13 drain ok\n"),
    Part::Confirmed {
        first: 43,
        node: 2,
        answer: 58,
    },
    Part::Come(58, 15),
    Part::Text(b"14 tick ok\n15 collect ok 0 1\n16 tick ok\n17 collect ok 0 1\n"),
    Part::Sent("tomb", 73),
    Part::Text(b"18 drain ok\n"),
    Part::Confirmed {
        first: 73,
        node: 2,
        answer: 88,
    },
    Part::Come(88, 15),
    Part::Text(b"dropped 1 1/1\n"),
    Part::Sent("forget", 103),
    Part::Text(b"got 103\ndropped 2 1/1\ngot 104\ndropped 3 1/1\n"),
    Part::Come(105, 13),
    Part::Text(NO_ROWS),
    Part::Text(b"end 18 1 117\n"),
];

/// A tombstone of the second round is lost, and a confirmation of the first one comes late and doesn't count: that node alone
/// is asked again. A confirmation that comes when all is over does nothing.
const LATE: &[u8] = b"\
    trio\n\
    bucket pics\n\
    delete 1 pics a\n\
    drain 100\n\
    tick 86400000\n\
    tick 1\n\
    collect 1\n\
    drain 100\n\
    tick 10800000\n\
    collect 1\n\
    lose 43\n\
    deliver 28\n\
    drain 100\n\
    collect 1\n\
    drain 100\n\
    deliver 73\n";

const LATE_TEXT: &[Part] = &[
    Part::Text(b"9 tick ok\n10 collect ok 0 1\n"),
    Part::Sent("tomb", 43),
    Part::Text(b"11 lose ok\n12 deliver ok\ngot 28\n13 drain ok\n"),
    Part::Confirmed {
        first: 44,
        node: 3,
        answer: 58,
    },
    Part::Come(58, 14),
    Part::Text(
        b"\
        14 collect ok 0 1\n\
        sent 72 tomb 1 2\n\
        15 drain ok\n\
        got 72\n\
        sent 73 tombed 2 1\n\
        got 73\n\
        dropped 1 1/1\n",
    ),
    Part::Sent("forget", 74),
    Part::Text(b"got 74\ndropped 2 1/1\ngot 75\ndropped 3 1/1\n"),
    Part::Come(76, 13),
    Part::Text(b"16 deliver ok\ngot 73\n"),
    Part::Text(NO_ROWS),
    Part::Text(b"end 16 1 88\n"),
];

/// Node 2 is told twice to forget, and node 3 when it has another row of the key by then, which stays.
const FORGOTTEN: &[u8] = b"\
    trio\n\
    bucket pics\n\
    delete 1 pics a\n\
    drain 100\n\
    tick 86400000\n\
    tick 1\n\
    collect 1\n\
    drain 100\n\
    tick 10800000\n\
    collect 1\n\
    drain 30\n\
    deliver 73\n\
    deliver 73\n\
    put 3 pics a 1 97\n\
    deliver 88\n\
    deliver 89\n\
    deliver 91\n\
    deliver 92\n\
    deliver 95\n\
    drain 100\n\
    get 1 pics a\n\
    drain 100\n";

const FORGOTTEN_TEXT: &[Part] = &[
    Part::Text(b"9 tick ok\n10 collect ok 0 1\n"),
    Part::Sent("tomb", 43),
    Part::Text(b"11 drain ok\n"),
    Part::Confirmed {
        first: 43,
        node: 2,
        answer: 58,
    },
    Part::Come(58, 15),
    Part::Text(b"dropped 1 1/1\n"),
    Part::Sent("forget", 73),
    Part::Text(
        b"\
        12 deliver ok\n\
        got 73\n\
        dropped 2 1/1\n\
        13 deliver ok\n\
        got 73\n\
        14 put ok 2\n\
        sent 88 get 3 1\n\
        sent 89 get 3 2\n\
        sent 90 get 3 3\n\
        15 deliver ok\n\
        got 88\n\
        sent 91 row 1 3\n\
        16 deliver ok\n\
        got 89\n\
        sent 92 row 2 3\n\
        17 deliver ok\n\
        got 91\n\
        18 deliver ok\n\
        got 92\n\
        sent 93 store 3 1\n\
        sent 94 store 3 2\n\
        sent 95 store 3 3\n\
        19 deliver ok\n\
        got 95\n\
        sent 96 stored 3 3\n\
        20 drain ok\n",
    ),
    Part::Come(74, 14),
    Part::Text(
        b"\
        got 90\n\
        sent 97 row 3 3\n\
        got 93\n\
        sent 98 stored 1 3\n\
        got 94\n\
        sent 99 stored 2 3\n\
        got 96\n\
        got 97\n\
        got 98\n\
        done 2 put 97200001/2\n\
        got 99\n\
        21 get ok 3\n\
        sent 100 get 1 1\n\
        sent 101 get 1 2\n\
        sent 102 get 1 3\n\
        22 drain ok\n\
        got 100\n\
        sent 103 row 1 1\n\
        got 101\n\
        sent 104 row 2 1\n\
        got 102\n\
        sent 105 row 3 1\n\
        got 103\n\
        got 104\n\
        done 3 get 97200001/2 1 0cc175b9c0f1b6a831c399e269772661\n\
        got 105\n",
    ),
    Part::Text(PUT_ROWS),
    Part::Text(b"end 22 3 105\n"),
];

/// Nodes without a layout collect nothing, and one without rows begins nothing.
const WITHOUT_ROWS: &[u8] = b"collect 1\ntrio\ncollect 4\ncollect 2\n";

const WITHOUT_ROWS_TEXT: &[Part] = &[
    Part::Text(
        b"\
        1 collect refused NotMember\n\
        2 trio ok\n\
        3 collect refused NotMember\n\
        4 collect ok 0 0\n",
    ),
    Part::Text(NO_ROWS),
    Part::Text(b"end 4 0 0\n"),
];

fn append_sent(alloc: Global, text: &mut Vec<u8>, kind: &str, first: u64) -> Result<(), Fail> {
    for i in 0..15_u64 {
        let number = first.saturating_add(i);
        let node = i.saturating_add(2);
        text.extend_from_slice(format!(in alloc; "sent {number} {kind} 1 {node}\n")?.as_bytes())?;
    }
    Ok(())
}

fn append_confirmed(
    alloc: Global,
    text: &mut Vec<u8>,
    first: u64,
    node: u64,
    answer: u64,
) -> Result<(), Fail> {
    for to in node..17 {
        let place = to.saturating_sub(node);
        let tomb = first.saturating_add(place);
        let number = answer.saturating_add(place);
        let lines = format!(in alloc; "got {tomb}\nsent {number} tombed {to} 1\n")?;
        text.extend_from_slice(lines.as_bytes())?;
    }
    Ok(())
}

fn append_come(alloc: Global, text: &mut Vec<u8>, first: u64, count: u64) -> Result<(), Fail> {
    for i in 0..count {
        let number = first.saturating_add(i);
        text.extend_from_slice(format!(in alloc; "got {number}\n")?.as_bytes())?;
    }
    Ok(())
}

/// The text of these parts, one after the other.
fn text_of(alloc: Global, parts: &[Part]) -> Result<Vec<u8>, Fail> {
    let mut text = Vec::new(alloc);
    for part in parts {
        match *part {
            Part::Text(lines) => text.extend_from_slice(lines)?,
            Part::Sent(kind, first) => append_sent(alloc, &mut text, kind, first)?,
            Part::Confirmed {
                first,
                node,
                answer,
            } => append_confirmed(alloc, &mut text, first, node, answer)?,
            Part::Come(first, count) => append_come(alloc, &mut text, first, count)?,
        }
    }
    Ok(text)
}

/// Whether the replay of a schedule gives this text and then this one.
fn gives(alloc: Global, schedule: &[u8], first: &[Part], second: &[Part]) -> Result<bool, Fail> {
    let mut wanted = text_of(alloc, first)?;
    wanted.extend_from_slice(&text_of(alloc, second)?)?;
    let (status, text) = played(alloc, Account::Transcript, schedule, &[], &[])?;
    Ok(status == Status::Done && text.as_slice() == wanted.as_slice())
}

#[test]
fn a_marker_is_collected(rt: HostRuntime) -> Result<(), Fail> {
    assert!(rt; gives(rt.alloc(), COLLECTED, COLLECTED_TEXT, &[])?);
    Ok(())
}

#[test]
fn a_new_layout_version_closes_a_collection(rt: HostRuntime) -> Result<(), Fail> {
    let (status, text) = played(rt.alloc(), Account::Transcript, NEW_VERSION, &[], &[])?;
    assert_eq!(rt; status, Status::Done);
    assert!(rt; text.starts_with(&text_of(rt.alloc(), BEFORE_VERSION)?));
    assert!(rt; text.ends_with(&text_of(rt.alloc(), PAST_VERSION)?));
    Ok(())
}

#[test]
fn what_changes_meanwhile_stays(rt: HostRuntime) -> Result<(), Fail> {
    assert!(rt;
        gives(
            rt.alloc(),
            OVERWRITTEN,
            DAY_LATER,
            &[Part::Text(OVERWRITTEN_TEXT)]
        )?
    );
    assert!(rt; gives(rt.alloc(), PUT_MEANWHILE, DAY_LATER, PUT_MEANWHILE_TEXT)?);
    Ok(())
}

#[test]
fn a_restart_loses_a_collection(rt: HostRuntime) -> Result<(), Fail> {
    assert!(rt; gives(rt.alloc(), RESTARTED, DAY_LATER, RESTARTED_TEXT)?);
    Ok(())
}

#[test]
fn late_confirmations_do_not_count(rt: HostRuntime) -> Result<(), Fail> {
    assert!(rt; gives(rt.alloc(), LATE, DAY_LATER, LATE_TEXT)?);
    Ok(())
}

#[test]
fn the_collected_row_alone_is_forgotten(rt: HostRuntime) -> Result<(), Fail> {
    assert!(rt; gives(rt.alloc(), FORGOTTEN, DAY_LATER, FORGOTTEN_TEXT)?);
    Ok(())
}

#[test]
fn nodes_without_rows_collect_nothing(rt: HostRuntime) -> Result<(), Fail> {
    assert!(rt; gives(rt.alloc(), WITHOUT_ROWS, WITHOUT_ROWS_TEXT, &[])?);
    Ok(())
}
