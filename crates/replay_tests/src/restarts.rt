//! A node that restarts after any event of a schedule, in which each message is delivered by an event of its own. The
//! transcripts with their checks are those that bench/faults writes from the rules, and how many reads owe a write is told by
//! hand.
use crate::messages::mark;
use crate::transcripts::played;
use lab_outside::Status;
use replay_run::Account;
use std::alloc::Global;
use std::test::Fail;

/// What comes before the puts.
const FIRST: [&[u8]; 3] = [b"trio\n", b"bucket pics\n", b"block 4096\n"];

/// Puts about the size of a block, with how many messages each has: 12 where its bytes lie in its row, else 18 and 12 a block.
/// The write is acknowledged with the last but one.
const PUTS: [(&[u8], usize); 4] = [
    (b"put 1 pics a 3071 0\n", 12),
    (b"put 1 pics b 3072 0\n", 30),
    (b"put 1 pics c 4096 0\n", 30),
    (b"put 1 pics d 4097 0\n", 42),
];

/// All is read at the end.
const READS: &[u8] = b"\
    list 2 pics *\n\
    drain 1000\n\
    get 3 pics a\n\
    drain 1000\n\
    get 3 pics b\n\
    drain 1000\n\
    get 3 pics c\n\
    drain 1000\n\
    get 3 pics d\n\
    drain 1000\n";

/// The schedule's events up to the reads.
fn events(alloc: Global) -> Result<Vec<&'static [u8]>, Fail> {
    let mut events = FIRST.to_vec(alloc)?;
    for (put, messages) in PUTS {
        events.push(put)?;
        for _ in 0..messages {
            events.push(b"drain 1\n")?;
        }
    }
    Ok(events)
}

/// The schedule with a restart behind the event at this place, from 0.
fn restarted(
    alloc: Global,
    events: &[&[u8]],
    place: usize,
    restart: &[u8],
) -> Result<Vec<u8>, Fail> {
    let mut schedule = Vec::new(alloc);
    for (number, event) in events.iter().enumerate() {
        schedule.extend_from_slice(event)?;
        if number == place {
            schedule.extend_from_slice(restart)?;
        }
    }
    schedule.extend_from_slice(READS)?;
    Ok(schedule)
}

/// Whether a put is open behind the event at this place.
fn is_open(place: usize) -> bool {
    let mut first = FIRST.len();
    for (_, messages) in PUTS {
        let acknowledged = first.saturating_add(messages).saturating_sub(1);
        if first <= place && place < acknowledged {
            return true;
        }
        first = acknowledged.saturating_add(2);
    }
    false
}

/// What the check says: each acknowledged write is owed by the list, and by the get of its key. Only node 1 has requests, so
/// that the others' restarts end none.
fn fresh(restart: &[u8], place: usize) -> &'static [u8] {
    if restart == b"restart 1\n".as_slice() && is_open(place) {
        b"fresh 6"
    } else {
        b"fresh 8"
    }
}

/// Whether a text's line before its last one is this one.
fn has_check(text: &[u8], check: &[u8]) -> bool {
    let mut lines = text.split(|byte| *byte == b'\n').rev();
    let (last, end, fresh) = (lines.next(), lines.next(), lines.next());
    last == Some(b"") && end.is_some_and(|line| line.starts_with(b"end ")) && fresh == Some(check)
}

/// The mark of the transcripts with a restart behind each event, where each schedule is replayed to its end and its check is
/// the one that was told by hand.
fn marked(alloc: Global, restart: &[u8]) -> Result<Option<u64>, Fail> {
    let events = events(alloc)?;
    let mut texts = Vec::new(alloc);
    for place in 0..events.len() {
        let schedule = restarted(alloc, &events, place, restart)?;
        let (status, text) = played(alloc, Account::Checked, &schedule, &[], &[])?;
        if status != Status::Done || !has_check(&text, fresh(restart, place)) {
            return Ok(None);
        }
        texts.extend_from_slice(&text)?;
    }
    Ok(Some(mark(&texts)))
}

#[test]
fn first_node_restarts(rt: HostRuntime) -> Result<(), Fail> {
    assert_eq!(rt;
        marked(rt.alloc(), b"restart 1\n")?,
        Some(0xc3f6ead7bcf4aad9)
    );
    Ok(())
}

#[test]
fn second_node_restarts(rt: HostRuntime) -> Result<(), Fail> {
    assert_eq!(rt;
        marked(rt.alloc(), b"restart 2\n")?,
        Some(0xe23ac62ea0b88849)
    );
    Ok(())
}

#[test]
fn third_node_restarts(rt: HostRuntime) -> Result<(), Fail> {
    assert_eq!(rt;
        marked(rt.alloc(), b"restart 3\n")?,
        Some(0xe23ac62ea0b88849)
    );
    Ok(())
}
