//! Each kind of request with each of its messages lost, delivered twice at once, and delivered once more at the end. Then each
//! node repairs, and the item is read, written and read. And a node that restarts after any event of a schedule, in which each
//! message is delivered by an event of its own. The transcripts are those that bench/faults writes from the rules, a model of
//! its own: a mark is the BLAKE2b of eight bytes of all of a table, one after the other.
use crate::runs::played;
use blake2_hash::blake2b;
use lab_outside::Status;
use std::alloc::Global;
use std::test::Fail;

/// What happens before: nothing; a write that was read, and another one beside it; a write of which node 3 doesn't get the row.
const NONE: &[u8] = b"";

const TWO_VALUES: &[u8] = b"\
    kput 1 pics p s 3 97 0\n\
    drain 1000\n\
    kget 3 pics p s\n\
    drain 1000\n\
    kput 2 pics p s 2 98 0\n\
    drain 1000\n";

const LACKING: &[u8] = b"kput 1 pics p s 3 97 0\ndrain 6\nlose 9\ndrain 1000\n";

/// What follows.
const END: &[u8] = b"\
    repair 1\n\
    drain 1000\n\
    repair 2\n\
    drain 1000\n\
    repair 3\n\
    drain 1000\n\
    kget 3 pics p s\n\
    drain 1000\n\
    kput 2 pics p s 1 100 0\n\
    drain 1000\n\
    kget 1 pics p s\n\
    drain 1000\n";

/// What becomes of one message.
#[derive(Clone, Copy, Debug, PartialEq, Eq)]
enum Fault {
    Lost,
    /// It is delivered a second time at once.
    Twice,
    /// It is delivered once more after all others.
    Again,
}

/// An event whose messages are looked at.
#[derive(Clone, Copy)]
struct Case {
    before: &'static [u8],
    /// How many messages were sent before it.
    sent: usize,
    event: &'static [u8],
    /// How many messages it has.
    count: usize,
    lost: u64,
    twice: u64,
    again: u64,
}

/// The schedule in which this becomes of the message at this place among those of the event, from 0.
fn schedule(alloc: Global, case: &Case, fault: Fault, place: usize) -> Result<Vec<u8>, Fail> {
    let message = case.sent.saturating_add(place).saturating_add(1);
    let mut text = b"trio\nbucket pics\n".to_vec(alloc)?;
    text.extend_from_slice(case.before)?;
    text.extend_from_slice(case.event)?;
    if place > 0 && fault != Fault::Again {
        text.extend_from_slice(format!(in alloc; "drain {place}\n")?.as_bytes())?;
    }
    let lines = match fault {
        Fault::Lost => format!(in alloc; "lose {message}\ndrain 1000\n")?,
        Fault::Twice => format!(in alloc; "drain 1\ndeliver {message}\ndrain 1000\n")?,
        Fault::Again => format!(in alloc; "drain 1000\ndeliver {message}\ndrain 1000\n")?,
    };
    text.extend_from_slice(lines.as_bytes())?;
    text.extend_from_slice(END)?;
    Ok(text)
}

/// The mark of a text.
fn mark(text: &[u8]) -> u64 {
    let mut digest = [0_u8; 8];
    blake2b(text, &mut digest);
    u64::from_be_bytes(digest)
}

/// The mark of the transcripts in which this becomes of one of the event's messages, where each schedule is played to its end.
fn marked(alloc: Global, case: &Case, fault: Fault) -> Result<Option<u64>, Fail> {
    let mut texts = Vec::new(alloc);
    for place in 0..case.count {
        let (status, text) = played(alloc, &schedule(alloc, case, fault, place)?)?;
        if status != Status::Done {
            return Ok(None);
        }
        texts.extend_from_slice(&text)?;
    }
    Ok(Some(mark(&texts)))
}

/// What becomes of a message where the transcripts are others.
fn differing(alloc: Global, case: &Case) -> Result<Option<Fault>, Fail> {
    for (fault, wanted) in [
        (Fault::Lost, case.lost),
        (Fault::Twice, case.twice),
        (Fault::Again, case.again),
    ] {
        if marked(alloc, case, fault)? != Some(wanted) {
            return Ok(Some(fault));
        }
    }
    Ok(None)
}

/// A write of nothing before, one in the place of one of two values, a deletion in that place, reads of both and of nothing,
/// and a repair of a node that lacks the row.
const CASES: [Case; 6] = [
    Case {
        before: NONE,
        sent: 0,
        event: b"kput 1 pics p s 3 97 0\n",
        count: 12,
        lost: 0xdb8789daafb3002f,
        twice: 0x8908d92ffc591344,
        again: 0xc4decfaff49e6a5a,
    },
    Case {
        before: TWO_VALUES,
        sent: 30,
        event: b"kput 3 pics p s 1 99 2\n",
        count: 12,
        lost: 0xf000142458f5cd7b,
        twice: 0x04148abfddcd8a95,
        again: 0x8a364ea9514023b6,
    },
    Case {
        before: TWO_VALUES,
        sent: 30,
        event: b"kdel 1 pics p s 2\n",
        count: 12,
        lost: 0x9009a2d7adb4830a,
        twice: 0x6c657a2eda8ba688,
        again: 0x358217a7207973ba,
    },
    Case {
        before: TWO_VALUES,
        sent: 30,
        event: b"kget 2 pics p s\n",
        count: 6,
        lost: 0x9d8fd7967ba356a8,
        twice: 0x04e22be55c8c6a7e,
        again: 0xd71d06f492e04ee8,
    },
    Case {
        before: NONE,
        sent: 0,
        event: b"kget 2 pics p s\n",
        count: 6,
        lost: 0x9c1deea8af317e0b,
        twice: 0xf282ad6acc96f8fe,
        again: 0x6acf2cae9bad6777,
    },
    Case {
        before: LACKING,
        sent: 11,
        event: b"repair 1\n",
        count: 6,
        lost: 0xc1c446e86c5e400d,
        twice: 0xc2fa16862ed384f7,
        again: 0xf84532da3ca5a997,
    },
];

#[test]
fn messages_lost_and_repeated(rt: HostRuntime) -> Result<(), Fail> {
    for case in &CASES {
        assert_eq!(rt; differing(rt.alloc(), case)?, None, "{:?}", case.event);
    }
    Ok(())
}

/// Two writes, a read of both, and a deletion in the place of what it showed, with how many messages each has.
const EVENTS: [(&[u8], usize); 4] = [
    (b"kput 1 pics p s 3 97 0\n", 12),
    (b"kput 2 pics p s 2 98 0\n", 12),
    (b"kget 1 pics p s\n", 6),
    (b"kdel 1 pics p s 3\n", 12),
];

/// The schedule's events up to the last read.
fn events(alloc: Global) -> Result<Vec<&'static [u8]>, Fail> {
    let mut events: Vec<&'static [u8]> = Vec::new(alloc);
    events.push(b"trio\n")?;
    events.push(b"bucket pics\n")?;
    for (event, messages) in EVENTS {
        events.push(event)?;
        for _ in 0..messages {
            events.push(b"drain 1\n")?;
        }
    }
    Ok(events)
}

/// The schedule with a restart behind the event at this place, from 0.
fn restarted(
    alloc: Global,
    events: &[&[u8]],
    place: usize,
    restart: &[u8],
) -> Result<Vec<u8>, Fail> {
    let mut schedule = Vec::new(alloc);
    for (number, event) in events.iter().enumerate() {
        schedule.extend_from_slice(event)?;
        if number == place {
            schedule.extend_from_slice(restart)?;
        }
    }
    schedule.extend_from_slice(b"kget 3 pics p s\ndrain 1000\n")?;
    Ok(schedule)
}

/// The mark of the transcripts with a restart behind each event, where each schedule is played to its end.
fn restarts_marked(alloc: Global, restart: &[u8]) -> Result<Option<u64>, Fail> {
    let events = events(alloc)?;
    let mut texts = Vec::new(alloc);
    for place in 0..events.len() {
        let (status, text) = played(alloc, &restarted(alloc, &events, place, restart)?)?;
        if status != Status::Done {
            return Ok(None);
        }
        texts.extend_from_slice(&text)?;
    }
    Ok(Some(mark(&texts)))
}

#[test]
fn each_node_restarts(rt: HostRuntime) -> Result<(), Fail> {
    let rows: [(&[u8], u64); 3] = [
        (b"restart 1\n", 0xc159138b36344390),
        (b"restart 2\n", 0xd6daa34d075a1051),
        (b"restart 3\n", 0x45332d2d005b0216),
    ];
    for (restart, wanted) in rows {
        assert_eq!(rt; restarts_marked(rt.alloc(), restart)?, Some(wanted));
    }
    Ok(())
}
