//! Each kind of request with each of its messages lost, delivered twice at once, and delivered once more at the end. Then each
//! node works its outbox off and repairs, and all is read. So is each round of a collection, which then goes on. The transcripts with their checks are those that bench/faults writes
//! from the rules, a model of its own: a mark is the BLAKE2b of eight bytes of all of a table, one after the other.
use crate::transcripts::played;
use blake2_hash::blake2b;
use lab_outside::Status;
use replay_run::Account;
use std::alloc::Global;
use std::test::Fail;

/// Three nodes and two buckets.
const BEGIN: &[u8] = b"trio\nbucket pics\nbucket docs\ntick 1000\nblock 4096\n";

/// What happens then: nothing; a small object; one of two blocks; such a one with another beside it, or deleted; a small one
/// of which node 3 doesn't get the row.
const NONE: &[u8] = b"";

const ONE: &[u8] = b"put 1 pics a 3 97\ndrain 1000\n";

const TWO_BLOCKS: &[u8] = b"put 1 pics a 5000 0\ndrain 1000\n";

const TWO_KEYS: &[u8] = b"put 1 pics a 5000 0\ndrain 1000\nput 2 pics b 3 97\ndrain 1000\n";

const DELETED: &[u8] = b"put 1 pics a 5000 0\ndrain 1000\ndelete 3 pics a\ndrain 1000\n";

const LACKING: &[u8] = b"put 1 pics a 3 97\ndrain 6\nlose 9\ndrain 1000\n";

/// A key that was never written is deleted, and a day passes; the first round of its collection is over; and another node begins
/// one too, and three hours pass.
const DAY_OLD: &[u8] = b"delete 1 pics a\ndrain 1000\ntick 86400000\n";

const HALFWAY: &[u8] = b"delete 1 pics a\ndrain 1000\ntick 86400000\ncollect 1\ndrain 1000\n";

const PAUSED: &[u8] = b"\
    delete 1 pics a\n\
    drain 1000\n\
    tick 86400000\n\
    collect 1\n\
    drain 1000\n\
    collect 2\n\
    drain 1000\n\
    tick 10800000\n";

/// What follows: outboxes, repairs, reads, and the blocks that are due.
const END: &[u8] = b"\
    work 1\n\
    drain 1000\n\
    work 2\n\
    drain 1000\n\
    work 3\n\
    drain 1000\n\
    repair 1\n\
    drain 1000\n\
    repair 2\n\
    drain 1000\n\
    repair 3\n\
    drain 1000\n\
    list 1 pics *\n\
    list 2 docs *\n\
    get 3 pics a\n\
    get 1 docs b\n\
    drain 1000\n\
    work 1\n\
    drain 1000\n\
    work 2\n\
    drain 1000\n\
    work 3\n\
    drain 1000\n\
    tick 600000\n\
    work 1\n\
    work 2\n\
    work 3\n";

/// What follows of a collection: it goes on, three hours pass, it ends, and all is read.
const END_COLLECTION: &[u8] = b"\
    collect 1\n\
    drain 1000\n\
    tick 10800000\n\
    collect 1\n\
    drain 1000\n\
    collect 1\n\
    drain 1000\n\
    collect 1\n\
    drain 1000\n\
    collect 2\n\
    drain 1000\n\
    collect 3\n\
    drain 1000\n\
    get 2 pics a\n\
    list 3 pics *\n\
    drain 1000\n";

/// What becomes of one message.
#[derive(Clone, Copy, Debug, PartialEq, Eq)]
enum Fault {
    Lost,
    /// It is delivered a second time at once.
    Twice,
    /// It is delivered once more after all others.
    Again,
}

/// An event whose messages are looked at.
#[derive(Clone, Copy)]
struct Case {
    before: &'static [u8],
    /// How many messages were sent before it.
    sent: usize,
    event: &'static [u8],
    /// How many messages it has.
    count: usize,
    /// What follows.
    end: &'static [u8],
    lost: u64,
    twice: u64,
    again: u64,
}

/// The schedule in which this becomes of the message at this place among those of the event, from 0.
fn schedule(alloc: Global, case: &Case, fault: Fault, place: usize) -> Result<Vec<u8>, Fail> {
    let message = case.sent.saturating_add(place).saturating_add(1);
    let mut text = BEGIN.to_vec(alloc)?;
    text.extend_from_slice(case.before)?;
    text.extend_from_slice(case.event)?;
    if place > 0 && fault != Fault::Again {
        text.extend_from_slice(format!(in alloc; "drain {place}\n")?.as_bytes())?;
    }
    let lines = match fault {
        Fault::Lost => format!(in alloc; "lose {message}\ndrain 1000\n")?,
        Fault::Twice => format!(in alloc; "drain 1\ndeliver {message}\ndrain 1000\n")?,
        Fault::Again => format!(in alloc; "drain 1000\ndeliver {message}\ndrain 1000\n")?,
    };
    text.extend_from_slice(lines.as_bytes())?;
    text.extend_from_slice(case.end)?;
    Ok(text)
}

/// The mark of a text.
pub fn mark(text: &[u8]) -> u64 {
    let mut digest = [0_u8; 8];
    blake2b(text, &mut digest);
    u64::from_be_bytes(digest)
}

/// The mark of the transcripts in which this becomes of one of the event's messages, where each schedule is replayed to its end.
fn marked(alloc: Global, case: &Case, fault: Fault) -> Result<Option<u64>, Fail> {
    let mut texts = Vec::new(alloc);
    for place in 0..case.count {
        let input = schedule(alloc, case, fault, place)?;
        let (status, text) = played(alloc, Account::Checked, &input, &[], &[])?;
        if status != Status::Done {
            return Ok(None);
        }
        texts.extend_from_slice(&text)?;
    }
    Ok(Some(mark(&texts)))
}

/// What becomes of a message where the transcripts are others.
fn differing(alloc: Global, case: &Case) -> Result<Option<Fault>, Fail> {
    for (fault, wanted) in [
        (Fault::Lost, case.lost),
        (Fault::Twice, case.twice),
        (Fault::Again, case.again),
    ] {
        if marked(alloc, case, fault)? != Some(wanted) {
            return Ok(Some(fault));
        }
    }
    Ok(None)
}

/// A put of nothing before, and one over an object in blocks.
const PUTS: [Case; 2] = [
    Case {
        before: NONE,
        sent: 0,
        event: b"put 1 pics a 3 97\n",
        count: 12,
        end: END,
        lost: 0x81c1d5dca73d29d0,
        twice: 0xfb61f988d1ca64ae,
        again: 0x6ae95821307ec145,
    },
    Case {
        before: TWO_BLOCKS,
        sent: 42,
        event: b"put 2 pics a 3 97\n",
        count: 12,
        end: END,
        lost: 0x44160b53ba4b7fc4,
        twice: 0x71e67237cb51385e,
        again: 0xefcee82fc25dd6e2,
    },
];

const PUTS_IN_BLOCKS: Case = Case {
    before: ONE,
    sent: 12,
    event: b"put 1 pics a 5000 0\n",
    count: 42,
    end: END,
    lost: 0x371c669195bcbefb,
    twice: 0x02536c385244bd13,
    again: 0xd140d517f87157e3,
};

/// Reads of a small object, of one in blocks and of none, a head and a list.
const READS: [Case; 5] = [
    Case {
        before: ONE,
        sent: 12,
        event: b"get 2 pics a\n",
        count: 6,
        end: END,
        lost: 0x87031b27a0264765,
        twice: 0x87ce13622dbcca36,
        again: 0x9d144e249553c793,
    },
    Case {
        before: TWO_BLOCKS,
        sent: 42,
        event: b"get 2 pics a\n",
        count: 24,
        end: END,
        lost: 0x1537e662c680e481,
        twice: 0xee8efd5d9d2956e1,
        again: 0x4ab3ea07676e1a0e,
    },
    Case {
        before: NONE,
        sent: 0,
        event: b"get 2 pics a\n",
        count: 6,
        end: END,
        lost: 0x7a9f1183a9f1e482,
        twice: 0x8a0b2d3191594db6,
        again: 0x6494ce35911dedf4,
    },
    Case {
        before: TWO_BLOCKS,
        sent: 42,
        event: b"head 3 pics a\n",
        count: 6,
        end: END,
        lost: 0xde8a7d5bf82d58eb,
        twice: 0x4c25a960d3fca41d,
        again: 0x6d4c340e93cacda3,
    },
    Case {
        before: TWO_KEYS,
        sent: 54,
        event: b"list 3 pics *\n",
        count: 6,
        end: END,
        lost: 0x654924c379277d51,
        twice: 0x8e86c355ec400252,
        again: 0xab06b97d8b0a007a,
    },
];

/// A delete, a copy of a small object and of none.
const WRITES: [Case; 3] = [
    Case {
        before: TWO_BLOCKS,
        sent: 42,
        event: b"delete 3 pics a\n",
        count: 12,
        end: END,
        lost: 0xda003668f55664af,
        twice: 0x916153fa5279a85d,
        again: 0xd740f8b3e9a29579,
    },
    Case {
        before: ONE,
        sent: 12,
        event: b"copy 2 pics a docs b\n",
        count: 18,
        end: END,
        lost: 0x0accb96e2e2c2eaf,
        twice: 0xba5db1646dcdd1da,
        again: 0x6d4cfe811e4051a1,
    },
    Case {
        before: NONE,
        sent: 0,
        event: b"copy 2 pics a docs b\n",
        count: 6,
        end: END,
        lost: 0x8e2304f79e7eacc9,
        twice: 0x5fc43ad616474df5,
        again: 0xd26d47fbc6f5a115,
    },
];

const COPIES_OF_BLOCKS: Case = Case {
    before: TWO_BLOCKS,
    sent: 42,
    event: b"copy 2 pics a docs b\n",
    count: 66,
    end: END,
    lost: 0xda6bd93b8764fc7f,
    twice: 0x7c2a4cf2e17e94bd,
    again: 0x50700cf5ee399082,
};

/// An outbox worked off after a delete, and a repair of a node that lacks a row.
const BACKGROUND: [Case; 2] = [
    Case {
        before: DELETED,
        sent: 54,
        event: b"work 1\n",
        count: 6,
        end: END,
        lost: 0xb80edc166df803de,
        twice: 0x008380bf4565a60e,
        again: 0x432478611288c9eb,
    },
    Case {
        before: LACKING,
        sent: 11,
        event: b"repair 1\n",
        count: 6,
        end: END,
        lost: 0xe95e6abeab2b85b5,
        twice: 0xbe4461f2034ebe67,
        again: 0xc4bdec90a1955152,
    },
];

/// The two rounds of a collection, and a put in between.
const COLLECTIONS: [Case; 3] = [
    Case {
        before: DAY_OLD,
        sent: 12,
        event: b"collect 1\n",
        count: 30,
        end: END_COLLECTION,
        lost: 0xdf3d1d563e230489,
        twice: 0x3fb86b6863c1c2db,
        again: 0x700e700c6f83d542,
    },
    Case {
        before: PAUSED,
        sent: 72,
        event: b"collect 1\n",
        count: 45,
        end: END_COLLECTION,
        lost: 0x6500788806a618c0,
        twice: 0x813ae34869f53ee4,
        again: 0x62ff226121148c7c,
    },
    Case {
        before: HALFWAY,
        sent: 42,
        event: b"put 2 pics a 3 97\n",
        count: 12,
        end: END_COLLECTION,
        lost: 0x47f9aa92d0e41ab7,
        twice: 0xfbe303e9741bcec6,
        again: 0x8248805a8c2c5ec5,
    },
];

#[test]
fn messages_of_puts(rt: HostRuntime) -> Result<(), Fail> {
    for case in &PUTS {
        assert_eq!(rt; differing(rt.alloc(), case)?, None, "{:?}", case.event);
    }
    Ok(())
}

#[test]
fn messages_of_puts_in_blocks(rt: HostRuntime) -> Result<(), Fail> {
    assert_eq!(rt; differing(rt.alloc(), &PUTS_IN_BLOCKS)?, None);
    Ok(())
}

#[test]
fn messages_of_reads(rt: HostRuntime) -> Result<(), Fail> {
    for case in &READS {
        assert_eq!(rt; differing(rt.alloc(), case)?, None, "{:?}", case.event);
    }
    Ok(())
}

#[test]
fn messages_of_deletes_and_copies(rt: HostRuntime) -> Result<(), Fail> {
    for case in &WRITES {
        assert_eq!(rt; differing(rt.alloc(), case)?, None, "{:?}", case.event);
    }
    Ok(())
}

#[test]
fn messages_of_copies_of_blocks(rt: HostRuntime) -> Result<(), Fail> {
    assert_eq!(rt; differing(rt.alloc(), &COPIES_OF_BLOCKS)?, None);
    Ok(())
}

#[test]
fn messages_of_outboxes_and_repairs(rt: HostRuntime) -> Result<(), Fail> {
    for case in &BACKGROUND {
        assert_eq!(rt; differing(rt.alloc(), case)?, None, "{:?}", case.event);
    }
    Ok(())
}

#[test]
fn messages_of_collections(rt: HostRuntime) -> Result<(), Fail> {
    for case in &COLLECTIONS {
        assert_eq!(rt; differing(rt.alloc(), case)?, None, "{:?}", case.event);
    }
    Ok(())
}
