//! Lines within the grammar of schedules and outside of it, written by hand.
use layout_roles::{Kind, Redundancy};
use schedule_text::{Event, ScheduleFault, parse};
use std::alloc::Global;
use std::test::Fail;

/// The event of a text that has one.
fn only(alloc: Global, text: &[u8]) -> Result<Event, Fail> {
    let mut events = parse(alloc, text)?;
    Ok(events.pop().ok_or("no event")?.event)
}

/// What an event's line says in numbers and in names.
#[derive(Clone, Copy, Debug, PartialEq, Eq)]
enum Said {
    Trio,
    Block(u32),
    Tick(u64),
    Skew(u8, u64),
    Deliver(u64),
    Lose(u64),
    Drain(u32),
    Expire(u64),
    Restart(u8),
    Apply(u8),
    Ack(u8),
    Sync(u8),
    SyncAck(u8),
    Clean(u8),
    Work(u8),
    Repair(u8),
    Collect(u8),
    Gossip(u8, u8),
    Redundancy(Redundancy),
    NoRole(u8),
    Role(u8, Kind),
    Bucket,
    Put(u8, u32, u8),
    Get(u8),
    Head(u8),
    Delete(u8),
    Copy(u8),
    List(u8),
}

fn numbers(event: &Event) -> Said {
    match event {
        Event::Trio => Said::Trio,
        Event::Block(size) => Said::Block(*size),
        Event::Tick(ms) => Said::Tick(*ms),
        Event::Skew { node, ms } => Said::Skew(*node, *ms),
        Event::Deliver(message) => Said::Deliver(*message),
        Event::Lose(message) => Said::Lose(*message),
        Event::Drain(limit) => Said::Drain(*limit),
        Event::Expire(request) => Said::Expire(*request),
        Event::Restart(node) => Said::Restart(*node),
        Event::Apply(node) => Said::Apply(*node),
        Event::Ack(node) => Said::Ack(*node),
        Event::Sync(node) => Said::Sync(*node),
        Event::SyncAck(node) => Said::SyncAck(*node),
        Event::Clean(node) => Said::Clean(*node),
        Event::Work(node) => Said::Work(*node),
        Event::Repair(node) => Said::Repair(*node),
        Event::Collect(node) => Said::Collect(*node),
        Event::Gossip { from, to } => Said::Gossip(*from, *to),
        Event::Redundancy(wanted) => Said::Redundancy(*wanted),
        Event::Role { node, role } => match role {
            Some((_, kind)) => Said::Role(*node, *kind),
            None => Said::NoRole(*node),
        },
        Event::Bucket(_) => Said::Bucket,
        Event::Put {
            node,
            size,
            fill,
            ..
        } => Said::Put(*node, *size, *fill),
        Event::Get { node, .. } => Said::Get(*node),
        Event::Head { node, .. } => Said::Head(*node),
        Event::Delete { node, .. } => Said::Delete(*node),
        Event::Copy { node, .. } => Said::Copy(*node),
        Event::List { node, .. } => Said::List(*node),
    }
}

/// The names that an event's line says: a zone, or a bucket and a key or prefix; of a copy those of its destination.
fn names(event: &Event) -> (&[u8], &[u8]) {
    match event {
        Event::Role {
            role: Some((zone, _)),
            ..
        } => (zone.0.as_slice(), b""),
        Event::Bucket(name) => (name.as_slice(), b""),
        Event::Put { bucket, key, .. }
        | Event::Get { bucket, key, .. }
        | Event::Head { bucket, key, .. }
        | Event::Delete { bucket, key, .. }
        | Event::Copy { bucket, key, .. } => (bucket.as_slice(), key.as_slice()),
        Event::List { bucket, prefix, .. } => (bucket.as_slice(), prefix.as_slice()),
        _ => (b"", b""),
    }
}

#[test]
fn reads_numbers_at_their_bounds(rt: HostRuntime) -> Result<(), Fail> {
    let rows: [(&[u8], Said); 32] = [
        (b"trio", Said::Trio),
        (b"block 16", Said::Block(16)),
        (b"block 1048576", Said::Block(1_048_576)),
        (b"skew 16 3600000", Said::Skew(16, 3_600_000)),
        (b"skew 1 0", Said::Skew(1, 0)),
        (b"lose 4294967295", Said::Lose(4_294_967_295)),
        (b"restart 16", Said::Restart(16)),
        (b"work 1", Said::Work(1)),
        (b"repair 9", Said::Repair(9)),
        (b"collect 1", Said::Collect(1)),
        (b"collect 16", Said::Collect(16)),
        (b"head 2 pics a", Said::Head(2)),
        (b"delete 3 pics a", Said::Delete(3)),
        (b"copy 4 pics a docs b", Said::Copy(4)),
        (b"list 5 pics *", Said::List(5)),
        (b"tick 0\n", Said::Tick(0)),
        (b"tick 86400000", Said::Tick(86_400_000)),
        (b"deliver 4294967295", Said::Deliver(4_294_967_295)),
        (b"drain 1000000", Said::Drain(1_000_000)),
        (b"expire 4294967295", Said::Expire(4_294_967_295)),
        (b"apply 1", Said::Apply(1)),
        (b"ack 16", Said::Ack(16)),
        (b"sync 2", Said::Sync(2)),
        (b"syncack 3", Said::SyncAck(3)),
        (b"clean 10", Said::Clean(10)),
        (b"gossip 4 15", Said::Gossip(4, 15)),
        (b"redundancy 1", Said::Redundancy(Redundancy::AtLeast(1))),
        (b"redundancy 3", Said::Redundancy(Redundancy::AtLeast(3))),
        (b"redundancy maximum", Said::Redundancy(Redundancy::Maximum)),
        (b"role 16 none", Said::NoRole(16)),
        (b"role 2 none 1", Said::Role(2, Kind::Storage(1))),
        (b"put 16 pics a 65536 250", Said::Put(16, 65_536, 250)),
    ];
    for (text, wanted) in rows {
        assert_eq!(rt; numbers(&only(rt.alloc(), text)?), wanted);
    }
    Ok(())
}

#[test]
fn reads_names(rt: HostRuntime) -> Result<(), Fail> {
    let rows: [(&[u8], &[u8], &[u8]); 11] = [
        (b"head 1 pics a", b"pics", b"a"),
        (b"delete 1 pics B", b"pics", b"B"),
        (b"copy 1 pics a docs b/c", b"docs", b"b/c"),
        (b"list 1 pics *", b"pics", b""),
        (b"list 1 pics a/", b"pics", b"a/"),
        (b"bucket 0a-b.c9", b"0a-b.c9", b""),
        (b"put 16 pics A_z/9.- 3071 250", b"pics", b"A_z/9.-"),
        (b"get 1 pics a", b"pics", b"a"),
        (b"role 1 z9 1125899906842624", b"z9", b""),
        (b"role 2 none 1", b"none", b""),
        (b"role 3 0123456789abcdef gateway", b"0123456789abcdef", b""),
    ];
    for (text, first, second) in rows {
        let event = only(rt.alloc(), text)?;
        assert_eq!(rt; names(&event), (first, second));
    }
    Ok(())
}

#[test]
fn reads_the_source_of_a_copy(rt: HostRuntime) -> Result<(), Fail> {
    let event = only(rt.alloc(), b"copy 1 pics a docs b/c")?;
    let source = match &event {
        Event::Copy {
            from_bucket,
            from_key,
            ..
        } => (from_bucket.as_slice(), from_key.as_slice()),
        _ => (b"".as_slice(), b"".as_slice()),
    };
    assert_eq!(rt; source, (b"pics".as_slice(), b"a".as_slice()));
    Ok(())
}

/// Lines outside the grammar.
const OUTSIDE: [&[u8]; 100] = [
    b"block 15",
    b"block 1048577",
    b"skew 1",
    b"skew 0 5",
    b"skew 1 3600001",
    b"lose 0",
    b"lose 4294967296",
    b"restart 0",
    b"restart 1 1",
    b"work",
    b"work 17",
    b"repair 0",
    b"head 1 pics",
    b"head 1 pics a b",
    b"delete 17 pics a",
    b"copy 1 pics a docs",
    b"copy 1 pics a docs b c",
    b"copy 1 pics * docs b",
    b"list 1 pics",
    b"list 1 pics ",
    b"list 1 pics a*",
    b"list 1 pics **",
    b"collect",
    b"collect 0",
    b"collect 17",
    b"collect 1 2",
    b"put 1 pics a 65537 97",
    b" trio",
    b"trio ",
    b"Trio",
    b"trio\r",
    b" ",
    b"tick",
    b"tick  5",
    b"tick 05",
    b"tick 00",
    b"tick +5",
    b"tick -5",
    b"tick 5s",
    b"tick 86400001",
    b"tick 18446744073709551617",
    b"bucket ab",
    b"bucket Pics",
    b"bucket pics-",
    b"bucket .pics",
    b"bucket a123456789b123456789c123456789d123456789e123456789f123456789g123",
    b"put 0 pics a 3 97",
    b"put 17 pics a 3 97",
    b"put 1 pics a 3 251",
    b"put 1 pics a 3",
    b"put 1 pics a 3 97 1",
    b"put 1 pics a 3 97 ",
    b"get 1 pics ",
    b"get 1 pics a*b",
    b"get 1 pics a123456789b123456789c123456789d123456789e123456789f123456789g1234",
    b"deliver 0",
    b"deliver 4294967296",
    b"drain 0",
    b"drain 1000001",
    b"role 1",
    b"role 1 zone",
    b"role 1 None",
    b"role 17 none",
    b"role 1 none ",
    b"role 1 Zone 5",
    b"role 1 a-b 5",
    b"role 1  5",
    b"role 1 0123456789abcdefg 5",
    b"role 1 zone 0",
    b"role 1 zone 05",
    b"role 1 zone 1125899906842625",
    b"role 1 zone Gateway",
    b"role 1 zone 5 5",
    b"redundancy",
    b"redundancy 0",
    b"redundancy 4",
    b"redundancy Maximum",
    b"redundancy maximum 1",
    b"apply",
    b"apply 0",
    b"apply 1 1",
    b"expire 0",
    b"expire 4294967296",
    b"gossip 1",
    b"gossip 0 1",
    b"gossip 1 17",
    b"gossip 1 2 3",
    b"ack 17",
    b"sync 0",
    b"sync ack 1",
    b"syncack 1 ",
    b"clean",
    b"clean 01",
    b"put 1 pics caf\xc3\xa9 1 97",
    b"get 1 pics \xff",
    b"head 1 pics a\x80",
    b"list 1 pics \xc3\xa9",
    b"copy 1 pics a pics \xe2\x82\xac",
    b"bucket pi\xc3\xa7s",
    b"role 4 \xc3\xa4 1000",
];

#[test]
fn refuses_lines_outside_the_grammar(rt: HostRuntime) {
    for line in OUTSIDE {
        assert!(rt; matches!(parse(rt.alloc(), line), Err(ScheduleFault::BadLine(1))));
    }
}

#[test]
fn counts_every_line(rt: HostRuntime) -> Result<(), Fail> {
    let events = parse(rt.alloc(), b"\n#\ntrio\n\ntick 5\ndrain 7")?;
    assert_eq!(rt; events.len(), 3);
    for (event, line) in events.as_slice().iter().zip(&[3, 5, 6]) {
        assert_eq!(rt; event.line, *line);
    }
    let bad = parse(rt.alloc(), b"trio\n\n# x\nbad\nworse\n");
    assert!(rt; matches!(bad, Err(ScheduleFault::BadLine(4))));
    Ok(())
}
