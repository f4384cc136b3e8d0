//! The first events of a workload: those of the five numbers that SplitMix64 gives from 0, e220a8397b1dcdaf,
//! 6e789e6aa1b965f4, 06c45d188009454f, f88bb8a8724c81ec and 1b39896a51a8749b.
use std::test::Fail;
use store_model::Event;
use workload::schedule;

// An event's name, with its number or its bucket.
fn shown(event: &Event) -> (&'static str, u64, &[u8]) {
    match event {
        Event::Trio => ("trio", 0, b""),
        Event::Bucket(name) => ("bucket", 0, name.as_slice()),
        Event::Block(size) => ("block", u64::from(*size), b""),
        Event::Lose(number) => ("lose", *number, b""),
        Event::Drain(count) => ("drain", u64::from(*count), b""),
        _ => ("another", 0, b""),
    }
}

#[test]
fn workload_of_seed_0(rt: HostRuntime) -> Result<(), Fail> {
    let events = schedule(rt.alloc(), 5, 0)?;
    assert_eq!(rt; events.len(), 5);
    let expected: [(&'static str, u64, &[u8]); 5] = [
        ("trio", 0, b""),
        ("bucket", 0, b"pics"),
        ("block", 4096, b""),
        ("lose", 5, b""),
        ("drain", 28, b""),
    ];
    for (i, numbered) in events.as_slice().iter().enumerate() {
        assert_eq!(rt; numbered.line, i as u64 + 1);
        assert_eq!(rt; Some(shown(&numbered.event)), expected.get(i).copied());
    }
    Ok(())
}
