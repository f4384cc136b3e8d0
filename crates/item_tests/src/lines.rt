//! Lines of a schedule that are read alone.
use schedule_text::{Event, event_line};
use std::alloc::Global;
use std::test::Fail;

// The milliseconds of a line that spells a tick, 0 where it spells another event, none where it spells none.
fn tick_of(alloc: Global, line: &[u8]) -> Result<Option<u64>, Fail> {
    match event_line(alloc, line)? {
        Some(Event::Tick(ms)) => Ok(Some(ms)),
        Some(_) => Ok(Some(0)),
        None => Ok(None),
    }
}

#[test]
fn a_line_is_read_alone(rt: HostRuntime) -> Result<(), Fail> {
    assert_eq!(rt; tick_of(rt.alloc(), b"tick 5")?, Some(5));
    assert_eq!(rt; tick_of(rt.alloc(), b"trio")?, Some(0));
    Ok(())
}

#[test]
fn other_lines_spell_nothing(rt: HostRuntime) -> Result<(), Fail> {
    assert_eq!(rt; tick_of(rt.alloc(), b"tick 05")?, None);
    assert_eq!(rt; tick_of(rt.alloc(), b"tick 5\n")?, None);
    assert_eq!(rt; tick_of(rt.alloc(), b"kget 1 pics p s")?, None);
    assert_eq!(rt; tick_of(rt.alloc(), b"# tick 5")?, None);
    assert_eq!(rt; tick_of(rt.alloc(), b"")?, None);
    Ok(())
}
