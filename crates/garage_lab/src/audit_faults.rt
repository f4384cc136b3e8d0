//! Audits where a read of the input or a write of the line fails, of transcripts that end after any byte, and of inputs about
//! the limit.
use crate::audited_requests::{FIRST_SCHEDULE, FIRST_TRANSCRIPT, found};
use crate::audits::{audited, count_lines, joined};
use audit_run::run_audit;
use lab_outside::{MemSink, MemSource, Status};
use std::alloc::Global;
use std::test::Fail;

/// Which read and which write fail, none where the number is 0; how that ends; and what is written. Two reads give an input and
/// its end, and one write takes the line.
const FAULTS: [(u64, u64, Status, &[u8]); 5] = [
    (1, 0, Status::ReadFault, b""),
    (2, 0, Status::ReadFault, b""),
    (3, 0, Status::Done, b"audit ok 1\n"),
    (0, 1, Status::WriteFault, b""),
    (0, 2, Status::Done, b"audit ok 1\n"),
];

/// The status and the line of an audit of this input, of which one read or one write fails.
fn faulty(alloc: Global, input: &[u8], read: u64, write: u64) -> Result<(Status, Vec<u8>), Fail> {
    let mut source = MemSource::new(input.to_vec(alloc)?, [read].to_vec(alloc)?);
    let mut sink = MemSink::new(alloc, [write].to_vec(alloc)?);
    let status = run_audit(alloc, &mut source, &mut sink);
    Ok((status, sink.bytes().to_vec(alloc)?))
}

#[test]
fn each_call_of_an_audit_fails(rt: HostRuntime) -> Result<(), Fail> {
    let input = joined(rt.alloc(), FIRST_SCHEDULE, FIRST_TRANSCRIPT)?;
    for (read, write, wanted, line) in FAULTS {
        let (status, text) = faulty(rt.alloc(), &input, read, write)?;
        assert_eq!(rt; status, wanted, "{read} {write}");
        assert_eq!(rt; text.as_slice(), line);
    }
    Ok(())
}

/// Whether an audit of the transcript's first bytes names the first line that isn't whole, as one that can't be read or as one
/// that differs. At the end of a line it is the next one.
fn is_named(alloc: Global, count: usize) -> Result<bool, Fail> {
    let begin = FIRST_TRANSCRIPT.get(..count).unwrap_or(b"");
    let whole = FIRST_TRANSCRIPT.get(..=count).unwrap_or(b"");
    let line = count_lines(whole).saturating_add(1);
    let unreadable = format!(in alloc; "unreadable {line}\n")?;
    let differs = format!(in alloc; "differs {line}\n")?;
    let (status, text) = found(alloc, begin)?;
    let finding = text.as_slice();
    Ok(
        status == Status::Refused
            && (finding == unreadable.as_bytes() || finding == differs.as_bytes()),
    )
}

#[test]
fn transcript_cut_after_each_byte(rt: HostRuntime) -> Result<(), Fail> {
    for count in 0..FIRST_TRANSCRIPT.len() - 1 {
        assert!(rt; is_named(rt.alloc(), count)?, "after byte {count}");
    }
    Ok(())
}

/// What is found of a comment of so many bytes.
fn commented(alloc: Global, count: usize) -> Result<(Status, Vec<u8>), Fail> {
    let mut input = Vec::new(alloc);
    input.resize(count, b'#')?;
    audited(alloc, &input)
}

/// A comment of 8,388,608 bytes has no transcript behind it, and one byte more is too much.
#[test]
fn limit_of_an_audit(rt: HostRuntime) -> Result<(), Fail> {
    let (status, text) = commented(rt.alloc(), 8_388_608)?;
    assert_eq!(rt; status, Status::Refused);
    assert_eq!(rt; text.as_slice(), b"no transcript\n".as_slice());
    let (status, text) = commented(rt.alloc(), 8_388_609)?;
    assert_eq!(rt; status, Status::Limit);
    assert_eq!(rt; text.as_slice(), b"limit input 8388608\n".as_slice());
    Ok(())
}
