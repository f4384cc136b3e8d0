//! Audits with ample memory; inputs that are no schedule, or have no transcript.
use audit_run::run_audit;
use lab_outside::{MemSink, MemSource, Status};
use std::alloc::Global;
use std::test::Fail;

/// The status and the line of an audit of this input.
pub fn audited(alloc: Global, input: &[u8]) -> Result<(Status, Vec<u8>), Fail> {
    let mut source = MemSource::new(input.to_vec(alloc)?, Vec::new(alloc));
    let mut sink = MemSink::new(alloc, Vec::new(alloc));
    let status = run_audit(alloc, &mut source, &mut sink);
    Ok((status, sink.bytes().to_vec(alloc)?))
}

/// A schedule and a transcript as one input.
pub fn joined(alloc: Global, schedule: &[u8], transcript: &[u8]) -> Result<Vec<u8>, Fail> {
    let mut input = schedule.to_vec(alloc)?;
    input.extend_from_slice(b"---\n")?;
    input.extend_from_slice(transcript)?;
    Ok(input)
}

/// The number of line feeds of a text.
pub fn count_lines(text: &[u8]) -> usize {
    text.iter().filter(|byte| **byte == b'\n').count()
}

/// A text of whole lines, whose line `at`, counted from 0, stands so many times.
pub fn repeated(alloc: Global, text: &[u8], at: usize, times: usize) -> Result<Vec<u8>, Fail> {
    let mut all = Vec::new(alloc);
    for (number, line) in text.split(|byte| *byte == b'\n').enumerate() {
        if number < count_lines(text) {
            let count = if number == at { times } else { 1 };
            for _ in 0..count {
                all.extend_from_slice(line)?;
                all.push(b'\n')?;
            }
        }
    }
    Ok(all)
}

/// A text with one line in place of that at `at`, counted from 0.
pub fn replaced(alloc: Global, text: &[u8], at: usize, with: &[u8]) -> Result<Vec<u8>, Fail> {
    let mut all = Vec::new(alloc);
    for (number, line) in text.split(|byte| *byte == b'\n').enumerate() {
        if number < count_lines(text) {
            all.extend_from_slice(if number == at { with } else { line })?;
            all.push(b'\n')?;
        }
    }
    Ok(all)
}

#[test]
fn refused_inputs(rt: HostRuntime) -> Result<(), Fail> {
    let rows: [(&[u8], &[u8]); 9] = [
        (b"", b"no transcript\n"),
        (b"trio\n", b"no transcript\n"),
        (b"trio\n ---\n", b"bad line 2\n"),
        (b"trio\n----\n", b"bad line 2\n"),
        (b"trio\nput\n---\n1 trio ok\n", b"bad line 2\n"),
        (b"trio\n---\n", b"differs 1\n"),
        (b"# a comment\n\n---\nend 0 0 1\n", b"differs 1\n"),
        (b"trio\nget 1 pics \xff\n---\n1 trio ok\n", b"bad line 2\n"),
        (b"trio\n---\n1 trio ok\n\xc3\xa9\n", b"unreadable 2\n"),
    ];
    for (input, finding) in rows {
        let (status, text) = audited(rt.alloc(), input)?;
        assert_eq!(rt; status, Status::Refused);
        assert_eq!(rt; text.as_slice(), finding);
    }
    Ok(())
}

/// Of no events the transcript is one line, with a line feed or none; a second mark is one of the transcript's lines.
#[test]
fn transcripts_of_no_events(rt: HostRuntime) -> Result<(), Fail> {
    let rows: [(&[u8], Status, &[u8]); 4] = [
        (b"---\nend 0 0 0\n", Status::Done, b"audit ok 0\n"),
        (b"\n#\n---\nend 0 0 0", Status::Done, b"audit ok 0\n"),
        (b"---\n---\nend 0 0 0\n", Status::Refused, b"unreadable 1\n"),
        (b"---", Status::Refused, b"differs 1\n"),
    ];
    for (input, expected, finding) in rows {
        let (status, text) = audited(rt.alloc(), input)?;
        assert_eq!(rt; status, expected);
        assert_eq!(rt; text.as_slice(), finding);
    }
    Ok(())
}
