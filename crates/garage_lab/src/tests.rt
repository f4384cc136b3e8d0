//! What no clause says: that each command's words bring its answer with ample memory.
use super::run::run;
use lab_outside::{MemClock, MemSink, MemSource, Status, SureLink};
use std::alloc::Global;
use std::test::Fail;

const USAGE: &[u8] =
    b"usage: garage_lab layout | replay [--check] | audit | k2v | workload N SEED | serve PORT COUNT\n";

/// The status and the bytes of a run with these words over this input, with no connection to come.
fn answered(alloc: Global, words: &[&str], input: &[u8]) -> Result<(Status, Vec<u8>), Fail> {
    let mut texts = Vec::new(alloc);
    for word in words {
        texts.push(String::from_str(alloc, word)?)?;
    }
    let mut source = MemSource::new(input.to_vec(alloc)?, Vec::new(alloc));
    let mut sink = MemSink::new(alloc, Vec::new(alloc));
    let mut link = SureLink::new(alloc, Vec::new(alloc), 0)?;
    let mut clock = MemClock::new([0].to_vec(alloc)?);
    let status = run(alloc, &texts, &mut source, &mut sink, &mut link, &mut clock);
    Ok((status, sink.bytes().to_vec(alloc)?))
}

/// Words and inputs, with the answer and what its text begins with.
#[test]
fn words_of_each_command(rt: HostRuntime) -> Result<(), Fail> {
    let rows: [(&[&str], &[u8], Status, &[u8]); 16] = [
        (&[], b"", Status::Usage, USAGE),
        (&["replay", "x"], b"", Status::Usage, USAGE),
        (&["layouts"], b"", Status::Usage, USAGE),
        (&["replay", "--moves"], b"", Status::Usage, USAGE),
        (&["workload", "0", "1"], b"", Status::Usage, USAGE),
        (&["workload", "100001", "1"], b"", Status::Usage, USAGE),
        (&["serve", "65536", "1"], b"", Status::Usage, USAGE),
        (&["serve", "1", "01"], b"", Status::Usage, USAGE),
        (&["layout"], b"", Status::Refused, b"bad field node\n"),
        (
            &["layout", "--moves"],
            b"",
            Status::Refused,
            b"bad field node\n",
        ),
        (&["replay"], b"", Status::Done, b"end 0 0 0\n"),
        (
            &["replay", "--check"],
            b"",
            Status::Done,
            b"fresh 0\nend 0 0 0\n",
        ),
        (&["audit"], b"", Status::Refused, b"no transcript\n"),
        (&["k2v"], b"", Status::Done, b"end 0 0 0\n"),
        (
            &["workload", "5", "0"],
            b"",
            Status::Done,
            b"workload 5 0\nfinished 0 ended 0 open 0\n",
        ),
        (
            &["serve", "1", "1000"],
            b"",
            Status::Refused,
            b"bad field buckets\n",
        ),
    ];
    for (words, input, wanted, text) in rows {
        let (status, found) = answered(rt.alloc(), words, input)?;
        assert_eq!(rt; status, wanted, "{words:?}");
        assert!(rt; found.starts_with(text), "{words:?}");
    }
    Ok(())
}
