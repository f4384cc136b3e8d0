//! Lines of transcripts, read: what each says, and lines that say nothing.
use cluster_machine::{DoneWord, Refusal, SentKind, Words};
use crdt_core::Memory;
use std::alloc::Global;
use std::test::Fail;
use transcript_text::{Answered, Said, Told, said};

// Whether something is read of the line.
fn is_read(alloc: Global, line: &[u8]) -> Result<bool, Memory> {
    Ok(said(alloc, line)?.is_some())
}

const LINES: [&[u8]; 33] = [
    b"1 trio ok",
    b"7 get ok 3",
    b"9 sync ok idle 1 2",
    b"9 work ok 4 0",
    b"12 apply refused TooFewZones 2 3",
    b"12 apply refused NoAssignment 765",
    b"13 put refused NoSuchBucket",
    b"size 3",
    b"redundancy 3",
    b"p 0 255 1 2 3",
    b"cut 4 750",
    b"c 0 255 up z:a z:b",
    b"c 0 0",
    b"cn 1 2",
    b"cn",
    b"got 18",
    b"sent 44 walk 1 2",
    b"synced 4 2",
    b"9 collect ok 1 1",
    b"sent 13 tomb 1 16",
    b"sent 28 tombed 16 1",
    b"sent 87 forget 1 16",
    b"dropped 1 1000/1",
    b"done 1 put 1000/1",
    b"done 2 get 1000/1 3 900150983cd24fb0d6963f7d28e17f72",
    b"done 2 head 1000/1 3",
    b"done 4 copy none",
    b"done 5 list 1",
    b"key a/x 1000/1 3",
    b"ended 2 superseded",
    b"node 1 rows 2 blocks 0 top 0000000000000000000000000000000000000000000000000000000000000000",
    b"fresh 1",
    b"end 5 2 19",
];

const OTHERS: [&[u8]; 22] = [
    b"",
    b"size 03",
    b"size  3",
    b"size 18446744073709551616",
    b"redundancy 4",
    b"p 0 255 1 2",
    b"cut 4",
    b"c 0 255 down up",
    b"c 0 255 a",
    b"sent 44 wander 1 2",
    b"done 1 put none",
    b"done 1 put 1000/1 3",
    b"done 2 get 1000/1 3 900150983CD24FB0D6963F7D28E17F72",
    b"done 2 get 1000/1 3 90",
    b"done 5 list none",
    b"ended 2 lost",
    b"dropped 1",
    b"dropped 1 1000",
    b"1 trio",
    b"1 trio ok ",
    b"1 Trio ok",
    b"12 apply refused VersionTaken 4294967296",
];

#[test]
fn each_form_of_line_is_read(rt: HostRuntime) -> Result<(), Fail> {
    for line in LINES {
        assert!(rt; is_read(rt.alloc(), line)?);
    }
    for line in OTHERS {
        assert!(rt; !is_read(rt.alloc(), line)?);
    }
    Ok(())
}

// The numbers of some lines, in their order; none of a line that says nothing or something else.
fn numbers(alloc: Global, line: &[u8]) -> Result<[u64; 5], Memory> {
    Ok(match said(alloc, line)? {
        Some(Said::Sets { first, last, set }) => [first, last, set.0, set.1, set.2],
        Some(
            Said::Sent {
                number,
                kind: SentKind::Differ,
                from,
                to,
            },
        ) => [number, from, to, 0, 0],
        Some(
            Said::Event {
                line,
                told: Told::Accepted(Words::Idle(read, least)),
                ..
            },
        ) => [line, u64::from(read), u64::from(least), 0, 0],
        Some(
            Said::Event {
                line,
                told: Told::Refused(Refusal::TooFewZones(zones, wanted)),
                ..
            },
        ) => [line, u64::from(zones), u64::from(wanted), 0, 0],
        Some(
            Said::Done {
                request,
                word: DoneWord::Head,
                answer: Answered::Version {
                    version,
                    size: Some(size),
                    md5: None,
                },
            },
        ) => [request, version.0, version.1, size, 0],
        _ => [0; 5],
    })
}

#[test]
fn numbers_are_those_of_the_line(rt: HostRuntime) -> Result<(), Fail> {
    let rows: [(&[u8], [u64; 5]); 5] = [
        (b"p 5 17 3 1 2", [5, 17, 3, 1, 2]),
        (b"sent 44 differ 2 3", [44, 2, 3, 0, 0]),
        (b"9 sync ok idle 6 7", [9, 6, 7, 0, 0]),
        (b"12 apply refused TooFewZones 2 3", [12, 2, 3, 0, 0]),
        (b"done 2 head 1000/4 3", [2, 1000, 4, 3, 0]),
    ];
    for (line, expected) in rows {
        assert_eq!(rt; numbers(rt.alloc(), line)?, expected);
    }
    Ok(())
}
