//! Lists in a transcript: as many keys as their line says. What is read is told by the lines alone, so the rest of the
//! transcript stays away and differs.
use crate::audits::{audited, joined};
use lab_outside::Status;
use std::test::Fail;

const SCHEDULE: &[u8] = b"\
    trio\n\
    bucket pics\n\
    list 1 pics *\n";

#[test]
fn keys_of_a_list(rt: HostRuntime) -> Result<(), Fail> {
    let rows: [(&[u8], &[u8]); 8] = [
        (b"done 1 list 0\n", b"differs 4\n"),
        (b"done 1 list 1\n", b"unreadable 5\n"),
        (b"done 1 list 1\nkey a 1000/1 3\n", b"stale 1\n"),
        (
            b"done 1 list 1\nkey a 1000/1 3\nkey b 1000/1 3\n",
            b"unreadable 6\n",
        ),
        (b"done 1 list 2\nkey a 1000/1 3\n", b"unreadable 6\n"),
        (b"done 1 list 1\ngot 1\n", b"unreadable 5\n"),
        (b"key a 1000/1 3\n", b"unreadable 4\n"),
        (b"done 2 list 0\n", b"unreadable 4\n"),
    ];
    for (lines, finding) in rows {
        let mut transcript = b"1 trio ok\n2 bucket ok\n3 list ok 1\n".to_vec(rt.alloc())?;
        transcript.extend_from_slice(lines)?;
        let (status, text) = audited(rt.alloc(), &joined(rt.alloc(), SCHEDULE, &transcript)?)?;
        assert_eq!(rt; status, Status::Refused);
        assert_eq!(rt; text.as_slice(), finding);
    }
    Ok(())
}
