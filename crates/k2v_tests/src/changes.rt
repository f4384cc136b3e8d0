//! Reads while the layout changes: each shows all that was acknowledged before it began.
use crate::runs::played;
use lab_outside::Status;
use std::alloc::Global;
use std::test::Fail;

/// Node 4 comes into the layout. A read begins where the new version is known and one where it isn't, then a second write
/// is made in the middle of the change, and two reads follow: one before the rows were handed on, one after.
const CHANGE: &[u8] = b"\
    trio\n\
    bucket pics\n\
    kput 1 pics p s 1 97 0\n\
    drain 100\n\
    role 4 d 1000\n\
    apply 1\n\
    kget 1 pics p s\n\
    kget 2 pics p s\n\
    drain 1000\n\
    gossip 1 4\n\
    drain 1000\n\
    kput 2 pics p s 1 98 0\n\
    drain 1000\n\
    kget 4 pics p s\n\
    drain 1000\n\
    sync 1\n\
    sync 2\n\
    sync 3\n\
    sync 4\n\
    drain 100000\n\
    kget 3 pics p s\n\
    drain 1000\n";

/// What the requests tell. The MD5s of `a` and `b` are those of md5sum.
const ANSWERS: &[u8] = b"\
    done 1 kput 1/1\n\
    done 2 kget 1\n\
    value 1/1 1 0cc175b9c0f1b6a831c399e269772661\n\
    done 3 kget 1\n\
    value 1/1 1 0cc175b9c0f1b6a831c399e269772661\n\
    done 4 kput 2/4\n\
    done 5 kget 2\n\
    value 1/1 1 0cc175b9c0f1b6a831c399e269772661\n\
    value 2/4 1 92eb5ffee6ae2fec3ad71c777531578f\n\
    done 6 kget 2\n\
    value 1/1 1 0cc175b9c0f1b6a831c399e269772661\n\
    value 2/4 1 92eb5ffee6ae2fec3ad71c777531578f\n";

/// The lines of finished requests.
fn answers(alloc: Global, text: &[u8]) -> Result<Vec<u8>, Fail> {
    let mut left = Vec::new(alloc);
    for line in text.split(|byte| *byte == b'\n') {
        if line.starts_with(b"done ") || line.starts_with(b"value ") {
            left.extend_from_slice(line)?;
            left.push(b'\n')?;
        }
    }
    Ok(left)
}

#[test]
fn reads_during_a_layout_change(rt: HostRuntime) -> Result<(), Fail> {
    let (status, text) = played(rt.alloc(), CHANGE)?;
    assert_eq!(rt; status, Status::Done);
    assert_eq!(rt; answers(rt.alloc(), &text)?.as_slice(), ANSWERS);
    Ok(())
}
