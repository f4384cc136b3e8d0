//! Runs with what they tell, worked out by hand: values that two wrote side by side, a write that is replaced, and refusals.
use crate::runs::{faulty, played, told};
use lab_outside::Status;
use std::test::Fail;

/// Two writes at two nodes, and a read that sees both. Then a write gives that read's token.
const CONCURRENT_VALUES: &[u8] = b"\
    trio\n\
    bucket pics\n\
    kput 1 pics p s 1 97 0\n\
    drain 100\n\
    kput 2 pics p s 1 98 0\n\
    drain 100\n\
    kget 3 pics p s\n\
    drain 100\n\
    kput 1 pics p s 1 99 3\n\
    drain 100\n\
    kget 2 pics p s\n\
    drain 100\n";

/// What is told of them. The MD5s of `a`, `b` and `c` are those of md5sum.
const CONCURRENT_TOLD: &[u8] = b"\
    1 trio ok\n\
    2 bucket ok\n\
    3 kput ok 1\n\
    4 drain ok\n\
    done 1 kput 1/1\n\
    5 kput ok 2\n\
    6 drain ok\n\
    done 2 kput 2/2\n\
    7 kget ok 3\n\
    8 drain ok\n\
    done 3 kget 2\n\
    value 1/1 1 0cc175b9c0f1b6a831c399e269772661\n\
    value 2/2 1 92eb5ffee6ae2fec3ad71c777531578f\n\
    9 kput ok 4\n\
    10 drain ok\n\
    done 4 kput 1/4\n\
    11 kget ok 5\n\
    12 drain ok\n\
    done 5 kget 1\n\
    value 1/4 1 4a8a08f09d37b73795649038408b5f33\n\
    end 12 5 48\n";

/// A second write at a node while the first is open, a read beside it, and a token that no request gives.
const BUSY_AND_UNKNOWN_TOKEN: &[u8] = b"\
    trio\n\
    bucket pics\n\
    kput 1 pics p s 1 97 0\n\
    kput 1 pics p s 1 97 0\n\
    kget 1 pics p s\n\
    kput 2 pics p s 1 97 9\n";

const BUSY_TOLD: &[u8] = b"\
    1 trio ok\n\
    2 bucket ok\n\
    3 kput ok 1\n\
    4 kput refused Busy 1\n\
    5 kget ok 2\n\
    6 kput refused NoSuchToken 9\n\
    end 6 2 6\n";

/// Nodes collect, one that knows no layout, and one that has the row of a deleted item, two days old: it has no delete marker.
const COLLECTIONS: &[u8] = b"\
    collect 1\n\
    trio\n\
    bucket pics\n\
    kdel 1 pics p s 0\n\
    drain 100\n\
    tick 86400000\n\
    tick 86400000\n\
    collect 1\n\
    collect 4\n";

const COLLECTIONS_TOLD: &[u8] = b"\
    1 collect refused NotMember\n\
    2 trio ok\n\
    3 bucket ok\n\
    4 kdel ok 1\n\
    5 drain ok\n\
    done 1 kdel 1/1\n\
    6 tick ok\n\
    7 tick ok\n\
    8 collect ok 0 0\n\
    9 collect refused NotMember\n\
    end 9 1 12\n";

#[test]
fn k2v_concurrent_values(rt: HostRuntime) -> Result<(), Fail> {
    let (status, text) = told(rt.alloc(), CONCURRENT_VALUES)?;
    assert_eq!(rt; status, Status::Done);
    assert_eq!(rt; text.as_slice(), CONCURRENT_TOLD);
    Ok(())
}

#[test]
fn k2v_busy_and_unknown_token(rt: HostRuntime) -> Result<(), Fail> {
    let (status, text) = told(rt.alloc(), BUSY_AND_UNKNOWN_TOKEN)?;
    assert_eq!(rt; status, Status::Done);
    assert_eq!(rt; text.as_slice(), BUSY_TOLD);
    Ok(())
}

#[test]
fn k2v_items_are_not_collected(rt: HostRuntime) -> Result<(), Fail> {
    let (status, text) = told(rt.alloc(), COLLECTIONS)?;
    assert_eq!(rt; status, Status::Done);
    assert_eq!(rt; text.as_slice(), COLLECTIONS_TOLD);
    Ok(())
}

/// A read that fails leaves nothing written. Two give the input and its end; a third isn't made.
#[test]
fn kth_read_fails(rt: HostRuntime) -> Result<(), Fail> {
    for (k, wanted) in [
        (1, Status::ReadFault),
        (2, Status::ReadFault),
        (3, Status::Done),
    ] {
        let (status, text) = faulty(rt.alloc(), CONCURRENT_VALUES, k, 0)?;
        assert_eq!(rt; status, wanted, "at read {k}");
        assert_eq!(rt; text.is_empty(), k < 3, "at read {k}");
    }
    Ok(())
}

/// A write that fails leaves the text of the events before it: each of twelve is a write, and the lines of nodes are one.
#[test]
fn kth_write_fails(rt: HostRuntime) -> Result<(), Fail> {
    let (_, whole) = played(rt.alloc(), CONCURRENT_VALUES)?;
    let mut last = 0;
    for k in 1..=13 {
        let (status, text) = faulty(rt.alloc(), CONCURRENT_VALUES, 0, k)?;
        assert_eq!(rt; status, Status::WriteFault, "at write {k}");
        assert!(rt;
            whole.starts_with(&text) && text.len() < whole.len(),
            "at write {k}"
        );
        assert!(rt; k == 1 || last < text.len(), "at write {k}");
        last = text.len();
    }
    let (status, text) = faulty(rt.alloc(), CONCURRENT_VALUES, 0, 14)?;
    assert_eq!(rt; status, Status::Done);
    assert!(rt; text == whole);
    Ok(())
}
