//! What each request tells, case by case, worked out by hand from the rules: a schedule is `trio`, `bucket pics` and
//! `bucket docs`, and then the lines of a row, of which what is told stands beside them.
use crate::runs::told;
use lab_outside::Status;
use std::alloc::Global;
use std::test::Fail;

/// What is told of these lines, after `trio` and two buckets.
fn told_after(alloc: Global, lines: &[u8]) -> Result<Vec<u8>, Fail> {
    let mut input = b"trio\nbucket pics\nbucket docs\n".to_vec(alloc)?;
    input.extend_from_slice(lines)?;
    let (status, text) = told(alloc, &input)?;
    if status != Status::Done {
        return Err(Fail::new("not done"));
    }
    let first: &[u8] = b"1 trio ok\n2 bucket ok\n3 bucket ok\n";
    match text.strip_prefix(first) {
        Some(rest) => Ok(rest.to_vec(alloc)?),
        None => Err(Fail::new("other first lines")),
    }
}

/// A read that finds nothing gives a token all the same, which replaces nothing.
const NOTHING: &[u8] = b"kget 1 pics p s\ndrain 100\nkput 2 pics p s 0 0 1\ndrain 100\n";

const NOTHING_TOLD: &[u8] = b"\
    4 kget ok 1\n\
    5 drain ok\n\
    done 1 kget 0\n\
    6 kput ok 2\n\
    7 drain ok\n\
    done 2 kput 2/2\n\
    end 7 2 18\n";

/// A deletion beside a value isn't listed, and counts in the token: what replaces it leaves one value. The MD5s of `a` and
/// `c` are those of md5sum.
const DELETION: &[u8] = b"\
    kput 1 pics p s 1 97 0\n\
    drain 100\n\
    kdel 2 pics p s 0\n\
    drain 100\n\
    kget 3 pics p s\n\
    drain 100\n\
    kput 3 pics p s 1 99 3\n\
    drain 100\n\
    kget 1 pics p s\n\
    drain 100\n\
    kdel 2 pics p s 5\n\
    drain 100\n\
    kget 2 pics p s\n\
    drain 100\n";

const DELETION_TOLD: &[u8] = b"\
    4 kput ok 1\n\
    5 drain ok\n\
    done 1 kput 1/1\n\
    6 kdel ok 2\n\
    7 drain ok\n\
    done 2 kdel 2/2\n\
    8 kget ok 3\n\
    9 drain ok\n\
    done 3 kget 1\n\
    value 1/1 1 0cc175b9c0f1b6a831c399e269772661\n\
    10 kput ok 4\n\
    11 drain ok\n\
    done 4 kput 3/4\n\
    12 kget ok 5\n\
    13 drain ok\n\
    done 5 kget 1\n\
    value 3/4 1 4a8a08f09d37b73795649038408b5f33\n\
    14 kdel ok 6\n\
    15 drain ok\n\
    done 6 kdel 2/6\n\
    16 kget ok 7\n\
    17 drain ok\n\
    done 7 kget 0\n\
    end 17 7 66\n";

/// A token of a read that goes on or was expired, of another item, another bucket, and of a write's number.
const TOKENS: &[u8] = b"\
    kget 1 pics p s\n\
    kput 2 pics p s 1 97 1\n\
    expire 1\n\
    kput 2 pics p s 1 97 1\n\
    kget 1 pics p t\n\
    drain 100\n\
    kput 2 pics p s 1 97 2\n\
    kput 2 docs p t 1 97 2\n\
    kput 2 pics p t 1 97 2\n\
    drain 100\n\
    kput 2 pics p t 1 97 3\n";

const TOKENS_TOLD: &[u8] = b"\
    4 kget ok 1\n\
    5 kput refused NoSuchToken 1\n\
    6 expire ok\n\
    ended 1 expired\n\
    7 kput refused NoSuchToken 1\n\
    8 kget ok 2\n\
    9 drain ok\n\
    done 2 kget 0\n\
    10 kput refused NoSuchToken 2\n\
    11 kput refused NoSuchToken 2\n\
    12 kput ok 3\n\
    13 drain ok\n\
    done 3 kput 2/3\n\
    14 kput refused NoSuchToken 3\n\
    end 14 3 24\n";

/// While a write is open, another one at the node is refused, one of another item or at another node isn't. After a restart
/// or an expiry it isn't open any more.
const BUSY: &[u8] = b"\
    kput 1 pics p s 1 97 0\n\
    kdel 1 pics p s 0\n\
    kput 1 pics p t 1 97 0\n\
    kput 1 docs p s 1 97 0\n\
    kput 2 pics p s 1 97 0\n\
    kput 2 pics p s 1 97 0\n\
    restart 1\n\
    kput 1 pics p s 1 97 0\n\
    expire 4\n\
    kput 2 pics p s 1 97 0\n";

const BUSY_TOLD: &[u8] = b"\
    4 kput ok 1\n\
    5 kdel refused Busy 1\n\
    6 kput ok 2\n\
    7 kput ok 3\n\
    8 kput ok 4\n\
    9 kput refused Busy 4\n\
    10 restart ok\n\
    ended 1 restarted\n\
    ended 2 restarted\n\
    ended 3 restarted\n\
    11 kput ok 5\n\
    12 expire ok\n\
    ended 4 expired\n\
    13 kput ok 6\n\
    end 13 6 18\n";

/// Two writes at one node, the second without a token, and a third with the token of a read of both. The MD5s of `a`, `b`
/// and `c` are those of md5sum.
const ONE_NODE: &[u8] = b"\
    kput 1 pics p s 1 97 0\n\
    drain 100\n\
    kput 1 pics p s 1 98 0\n\
    drain 100\n\
    kget 1 pics p s\n\
    drain 100\n\
    kput 1 pics p s 1 99 3\n\
    drain 100\n\
    kget 1 pics p s\n\
    drain 100\n";

const ONE_NODE_TOLD: &[u8] = b"\
    4 kput ok 1\n\
    5 drain ok\n\
    done 1 kput 1/1\n\
    6 kput ok 2\n\
    7 drain ok\n\
    done 2 kput 1/2\n\
    8 kget ok 3\n\
    9 drain ok\n\
    done 3 kget 2\n\
    value 1/1 1 0cc175b9c0f1b6a831c399e269772661\n\
    value 1/2 1 92eb5ffee6ae2fec3ad71c777531578f\n\
    10 kput ok 4\n\
    11 drain ok\n\
    done 4 kput 1/4\n\
    12 kget ok 5\n\
    13 drain ok\n\
    done 5 kget 1\n\
    value 1/4 1 4a8a08f09d37b73795649038408b5f33\n\
    end 13 5 48\n";

/// No member, then no bucket, before the token is looked at.
const REFUSALS: &[u8] =
    b"kget 4 none p s\nkput 4 none p s 1 97 9\nkget 1 none p s\nkdel 1 none p s 9\n";

const REFUSALS_TOLD: &[u8] = b"\
    4 kget refused NotMember\n\
    5 kput refused NotMember\n\
    6 kget refused NoSuchBucket\n\
    7 kdel refused NoSuchBucket\n\
    end 7 0 0\n";

#[test]
fn requests_for_items(rt: HostRuntime) -> Result<(), Fail> {
    let rows: [(&[u8], &[u8]); 6] = [
        (NOTHING, NOTHING_TOLD),
        (DELETION, DELETION_TOLD),
        (TOKENS, TOKENS_TOLD),
        (BUSY, BUSY_TOLD),
        (ONE_NODE, ONE_NODE_TOLD),
        (REFUSALS, REFUSALS_TOLD),
    ];
    for (lines, wanted) in rows {
        assert_eq!(rt; told_after(rt.alloc(), lines)?.as_slice(), wanted);
    }
    Ok(())
}

/// Lines that no schedule over items has, and one that it has.
#[test]
fn lines_of_items(rt: HostRuntime) -> Result<(), Fail> {
    let rows: [(&[u8], Status, &[u8]); 12] = [
        (b"trio\nblock 16\n", Status::Refused, b"bad line 2\n"),
        (b"get 1 pics a\n", Status::Refused, b"bad line 1\n"),
        (b"put 1 pics a 1 97\n", Status::Refused, b"bad line 1\n"),
        (b"kput 1 pics p s 1 97\n", Status::Refused, b"bad line 1\n"),
        (
            b"kput 1 pics p s 65537 97 0\n",
            Status::Refused,
            b"bad line 1\n",
        ),
        (
            b"kput 1 pics p s 1 251 0\n",
            Status::Refused,
            b"bad line 1\n",
        ),
        (b"kdel 17 pics p s 0\n", Status::Refused, b"bad line 1\n"),
        (b"kget 1 pics p s 0\n", Status::Refused, b"bad line 1\n"),
        (b"kget 1 pics p \xff\n", Status::Refused, b"bad line 1\n"),
        (
            b"trio\nkput 1 pics caf\xc3\xa9 s 1 97 0\n",
            Status::Refused,
            b"bad line 2\n",
        ),
        (
            b"kdel 1 pics p s 4294967296\n",
            Status::Refused,
            b"bad line 1\n",
        ),
        (
            b"# nothing\n\nkget 1 pics p s",
            Status::Done,
            b"3 kget refused NotMember\nend 1 0 0\n",
        ),
    ];
    for (input, wanted, text) in rows {
        let (status, found) = told(rt.alloc(), input)?;
        assert_eq!(rt; status, wanted);
        assert_eq!(rt; found.as_slice(), text);
    }
    Ok(())
}
