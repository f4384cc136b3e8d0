//! The limits on a schedule and on what is sent.
//!
//! Of a thousand writes to one item without tokens its row grows by each, until more was sent than may be. Worked out by hand:
//! a row with k values of 65,536 bytes at one node, of an item with two keys of one byte, counts
//! 60 + 65,549 k bytes. A write sends three questions of 102 bytes, three answers with the row as it was, three messages with
//! the row that has its value too, and three confirmations of 64 bytes; with 64 bytes a message beside rows that is
//! 882 + 3 (row before + row after). So k writes send 196,647 k^2 + 1,242 k - 180 bytes: 254,899,044 after 36 writes, and
//! 269,255,517 after 37, which is more than 268,435,456.
use crate::runs::{played, told};
use lab_outside::Status;
use std::alloc::Global;
use std::test::Fail;

/// The writes, each delivered whole.
fn writes(alloc: Global) -> Result<Vec<u8>, Fail> {
    let mut input = b"trio\nbucket pics\n".to_vec(alloc)?;
    for _ in 0..1000 {
        input.extend_from_slice(b"kput 1 pics p s 65536 97 0\ndrain 100\n")?;
    }
    Ok(input)
}

#[test]
fn a_row_grows_until_the_limit(rt: HostRuntime) -> Result<(), Fail> {
    let (status, text) = told(rt.alloc(), &writes(rt.alloc())?)?;
    assert_eq!(rt; status, Status::Limit);
    assert!(rt;
        text.ends_with(b"74 drain ok\ndone 36 kput 1/36\n75 kput ok 37\nlimit sent 268435456\n")
    );
    Ok(())
}

/// What comes of a comment of so many bytes.
fn commented(alloc: Global, count: usize) -> Result<(Status, Vec<u8>), Fail> {
    let mut input = Vec::new(alloc);
    input.resize(count, b'#')?;
    played(alloc, &input)
}

/// A comment of 8,388,608 bytes is an empty schedule, and one byte more is too much.
#[test]
fn limit_of_input(rt: HostRuntime) -> Result<(), Fail> {
    let (status, text) = commented(rt.alloc(), 8_388_608)?;
    assert_eq!(rt; status, Status::Done);
    assert_eq!(rt; text.as_slice(), b"end 0 0 0\n".as_slice());
    let (status, text) = commented(rt.alloc(), 8_388_609)?;
    assert_eq!(rt; status, Status::Limit);
    assert_eq!(rt; text.as_slice(), b"limit input 8388608\n".as_slice());
    Ok(())
}
