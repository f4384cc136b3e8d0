//! How many bytes may be put or copied in all.
use lab_outside::Status;
use std::alloc::Global;
use std::test::Fail;
use test_links::{recorded, served_over};

/// How many bytes the object has, the most that one may have.
const SIZE: usize = 16_777_216;

/// An object of so many bytes is put, and copied so often.
fn put_and_copies(alloc: Global, copies: usize) -> Result<Vec<u8>, Fail> {
    let mut bytes = b"PUT /pics/a HTTP/1.1\r\nContent-Length: 16777216\r\n\r\n".to_vec(alloc)?;
    for _ in 0..SIZE {
        bytes.push(b'a')?;
    }
    for _ in 0..copies {
        bytes.extend_from_slice(
            b"PUT /pics/b HTTP/1.1\r\nx-amz-copy-source: /pics/a\r\nContent-Length: 0\r\n\r\n",
        )?;
    }
    Ok(bytes)
}

/// How a server ended over a connection on which the object is put and copied so often, what it wrote to its output, and
/// how many answers it gave: no line ends behind the body of a copy's answer, so the next begins in the middle of one.
fn copied(alloc: Global, copies: usize) -> Result<(Status, Vec<u8>, usize), Fail> {
    let mut link = recorded(alloc, &put_and_copies(alloc, copies)?, 65_536)?;
    let end = served_over(alloc, 3900, &mut link)?;
    let mut answers = 0_usize;
    for line in link.written().split(|byte| *byte == b'\n') {
        if line.ends_with(b"HTTP/1.1 200 OK\r") {
            answers = answers.saturating_add(1);
        }
    }
    Ok((end.status, end.output, answers))
}

/// 536,870,912 bytes may be put and copied: the put and 31 copies.
#[test]
fn as_many_bytes_as_are_kept(rt: HostRuntime) -> Result<(), Fail> {
    let (status, _, answers) = copied(rt.alloc(), 31)?;
    assert_eq!(rt; (status, answers), (Status::Done, 32));
    Ok(())
}

/// The 32nd copy has no answer, and serving ends.
#[test]
fn more_bytes_than_are_kept(rt: HostRuntime) -> Result<(), Fail> {
    let (status, output, answers) = copied(rt.alloc(), 32)?;
    assert_eq!(rt; (status, answers), (Status::Limit, 32));
    assert!(rt; output.ends_with(b"limit kept 536870912\n"));
    Ok(())
}
