//! Bodies: what is kept, what is short, and what there is no memory for.
use crate::fixtures::connection;
use http_wire::{HeadEnd, Kept, read_body};
use std::test::Fail;

#[test]
fn bodies_after_what_was_kept(rt: HostRuntime) -> Result<(), Fail> {
    let alloc = rt.alloc();
    for (length, body, rest) in [
        (0, b"".as_slice(), b"kept".as_slice()),
        (3, b"kep", b"t"),
        (4, b"kept", b""),
        (7, b"kept an", b""),
    ] {
        let mut link = connection(alloc, b" and more", 2, &[])?;
        let mut kept = Kept::new(alloc);
        kept.bytes.extend_from_slice(b"kept")?;
        let read = read_body(alloc, &mut link, &mut kept, length);
        assert!(&rt; read.is_ok_and(|read| read.as_slice() == body));
        assert_eq!(rt; kept.bytes.as_slice(), rest);
    }
    Ok(())
}

#[test]
fn bodies_that_are_not_read(rt: HostRuntime) -> Result<(), Fail> {
    let alloc = rt.alloc();
    for (length, end, rest) in [
        (14, HeadEnd::Closed, b"kept and more".as_slice()),
        (u64::MAX, HeadEnd::Memory, b"kept"),
    ] {
        let mut link = connection(alloc, b" and more", 2, &[])?;
        let mut kept = Kept::new(alloc);
        kept.bytes.extend_from_slice(b"kept")?;
        let read = read_body(alloc, &mut link, &mut kept, length);
        assert!(&rt; read.is_err_and(|e| e == end), "{length} bytes");
        assert_eq!(rt; kept.bytes.as_slice(), rest, "{length} bytes");
    }
    Ok(())
}
