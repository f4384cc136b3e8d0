//! Worked layouts of `layout --moves`, each worked out by hand.
use crate::commands::answered_by;
use lab_outside::Status;
use layout_command::one_moves_status;
use layout_text::read_old;
use std::test::Fail;

// Whether a text has these bytes somewhere.
fn has(text: &[u8], part: &[u8]) -> bool {
    for start in 0..text.len() {
        if text[start..].starts_with(part) {
            return true;
        }
    }
    false
}

/// Node 4 takes the place of node 3, and each of its 256 copies.
#[test]
fn one_node_replaced(rt: HostRuntime) -> Result<(), Fail> {
    let input = b"\
        node = [{ id = 1, zone = 'a', capacity = 1000 }, { id = 2, zone = 'b', capacity = 1000 }, \
        { id = 4, zone = 'c', capacity = 1000 }]\n\
        old = [{ first = 0, last = 255, nodes = [1, 2, 3] }]";
    let wanted =
        b"size 3\nredundancy 3\np 0 255 1 2 4\ncut 4 750\nc 0 255 up z:a z:b z:c\ncn 1 2 4\nmoves 256\nq 0 ";
    let (status, text) = answered_by(rt.alloc(), input, true)?;
    assert_eq!(rt; status, Status::Done);
    assert!(rt; text.as_slice().starts_with(wanted));
    one_moves_status();
    Ok(())
}

/// Node 3 has room for 166 partitions of 3 bytes, so 90 of its 256 copies move. The old sets come in two tables, and
/// their nodes in any order.
#[test]
fn capacity_forces_moves(rt: HostRuntime) -> Result<(), Fail> {
    let input = b"\
        node = [{ id = 1, zone = 'a', capacity = 1000 }, { id = 2, zone = 'b', capacity = 1000 }, \
        { id = 3, zone = 'c', capacity = 500 }, { id = 4, zone = 'c', capacity = 500 }]\n\
        old = [{ first = 0, last = 99, nodes = [3, 1, 2] }, { first = 100, last = 255, nodes = [2, 3, 1] }]";
    let (status, text) = answered_by(rt.alloc(), input, true)?;
    assert_eq!(rt; status, Status::Done);
    assert!(rt; text.as_slice().starts_with(b"size 3\nredundancy 3\np 0 "));
    assert!(rt;
        has(
            text.as_slice(),
            b"\ncut 4 750\nc 0 255 up z:a z:b z:c\ncn 1 2 3 4\nmoves 90\nq 0 ",
        )
    );
    Ok(())
}

/// Each reason why there is no layout: those of `layout`, and between them bad old sets.
#[test]
fn moves_refused(rt: HostRuntime) -> Result<(), Fail> {
    let rows: [(&[u8], &[u8]); 15] = [
        (b"node = [", b"bad toml\n"),
        (b"zone = '\xff'", b"bad toml\n"),
        (b"node = [{ id = 65 }]\nold = 3", b"bad field id\n"),
        (b"node = []", b"bad field old\n"),
        (b"node = []\nold = []", b"bad field old\n"),
        (b"node = []\nold = [3]", b"bad field old\n"),
        (
            b"node = []\nold = [{ first = 0, last = 254, nodes = [1, 2, 3] }]",
            b"bad field old\n",
        ),
        (
            b"node = []\nold = [{ first = 0, last = 256, nodes = [1, 2, 3] }]",
            b"bad field old\n",
        ),
        (
            b"\
                node = []\n\
                old = [{ first = 0, last = 9, nodes = [1, 2, 3] }, { first = 11, last = 255, nodes = [1, 2, 3] }]",
            b"bad field old\n",
        ),
        (
            b"node = []\nold = [{ first = 1, last = 255, nodes = [1, 2, 3] }, { first = 0, last = 0, nodes = [1, 2, 3] }]",
            b"bad field old\n",
        ),
        (
            b"node = []\nold = [{ first = 0, last = 255, nodes = [1, 2, 1] }]",
            b"bad field old\n",
        ),
        (
            b"node = []\nold = [{ first = 0, last = 255, nodes = [1, 2, 65] }]",
            b"bad field old\n",
        ),
        (
            b"node = []\nold = [{ first = 0, last = 255, nodes = [1, 2, 3, 4] }]",
            b"bad field old\n",
        ),
        (
            b"node = []\nold = [{ first = 0, last = 255, nodes = [62, 63, 64] }]",
            b"too few nodes 0\n",
        ),
        (
            b"\
                node = [{ id = 1, zone = 'a', capacity = 255 }, { id = 2, zone = 'b', capacity = 255 }, \
                { id = 3, zone = 'c', capacity = 255 }]\n\
                old = [{ first = 0, last = 255, nodes = [1, 2, 3] }]",
            b"no assignment\ncut 1 765\nc 0 255 up z:a z:b z:c\ncn 1 2 3\n",
        ),
    ];
    for (input, wanted) in rows {
        let (status, text) = answered_by(rt.alloc(), input, true)?;
        assert_eq!(rt; status, Status::Refused);
        assert_eq!(rt; text.as_slice(), wanted);
    }
    Ok(())
}

/// Old sets as an assignment: each set in order of nodes.
#[test]
fn old_sets_are_read(rt: HostRuntime) -> Result<(), Fail> {
    let text =
        "[[old]]\nfirst = 0\nlast = 0\nnodes = [9, 64, 1]\n[[old]]\nfirst = 1\nlast = 255\nnodes = [4, 3, 5]\n";
    let sets = match read_old(rt.alloc(), text) {
        Ok(old) => Some((old.set(0), old.set(1), old.set(255))),
        Err(_) => None,
    };
    assert_eq!(rt; sets, Some(([1, 9, 64], [3, 4, 5], [3, 4, 5])));
    Ok(())
}
