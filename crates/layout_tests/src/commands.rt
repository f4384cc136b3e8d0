//! Worked layouts, each worked out by hand.
use crdt_core::Memory;
use lab_outside::Status;
use layout_command::{answer, moves_answer, one_status};
use std::alloc::Global;
use std::test::Fail;

/// What `layout` answers to an input, or `layout --moves`.
pub fn answered_by(alloc: Global, input: &[u8], moves: bool) -> Result<(Status, Vec<u8>), Memory> {
    let reply = if moves {
        moves_answer(alloc, input)?
    } else {
        answer(alloc, input)?
    };
    Ok((reply.status, reply.text.into_vec()))
}

/// The layouts whose sets are the only ones: the whole text.
#[test]
fn whole_layouts(rt: HostRuntime) -> Result<(), Fail> {
    let three_equal_zones = b"\
        node = [{ id = 1, zone = 'a', capacity = 1000 }, { id = 2, zone = 'b', capacity = 1000 }, \
        { id = 3, zone = 'c', capacity = 1000 }]";
    let gateway_has_no_copies = b"\
        node = [{ id = 4, zone = 'd', gateway = true }, { id = 2, zone = 'b', capacity = 1000 }, \
        { id = 1, zone = 'a', capacity = 1000 }, { id = 3, zone = 'c', capacity = 1000 }]";
    let capacity_at_256 = b"\
        node = [{ id = 1, zone = 'a', capacity = 256 }, { id = 2, zone = 'b', capacity = 256 }, \
        { id = 3, zone = 'c', capacity = 256 }]";
    let of_1000 =
        b"size 3\nredundancy 3\np 0 255 1 2 3\ncut 4 750\nc 0 255 up z:a z:b z:c\ncn 1 2 3\n";
    let of_256 =
        b"size 1\nredundancy 3\np 0 255 1 2 3\ncut 2 384\nc 0 255 up z:a z:b z:c\ncn 1 2 3\n";
    let rows: [(&[u8], &[u8]); 3] = [
        (three_equal_zones, of_1000),
        (gateway_has_no_copies, of_1000),
        (capacity_at_256, of_256),
    ];
    for (input, wanted) in rows {
        let (status, text) = answered_by(rt.alloc(), input, false)?;
        assert_eq!(rt; status, Status::Done);
        assert_eq!(rt; text.as_slice(), wanted);
    }
    one_status();
    Ok(())
}

/// The layouts whose sets are free: the lines before them, and the cut.
#[test]
fn layouts_with_free_sets(rt: HostRuntime) -> Result<(), Fail> {
    let four_nodes_three_zones = b"\
        redundancy = 'maximum'\n\
        node = [{ id = 1, zone = 'a', capacity = 1000 }, { id = 2, zone = 'b', capacity = 1000 }, \
        { id = 3, zone = 'c', capacity = 1000 }, { id = 4, zone = 'c', capacity = 500 }]";
    let two_zones_of_two = b"\
        redundancy = 2\n\
        node = [{ id = 1, zone = 'a', capacity = 300 }, { id = 2, zone = 'a', capacity = 300 }, \
        { id = 3, zone = 'b', capacity = 300 }, { id = 4, zone = 'b', capacity = 300 }]";
    let rows: [(&[u8], &[u8], &[u8]); 2] = [
        (
            four_nodes_three_zones,
            b"size 3\nredundancy 3\np 0 ",
            b"\ncut 4 756\nc 0 255 up z:a z:b\ncn 1 2\n",
        ),
        (
            two_zones_of_two,
            b"size 1\nredundancy 2\np 0 ",
            b"\ncut 2 600\nc 0 255 up down z:a z:b\ncn 1 2 3 4\n",
        ),
    ];
    for (input, head, cut) in rows {
        let (status, text) = answered_by(rt.alloc(), input, false)?;
        assert_eq!(rt; status, Status::Done);
        assert!(rt; text.starts_with(head));
        assert!(rt; text.ends_with(cut));
    }
    Ok(())
}

/// Each reason why there is no layout.
#[test]
fn refusals(rt: HostRuntime) -> Result<(), Fail> {
    let capacity_below_256 =
        b"node = [{ id = 1, zone = 'a', capacity = 255 }, { id = 2, zone = 'b', capacity = 255 }, { id = 3, zone = 'c', capacity = 255 }]";
    let too_few_zones = b"\
        redundancy = 3\n\
        node = [{ id = 1, zone = 'a', capacity = 9 }, { id = 2, zone = 'b', capacity = 9 }, \
        { id = 3, zone = 'b', capacity = 9 }]";
    let too_few_nodes =
        b"node = [{ id = 1, zone = 'a', capacity = 9 }, { id = 2, zone = 'b', capacity = 9 }]";
    let rows: [(&[u8], &[u8]); 14] = [
        (
            capacity_below_256,
            b"no assignment\ncut 1 765\nc 0 255 up z:a z:b z:c\ncn 1 2 3\n",
        ),
        (too_few_zones, b"too few zones 2 3\n"),
        (too_few_nodes, b"too few nodes 2\n"),
        (b"node = []", b"too few nodes 0\n"),
        (b"node = [", b"bad toml\n"),
        (b"zone = '\xff'", b"bad toml\n"),
        (b"redundancy = 0\nnode = 3", b"bad field redundancy\n"),
        (b"buckets = 3", b"bad field node\n"),
        (b"node = [{ id = 65 }]", b"bad field id\n"),
        (
            b"node = [{ id = 1, zone = 'a', capacity = 9 }, { id = 1 }]",
            b"bad field id\n",
        ),
        (b"node = [{ id = 64, zone = 'A' }]", b"bad field zone\n"),
        (b"node = [{ id = 1, zone = 'a' }]", b"bad field capacity\n"),
        (
            b"node = [{ id = 1, zone = 'a', capacity = 9, gateway = true }]",
            b"bad field capacity\n",
        ),
        (
            b"node = [{ id = 1, zone = 'a', capacity = 1125899906842625 }]",
            b"bad field capacity\n",
        ),
    ];
    for (input, wanted) in rows {
        let (status, text) = answered_by(rt.alloc(), input, false)?;
        assert_eq!(rt; status, Status::Refused);
        assert_eq!(rt; text.as_slice(), wanted);
    }
    Ok(())
}
