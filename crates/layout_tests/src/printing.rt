//! The command with its input and output: whole texts of layouts and of refusals.
use lab_outside::{MemSink, MemSource, Status};
use layout_command::{Goal, run_layout};
use std::alloc::Global;
use std::test::Fail;

/// Four nodes in three zones, two of them in lyon.
const THREE_ZONES: &[u8] = b"\
    [[node]]\n\
    id = 1\n\
    zone = 'lille'\n\
    capacity = 2_000_000_000_000\n\
    [[node]]\n\
    id = 2\n\
    zone = 'paris'\n\
    capacity = 2_000_000_000_000\n\
    [[node]]\n\
    id = 3\n\
    zone = 'lyon'\n\
    capacity = 1_000_000_000_000\n\
    [[node]]\n\
    id = 4\n\
    zone = 'lyon'\n\
    capacity = 2_000_000_000_000\n";

/// Three nodes in two zones, and a gateway.
const GATEWAY_HAS_NO_COPIES: &[u8] = b"\
    redundancy = 2\n\
    [[node]]\n\
    id = 1\n\
    zone = 'lille'\n\
    capacity = 500_000_000_000\n\
    [[node]]\n\
    id = 2\n\
    zone = 'paris'\n\
    capacity = 500_000_000_000\n\
    [[node]]\n\
    id = 3\n\
    zone = 'paris'\n\
    capacity = 1_000_000_000_000\n\
    [[node]]\n\
    id = 4\n\
    zone = 'lyon'\n\
    gateway = true\n";

/// Three nodes in two zones, where three are asked for.
const TOO_FEW_ZONES: &[u8] = b"\
    redundancy = 3\n\
    [[node]]\n\
    id = 1\n\
    zone = 'lille'\n\
    capacity = 2_000_000_000_000\n\
    [[node]]\n\
    id = 2\n\
    zone = 'paris'\n\
    capacity = 2_000_000_000_000\n\
    [[node]]\n\
    id = 3\n\
    zone = 'paris'\n\
    capacity = 2_000_000_000_000\n";

const GATEWAY_TEXT: &[u8] =
    b"size 1953125000\nredundancy 2\np 0 255 1 2 3\ncut 1953125001 766\nc 0 255 up down z:lille z:paris\ncn 1 2\n";

/// Node 4 takes the place of node 3, which leaves.
pub const ONE_NODE_REPLACED: &[u8] = b"\
    [[node]]\n\
    id = 1\n\
    zone = 'a'\n\
    capacity = 1000\n\
    [[node]]\n\
    id = 2\n\
    zone = 'b'\n\
    capacity = 1000\n\
    [[node]]\n\
    id = 4\n\
    zone = 'c'\n\
    capacity = 1000\n\
    [[old]]\n\
    first = 0\n\
    last = 255\n\
    nodes = [1, 2, 3]\n";

/// A second node comes to zone c, and both have room for 166 partitions.
const HALVES_IN_ONE_ZONE: &[u8] = b"\
    [[node]]\n\
    id = 1\n\
    zone = 'a'\n\
    capacity = 1000\n\
    [[node]]\n\
    id = 2\n\
    zone = 'b'\n\
    capacity = 1000\n\
    [[node]]\n\
    id = 3\n\
    zone = 'c'\n\
    capacity = 500\n\
    [[node]]\n\
    id = 4\n\
    zone = 'c'\n\
    capacity = 500\n\
    [[old]]\n\
    first = 0\n\
    last = 255\n\
    nodes = [1, 2, 3]\n";

/// Three nodes, and no old sets.
pub const NO_OLD_SETS: &[u8] = b"\
    [[node]]\n\
    id = 1\n\
    zone = 'a'\n\
    capacity = 1000\n\
    [[node]]\n\
    id = 2\n\
    zone = 'b'\n\
    capacity = 1000\n\
    [[node]]\n\
    id = 3\n\
    zone = 'c'\n\
    capacity = 1000\n";

const ID_OUT_OF_RANGE: &[u8] = b"node = [{ id = 65 }]";

/// The status and the bytes of a run over this input.
pub fn printed(alloc: Global, goal: Goal, input: &[u8]) -> Result<(Status, Vec<u8>), Fail> {
    let mut source = MemSource::new(input.to_vec(alloc)?, Vec::new(alloc));
    let mut sink = MemSink::new(alloc, Vec::new(alloc));
    let status = run_layout(alloc, goal, &mut source, &mut sink);
    Ok((status, sink.bytes().to_vec(alloc)?))
}

/// Inputs, with the answer and its whole text.
#[test]
fn layouts_and_refusals(rt: HostRuntime) -> Result<(), Fail> {
    let rows: [(Goal, &[u8], Status, &[u8]); 7] = [
        (
            Goal::Moves,
            NO_OLD_SETS,
            Status::Refused,
            b"bad field old\n",
        ),
        (
            Goal::Moves,
            TOO_FEW_ZONES,
            Status::Refused,
            b"bad field old\n",
        ),
        (
            Goal::Size,
            GATEWAY_HAS_NO_COPIES,
            Status::Done,
            GATEWAY_TEXT,
        ),
        (
            Goal::Size,
            TOO_FEW_ZONES,
            Status::Refused,
            b"too few zones 2 3\n",
        ),
        (Goal::Size, b"", Status::Refused, b"bad field node\n"),
        (
            Goal::Size,
            ID_OUT_OF_RANGE,
            Status::Refused,
            b"bad field id\n",
        ),
        (Goal::Size, b"# \xff", Status::Refused, b"bad toml\n"),
    ];
    for (goal, input, wanted, text) in rows {
        let (status, found) = printed(rt.alloc(), goal, input)?;
        assert_eq!(rt; status, wanted);
        assert_eq!(rt; found.as_slice(), text);
    }
    Ok(())
}

/// Which of the partitions node 3 has and which node 4 is free: the lines before them, and the cut.
#[test]
fn three_zones(rt: HostRuntime) -> Result<(), Fail> {
    let (status, text) = printed(rt.alloc(), Goal::Size, THREE_ZONES)?;
    assert_eq!(rt; status, Status::Done);
    assert!(rt; text.starts_with(b"size 7812500000\nredundancy 3\np 0 "));
    assert!(rt; text.ends_with(b"\ncut 7812500001 766\nc 0 255 up z:lille z:paris\ncn 1 2\n"));
    Ok(())
}

/// Which copies move, and which potentials show that none fewer do, is free: the size, and how many move.
#[test]
fn fewest_moves(rt: HostRuntime) -> Result<(), Fail> {
    let rows: [(&[u8], &[u8]); 2] = [
        (ONE_NODE_REPLACED, b"moves 256"),
        (HALVES_IN_ONE_ZONE, b"moves 90"),
    ];
    for (input, wanted) in rows {
        let (status, text) = printed(rt.alloc(), Goal::Moves, input)?;
        assert_eq!(rt; status, Status::Done);
        assert!(rt; text.starts_with(b"size 3\nredundancy 3\np 0 "));
        assert!(rt; text.split(|byte| *byte == b'\n').any(|line| line == wanted));
    }
    Ok(())
}
