//! Layouts where a read of the input or a write of the output fails, and inputs about the limit.
use crate::printing::{NO_OLD_SETS, ONE_NODE_REPLACED, printed};
use lab_outside::{MemSink, MemSource, Status};
use layout_command::{Goal, run_layout};
use std::alloc::Global;
use std::test::Fail;

/// The layout of three nodes of 1,000 bytes: 333 is a third of that, and with partitions of 4 bytes 250 copies fit a node.
const LAYOUT: &[u8] =
    b"size 3\nredundancy 3\np 0 255 1 2 3\ncut 4 750\nc 0 255 up z:a z:b z:c\ncn 1 2 3\n";

/// What a layout that moves 256 copies begins with.
const MOVED: &[u8] =
    b"size 3\nredundancy 3\np 0 255 1 2 4\ncut 4 750\nc 0 255 up z:a z:b z:c\ncn 1 2 4\nmoves 256\nq 0 ";

/// Which read and which write fail, none where the number is 0; how that ends; and whether the whole text is written, or
/// nothing. Two reads give an input and its end, and one write takes the text.
const FAULTS: [(u64, u64, Status, bool); 5] = [
    (1, 0, Status::ReadFault, false),
    (2, 0, Status::ReadFault, false),
    (3, 0, Status::Done, true),
    (0, 1, Status::WriteFault, false),
    (0, 2, Status::Done, true),
];

/// The status and the bytes of a run over this input, of which one read or one write fails.
fn faulty(
    alloc: Global,
    goal: Goal,
    input: &[u8],
    read: u64,
    write: u64,
) -> Result<(Status, Vec<u8>), Fail> {
    let mut source = MemSource::new(input.to_vec(alloc)?, [read].to_vec(alloc)?);
    let mut sink = MemSink::new(alloc, [write].to_vec(alloc)?);
    let status = run_layout(alloc, goal, &mut source, &mut sink);
    Ok((status, sink.bytes().to_vec(alloc)?))
}

/// The first read and write with whose failure a run ends otherwise than it should.
fn differing(
    alloc: Global,
    goal: Goal,
    input: &[u8],
    whole: &[u8],
) -> Result<Option<(u64, u64)>, Fail> {
    for (read, write, wanted, is_whole) in FAULTS {
        let (status, text) = faulty(alloc, goal, input, read, write)?;
        let text_wanted = if is_whole { whole } else { b"" };
        if status != wanted || text.as_slice() != text_wanted {
            return Ok(Some((read, write)));
        }
    }
    Ok(None)
}

#[test]
fn each_call_of_a_layout_fails(rt: HostRuntime) -> Result<(), Fail> {
    assert_eq!(rt;
        differing(rt.alloc(), Goal::Size, NO_OLD_SETS, LAYOUT)?,
        None
    );
    Ok(())
}

#[test]
fn each_call_of_fewest_moves_fails(rt: HostRuntime) -> Result<(), Fail> {
    let (status, whole) = printed(rt.alloc(), Goal::Moves, ONE_NODE_REPLACED)?;
    assert_eq!(rt; status, Status::Done);
    assert!(rt; whole.starts_with(MOVED));
    assert_eq!(rt;
        differing(rt.alloc(), Goal::Moves, ONE_NODE_REPLACED, &whole)?,
        None
    );
    Ok(())
}

/// What is answered to a comment of so many bytes.
fn commented(alloc: Global, goal: Goal, count: usize) -> Result<(Status, Vec<u8>), Fail> {
    let mut input = Vec::new(alloc);
    input.resize(count, b'#')?;
    printed(alloc, goal, &input)
}

/// A comment of 8,388,608 bytes has no nodes, and one byte more is too much.
#[test]
fn limit_of_a_configuration(rt: HostRuntime) -> Result<(), Fail> {
    for goal in [Goal::Size, Goal::Moves] {
        let (status, text) = commented(rt.alloc(), goal, 8_388_608)?;
        assert_eq!(rt; status, Status::Refused);
        assert_eq!(rt; text.as_slice(), b"bad field node\n".as_slice());
        let (status, text) = commented(rt.alloc(), goal, 8_388_609)?;
        assert_eq!(rt; status, Status::Limit);
        assert_eq!(rt; text.as_slice(), b"limit input 8388608\n".as_slice());
    }
    Ok(())
}
