//! Runs of the command, with ample memory.
use k2v_api::k2v;
use lab_outside::{MemSink, MemSource, Status};
use std::alloc::Global;
use std::test::Fail;

/// Whether a line is of a single message or of a node.
fn is_left_out(line: &[u8]) -> bool {
    line.is_empty()
        || line.starts_with(b"got ")
        || line.starts_with(b"sent ")
        || line.starts_with(b"node ")
}

/// The status and the text of a run over this input, of which the read and the write with these numbers fail, none where it is
/// 0.
pub fn faulty(
    alloc: Global,
    input: &[u8],
    read: u64,
    write: u64,
) -> Result<(Status, Vec<u8>), Fail> {
    let mut source = MemSource::new(input.to_vec(alloc)?, [read].to_vec(alloc)?);
    let mut sink = MemSink::new(alloc, [write].to_vec(alloc)?);
    let status = k2v(alloc, &mut source, &mut sink);
    Ok((status, sink.bytes().to_vec(alloc)?))
}

/// The status and the text of a run over this input.
pub fn played(alloc: Global, input: &[u8]) -> Result<(Status, Vec<u8>), Fail> {
    faulty(alloc, input, 0, 0)
}

/// The same without the lines of single messages and of nodes.
pub fn told(alloc: Global, input: &[u8]) -> Result<(Status, Vec<u8>), Fail> {
    let (status, text) = played(alloc, input)?;
    let mut left = Vec::new(alloc);
    for line in text.split(|byte| *byte == b'\n') {
        if !is_left_out(line) {
            left.extend_from_slice(line)?;
            left.push(b'\n')?;
        }
    }
    Ok((status, left))
}
