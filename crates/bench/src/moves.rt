//! The job `moves`: the answer of `layout --moves` to an input.

use crdt_core::Bytes;
use lab_outside::{Source, read_up_to};
use layout_command::moves_answer;
use std::alloc::Global;

// How many bytes of the input are read.
const INPUT_LIMIT: usize = 8_388_608;

/// What `layout --moves` answers to what a source has, or nothing where a read fails or memory is wanting.
pub fn answered_moves(alloc: Global, input: &mut impl Source) -> Option<Bytes> {
    let bytes = read_up_to(alloc, input, INPUT_LIMIT).ok()?;
    let reply = moves_answer(alloc, &bytes).ok()?;
    Some(reply.text)
}
