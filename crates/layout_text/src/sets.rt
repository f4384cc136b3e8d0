//! The lines of the sets of partitions.
ghost use Rattle.std.specs.Prelude.{◌≡◌, ◌++◌, flat_map, IfOk, OnOk};
ghost use Rattle.crdt_core.specs.Outcomes.{OnlyWant};
ghost use Rattle.layout_roles.specs.Text.{number, set_line, set_lines};

use crate::runs::run_length;
use crate::words::append_number;
use crdt_core::{Bytes, Memory};
use layout_roles::Assignment;
use std::alloc::Global;

fn append_nodes(out: &mut Bytes, set: &[u8; 3]) -> Result<(), Memory>
    ensures ok { OnOk result (out.new ≡ out.old ++ flat_map number set.now) }
    ensures want { OnlyWant result }
{
    for node in set {
        append_number(out, u64::from(*node))?;
    }
    Ok(())
}

fn append_set(out: &mut Bytes, first: usize, last: usize, set: &[u8; 3]) -> Result<(), Memory>
    ensures ok { OnOk result (out.new ≡ out.old ++ set_line first last set.now) }
    ensures want { OnlyWant result }
{
    out.push(b'p')?;
    append_number(out, first as u64)?;
    append_number(out, last as u64)?;
    append_nodes(out, set)?;
    out.push(b'\n')
}

#[tactic(auto, unfolding(layout_roles::specs::Text::set_lines))]
pub(crate) fn append_sets(out: &mut Bytes, sets: &[[u8; 3]]) -> Result<(), Memory>
    ensures ok { OnOk result (out.new ≡ out.old ++ set_lines sets.now) }
    ensures want { OnlyWant result }
{
    let mut first = 0;
    while first < sets.len() {
        let next = first + run_length(&sets[first..]);
        append_set(out, first, next - 1, &sets[first])?;
        first = next;
    }
    Ok(())
}

/// `p FIRST LAST A B C` for each longest run of partitions that the nodes A, B and C keep.
pub fn set_lines(alloc: Global, sets: &Assignment) -> Result<Bytes, Memory>
    ensures text { IfOk result (λ text. text ≡ set_lines sets.now.sets) }
    ensures want { OnlyWant result }
{
    let mut out = Bytes::new(alloc);
    append_sets(&mut out, sets.sets.as_slice())?;
    Ok(out)
}
