//! The lines of potentials.
ghost use Rattle.std.specs.Prelude.{◌≡◌, ◌++◌, nat_eq, map, flat_map, IfOk, OnOk};
ghost use Rattle.std.specs.Cmp.Lexicographic.{pointwise};
ghost use Rattle.std.specs.List.{range_with_len};
ghost use Rattle.crdt_core.specs.Outcomes.{OnlyWant};
ghost use Rattle.layout_roles.specs.Runs.{runs, run_lines};
ghost use Rattle.layout_command.specs.Moves.{whole, partition_words, partition_line, partition_lines, node_word, node_line, sink_word, sink_line, potential_lines};

use crdt_core::{Bytes, List, Memory};
use itoa::Buffer;
use layout_roles::{PARTITIONS, Vertex};
use layout_text::{append_number, append_word, is_in_partition, run_length};
use std::alloc::Global;

fn append_potential(out: &mut Bytes, potential: i64) -> Result<(), Memory>
    ensures ok { OnOk result (out.new ≡ out.old ++ whole potential) }
    ensures want { OnlyWant result }
{
    append_word(out, Buffer::new().format(potential).as_bytes())
}

// The potentials of a partition's vertices.
fn partition_words(alloc: Global, entries: &[(Vertex, i64)], partition: u8) -> Result<Bytes, Memory>
    ensures words { IfOk result (λ words. words ≡ partition_words entries.now partition) }
    ensures want { OnlyWant result }
{
    let mut words = Bytes::new(alloc);
    for entry in entries {
        if is_in_partition(&entry.0, partition) {
            append_potential(&mut words, entry.1)?;
        }
    }
    Ok(words)
}

// The potentials of each partition's vertices.
fn all_words(alloc: Global, entries: &[(Vertex, i64)]) -> Result<List<Bytes>, Memory>
    ensures words { IfOk result
        (λ all. all ≡ map (partition_words entries.now) (range_with_len 0 256)) }
    ensures want { OnlyWant result }
{
    let mut all = List::new(alloc);
    for partition in 0..PARTITIONS {
        all.push(partition_words(alloc, entries, partition as u8)?)?;
    }
    Ok(all)
}

fn append_line(out: &mut Bytes, first: usize, last: usize, words: &[u8]) -> Result<(), Memory>
    ensures ok { OnOk result (out.new ≡ out.old ++ partition_line first last words.now) }
    ensures want { OnlyWant result }
{
    out.push(b'q')?;
    append_number(out, first as u64)?;
    append_number(out, last as u64)?;
    out.extend_from_slice(words)?;
    out.push(b'\n')
}

fn append_runs(out: &mut Bytes, words: &[Bytes]) -> Result<(), Memory>
    ensures ok { OnOk result (out.new ≡ out.old ++ run_lines partition_line 0
        (runs (pointwise nat_eq) words.now)) }
    ensures want { OnlyWant result }
{
    let mut first = 0;
    while first < words.len() {
        let next = first + run_length(&words[first..]);
        append_line(out, first, next - 1, words[first].as_slice())?;
        first = next;
    }
    Ok(())
}

#[tactic(auto, unfolding(crate::specs::Moves::partition_lines))]
fn append_partitions(out: &mut Bytes, entries: &[(Vertex, i64)]) -> Result<(), Memory>
    ensures ok { OnOk result (out.new ≡ out.old ++ partition_lines entries.now) }
    ensures want { OnlyWant result }
{
    let words = all_words(out.allocator(), entries)?;
    append_runs(out, words.as_slice())
}

// The potentials of the nodes.
fn append_nodes(out: &mut Bytes, entries: &[(Vertex, i64)]) -> Result<(), Memory>
    ensures ok { OnOk result (out.new ≡ out.old ++ flat_map node_word entries.now) }
    ensures want { OnlyWant result }
{
    for entry in entries {
        match entry.0 {
            Vertex::Node(_) => append_potential(out, entry.1)?,
            _ => {}
        }
    }
    Ok(())
}

// The potential of the sink.
fn append_sink(out: &mut Bytes, entries: &[(Vertex, i64)]) -> Result<(), Memory>
    ensures ok { OnOk result (out.new ≡ out.old ++ flat_map sink_word entries.now) }
    ensures want { OnlyWant result }
{
    for entry in entries {
        match entry.0 {
            Vertex::Sink => append_potential(out, entry.1)?,
            _ => {}
        }
    }
    Ok(())
}

#[tactic(auto, unfolding(crate::specs::Moves::node_line))]
fn append_node_line(out: &mut Bytes, entries: &[(Vertex, i64)]) -> Result<(), Memory>
    ensures ok { OnOk result (out.new ≡ out.old ++ node_line entries.now) }
    ensures want { OnlyWant result }
{
    out.extend_from_slice(b"qn")?;
    append_nodes(out, entries)?;
    out.push(b'\n')
}

#[tactic(auto, unfolding(crate::specs::Moves::sink_line))]
fn append_sink_line(out: &mut Bytes, entries: &[(Vertex, i64)]) -> Result<(), Memory>
    ensures ok { OnOk result (out.new ≡ out.old ++ sink_line entries.now) }
    ensures want { OnlyWant result }
{
    out.extend_from_slice(b"qs")?;
    append_sink(out, entries)?;
    out.push(b'\n')
}

/// Adds `q FIRST LAST` and the potentials of up, down and the zones in order of names for each longest run of
/// partitions where they are equal, then `qn` and those of the nodes ascending by node, then `qs` and the sink's.
#[tactic(auto, unfolding(crate::specs::Moves::potential_lines))]
pub(crate) fn append_potentials(out: &mut Bytes, entries: &[(Vertex, i64)]) -> Result<(), Memory>
    ensures ok { OnOk result (out.new ≡ out.old ++ potential_lines entries.now) }
    ensures want { OnlyWant result }
{
    append_partitions(out, entries)?;
    append_node_line(out, entries)?;
    append_sink_line(out, entries)
}
