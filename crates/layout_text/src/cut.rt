//! The lines of a cut.
ghost use Rattle.std.specs.Prelude.{◌≡◌, ◌++◌, nat_eq, map, flat_map, IfOk, OnOk};
ghost use Rattle.std.specs.Cmp.Lexicographic.{pointwise};
ghost use Rattle.std.specs.List.{range_with_len};
ghost use Rattle.crdt_core.specs.Outcomes.{OnlyWant};
ghost use Rattle.layout_roles.specs.Runs.{runs, run_lines};
ghost use Rattle.layout_roles.specs.Text.{word, is_in_partition, zone_word, vertex_word, side_words, side_line, side_lines, node_word, cut_line, nodes_line, cut_text, cut_lines};

use crate::runs::run_length;
use crate::words::{append_number, append_word};
use crdt_core::{Bytes, List, Memory};
use layout_roles::{Cut, PARTITIONS, Roles, Vertex, zone_names};
use std::alloc::Global;

/// Whether a vertex belongs to a partition.
pub fn is_in_partition(vertex: &Vertex, partition: u8) -> bool
    ensures { result ≡ is_in_partition partition vertex.now }
{
    match vertex {
        Vertex::Up(p) | Vertex::Down(p) | Vertex::Zone(p, _) => *p == partition,
        Vertex::Source | Vertex::Node(_) | Vertex::Sink => false,
    }
}

fn append_zone(out: &mut Bytes, names: &[Bytes], zone: u8) -> Result<(), Memory>
    ensures ok { OnOk result (out.new ≡ out.old ++ word (zone_word names.now zone)) }
    ensures want { OnlyWant result }
{
    append_word(out, b"z:")?;
    match names.get(usize::from(zone)) {
        Some(name) => out.extend_from_slice(name.as_slice()),
        None => Ok(()),
    }
}

fn append_vertex(out: &mut Bytes, names: &[Bytes], vertex: &Vertex) -> Result<(), Memory>
    ensures ok { OnOk result (out.new ≡ out.old ++ word (vertex_word names.now vertex.now)) }
    ensures want { OnlyWant result }
{
    match vertex {
        Vertex::Up(_) => append_word(out, b"up"),
        Vertex::Down(_) => append_word(out, b"down"),
        Vertex::Zone(_, zone) => append_zone(out, names, *zone),
        Vertex::Source | Vertex::Node(_) | Vertex::Sink => append_word(out, b""),
    }
}

// The words of a partition's vertices.
fn side_words(
    alloc: Global,
    names: &[Bytes],
    side: &[Vertex],
    partition: u8,
) -> Result<Bytes, Memory>
    ensures words { IfOk result (λ words. words ≡ side_words names.now side.now partition) }
    ensures want { OnlyWant result }
{
    let mut words = Bytes::new(alloc);
    for vertex in side {
        if is_in_partition(vertex, partition) {
            append_vertex(&mut words, names, vertex)?;
        }
    }
    Ok(words)
}

// The words of each partition's vertices.
fn all_words(alloc: Global, names: &[Bytes], side: &[Vertex]) -> Result<List<Bytes>, Memory>
    ensures words { IfOk result
        (λ all. all ≡ map (side_words names.now side.now) (range_with_len 0 256)) }
    ensures want { OnlyWant result }
{
    let mut all = List::new(alloc);
    for partition in 0..PARTITIONS {
        all.push(side_words(alloc, names, side, partition as u8)?)?;
    }
    Ok(all)
}

fn append_side(out: &mut Bytes, first: usize, last: usize, words: &[u8]) -> Result<(), Memory>
    ensures ok { OnOk result (out.new ≡ out.old ++ side_line first last words.now) }
    ensures want { OnlyWant result }
{
    if words.is_empty() {
        return Ok(());
    }
    out.push(b'c')?;
    append_number(out, first as u64)?;
    append_number(out, last as u64)?;
    out.extend_from_slice(words)?;
    out.push(b'\n')
}

fn append_runs(out: &mut Bytes, words: &[Bytes]) -> Result<(), Memory>
    ensures ok { OnOk result (out.new ≡ out.old ++ run_lines side_line 0
        (runs (pointwise nat_eq) words.now)) }
    ensures want { OnlyWant result }
{
    let mut first = 0;
    while first < words.len() {
        let next = first + run_length(&words[first..]);
        append_side(out, first, next - 1, words[first].as_slice())?;
        first = next;
    }
    Ok(())
}

#[tactic(auto, unfolding(layout_roles::specs::Text::side_lines))]
fn append_sides(out: &mut Bytes, names: &[Bytes], side: &[Vertex]) -> Result<(), Memory>
    ensures ok { OnOk result (out.new ≡ out.old ++ side_lines names.now side.now) }
    ensures want { OnlyWant result }
{
    let words = all_words(out.allocator(), names, side)?;
    append_runs(out, words.as_slice())
}

// The nodes of a side.
fn append_nodes(out: &mut Bytes, side: &[Vertex]) -> Result<(), Memory>
    ensures ok { OnOk result (out.new ≡ out.old ++ flat_map node_word side.now) }
    ensures want { OnlyWant result }
{
    for vertex in side {
        match vertex {
            Vertex::Node(node) => append_number(out, u64::from(*node))?,
            _ => {}
        }
    }
    Ok(())
}

#[tactic(auto, unfolding(layout_roles::specs::Text::nodes_line))]
fn append_nodes_line(out: &mut Bytes, side: &[Vertex]) -> Result<(), Memory>
    ensures ok { OnOk result (out.new ≡ out.old ++ nodes_line side.now) }
    ensures want { OnlyWant result }
{
    out.extend_from_slice(b"cn")?;
    append_nodes(out, side)?;
    out.push(b'\n')
}

#[tactic(auto, unfolding(layout_roles::specs::Text::cut_line))]
fn append_cut_line(out: &mut Bytes, size: u64, weight: u32) -> Result<(), Memory>
    ensures ok { OnOk result (out.new ≡ out.old ++ cut_line size weight) }
    ensures want { OnlyWant result }
{
    out.extend_from_slice(b"cut")?;
    append_number(out, size)?;
    append_number(out, u64::from(weight))?;
    out.push(b'\n')
}

pub(crate) fn append_cut(out: &mut Bytes, names: &[Bytes], cut: &Cut) -> Result<(), Memory>
    ensures ok { OnOk result (out.new ≡ out.old ++ cut_text names.now cut.now) }
    ensures want { OnlyWant result }
{
    append_cut_line(out, cut.size, cut.weight)?;
    append_sides(out, names, cut.side.as_slice())?;
    append_nodes_line(out, cut.side.as_slice())
}

/// `cut SIZE WEIGHT`, then `c FIRST LAST` and the vertices for each longest run of partitions with the same
/// ones on the source's side, then `cn` and the nodes on that side.
pub fn cut_lines(alloc: Global, cut: &Cut, roles: &Roles) -> Result<Bytes, Memory>
    ensures text { IfOk result (λ text. text ≡ cut_lines roles.now.list cut.now) }
    ensures want { OnlyWant result }
{
    let names = zone_names(alloc, roles.list.as_slice())?;
    let mut out = Bytes::new(alloc);
    append_cut(&mut out, names.as_slice(), cut)?;
    Ok(out)
}
