//! The sets of a partition in the layout versions that a node stores.
ghost use Rattle.std.specs.Prelude.{◌≡◌, IfOk, OnOk};
ghost use Rattle.crdt_core.specs.Outcomes.{OnlyWant};
ghost use Rattle.layout_history.specs.Views.{known};
ghost use Rattle.quorum_model.specs.Quorum.{is_among};
ghost use Rattle.cluster_machine.specs.Layouts.{set_of, stored_sets, is_given, is_member, is_stored, layouts};
ghost use Rattle.cluster_machine.specs.Phases.{nodes_of, with_node};
ghost use Rattle.node_parts.specs.Sets.{others_of};

use crdt_core::Memory;
use layout_history::View;
use layout_roles::Layout;
use std::alloc::Global;

/// The three nodes of a partition in each stored version, from the oldest to the newest.
pub fn stored_sets(alloc: Global, view: &View, p: u8) -> Result<Vec<[u8; 3]>, Memory>
    ensures are { IfOk result (λ sets. sets.items ≡ stored_sets layouts (known view.now) p) }
    ensures want { OnlyWant result }
{
    let mut sets = Vec::new(alloc);
    for layout in view.layouts() {
        sets.push(layout.sets.set(p))?;
    }
    Ok(sets)
}

/// Whether some stored version gives the node the partition.
pub fn is_given(view: &View, node: u8, p: u8) -> bool
    ensures { result ≡ is_given layouts (known view.now) node p }
{
    view.layouts().iter().any(|layout| gives(layout, node, p))
}

// Whether the layout gives the node the partition.
fn gives(layout: &Layout, node: u8, p: u8) -> bool
    ensures { result ≡ is_among node (set_of layouts layout.now p) }
{
    layout.sets.set(p).contains(&node)
}

/// Whether the node has a role in its newest version.
pub fn is_member(view: &View, node: u8) -> bool
    ensures { result ≡ is_member layouts (known view.now) node }
{
    view.role(view.newest(), node).is_some()
}

/// Whether the version is stored.
pub fn is_stored(view: &View, version: u32) -> bool
    ensures { result ≡ is_stored layouts (known view.now) version }
{
    view.layout(version).is_some()
}

// Puts a node in its place among others, in order of nodes and each once.
fn put_in(nodes: &mut Vec<u8>, node: u8) -> Result<(), Memory>
    ensures put { OnOk result (nodes.new.items ≡ with_node node nodes.old.items) }
    ensures want { OnlyWant result }
{
    for place in 0..nodes.len() {
        let other = nodes[place];
        if other == node {
            return Ok(());
        }
        if node < other {
            nodes.insert(place, node)?;
            return Ok(());
        }
    }
    nodes.push(node)?;
    Ok(())
}

/// The nodes of all these sets, in order and each once.
pub fn nodes_of(alloc: Global, sets: &[[u8; 3]]) -> Result<Vec<u8>, Memory>
    ensures are { IfOk result (λ nodes. nodes.items ≡ nodes_of sets.now) }
    ensures want { OnlyWant result }
{
    let mut nodes = Vec::new(alloc);
    let mut left = sets.len();
    while 0 < left {
        left -= 1;
        let [first, second, third] = sets[left];
        put_in(&mut nodes, third)?;
        put_in(&mut nodes, second)?;
        put_in(&mut nodes, first)?;
    }
    Ok(nodes)
}

/// The nodes of a set other than this one.
pub fn others_of(alloc: Global, set: &[u8; 3], node: u8) -> Result<Vec<u8>, Memory>
    ensures are { IfOk result (λ others. others.items ≡ others_of node set.now) }
    ensures want { OnlyWant result }
{
    Ok(
        set.iter()
            .filter(|other| **other != node)
            .map(|other| *other)
            .collect(alloc)?,
    )
}
