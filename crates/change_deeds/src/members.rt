//! The nodes that take part in a layout change.
ghost use Rattle.std.specs.Prelude.{◌≡◌, ◌++◌, map, IfOk, OnOk};
ghost use Rattle.crdt_core.specs.Outcomes.{OnlyWant};
ghost use Rattle.cluster_machine.specs.Phases.{with_node, in_order};
ghost use Rattle.change_deeds.specs.Deeds.{with_nodes};

use crdt_core::{List, Memory};
use layout_roles::Role;
use std::alloc::Global;

/// The nodes of these roles, in order.
pub fn nodes_of(alloc: Global, roles: &[Role]) -> Result<List<u8>, Memory>
    ensures nodes { IfOk result (λ nodes. nodes ≡ map (λ role. role.node) roles.now) }
    ensures want { OnlyWant result }
{
    let mut nodes = List::new(alloc);
    for role in roles {
        nodes.push(role.node)?;
    }
    Ok(nodes)
}

// Puts a node in its place among others, in order of nodes and each once.
fn put_in(nodes: &mut Vec<u8>, node: u8) -> Result<(), Memory>
    ensures put { OnOk result (nodes.new.items ≡ with_node node nodes.old.items) }
    ensures want { OnlyWant result }
{
    for place in 0..nodes.len() {
        let other = nodes[place];
        if other == node {
            return Ok(());
        }
        if node < other {
            nodes.insert(place, node)?;
            return Ok(());
        }
    }
    nodes.push(node)?;
    Ok(())
}

// Puts nodes in their places among others, from the last one on.
fn put_all(nodes: &mut Vec<u8>, more: &[u8]) -> Result<(), Memory>
    ensures put { OnOk result (nodes.new.items ≡ with_nodes more.now nodes.old.items) }
    ensures want { OnlyWant result }
{
    let mut left = more.len();
    while 0 < left {
        left -= 1;
        put_in(nodes, more[left])?;
    }
    Ok(())
}

/// The members of an older layout and of a newer one, in order and each once.
pub fn of_both(alloc: Global, older: &[u8], newer: &[u8]) -> Result<List<u8>, Memory>
    ensures both { IfOk result (λ nodes. nodes ≡ in_order (older.now ++ newer.now)) }
    ensures want { OnlyWant result }
{
    let mut nodes = Vec::new(alloc);
    put_all(&mut nodes, newer)?;
    put_all(&mut nodes, older)?;
    Ok(List::from_vec(nodes))
}
