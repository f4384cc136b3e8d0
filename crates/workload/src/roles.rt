//! The roles that nodes take in a change of the layout.
ghost use Rattle.std.specs.Prelude.{◌≡◌, ◌≤◌, ◌++◌, IfOk, OnOk};
ghost use Rattle.crdt_core.specs.Outcomes.{OnlyWant};
ghost use Rattle.workload.specs.Change.{on_each, zone_of, stores, kind_of, role_of};

use crdt_core::{Bytes, List, Memory};
use layout_roles::{Kind, Zone};
use std::alloc::Global;
use store_model::Event;

/// The zone of a node: a, b or c.
fn zone(alloc: Global, node: u8) -> Result<Zone, Memory>
    requires node { node ≤ 6 }
    ensures zone { IfOk result (λ zone. zone ≡ zone_of node) }
    ensures want { OnlyWant result }
{
    Ok(Zone(Bytes::from_slice(alloc, &[b'a' + (node + 2) % 3])?))
}

/// Whether a node stores rows after change `j`.
fn stores(j: u32, node: u8) -> bool
    ensures { result ≡ stores j node }
{
    if j % 2 == 0 { node <= 3 } else { 4 <= node }
}

/// The kind of a node after change `j`.
fn kind(j: u32, node: u8) -> Kind
    ensures { result ≡ kind_of j node }
{
    if stores(j, node) {
        Kind::Storage(1000)
    } else {
        Kind::Gateway
    }
}

/// The event that gives a node its role in change `j`.
fn role(alloc: Global, j: u32, node: u8) -> Result<Event, Memory>
    requires node { node ≤ 6 }
    ensures role { IfOk result (λ event. event ≡ role_of j node) }
    ensures want { OnlyWant result }
{
    Ok(Event::Role {
        node,
        role: Some((zone(alloc, node)?, kind(j, node))),
    })
}

/// Adds the events that give nodes 1 to 6 their roles in change `j`.
pub(crate) fn add_roles(alloc: Global, j: u32, events: &mut List<Event>) -> Result<(), Memory>
    ensures ok { OnOk result (events.new ≡ events.old ++ on_each (role_of j)) }
    ensures want { OnlyWant result }
{
    for node in 1..7 {
        events.push(role(alloc, j, node)?)?;
    }
    Ok(())
}
