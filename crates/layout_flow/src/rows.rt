//! An assignment from copies that are laid out in three rows.
ghost use Rattle.std.specs.Prelude.{◌≡◌, ◌<◌, ◌≤◌, ◌*◌, ◌++◌, take, length, IfOk, OnOk};
ghost use Rattle.std.specs.List.{flat_map};
ghost use Rattle.crdt_core.specs.Outcomes.{OnlyWant};
ghost use Rattle.layout_flow.specs.Closed.{copies_of, zone_copies, columns};

use crate::totals::ALL_COPIES;
use crdt_core::{List, Memory};
use layout_roles::{PARTITIONS, Role, in_order};
use std::alloc::Global;

// Adds a node's copies: one for each partition that it has room for.
fn add_copies(copies: &mut List<u8>, role: &Role, size: u64) -> Result<(), Memory>
    requires { 0 < size }
    ensures ok { OnOk result (copies.new ≡ copies.old ++ copies_of 256 size role.now) }
    ensures want { OnlyWant result }
{
    let room = role.room(size).min(u64::from(PARTITIONS));
    for _ in 0..room {
        copies.push(role.node)?;
    }
    Ok(())
}

// The copies of a zone's nodes, cut to so many of each partition.
fn copies_of_zone(alloc: Global, zone: &[Role], size: u64, each: u8) -> Result<List<u8>, Memory>
    requires { 0 < size }
    ensures copies { IfOk result (λ copies. copies ≡ zone_copies 256 size each zone.now) }
    ensures want { OnlyWant result }
{
    let mut copies = List::new(alloc);
    for role in zone {
        add_copies(&mut copies, role, size)?;
    }
    copies.truncate(usize::from(each) * usize::from(PARTITIONS));
    Ok(copies)
}

/// All copies in order of zones and nodes, at most so many of each partition in a zone, and cut to three
/// of each partition in all.
pub fn copies_in_order(
    alloc: Global,
    zones: &[List<Role>],
    size: u64,
    each: u8,
) -> Result<List<u8>, Memory>
    requires { 0 < size }
    ensures copies { IfOk result
        (λ copies. copies ≡ take 768 (flat_map (zone_copies 256 size each) zones.now)) }
    ensures want { OnlyWant result }
{
    let mut copies = List::new(alloc);
    for zone in zones {
        let mut more = copies_of_zone(alloc, zone.as_slice(), size, each)?;
        copies.append(&mut more)?;
    }
    copies.truncate(ALL_COPIES as usize);
    Ok(copies)
}

/// The columns of three rows of copies, each as a set in order.
pub fn sets_of(alloc: Global, copies: &[u8], count: usize) -> Result<List<[u8; 3]>, Memory>
    requires { 3 * count ≤ length copies.now }
    ensures sets { IfOk result (λ sets. sets ≡ columns count copies.now) }
    ensures want { OnlyWant result }
{
    let mut sets = List::new(alloc);
    for p in 0..count {
        sets.push(in_order(copies[p], copies[count + p], copies[2 * count + p]))?;
    }
    Ok(sets)
}
