//! Roles that the tests share.
use crdt_core::{Bytes, List, Memory};
use layout_roles::{Kind, Role, Roles, Zone};
use std::alloc::Global;

/// A node, its zone, and its capacity, 0 for a gateway.
pub type Row = (u8, &'static [u8], u64);

pub const GATEWAY: u64 = 0;

pub const EQUAL: [Row; 3] = [(1, b"a", 1000), (2, b"b", 1000), (3, b"c", 1000)];

pub const UNEQUAL: [Row; 4] = [
    (1, b"a", 1000),
    (2, b"b", 1000),
    (3, b"c", 1000),
    (4, b"c", 500),
];

pub const TWO_ZONES: [Row; 4] = [
    (1, b"a", 300),
    (2, b"a", 300),
    (3, b"b", 300),
    (4, b"b", 300),
];

pub const BELOW_256: [Row; 3] = [(1, b"a", 255), (2, b"b", 255), (3, b"c", 255)];

pub const AT_256: [Row; 3] = [(1, b"a", 256), (2, b"b", 256), (3, b"c", 256)];

/// The roles of these nodes, which ascend.
pub fn roles_of(alloc: Global, rows: &[Row]) -> Result<Roles, Memory> {
    let mut list = List::new(alloc);
    for (node, zone, capacity) in rows {
        let kind = match *capacity {
            GATEWAY => Kind::Gateway,
            _ => Kind::Storage(*capacity),
        };
        let zone = Zone(Bytes::from_slice(alloc, zone)?);
        list.push(Role {
            node: *node,
            zone,
            kind,
        })?;
    }
    Roles::from_list(list).ok_or(Memory::Full)
}
