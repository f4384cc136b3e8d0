//! How many copies the zones have room for.
ghost use Rattle.std.specs.Prelude.{◌≡◌, ◌<◌, ◌≤◌, min};
ghost use Rattle.layout_flow.specs.Totals.{copies_in, total};

use crdt_core::List;
use layout_roles::{PARTITIONS, Role};

/// Three copies of each partition.
pub const ALL_COPIES: u64 = 768;

/// How many copies a zone has room for, or `ALL_COPIES` where it has room for more.
pub fn copies_of_zone(zone: &[Role], size: u64) -> u64
    requires { 0 < size }
    ensures { result ≡ min 768 (copies_in 256 size zone.now) }
{
    let mut copies = 0;
    for role in zone {
        let room = role.room(size).min(u64::from(PARTITIONS));
        copies = (copies + room).min(ALL_COPIES);
    }
    copies
}

/// How many copies all zones have room for, where each gets at most so many of each partition, or
/// `ALL_COPIES` where they have room for more.
pub fn copies_of_all(zones: &[List<Role>], size: u64, each: u8) -> u64
    requires some { 0 < size }
    requires few { each ≤ 3 }
    ensures { result ≡ min 768 (total 256 (copies_in 256 size) each zones.now) }
{
    let mut copies = 0;
    for zone in zones {
        let most = u64::from(each) * u64::from(PARTITIONS);
        copies = (copies + copies_of_zone(zone.as_slice(), size).min(most)).min(ALL_COPIES);
    }
    copies
}
