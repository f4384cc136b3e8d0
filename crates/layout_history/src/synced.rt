//! Questions on the trackers and one layout.
ghost use Rattle.std.specs.Prelude.{◌≡◌, leb, map, Some};
ghost use Rattle.std.specs.List.{fold, list_all};
ghost use Rattle.layout_trackers.specs.declared.which.Which.TheVariants.{Sync};
ghost use Rattle.layout_trackers.specs.Trackers.{counts};
ghost use Rattle.layout_trackers.specs.Least.{lesser};
ghost use Rattle.crdt_core.specs.Members.{two_pass};

use layout_roles::Role;
use layout_trackers::{Trackers, Which};

// Whether two of the three nodes have synced to version v.
fn two_synced(trackers: &Trackers, set: &[u8; 3], v: u32, missing: u32) -> bool
    ensures { result ≡ two_pass (λ node. leb v (counts missing Sync trackers.now node)) set.now }
{
    let synced = set
        .iter()
        .filter(|node| v <= trackers.counts(Which::Sync, **node, missing))
        .count();
    2 <= synced
}

/// Whether two of the three nodes of each set have synced to version v, where one without an entry counts
/// as of version `missing`.
pub fn all_synced(trackers: &Trackers, sets: &[[u8; 3]], v: u32, missing: u32) -> bool
    ensures { result ≡ list_all (two_pass
        (λ node. leb v (counts missing Sync trackers.now node))) sets.now }
{
    sets.iter().all(|set| two_synced(trackers, set, v, missing))
}

/// The least version among the nodes of these roles, and the least before them.
pub fn least_in(
    trackers: &Trackers,
    which: Which,
    roles: &[Role],
    missing: u32,
    before: Option<u32>,
) -> Option<u32>
    ensures { result ≡ fold lesser before (map (counts missing which trackers.now) (map
        (λ role. role.node) roles.now)) }
{
    let mut least = before;
    for role in roles {
        least = Some(lesser_of(least, trackers.counts(which, role.node, missing)));
    }
    least
}

fn lesser_of(least: Option<u32>, version: u32) -> u32
    ensures { Some result ≡ lesser least version }
{
    match least {
        Some(least) => least.min(version),
        None => version,
    }
}
