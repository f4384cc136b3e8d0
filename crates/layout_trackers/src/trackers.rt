//! The three trackers of a node.
ghost use Rattle.std.specs.Prelude.{◌≡◌, ◌<◌, [], length, map, Some, IfOk, OnOk, OnErr};
ghost use Rattle.crdt_core.specs.Outcomes.{OnlyWant};

use crate::which::Which;
use crdt_core::{Crdt, Map, Max, Memory};
use std::alloc::Global;

/// How far each node has come, as a map from nodes to layout versions for each of the three trackers.
#[derive(Debug, Drop, PartialEq, Eq)]
pub struct Trackers {
    pub ack: Map<u8, Max<u32>>,
    pub sync: Map<u8, Max<u32>>,
    pub sync_ack: Map<u8, Max<u32>>,
}

impl Trackers {
    ghost use Rattle.crdt_core.specs.Map.{map_entries};
    ghost use Rattle.layout_trackers.specs.declared.which.Which.{Which};
    ghost use Rattle.layout_trackers.specs.Trackers.{tracker, entry, counts, raised, is_reached};
    ghost use Rattle.layout_trackers.specs.Entries.{Grows};
    ghost use Rattle.layout_trackers.specs.Least.{least};

    /// Without an entry.
    pub fn new(alloc: Global) -> Trackers
        ensures { (which : Which) → map_entries (tracker which result) ≡ [] }
    {
        Trackers {
            ack: Map::new(alloc),
            sync: Map::new(alloc),
            sync_ack: Map::new(alloc),
        }
    }

    fn tracker(&self, which: Which) -> &Map<u8, Max<u32>>
        ensures { result.now ≡ tracker which self.now }
    {
        match which {
            Which::Ack => &self.ack,
            Which::Sync => &self.sync,
            Which::SyncAck => &self.sync_ack,
        }
    }

    /// A node's version, where it has an entry.
    pub fn get(&self, which: Which, node: u8) -> Option<u32>
        ensures { result ≡ entry which node self.now }
    {
        match self.tracker(which).get(&node) {
            Some(version) => Some(version.0),
            None => None,
        }
    }

    /// A node's version, where one without an entry counts as of version `missing`.
    pub fn counts(&self, which: Which, node: u8, missing: u32) -> u32
        ensures { result ≡ counts missing which self.now node }
    {
        self.get(which, node).unwrap_or(missing)
    }

    /// Raises a node's version to this one, where it is smaller or missing.
    pub fn set_own(&mut self, which: Which, node: u8, v: u32) -> Result<(), Memory>
        ensures raised { OnOk result (self.new ≡ raised which node v self.old) }
        ensures unchanged { OnErr result (self.new ≡ self.old) }
        ensures never_lowers { Grows self.old self.new }
        ensures want { OnlyWant result }
    {
        match which {
            Which::Ack => self.ack.join_at(node, &Max(v)),
            Which::Sync => self.sync.join_at(node, &Max(v)),
            Which::SyncAck => self.sync_ack.join_at(node, &Max(v)),
        }
    }

    /// The least version among nodes, where one without an entry counts as of version `missing`. Takes no
    /// memory.
    pub fn least_among(&self, which: Which, nodes: &[u8], missing: u32) -> u32
        requires { 0 < length nodes.now }
        ensures { Some result ≡ least (map (counts missing which self.now) nodes.now) }
    {
        match nodes {
            [] => unreachable!(),
            [first, others @ ..] => {
                let mut least = self.counts(which, *first, missing);
                for node in others {
                    least = least.min(self.counts(which, *node, missing));
                }
                least
            }
        }
    }

    /// Whether some node's entry is at least this version. Takes no memory.
    pub fn is_reached(&self, which: Which, v: u32) -> bool
        ensures { result ≡ is_reached which v self.now }
    {
        self.tracker(which)
            .as_slice()
            .iter()
            .any(|entry| v <= entry.1.0)
    }
}

impl Crdt for Trackers {
    ghost use Rattle.layout_trackers.specs.Trackers.{trackers_join};
    ghost use Rattle.layout_trackers.specs.TrackersLaws.{trackers_laws};

    ghost join = { trackers_join };

    ghost join_laws = { trackers_laws };

    fn copy(&self) -> Result<Trackers, Memory> {
        Ok(Trackers {
            ack: self.ack.copy()?,
            sync: self.sync.copy()?,
            sync_ack: self.sync_ack.copy()?,
        })
    }

    fn merge(&mut self, other: &Trackers) -> Result<(), Memory> {
        // Two merge in copies and the third in place, last: where any fails, nothing has changed.
        let mut ack = self.ack.copy()?;
        ack.merge(&other.ack)?;
        let mut sync = self.sync.copy()?;
        sync.merge(&other.sync)?;
        self.sync_ack.merge(&other.sync_ack)?;
        self.ack = ack;
        self.sync = sync;
        Ok(())
    }
}
