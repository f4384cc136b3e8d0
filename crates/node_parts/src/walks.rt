//! The open walks of a node.
ghost use Rattle.std.specs.Prelude.{◌≡◌, [], List, map, IfOk, OnOk};
ghost use Rattle.crdt_core.specs.Outcomes.{OnlyWant, WantOr};
ghost use Rattle.cluster_machine.specs.Node.{Walk as Opened};
ghost use Rattle.cluster_machine.specs.Rounds.{renewed};
ghost use Rattle.node_parts.specs.Walks.{AreWalks, walk_of, TakesAnswer, CannotTake, has_ended};

use crate::contents::Contents;
use blake2_hash::Hash32;
use crdt_core::Memory;
use merkle_sync::{Walk, WalkEnd};
use std::alloc::Global;
use std::collections::BTreeMap;
use table_schema::Schema;

/// A walk, with the node that it asks.
#[derive(Drop)]
pub struct NodeWalk {
    pub node: u8,
    pub state: Walk,
}

/// What a node answers to a walk over a partition, on a prefix of a table.
#[derive(Clone, Copy)]
pub struct Answer<'a> {
    pub from: u8,
    pub p: u8,
    pub table: u8,
    pub prefix: &'a [u8],
    /// The next bytes that the node has there, with their values. None where it has the value that it was asked for.
    pub children: Option<&'a [(u8, Hash32)]>,
}

/// Open walks, each by its partition and the node that it asks.
#[derive(Drop)]
pub struct Walks {
    by_place: BTreeMap<(u8, u8), Walk>,
}

impl Walks {
    pub fn new(alloc: Global) -> Walks
        ensures { AreWalks result [] }
    {
        Walks {
            by_place: BTreeMap::new(alloc),
        }
    }

    /// These walks begin, in the place of those over the same partition with the same node.
    pub fn begin(&mut self, begun: Vec<NodeWalk>) -> Result<(), Memory>
        ensures begins { OnOk result ((walks : List Opened) → AreWalks self.old walks →
            AreWalks self.new (renewed (map walk_of begun.items) walks)) }
        ensures want { OnlyWant result }
    {
        let mut left = begun;
        while let Some(walk) = left.pop() {
            let place = (walk.state.partition(), walk.node);
            let _ = self.by_place.insert(place, walk.state)?;
        }
        Ok(())
    }

    /// An answer comes; what the walk that awaits it tells then, where there is one. At its end a walk is no longer kept.
    pub fn take_answer<S: Schema>(
        &mut self,
        contents: &mut Contents<S>,
        answer: Answer<'_>,
    ) -> Result<Option<WalkEnd>, Memory>
        ensures takes { IfOk result
            (λ end. TakesAnswer S.Row.join S.words contents.old self.old self.new answer.entry end) }
        ensures unchanged { OnOk result (contents.new ≡ contents.old) }
        ensures causes { WantOr result
            (CannotTake S.Row.join S.words contents.old self.old answer.entry) }
    {
        let place = (answer.p, answer.from);
        let Some(walk) = self.by_place.get_mut(&place) else {
            return Ok(None);
        };
        if !walk.awaits(answer.table, answer.prefix) {
            return Ok(None);
        }
        let end = contents.take_answer(walk, answer)?;
        if has_ended(&end) {
            let _ = self.by_place.remove(&place);
        }
        Ok(Some(end))
    }
}

// The walk asks no more.
fn has_ended(end: &WalkEnd) -> bool
    ensures { result ≡ has_ended end.now }
{
    match end {
        WalkEnd::Ask(_) => false,
        WalkEnd::Same | WalkEnd::Push(_) => true,
    }
}
