//! A round to a version.
ghost use Rattle.std.specs.Prelude.{◌≡◌, ◌==◌, ℕ, false, List, [], ◌∷◌, ◌++◌, IfOk, map};
ghost use Rattle.std.specs.List.Sorted.{IsStrictlyIncreasing};
ghost use Rattle.crdt_core.specs.Outcomes.{OnlyWant};
ghost use Rattle.sync_round.specs.Parts.{lacking_in};
ghost use Rattle.sync_round.specs.Round.{by_partition, is_complete, open_parts, is_asked};

use crate::parts::{confirm_in, missing};
use crdt_core::Memory;
use quorum_tally::Marks;
use std::alloc::Global;
use std::collections::BTreeMap;

/// A round to the version `target`: its partitions in order, with the nodes that have confirmed each.
#[derive(Drop)]
pub struct Round {
    target: u32,
    parts: BTreeMap<u8, Marks>,
    // How many partitions lack two confirmations.
    lacking: usize,
    alloc: Global,
    ghost counted: { lacking ≡ lacking_in parts },
}

impl Round {
    ghost use Rattle.sync_round.specs.Stands.{IsRound};

    /// A round with these partitions and their sets. Where the node `own` is in a set it has confirmed.
    pub fn new(
        alloc: Global,
        target: u32,
        parts: Vec<(u8, [u8; 3])>,
        own: u8,
    ) -> Result<Round, Memory>
        ensures stands { IfOk result (λ r. IsRound r target (by_partition parts.items) own []) }
        ensures ascending { IsStrictlyIncreasing (map (λ part. part.0) parts.items) →
            IfOk result (λ r. IsRound r target parts.items own []) }
        ensures want { OnlyWant result }
    {
        let mut marked = BTreeMap::new(alloc);
        for (p, set) in &parts {
            let _ = marked.insert(*p, Marks::new(set).after(own))?;
        }
        let lacking = marked.values().filter(|marks| !marks.has_two()).count();
        Ok(Round {
            target,
            parts: marked,
            lacking,
            alloc,
        })
    }

    /// The node confirms the partition `p`.
    pub fn confirm(&mut self, p: u8, node: u8)
        ensures told { (target : ℕ) (parts : List (ℕ × List ℕ)) (own : ℕ) (told : List (ℕ × ℕ)) →
            IsRound self.old target parts own told → IsRound self.new target parts own (told ++ (p, node) ∷ []) }
        // Of a partition or a node that isn't asked, nothing is asked afterwards either.
        ensures unasked { (target : ℕ) (parts : List (ℕ × List ℕ)) (own : ℕ) (told : List (ℕ × ℕ)) →
            IsRound self.old target parts own told → is_asked parts p node ≡ false → IsRound self.new target parts own told }
    {
        if confirm_in(&mut self.parts, p, node) {
            self.lacking -= 1;
        }
    }

    /// Each partition that some node of its set hasn't confirmed, in order, with these nodes.
    pub fn open_parts(&self) -> Result<Vec<(u8, Vec<u8>)>, Memory>
        ensures nodes { IfOk result
            (λ v. (target : ℕ) (parts : List (ℕ × List ℕ)) (own : ℕ) (told : List (ℕ × ℕ)) →
            IsRound self.now target parts own told → map (λ part. (part.0, part.1.items)) v.items ≡ open_parts parts own told) }
        ensures want { OnlyWant result }
    {
        let mut open = Vec::new(self.alloc);
        for (p, marks) in &self.parts {
            let waited = missing(self.alloc, *marks)?;
            if !waited.is_empty() {
                open.push((*p, waited))?;
            }
        }
        Ok(open)
    }

    /// Two nodes of each partition's set have confirmed it.
    pub fn complete(&self) -> bool
        ensures { (target : ℕ) (parts : List (ℕ × List ℕ)) (own : ℕ) (told : List (ℕ × ℕ)) →
            IsRound self.now target parts own told → result ≡ is_complete parts own told }
    {
        self.lacking == 0
    }

    /// The version that the round leads to.
    pub fn target(&self) -> u32
        ensures { (target : ℕ) (parts : List (ℕ × List ℕ)) (own : ℕ) (told : List (ℕ × ℕ)) →
            IsRound self.now target parts own told → result ≡ target }
    {
        self.target
    }
}
