//! The rounds of a node.
ghost use Rattle.std.specs.Prelude.{◌≡◌, ◌<◌, ◌≤◌, ◌+◌, ◌^◌, ◌⊎◌, ◌==◌, ℕ, Bool, Option, Some, None, List, ◌++◌, [], ◌∷◌, map, IfOk, IfErr, OnOk, IfSome};
ghost use Rattle.std.specs.List.Sorted.{IsStrictlyIncreasing};
ghost use Rattle.crdt_core.specs.Outcomes.{OnlyWant};
ghost use Rattle.crdt_core.specs.declared.memory.Memory.TheVariants.{Full};
ghost use Rattle.cluster_machine.specs.Node.{Walk, Round as Moved, Mending as Mended};
ghost use Rattle.cluster_machine.specs.Rows.{still};
ghost use Rattle.cluster_machine.specs.Rounds.{is_complete, renewed};
ghost use Rattle.node_parts.specs.Sends.{part_of, IsMended};
ghost use Rattle.node_parts.specs.Walks.{walk_of};
ghost use Rattle.node_parts.specs.Rounds.{IsMoving, AreRounds, open_parts_of, begun_round, confirmed_round, confirmed_all, Empties};

use crate::contents::Contents;
use crate::walks::{NodeWalk, Walks};
use crdt_core::Memory;
use std::alloc::Global;
use sync_round::Round;
use table_schema::Schema;

/// A round with its number and its open walks.
#[derive(Drop)]
pub struct Moving {
    pub number: u64,
    pub round: Round,
    pub walks: Walks,
}

/// A repair, or a round that is complete, with its number and its open walks.
#[derive(Drop)]
pub struct Mending {
    pub number: u64,
    pub walks: Walks,
}

/// The round that is open, if any; how many rounds and repairs ever began; and the last repair, and the last round where
/// that is complete, whose walks go on.
#[derive(Drop)]
pub struct Rounds {
    pub round: Option<Moving>,
    pub begun: u64,
    pub mending: Option<Mending>,
    pub lasting: Option<Mending>,
}

impl Moving {
    /// A round to a version, of these partitions with their sets there. The node itself has confirmed each.
    pub fn new(
        alloc: Global,
        number: u64,
        target: u32,
        parts: Vec<(u8, [u8; 3])>,
        node: u8,
        begun: Vec<NodeWalk>,
    ) -> Result<Moving, Memory>
        ensures begins { IfOk result (λ m. IsStrictlyIncreasing (map (λ part. part.0) parts.items) →
            IsMoving node m (begun_round number target (map part_of parts.items) node
            (map walk_of begun.items))) }
        ensures want { OnlyWant result }
    {
        let round = Round::new(alloc, target, parts, node)?;
        let mut walks = Walks::new(alloc);
        walks.begin(begun)?;
        Ok(Moving {
            number,
            round,
            walks,
        })
    }

    /// A node confirms a partition.
    pub fn confirm(&mut self, p: u8, from: u8)
        ensures { (node : ℕ) (r : Moved) → IsMoving node self.old r →
            IsMoving node self.new (confirmed_round r p from) }
    {
        self.round.confirm(p, from);
    }

    /// Two of the three nodes of each partition have confirmed.
    pub fn is_complete(&self) -> bool
        ensures { (node : ℕ) (r : Moved) → IsMoving node self.now r → result ≡ is_complete r }
    {
        self.round.complete()
    }

    /// Each partition that some node hasn't confirmed, with these nodes.
    pub fn open_parts(&self) -> Result<Vec<(u8, Vec<u8>)>, Memory>
        ensures are { IfOk result (λ parts. (node : ℕ) (r : Moved) → IsMoving node self.now r →
            map (λ part. (part.0, part.1.items)) parts.items ≡ open_parts_of r) }
        ensures want { OnlyWant result }
    {
        self.round.open_parts()
    }

    /// These walks begin, in the place of those over the same partition with the same node.
    pub fn begin(&mut self, begun: Vec<NodeWalk>) -> Result<(), Memory>
        ensures begins { OnOk result ((node : ℕ) (r : Moved) → IsMoving node self.old r →
            IsMoving node self.new
            (record r { walks = renewed (map walk_of begun.items) r.walks })) }
        ensures want { OnlyWant result }
    {
        self.walks.begin(begun)?;
        Ok(())
    }

    // These nodes confirm a partition.
    fn confirm_all(&mut self, p: u8, nodes: &[u8])
        ensures { (node : ℕ) (r : Moved) → IsMoving node self.old r →
            IsMoving node self.new (confirmed_all r p nodes.now) }
    {
        for node in nodes {
            self.confirm(p, *node);
        }
    }

    /// Leaves those of the open partitions of which there are rows. Each other one all its nodes confirm.
    pub fn confirm_emptied<S: Schema>(
        &mut self,
        contents: &Contents<S>,
        parts: &mut Vec<(u8, Vec<u8>)>,
    )
        ensures { Empties S.Row.join S.words contents.now self.old self.new (map
            (λ part. (part.0, part.1.items)) parts.old.items) (map
            (λ part. (part.0, part.1.items)) parts.new.items) }
    {
        for (p, nodes) in parts.as_slice() {
            if !contents.has_rows(*p) {
                self.confirm_all(*p, nodes.as_slice());
            }
        }
        parts.retain(|part| contents.has_rows(part.0));
    }

    /// What stays of the round when it is complete.
    pub fn into_lasting(self) -> Mending
        ensures { (node : ℕ) (r : Moved) → IsMoving node self r →
            IsMended result (record { number = r.number; walks = r.walks }) }
    {
        Mending {
            number: self.number,
            walks: self.walks,
        }
    }

    /// The version that the round leads to.
    pub fn target(&self) -> u32
        ensures { (node : ℕ) (r : Moved) → IsMoving node self.now r → result ≡ r.target }
    {
        self.round.target()
    }
}

impl Mending {
    /// A repair with these walks.
    pub fn new(alloc: Global, number: u64, begun: Vec<NodeWalk>) -> Result<Mending, Memory>
        ensures is { IfOk result
            (λ m. IsMended m (record { number = number; walks = map walk_of begun.items })) }
        ensures want { OnlyWant result }
    {
        let mut walks = Walks::new(alloc);
        walks.begin(begun)?;
        Ok(Mending { number, walks })
    }
}

impl Rounds {
    pub fn new() -> Rounds
        ensures { (node : ℕ) → AreRounds node result None 0 None None }
    {
        Rounds {
            round: None,
            begun: 0,
            mending: None,
            lasting: None,
        }
    }

    /// The number of the next round or repair.
    pub fn next(&self) -> Result<u64, Memory>
        ensures is { IfOk result (λ number. number ≡ self.now.begun + 1) }
        ensures full { IfErr result (λ e. (e ≡ Full) × (2 ^ 64 ≤ self.now.begun + 1)) }
    {
        match self.begun.checked_add(1) {
            Some(number) => Ok(number),
            None => Err(Memory::Full),
        }
    }

    /// A round to a version that is at most the oldest stored one closes.
    pub fn close_below(&mut self, oldest: u32)
        ensures { (node : ℕ) (round : Option Moved) (rounds : ℕ) (mending lasting : Option Mended) →
            AreRounds node self.old round rounds mending lasting →
            AreRounds node self.new (still oldest round) rounds mending lasting }
    {
        let is_over = match &self.round {
            Some(moving) => moving.target() <= oldest,
            None => false,
        };
        if is_over {
            self.round = None;
        }
    }

    /// Forgets the round and all walks.
    pub fn forget(&mut self)
        ensures { (node : ℕ) (round : Option Moved) (rounds : ℕ) (mending lasting : Option Mended) →
            AreRounds node self.old round rounds mending lasting →
            AreRounds node self.new None rounds None None }
    {
        self.round = None;
        self.mending = None;
        self.lasting = None;
    }
}
