//! The nodes of the cluster, by their numbers.
ghost use Rattle.std.specs.Prelude.{◌≡◌, ◌⊎◌, ◌<◌, ◌≤◌, ◌+◌, ℕ, true, false, Option, Some, None, List, reverse, length, IsTrue, IsSome, OnOk, OnErr, IfOk};
ghost use Rattle.std.specs.List.{All};
ghost use Rattle.std.specs.Ordering.{nat_cmp};
ghost use Rattle.std.specs.BTreeMap.{get};
ghost use Rattle.crdt_core.specs.Outcomes.{OnlyWant, WantOr};
ghost use Rattle.blake2_hash.specs.Blake2b.{blake2b};
ghost use Rattle.layout_trackers.specs.declared.which.Which.TheVariants.{Sync};
ghost use Rattle.layout_trackers.specs.Trackers.{counts};
ghost use Rattle.layout_roles.specs.declared.layout.Layout.{Layout};
ghost use Rattle.view_model.specs.Layouts.{reading};
ghost use Rattle.layout_history.specs.Known.{has_members};
ghost use Rattle.view_model.specs.View.{newest};
ghost use Rattle.table_model.specs.Rows.{rows};
ghost use Rattle.table_model.specs.Top.{top, any_unspelled};
ghost use Rattle.cluster_machine.specs.Layouts.{is_member, layouts};
ghost use Rattle.cluster_machine.specs.Node.{Node as Model, shows, new_node};
ghost use Rattle.cluster_machine.specs.Phases.{closed, call_at};
ghost use Rattle.cluster_machine.specs.Receives.{receives};
ghost use Rattle.cluster_machine.specs.Acts.{acts, appends, restarts};
ghost use Rattle.cluster_machine.specs.Step.{requests_of};
ghost use Rattle.node_parts.specs.Posts.{told};
ghost use Rattle.cluster_machine.specs.Blocks.{PacketCarriesBlocks};
ghost use Rattle.cluster_machine.specs.Keeping.{IsShort};
ghost use Rattle.node_core.specs.Stands.{begins_at, view_of};
ghost use Rattle.node_core.specs.declared.node.BeginFault.TheVariants.{NotMember};

use crate::node_line::NodeLine;
use crate::with_sync::{Received, WithSync};
use blake2_hash::Hash32;
use cluster_machine::{Action, LocalEnd};
use crdt_core::Memory;
use layout_history::View;
use layout_roles::Layout;
use layout_trackers::Which;
use node_core::{BeginFault, Envelope, Node, Packet};
use node_parts::is_member as knows_member;
use shared_value::Shared;
use std::alloc::Global;
use std::collections::BTreeMap;
use table_schema::Schema;
use wire_messages::Phase;

/// The nodes that something happened to. Each other one is new: it knows no layout version and has no rows.
#[derive(Drop)]
pub struct Nodes<S: Schema> {
    pub by_number: BTreeMap<u8, Node<S>>,
    pub alloc: Global,
}

impl<S: Schema> Nodes<S> {
    ghost use Rattle.world_core.specs.Nodes.{newest_in, StayThere, IsLineOf, Opens, AreNodes, IsSyncAt, DoesAt, ActsAt, BecomesAt, DropsAt, OverflowsAt};

    pub fn new(alloc: Global) -> Nodes<S>
        ensures { AreNodes S.Row.join S.words result (λ n. new_node) }
    {
        Nodes {
            by_number: BTreeMap::new(alloc),
            alloc,
        }
    }

    // A node with this number is there. Whatever is answered the nodes stand for the same.
    pub fn ready(&mut self, node: u8) -> Result<(), Memory>
        ensures same { (xs : ℕ → Model S.Row Layout) → AreNodes S.Row.join S.words self.old xs →
            AreNodes S.Row.join S.words self.new xs }
        ensures there { StayThere self.old self.new }
        ensures present { OnOk result (IsSome (get nat_cmp self.new.by_number node)) }
        ensures newest { OnOk result (newest_in self.new node ≡ newest_in self.old node) }
        ensures want { OnlyWant result }
    {
        if self.by_number.get(&node).is_none() {
            let new = Node::new(self.alloc, node)?;
            let _ = self.by_number.insert(node, new)?;
        }
        Ok(())
    }

    /// The newest layout version that the node knows, 0 where it knows none.
    pub fn newest(&self, node: u8) -> u32
        ensures known { result ≡ newest_in self.now node }
        ensures is { (xs : ℕ → Model S.Row Layout) → AreNodes S.Row.join S.words self.now xs →
            result ≡ newest reading (xs node).view }
    {
        match self.by_number.get(&node) {
            Some(found) => found.view().newest(),
            None => 0,
        }
    }

    /// Whether the node has a role in its newest version.
    pub fn is_member(&self, node: u8) -> bool
        ensures { (xs : ℕ → Model S.Row Layout) → AreNodes S.Row.join S.words self.now xs →
            result ≡ is_member layouts (xs node).view node }
    {
        match self.by_number.get(&node) {
            Some(found) => knows_member(found.view(), node),
            None => false,
        }
    }

    /// The node's own sync entry, 0 where it has none.
    pub fn synced(&self, node: u8) -> u32
        ensures { IsSyncAt S.Row.join S.words self.now node result }
    {
        match self.by_number.get(&node) {
            Some(found) => own_sync(found, node),
            None => 0,
        }
    }

    /// The node's whole view, to be sent.
    pub fn shown(&self, node: u8) -> Result<Packet<S::Row>, Memory>
        ensures shown { IfOk result (λ packet. (xs : ℕ → Model S.Row Layout) →
            AreNodes S.Row.join S.words self.now xs → told packet ≡ shows (xs node).view) }
        ensures want { OnlyWant result }
    {
        let view = match self.by_number.get(&node) {
            Some(found) => found.view().copy()?,
            None => View::new(self.alloc),
        };
        Ok(Packet::View(Shared::new(self.alloc, view)?))
    }

    /// What the node shows of itself; None where it knows no layout version.
    pub fn line(&self, node: u8) -> Result<Option<NodeLine>, Memory>
        ensures rows { IfOk result (λ line. (xs : ℕ → Model S.Row Layout) →
            AreNodes S.Row.join S.words self.now xs →
            IsLineOf S.Row.join S.words node (xs node) line) }
        ensures causes { WantOr result ((xs : ℕ → Model S.Row Layout) →
            AreNodes S.Row.join S.words self.now xs →
            IsTrue (any_unspelled S.words (rows S.Row.join S.words (xs node).accepted))) }
    {
        match self.by_number.get(&node) {
            None => Ok(None),
            Some(found) => {
                if found.view().newest() == 0 {
                    return Ok(None);
                }
                let table = found.table();
                Ok(Some(NodeLine {
                    node,
                    rows: table.len() as u64,
                    blocks: found.block_count() as u64,
                    top: table.top()?,
                }))
            }
        }
    }

    /// A request begins at the node, with a number above those that are open there. False where the node is no member.
    pub fn open(&mut self, node: u8, request: u64) -> Result<bool, Memory>
        ensures opens { IfOk result (λ member. (xs : ℕ → Model S.Row Layout) →
            AreNodes S.Row.join S.words self.old xs →
            All (λ c. c.request < request) (xs node).calls →
            Opens S.Row.join S.words self.new node request xs member) }
        ensures want { OnlyWant result }
    {
        self.ready(node)?;
        let Some(found) = self.by_number.get_mut(&node) else {
            unreachable!()
        };
        match found.open(request) {
            Ok(()) => Ok(true),
            Err(BeginFault::NotMember) => Ok(false),
            Err(BeginFault::Memory) => Err(Memory::Want),
        }
    }

    /// Begins a phase of a request that is open at the node.
    pub fn phase(
        &mut self,
        node: u8,
        request: u64,
        phase: Phase<S::Row>,
        out: &mut Vec<Envelope<S::Row>>,
    ) -> Result<WithSync<()>, Memory>
        requires short { IsShort phase }
        ensures before { IfOk result
            (λ given. IsSyncAt S.Row.join S.words self.old node given.before) }
        ensures after { IfOk result
            (λ given. IsSyncAt S.Row.join S.words self.new node given.after) }
        ensures begins { OnOk result ((kept : List S.Row) →
            DoesAt S.Row.join S.words self.old self.new node out.old.items out.new.items None
            (λ x. begins_at S.words kept x phase (call_at x.calls request))) }
        ensures causes { WantOr result ((kept : List S.Row) →
            OverflowsAt S.Row.join S.words self.old node
            (λ x. begins_at S.words kept x phase (call_at x.calls request))) }
    {
        self.ready(node)?;
        let Some(found) = self.by_number.get_mut(&node) else {
            unreachable!()
        };
        let before = own_sync(found, node);
        found.phase(request, phase, out)?;
        let after = own_sync(found, node);
        Ok(WithSync {
            answer: (),
            before,
            after,
        })
    }

    /// The node forgets a request.
    pub fn close(&mut self, node: u8, request: u64)
        ensures { BecomesAt S.Row.join S.words self.old self.new node (λ x. closed request x) }
    {
        if let Some(found) = self.by_number.get_mut(&node) {
            found.close(request);
        }
    }

    /// A packet comes to its receiver, whose clock says `now`, with the blocks of its rows.
    pub fn receive(
        &mut self,
        envelope: &Envelope<S::Row>,
        now: u64,
        out: &mut Vec<Envelope<S::Row>>,
    ) -> Result<WithSync<Received<S::Row>>, Memory>
        requires stocked { PacketCarriesBlocks (blake2b 32) S.words (told envelope.now.packet) }
        ensures before { IfOk result
            (λ given. IsSyncAt S.Row.join S.words self.old envelope.now.to given.before) }
        ensures after { IfOk result
            (λ given. IsSyncAt S.Row.join S.words self.new envelope.now.to given.after) }
        ensures receives { IfOk result
            (λ given. DoesAt S.Row.join S.words self.old self.new envelope.now.to out.old.items out.new.items given.answer.ended
            (λ x. receives S.Row.join S.words layouts envelope.now.to now x envelope.now.from
            (told envelope.now.packet))) }
        ensures dropped { IfOk result
            (λ given. DropsAt S.Row.join S.words self.old envelope.now.to given.answer.dropped
            (λ x. receives S.Row.join S.words layouts envelope.now.to now x envelope.now.from
            (told envelope.now.packet))) }
        ensures causes { WantOr result (OverflowsAt S.Row.join S.words self.old envelope.now.to
            (λ x. receives S.Row.join S.words layouts envelope.now.to now x envelope.now.from
            (told envelope.now.packet))) }
    {
        self.ready(envelope.to)?;
        let Some(found) = self.by_number.get_mut(&envelope.to) else {
            unreachable!()
        };
        let before = own_sync(found, envelope.to);
        let ended = found.on_packet(envelope.from, &envelope.packet, now, out)?;
        let dropped = found.dropped();
        let after = own_sync(found, envelope.to);
        Ok(WithSync {
            answer: Received { ended, dropped },
            before,
            after,
        })
    }

    /// The node does something by itself. It knows a layout version.
    pub fn act(
        &mut self,
        node: u8,
        action: Action,
        now: u64,
        out: &mut Vec<Envelope<S::Row>>,
    ) -> Result<WithSync<LocalEnd>, Memory>
        requires has_version { 1 ≤ newest_in self.old node }
        ensures before { IfOk result
            (λ given. IsSyncAt S.Row.join S.words self.old node given.before) }
        ensures after { IfOk result
            (λ given. IsSyncAt S.Row.join S.words self.new node given.after) }
        ensures acts { IfOk result
            (λ given. ActsAt S.Row.join S.words self.old self.new node out.old.items out.new.items given.answer
            (λ x. acts S.Row.join S.words layouts node now x action)) }
        ensures causes { WantOr result (OverflowsAt S.Row.join S.words self.old node
            (λ x. (acts S.Row.join S.words layouts node now x action).did)) }
    {
        self.ready(node)?;
        let Some(found) = self.by_number.get_mut(&node) else {
            unreachable!()
        };
        let before = own_sync(found, node);
        let how = found.local(action, now, out)?;
        let after = own_sync(found, node);
        Ok(WithSync {
            answer: how,
            before,
            after,
        })
    }

    /// The node stores one layout version more, the one after its newest.
    pub fn append(&mut self, node: u8, layout: Layout) -> Result<(), Memory>
        requires next { layout.version ≡ newest_in self.old node + 1 }
        requires inhabited { IsTrue (has_members layout) }
        ensures appends { OnOk result (BecomesAt S.Row.join S.words self.old self.new node
            (λ x. appends layouts x layout)) }
        ensures want { OnlyWant result }
    {
        self.ready(node)?;
        let Some(found) = self.by_number.get_mut(&node) else {
            unreachable!()
        };
        found.append(layout)?;
        Ok(())
    }

    /// The node loses what it keeps in memory alone. Its requests, ascending.
    pub fn restart(&mut self, node: u8) -> Result<Vec<u64>, Memory>
        ensures restarts { OnOk result (BecomesAt S.Row.join S.words self.old self.new node
            (λ x. restarts x)) }
        ensures lost { IfOk result (λ lost. (xs : ℕ → Model S.Row Layout) →
            AreNodes S.Row.join S.words self.old xs →
            lost.items ≡ reverse (requests_of (xs node).calls)) }
        ensures want { OnlyWant result }
    {
        self.ready(node)?;
        let Some(found) = self.by_number.get_mut(&node) else {
            unreachable!()
        };
        let lost = found.restart()?;
        Ok(lost)
    }
}

// The sync entry that the node knows of this number, 0 where it knows none.
fn own_sync<S: Schema>(node: &Node<S>, number: u8) -> u32
    ensures { result ≡ counts 0 Sync (view_of node.now).trackers number }
{
    node.view().trackers().counts(Which::Sync, number, 0)
}
