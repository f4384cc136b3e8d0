//! A node.
ghost use Rattle.std.specs.Prelude.{◌≡◌, ◌⊎◌, ◌<◌, ◌≤◌, ◌+◌, ◌^◌, ℕ, Bool, true, false, Option, Some, None, List, [], ◌++◌, suc, length, reverse, option_map, IfOk, IfErr, OnOk, OnErr, IsTrue};
ghost use Rattle.std.specs.List.{All, AllByRecursion};
ghost use Rattle.crdt_core.specs.Outcomes.{OnlyWant, WantOr};
ghost use Rattle.blake2_hash.specs.Blake2b.{blake2b};
ghost use Rattle.layout_roles.specs.declared.layout.Layout.{Layout};
ghost use Rattle.layout_history.specs.Views.{known};
ghost use Rattle.view_model.specs.Layouts.{reading};
ghost use Rattle.layout_history.specs.Known.{has_members};
ghost use Rattle.view_model.specs.View.{View as Seen, oldest, newest, read_version, merged, appended};
ghost use Rattle.table_model.specs.Rows.{row_at, find_row, rows, range};
ghost use Rattle.wire_messages.specs.declared.message.Message.TheVariants as message;
ghost use Rattle.wire_messages.specs.declared.message.Tag.TheVariants as tag;
ghost use Rattle.cluster_machine.specs.Layouts.{is_member, layouts};
ghost use Rattle.cluster_machine.specs.Node.{Node as Model, new_node};
ghost use Rattle.cluster_machine.specs.Rows.{block_at, sees};
ghost use Rattle.cluster_machine.specs.Phases.{opened, closed, call_at};
ghost use Rattle.cluster_machine.specs.Receives.{most_rows, answers, where_stored, gives_row, gives_rows, gives_block, takes, confirms, hears, receives};
ghost use Rattle.cluster_machine.specs.Acts.{raises, cleans, acts, appends, restarts};
ghost use Rattle.cluster_machine.specs.Step.{requests_of};
ghost use Rattle.node_core.specs.declared.node.BeginFault.TheVariants.{NotMember, Memory as WantsMemory};
ghost use Rattle.node_parts.specs.Posts.{told};
ghost use Rattle.node_parts.specs.Calls.{ended_with};
ghost use Rattle.cluster_machine.specs.Blocks.{IsRowWithBlock, CarriesBlocks, PacketCarriesBlocks};
ghost use Rattle.cluster_machine.specs.Keeping.{IsShort};
ghost use Rattle.node_parts.specs.declared.packet.Envelope.{Envelope};
ghost use Rattle.node_core.specs.Stands.{view_of, begins_at, ends_of, StandsButView};

use blake2_hash::Hash32;
use block_bytes::Block;
use cluster_machine::{Action, LocalEnd};
use crdt_core::{Bytes, Crdt, List, Memory, Value};
use layout_history::View;
use layout_roles::Layout;
use layout_trackers::Which;
use node_parts::{
    Beginning, Calls, Contents, Envelope, Packet, Rounds, is_given, is_member, is_stored, send,
};
use std::alloc::Global;
use table_gc::Collections;
use table_schema::Schema;
use table_store::Table;
use wire_messages::{Message, Phase, PhaseEnd, Tag};

/// How many rows an answer to a range phase has at most.
const MOST_ROWS: usize = 1000;

/// Why a request didn't begin.
#[derive(Debug, Drop, PartialEq, Eq)]
pub enum BeginFault {
    /// The node has no role in its newest version.
    NotMember,
    /// There was not enough memory.
    Memory,
}

// What came of a packet: how a phase of a request ended, and the delete marker of a row that was dropped, where so.
#[derive(Drop)]
struct Heard<R> {
    ended: Option<(u64, PhaseEnd<R>)>,
    dropped: Option<(u64, u64)>,
}

/// A node of the cluster.
#[derive(Drop)]
pub struct Node<S: Schema> {
    pub(crate) id: u8,
    pub(crate) view: View,
    pub(crate) contents: Contents<S>,
    pub(crate) calls: Calls<S>,
    pub(crate) rounds: Rounds,
    /// Its collections of delete markers.
    pub(crate) gc: Collections,
    /// The delete marker of the row that the last packet made it drop, until it is handed out.
    pub(crate) dropped: Option<(u64, u64)>,
    pub(crate) alloc: Global,
}

impl<S: Schema> Node<S> {
    ghost use Rattle.node_core.specs.Stands.{StandsFor, Does, Acts, Becomes, HasDropped, Overflows, dropped_of};

    /// A node with an empty view, and nothing else.
    pub fn new(alloc: Global, id: u8) -> Result<Node<S>, Memory>
        ensures stands { IfOk result (λ node. StandsFor S.Row.join S.words node id new_node) }
        ensures want { OnlyWant result }
    {
        Ok(Node {
            id,
            view: View::new(alloc),
            contents: Contents::new(alloc)?,
            calls: Calls::new(alloc),
            rounds: Rounds::new(),
            gc: Collections::new(alloc),
            dropped: None,
            alloc,
        })
    }

    pub fn view(&self) -> &View
        ensures { known result.now ≡ view_of self.now }
    {
        &self.view
    }

    pub fn table(&self) -> &Table<S>
        ensures { (id : ℕ) (x : Model S.Row Layout) → StandsFor S.Row.join S.words self.now id x →
            result.now ≡ rows S.Row.join S.words x.accepted }
    {
        &self.contents.table
    }

    /// How many blocks the node has.
    pub fn block_count(&self) -> usize
        ensures { (id : ℕ) (x : Model S.Row Layout) → StandsFor S.Row.join S.words self.now id x →
            result ≡ length x.blocks }
    {
        self.contents.blocks.len()
    }

    /// Hands out the delete marker (timestamp in milliseconds, identifier) of the row that the last packet made the
    /// node drop, where it did.
    pub fn dropped(&mut self) -> Option<(u64, u64)>
        ensures given { result ≡ dropped_of self.old }
        ensures unchanged { Becomes S.Row.join S.words self.old self.new (λ id x. x) }
    {
        self.dropped.take()
    }

    /// A request begins. Its number is above those of the open ones.
    pub fn open(&mut self, request: u64) -> Result<(), BeginFault>
        ensures opens { OnOk result ((id : ℕ) (x : Model S.Row Layout) →
            All (λ c. c.request < request) x.calls → StandsFor S.Row.join S.words self.old id x →
            StandsFor S.Row.join S.words self.new id (opened request (newest reading x.view) x)) }
        ensures member { OnOk result ((id : ℕ) (x : Model S.Row Layout) →
            StandsFor S.Row.join S.words self.old id x → is_member layouts x.view id ≡ true) }
        ensures causes { IfErr result (λ e. (e ≡ WantsMemory) ⊎
            ((e ≡ NotMember) × ((id : ℕ) (x : Model S.Row Layout) →
            StandsFor S.Row.join S.words self.old id x → is_member layouts x.view id ≡ false))) }
        ensures unchanged { OnErr result (Becomes S.Row.join S.words self.old self.new
            (λ id x. x)) }
    {
        if !is_member(&self.view, self.id) {
            return Err(BeginFault::NotMember);
        }
        match self.calls.begin(request, self.view.newest()) {
            Ok(()) => Ok(()),
            Err(_) => Err(BeginFault::Memory),
        }
    }

    /// Begins a phase of an open request, in the place of the phase that it is in.
    pub fn phase(
        &mut self,
        request: u64,
        phase: Phase<S::Row>,
        out: &mut Vec<Envelope<S::Row>>,
    ) -> Result<(), Memory>
        requires short { IsShort phase }
        ensures begins { OnOk result ((kept : List S.Row) →
            Does S.Row.join S.words self.old self.new out.old.items out.new.items None
            (λ id x. begins_at S.words kept x phase (call_at x.calls request))) }
        ensures causes { WantOr result ((kept : List S.Row) →
            Overflows S.Row.join S.words self.old
            (λ id x. begins_at S.words kept x phase (call_at x.calls request))) }
    {
        let Some(phases) = self.calls.phases(request) else {
            return Ok(());
        };
        let Some(number) = phases.checked_add(1) else {
            return Err(Memory::Full);
        };
        let beginning = Beginning {
            node: self.id,
            request,
            phase: number,
            alloc: self.alloc,
        };
        let present = beginning.begin(&self.view, &phase, out)?;
        self.calls.enter(request, number, present);
        Ok(())
    }

    /// Forgets a request.
    pub fn close(&mut self, request: u64)
        ensures { Becomes S.Row.join S.words self.old self.new (λ id x. closed request x) }
    {
        self.calls.end(request);
    }

    // Asked at a version that it does not store a node answers that it is not here.
    fn not_here(
        &self,
        from: u8,
        request: u64,
        phase: u32,
        out: &mut Vec<Envelope<S::Row>>,
    ) -> Result<(), Memory>
        ensures answers { OnOk result
            (Does S.Row.join S.words self.now self.now out.old.items out.new.items None
            (λ id x. answers x from (message.NotHere (tag.Call request phase 0)))) }
        ensures want { OnlyWant result }
    {
        let tag = Tag::Call {
            request,
            phase,
            slot: 0,
        };
        send(out, self.id, from, Message::NotHere(tag))
    }

    // The answer to a read phase.
    fn give_row(
        &self,
        from: u8,
        request: u64,
        phase: u32,
        at: u32,
        table: u8,
        key: &Bytes,
        out: &mut Vec<Envelope<S::Row>>,
    ) -> Result<(), Memory>
        ensures answers { OnOk result
            (Does S.Row.join S.words self.now self.now out.old.items out.new.items None
            (λ id x. where_stored S.Row.join S.words layouts x from request phase at
            (gives_row S.Row.join S.words layouts x from request phase
            (row_at S.Row.join S.words x.accepted table key.now)))) }
        ensures want { OnlyWant result }
    {
        if !is_stored(&self.view, at) {
            return self.not_here(from, request, phase, out);
        }
        let row = row_at_key(&self.contents.table, table, key)?;
        let message = Message::Row {
            request,
            phase,
            row,
        };
        send(out, self.id, from, message)
    }

    // The answer to a range phase.
    fn give_rows(
        &self,
        from: u8,
        request: u64,
        phase: u32,
        at: u32,
        bucket: &Hash32,
        prefix: &Bytes,
        after: &Bytes,
        out: &mut Vec<Envelope<S::Row>>,
    ) -> Result<(), Memory>
        ensures answers { OnOk result
            (Does S.Row.join S.words self.now self.now out.old.items out.new.items None
            (λ id x. where_stored S.Row.join S.words layouts x from request phase at
            (gives_rows S.Row.join S.words layouts x from request phase
            (range S.words 1 (bucket.now.0 ++ prefix.now) (bucket.now.0 ++ after.now) most_rows
            (rows S.Row.join S.words x.accepted))))) }
        ensures want { OnlyWant result }
    {
        if !is_stored(&self.view, at) {
            return self.not_here(from, request, phase, out);
        }
        let whole_prefix = whole_key(self.alloc, bucket, prefix)?;
        let whole_after = whole_key(self.alloc, bucket, after)?;
        let (rows, more) = self.contents.table.range(
            1,
            whole_prefix.as_slice(),
            whole_after.as_slice(),
            MOST_ROWS,
        )?;
        let message = Message::Rows {
            request,
            phase,
            rows: List::from_vec(rows),
            more,
        };
        send(out, self.id, from, message)
    }

    // The answer to a block phase: the block, or that it is not here.
    fn give_block(
        &self,
        from: u8,
        request: u64,
        phase: u32,
        at: u32,
        hash: &Hash32,
        out: &mut Vec<Envelope<S::Row>>,
    ) -> Result<(), Memory>
        ensures answers { OnOk result
            (Does S.Row.join S.words self.now self.now out.old.items out.new.items None
            (λ id x. where_stored S.Row.join S.words layouts x from request phase at
            (gives_block S.Row.join S.words layouts x from request phase
            (block_at x.blocks hash.now.0)))) }
        ensures want { OnlyWant result }
    {
        if !is_stored(&self.view, at) {
            return self.not_here(from, request, phase, out);
        }
        let Some(found) = self.contents.blocks.get(hash) else {
            return send(out, self.id, from, Message::NoBlock { request, phase });
        };
        let message = Message::Block {
            request,
            phase,
            bytes: found.share()?,
        };
        send(out, self.id, from, message)
    }

    // A store of rows of a partition, by a node whose newest version is `named`.
    fn take_store(
        &mut self,
        from: u8,
        tag: Tag,
        named: u32,
        p: u8,
        rows: &[(Bytes, Option<Block>)],
        now: u64,
        out: &mut Vec<Envelope<S::Row>>,
    ) -> Result<(), Memory>
        requires stocked { AllByRecursion (IsRowWithBlock (blake2b 32) S.words) rows.now }
        ensures takes { OnOk result
            (Does S.Row.join S.words self.old self.new out.old.items out.new.items None
            (λ id x. takes S.Row.join S.words layouts id now x from tag named p rows.now)) }
        ensures causes { WantOr result (Overflows S.Row.join S.words self.old
            (λ id x. takes S.Row.join S.words layouts id now x from tag named p rows.now)) }
    {
        let newest = self.view.newest();
        if newest < named {
            return send(out, self.id, from, Message::Behind(tag, newest));
        }
        if !is_given(&self.view, self.id, p) {
            return send(out, self.id, from, Message::NotHere(tag));
        }
        self.contents.accept_all(rows, now)?;
        send(out, self.id, from, Message::Stored(tag))
    }

    // A confirmation.
    fn take_stored(&mut self, from: u8, tag: Tag) -> Result<Option<(u64, PhaseEnd<S::Row>)>, Memory>
        ensures confirms { IfOk result (λ given. (out : List (Envelope S.Row)) →
            Does S.Row.join S.words self.old self.new out out given
            (λ id x. confirms S.Row.join S.words layouts id x from tag)) }
        ensures want { OnlyWant result }
    {
        match tag {
            Tag::Call {
                request,
                phase,
                slot,
            } => {
                let oldest = self.view.oldest();
                let given = self
                    .calls
                    .hear_confirmation(from, request, phase, slot, oldest);
                Ok(beside(request, given))
            }
            Tag::Round { round, p } => {
                self.confirm_round(from, round, p)?;
                Ok(None)
            }
            Tag::Item { number } => {
                self.contents.confirm(&self.view, number, from)?;
                Ok(None)
            }
        }
    }

    // After the view has changed: the round may close, and where the oldest version rose rows are dropped.
    fn look_around(&mut self, before: u32, now: u64) -> Result<(), Memory>
        ensures sees { OnOk result ((id : ℕ) (x : Model S.Row Layout) (v : Seen Layout) →
            oldest reading x.view ≡ before → StandsButView S.Row.join S.words self.old id x v →
            StandsFor S.Row.join S.words self.new id (sees S.Row.join S.words layouts id now x v)) }
        ensures want { OnlyWant result }
    {
        let oldest = self.view.oldest();
        self.rounds.close_below(oldest);
        if before < oldest {
            self.contents.drop_lost(&self.view, self.id, now)?;
        }
        Ok(())
    }

    // A whole view comes.
    fn take_view(&mut self, view: &View, now: u64) -> Result<(), Memory>
        ensures sees { OnOk result (Becomes S.Row.join S.words self.old self.new
            (λ id x. sees S.Row.join S.words layouts id now x
            (merged reading x.view (known view.now)))) }
        ensures want { OnlyWant result }
    {
        let before = self.view.oldest();
        self.view.merge(view)?;
        self.look_around(before, now)
    }

    /// A packet comes from another node; how a phase of a request ended, where one did. A tombstone needs no block. What
    /// row it made the node drop, `dropped` says.
    pub fn on_packet(
        &mut self,
        from: u8,
        packet: &Packet<S::Row>,
        now: u64,
        out: &mut Vec<Envelope<S::Row>>,
    ) -> Result<Option<(u64, PhaseEnd<S::Row>)>, Memory>
        requires stocked { PacketCarriesBlocks (blake2b 32) S.words (told packet.now) }
        ensures receives { IfOk result
            (λ given. Does S.Row.join S.words self.old self.new out.old.items out.new.items given
            (λ id x. receives S.Row.join S.words layouts id now x from (told packet.now))) }
        ensures dropped { OnOk result (HasDropped S.Row.join S.words self.old (dropped_of self.new)
            (λ id x. receives S.Row.join S.words layouts id now x from (told packet.now))) }
        ensures causes { WantOr result (Overflows S.Row.join S.words self.old
            (λ id x. receives S.Row.join S.words layouts id now x from (told packet.now))) }
    {
        let heard = self.hear(from, packet, now, out)?;
        self.dropped = heard.dropped;
        Ok(heard.ended)
    }

    // What comes of a packet.
    fn hear(
        &mut self,
        from: u8,
        packet: &Packet<S::Row>,
        now: u64,
        out: &mut Vec<Envelope<S::Row>>,
    ) -> Result<Heard<S::Row>, Memory>
        requires stocked { PacketCarriesBlocks (blake2b 32) S.words (told packet.now) }
        ensures receives { IfOk result
            (λ heard. Does S.Row.join S.words self.old self.new out.old.items out.new.items heard.ended
            (λ id x. receives S.Row.join S.words layouts id now x from (told packet.now))) }
        ensures dropped { IfOk result (λ heard. HasDropped S.Row.join S.words self.old heard.dropped
            (λ id x. receives S.Row.join S.words layouts id now x from (told packet.now))) }
        ensures causes { WantOr result (Overflows S.Row.join S.words self.old
            (λ id x. receives S.Row.join S.words layouts id now x from (told packet.now))) }
    {
        match packet {
            Packet::Msg(message) => self.on_message(from, message.get(), now, out),
            Packet::View(view) => {
                self.take_view(view.get(), now)?;
                Ok(drops_none(None))
            }
        }
    }

    // What comes of a message.
    fn on_message(
        &mut self,
        from: u8,
        message: &Message<S::Row>,
        now: u64,
        out: &mut Vec<Envelope<S::Row>>,
    ) -> Result<Heard<S::Row>, Memory>
        requires stocked { CarriesBlocks (blake2b 32) S.words message.now }
        ensures hears { IfOk result
            (λ heard. Does S.Row.join S.words self.old self.new out.old.items out.new.items heard.ended
            (λ id x. hears S.Row.join S.words layouts id now x from message.now)) }
        ensures dropped { IfOk result (λ heard. HasDropped S.Row.join S.words self.old heard.dropped
            (λ id x. hears S.Row.join S.words layouts id now x from message.now)) }
        ensures causes { WantOr result (Overflows S.Row.join S.words self.old
            (λ id x. hears S.Row.join S.words layouts id now x from message.now)) }
    {
        match message {
            Message::Get {
                request,
                phase,
                at,
                table,
                key,
            } => {
                self.give_row(from, *request, *phase, *at, *table, key, out)?;
                Ok(drops_none(None))
            }
            Message::Row {
                request,
                phase,
                row,
            } => {
                let given = self.calls.hear_row(from, *request, *phase, row)?;
                Ok(drops_none(beside(*request, given)))
            }
            Message::Range {
                request,
                phase,
                at,
                bucket,
                prefix,
                after,
            } => {
                self.give_rows(from, *request, *phase, *at, bucket, prefix, after, out)?;
                Ok(drops_none(None))
            }
            Message::Rows {
                request,
                phase,
                rows,
                more,
            } => {
                let given = self
                    .calls
                    .hear_rows(from, *request, *phase, rows.as_slice(), *more)?;
                Ok(drops_none(beside(*request, given)))
            }
            Message::Store {
                tag,
                newest,
                p,
                rows,
            } => {
                self.take_store(from, *tag, *newest, *p, rows.as_slice(), now, out)?;
                Ok(drops_none(None))
            }
            Message::Stored(tag) => {
                let given = self.take_stored(from, *tag)?;
                Ok(drops_none(given))
            }
            Message::Walk {
                tag,
                newest,
                p,
                table,
                prefix,
                hash,
            } => {
                self.take_walk(from, *tag, *newest, *p, *table, prefix, hash, out)?;
                Ok(drops_none(None))
            }
            Message::Same { tag, table, prefix } => {
                self.take_answer(from, *tag, *table, prefix, None, out)?;
                Ok(drops_none(None))
            }
            Message::Differ {
                tag,
                table,
                prefix,
                pairs,
            } => {
                self.take_answer(from, *tag, *table, prefix, Some(pairs.as_slice()), out)?;
                Ok(drops_none(None))
            }
            Message::Behind(_, _) | Message::NotHere(_) | Message::NoBlock { .. } => Ok(drops_none(
                None,
            )),
            Message::BlockGet {
                request,
                phase,
                at,
                hash,
            } => {
                self.give_block(from, *request, *phase, *at, hash, out)?;
                Ok(drops_none(None))
            }
            Message::Block {
                request,
                phase,
                bytes,
            } => {
                let given = self.calls.hear_block(*request, *phase, bytes)?;
                Ok(drops_none(beside(*request, given)))
            }
            Message::Tomb {
                collection,
                round,
                row,
            } => {
                self.take_tomb(from, *collection, *round, row, now, out)?;
                Ok(drops_none(None))
            }
            Message::Tombed {
                collection,
                round,
                newest,
            } => {
                let dropped = self.take_tombed(from, *collection, *round, *newest, now, out)?;
                Ok(Heard {
                    ended: None,
                    dropped,
                })
            }
            Message::Forget { table, key, hash } => {
                let dropped = self.take_forget(*table, key, hash)?;
                Ok(Heard {
                    ended: None,
                    dropped,
                })
            }
        }
    }

    // Raises the node's own entry; the version that it has then.
    fn raise(&mut self, which: Which, version: u32) -> Result<LocalEnd, Memory>
        ensures raises { IfOk result (λ how. (out : List (Envelope S.Row)) →
            Acts S.Row.join S.words self.old self.new out out how
            (λ id x. raises S.Row.join S.words layouts id x which version)) }
        ensures want { OnlyWant result }
    {
        self.view.raise(which, self.id, version)?;
        let oldest = self.view.oldest();
        Ok(LocalEnd::At(self.view.trackers().counts(which, self.id, oldest)))
    }

    // Drops the layout versions that nobody needs.
    fn clean(&mut self, now: u64) -> Result<LocalEnd, Memory>
        ensures cleans { IfOk result (λ how. (out : List (Envelope S.Row)) →
            Acts S.Row.join S.words self.old self.new out out how
            (λ id x. cleans S.Row.join S.words layouts id now x)) }
        ensures want { OnlyWant result }
    {
        let before = self.view.oldest();
        let oldest = self.view.clean();
        self.look_around(before, now)?;
        Ok(LocalEnd::At(oldest))
    }

    /// Does what a node does by itself.
    pub fn local(
        &mut self,
        action: Action,
        now: u64,
        out: &mut Vec<Envelope<S::Row>>,
    ) -> Result<LocalEnd, Memory>
        requires has_version { 1 ≤ newest reading (view_of self.old) }
        ensures acts { IfOk result
            (λ how. Acts S.Row.join S.words self.old self.new out.old.items out.new.items how
            (λ id x. acts S.Row.join S.words layouts id now x action)) }
        ensures causes { WantOr result (Overflows S.Row.join S.words self.old
            (λ id x. (acts S.Row.join S.words layouts id now x action).did)) }
    {
        match action {
            Action::Ack => {
                let version = self.calls.least_start(self.view.newest());
                self.raise(Which::Ack, version)
            }
            Action::Sync => self.sync(out),
            Action::SyncAck => {
                let version = self.view.read_version();
                self.raise(Which::SyncAck, version)
            }
            Action::Clean => self.clean(now),
            Action::Work => {
                let rows = self.contents.send_waiting(&self.view, self.id, out)?;
                let blocks = self.contents.delete_due(now)?;
                Ok(LocalEnd::Worked { rows, blocks })
            }
            Action::Repair => self.repair(out),
            Action::Collect => self.collect(now, out),
        }
    }

    /// Stores one layout version more.
    pub fn append(&mut self, layout: Layout) -> Result<(), Memory>
        requires next { layout.version ≡ newest reading (view_of self.old) + 1 }
        requires inhabited { IsTrue (has_members layout) }
        ensures appends { OnOk result (Becomes S.Row.join S.words self.old self.new
            (λ id x. appends layouts x layout)) }
        ensures unchanged { OnErr result (Becomes S.Row.join S.words self.old self.new
            (λ id x. x)) }
        ensures want { OnlyWant result }
    {
        self.view.append(layout)
    }

    /// The node's view with one layout version more. `show` puts it in its place, and takes no memory for that.
    pub fn view_with(&self, layout: Layout) -> Result<View, Memory>
        requires next { layout.version ≡ newest reading (view_of self.now) + 1 }
        requires inhabited { IsTrue (has_members layout) }
        ensures appended { IfOk result
            (λ view. known view ≡ appended reading (view_of self.now) layout) }
        ensures want { OnlyWant result }
    {
        let mut view = self.view.copy()?;
        view.append(layout)?;
        Ok(view)
    }

    /// Puts a view of `view_with` in the place of the node's.
    pub fn show(&mut self, view: View)
        ensures { (l : Layout) → l.version ≡ newest reading (view_of self.old) + 1 →
            known view ≡ appended reading (view_of self.old) l →
            Becomes S.Row.join S.words self.old self.new (λ id x. appends layouts x l) }
    {
        self.view = view;
    }

    /// Loses what a node keeps in memory alone: its requests, its round, its collections, and who confirmed its outbox.
    /// The lost requests, ascending.
    pub fn restart(&mut self) -> Result<Vec<u64>, Memory>
        ensures restarts { OnOk result (Becomes S.Row.join S.words self.old self.new
            (λ id x. restarts x)) }
        ensures lost { IfOk result (λ lost. (id : ℕ) (x : Model S.Row Layout) →
            StandsFor S.Row.join S.words self.old id x →
            lost.items ≡ reverse (requests_of x.calls)) }
        ensures unchanged { OnErr result (Becomes S.Row.join S.words self.old self.new
            (λ id x. x)) }
        ensures want { OnlyWant result }
    {
        let lost = self.calls.lose_all()?;
        self.rounds.forget();
        self.gc.clear();
        self.contents.forget_confirmations();
        Ok(lost)
    }
}

// A copy of the row at a key of a table.
fn row_at_key<S: Schema>(rows: &Table<S>, table: u8, key: &Bytes) -> Result<Option<S::Row>, Memory>
    ensures is { IfOk result (λ row. row ≡ find_row S.words table key.now rows.now) }
    ensures want { OnlyWant result }
{
    match rows.get(table, key.as_slice()) {
        Some(row) => Ok(Some(row.copy()?)),
        None => Ok(None),
    }
}

// A bucket's identifier and what follows it in a row key.
fn whole_key(alloc: Global, bucket: &Hash32, rest: &Bytes) -> Result<Bytes, Memory>
    ensures is { IfOk result (λ key. key ≡ bucket.now.0 ++ rest.now) }
    ensures want { OnlyWant result }
{
    let mut key = Bytes::from_slice(alloc, &bucket.0)?;
    key.extend_from_slice(rest.as_slice())?;
    Ok(key)
}

// How a request's phase ended, where it did.
fn beside<R>(request: u64, given: Option<PhaseEnd<R>>) -> Option<(u64, PhaseEnd<R>)>
    ensures { ends_of result ≡ ended_with request given }
{
    match given {
        Some(end) => Some((request, end)),
        None => None,
    }
}

// What came of a packet that made the node drop no row.
fn drops_none<R>(ended: Option<(u64, PhaseEnd<R>)>) -> Heard<R>
    ensures { result ≡ record { ended = ended; dropped = None } }
{
    Heard {
        ended,
        dropped: None,
    }
}
