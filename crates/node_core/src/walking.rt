//! How a node walks with others: rounds, repairs, what others ask it for, and what they answer.
ghost use Rattle.std.specs.Prelude.{◌≡◌, ◌⊎◌, ◌<◌, ◌≤◌, ◌+◌, ◌^◌, ℕ, true, false, List, suc, Some, IfOk, OnOk, IsTrue, option_copied};
ghost use Rattle.crdt_core.specs.Outcomes.{OnlyWant, WantOr};
ghost use Rattle.layout_roles.specs.declared.layout.Layout.{Layout};
ghost use Rattle.view_model.specs.Layouts.{reading};
ghost use Rattle.view_model.specs.View.{newest, read_version};
ghost use Rattle.cluster_machine.specs.Layouts.{layouts};
ghost use Rattle.cluster_machine.specs.Node.{Node as Model, Round as Moved};
ghost use Rattle.cluster_machine.specs.Rounds.{goes_on, may_sync, begin_round, again, repairs, walk_at, at_walk, round_walks, late_came, answer_came};
ghost use Rattle.cluster_machine.specs.Receives.{round_came, compares, walks_on};
ghost use Rattle.cluster_machine.specs.Acts.{syncs};
ghost use Rattle.cluster_machine.specs.declared.step.LocalEnd.TheVariants.{At, Repaired};
ghost use Rattle.node_parts.specs.declared.packet.Envelope.{Envelope};
ghost use Rattle.node_parts.specs.Rounds.{IsMoving};
ghost use Rattle.node_parts.specs.Walks.{children_of};
ghost use Rattle.node_core.specs.Stands.{view_of, sender_of, Done, Fits, StandsApart};
ghost use Rattle.node_core.specs.Walking.{Moves, Starts, CannotStart};

use crate::node::Node;
use blake2_hash::Hash32;
use cluster_machine::LocalEnd;
use crdt_core::{Bytes, Memory};
use layout_trackers::Which;
use node_parts::{
    Answer, Envelope, Mending, Moving, NodeWalk, Sender, is_given, keeps_copies, send,
};
use table_schema::Schema;
use wire_messages::{Message, Tag};

impl<S: Schema> Node<S> {
    ghost use Rattle.node_core.specs.Stands.{StandsFor, Does, Acts, Becomes, Overflows};

    // Who sends in a round or a repair with this number.
    fn sender(&self, round: u64) -> Sender
        ensures { result ≡ sender_of self.now round }
    {
        Sender {
            node: self.id,
            newest: self.view.newest(),
            round,
            alloc: self.alloc,
        }
    }

    // A round that is complete closes, and the node has synced to its version. Its walks last.
    fn go_on(&mut self, moving: Moving) -> Result<(), Memory>
        ensures goes_on { OnOk result ((id : ℕ) (x : Model S.Row Layout) (r : Moved) →
            IsMoving id moving r → StandsApart S.Row.join S.words self.old id x →
            StandsFor S.Row.join S.words self.new id (goes_on S.Row.join S.words layouts id x r)) }
        ensures want { OnlyWant result }
    {
        if moving.is_complete() {
            self.view.raise(Which::Sync, self.id, moving.target())?;
            self.rounds.round = None;
            self.rounds.lasting = Some(moving.into_lasting());
        } else {
            self.rounds.round = Some(moving);
        }
        Ok(())
    }

    /// A node confirms a partition of the round with this number, where it is the open one.
    pub(crate) fn confirm_round(&mut self, from: u8, number: u64, p: u8) -> Result<(), Memory>
        ensures confirms { OnOk result (Becomes S.Row.join S.words self.old self.new
            (λ id x. (round_came S.Row.join S.words layouts id x from number p x.round).node)) }
        ensures want { OnlyWant result }
    {
        let Some(mut moving) = self.rounds.round.take() else {
            return Ok(());
        };
        if moving.number != number {
            self.rounds.round = Some(moving);
            return Ok(());
        }
        moving.confirm(p, from);
        self.go_on(moving)
    }

    // The partitions of which the node has rows, among those whose set in version `here` has the node, with their sets in
    // version `there`. Both versions are stored.
    fn parts(&self, here: u32, there: u32) -> Result<Vec<(u8, [u8; 3])>, Memory>
        ensures are { IfOk result
            (λ parts. Moves S.Row.join S.words self.now here there parts.items) }
        ensures want { OnlyWant result }
    {
        match (self.view.layout(here), self.view.layout(there)) {
            (Some(here), Some(there)) => self.sender(0).moved(&self.contents, here, there),
            _ => Ok(Vec::new(self.alloc)),
        }
    }

    // Begins walks over these partitions with the other nodes of their sets.
    fn start(
        &mut self,
        number: u64,
        parts: &[(u8, [u8; 3])],
        out: &mut Vec<Envelope<S::Row>>,
    ) -> Result<Vec<NodeWalk>, Memory>
        ensures starts { IfOk result
            (λ begun. Starts S.Row.join S.words self.old number parts.now out.old.items out.new.items begun.items) }
        ensures unchanged { OnOk result (self.new ≡ self.old) }
        ensures causes { WantOr result (CannotStart S.Row.join S.words self.old parts.now) }
    {
        let sender = self.sender(number);
        let places = sender.others(parts)?;
        sender.start_all(&mut self.contents, places.as_slice(), out)
    }

    // A round from a version, the read version, to the next may begin.
    fn may_sync(&self, at: u32) -> bool
        ensures is { (id : ℕ) (x : Model S.Row Layout) →
            StandsFor S.Row.join S.words self.now id x → read_version reading x.view ≡ at →
            result ≡ may_sync S.Row.join S.words layouts id x.view }
        ensures below { IsTrue result → at + 1 < 2 ^ 32 }
    {
        let oldest = self.view.oldest();
        at < self.view.newest()
            && keeps_copies(&self.view, at, self.id)
            && at < self.view.ack_least()
            && self.view.trackers().counts(Which::Sync, self.id, oldest) <= at
    }

    // Begins a round from a version, the read version, to the next.
    fn begin_round(&mut self, at: u32, out: &mut Vec<Envelope<S::Row>>) -> Result<LocalEnd, Memory>
        requires below { at + 1 < 2 ^ 32 }
        ensures begins { IfOk result (λ how. (id : ℕ) (x : Model S.Row Layout) →
            may_sync S.Row.join S.words layouts id x.view ≡ true →
            read_version reading x.view ≡ at → StandsFor S.Row.join S.words self.old id x →
            Done S.Row.join S.words self.new id out.old.items out.new.items None
            (begin_round S.Row.join S.words layouts id x) × (how ≡ At (suc at))) }
        ensures causes { WantOr result ((id : ℕ) (x : Model S.Row Layout) →
            may_sync S.Row.join S.words layouts id x.view ≡ true →
            read_version reading x.view ≡ at → StandsFor S.Row.join S.words self.old id x →
            Fits S.words (begin_round S.Row.join S.words layouts id x) → ⊥) }
    {
        let target = at + 1;
        let number = self.rounds.next()?;
        let parts = self.parts(at, target)?;
        let begun = self.start(number, parts.as_slice(), out)?;
        let moving = Moving::new(self.alloc, number, target, parts, self.id, begun)?;
        self.rounds.begun = number;
        self.rounds.lasting = None;
        self.go_on(moving)?;
        Ok(LocalEnd::At(target))
    }

    // The open round starts its walks anew with the nodes that haven't confirmed.
    fn again(&mut self, moving: Moving, out: &mut Vec<Envelope<S::Row>>) -> Result<LocalEnd, Memory>
        ensures again { IfOk result (λ how. (id : ℕ) (x : Model S.Row Layout) (r : Moved) →
            IsMoving id moving r → StandsApart S.Row.join S.words self.old id x →
            Done S.Row.join S.words self.new id out.old.items out.new.items None
            (again S.Row.join S.words layouts id x r) × (how ≡ At r.target)) }
        ensures causes { WantOr result ((id : ℕ) (x : Model S.Row Layout) (r : Moved) →
            IsMoving id moving r → StandsApart S.Row.join S.words self.old id x →
            (again S.Row.join S.words layouts id x r).is_spelled ≡ false) }
    {
        let mut moving = moving;
        let target = moving.target();
        let sender = self.sender(moving.number);
        let mut parts = moving.open_parts()?;
        moving.confirm_emptied(&self.contents, &mut parts);
        let begun = sender.start_all(&mut self.contents, parts.as_slice(), out)?;
        moving.begin(begun)?;
        self.go_on(moving)?;
        Ok(LocalEnd::At(target))
    }

    /// Begins a round, or goes on with the open one.
    pub(crate) fn sync(&mut self, out: &mut Vec<Envelope<S::Row>>) -> Result<LocalEnd, Memory>
        ensures syncs { IfOk result
            (λ how. Acts S.Row.join S.words self.old self.new out.old.items out.new.items how
            (λ id x. syncs S.Row.join S.words layouts id x x.round)) }
        ensures causes { WantOr result (Overflows S.Row.join S.words self.old
            (λ id x. (syncs S.Row.join S.words layouts id x x.round).did)) }
    {
        if let Some(moving) = self.rounds.round.take() {
            return self.again(moving, out);
        }
        let read = self.view.read_version();
        if self.may_sync(read) {
            return self.begin_round(read, out);
        }
        let ack_least = self.view.ack_least();
        Ok(LocalEnd::Idle { read, ack_least })
    }

    /// Walks with the other nodes of each partition's newest set.
    pub(crate) fn repair(&mut self, out: &mut Vec<Envelope<S::Row>>) -> Result<LocalEnd, Memory>
        requires has_version { 1 ≤ newest reading (view_of self.old) }
        ensures repairs { IfOk result (λ how. (how ≡ Repaired) ×
            Does S.Row.join S.words self.old self.new out.old.items out.new.items None
            (λ id x. repairs S.Row.join S.words layouts id x)) }
        ensures causes { WantOr result (Overflows S.Row.join S.words self.old
            (λ id x. repairs S.Row.join S.words layouts id x)) }
    {
        let number = self.rounds.next()?;
        let newest = self.view.newest();
        let parts = self.parts(newest, newest)?;
        let begun = self.start(number, parts.as_slice(), out)?;
        let mending = Mending::new(self.alloc, number, begun)?;
        self.rounds.begun = number;
        self.rounds.mending = Some(mending);
        Ok(LocalEnd::Repaired)
    }

    /// A node whose newest version is `named` asks for the value at a prefix.
    pub(crate) fn take_walk(
        &mut self,
        from: u8,
        tag: Tag,
        named: u32,
        p: u8,
        table: u8,
        prefix: &Bytes,
        hash: &Hash32,
        out: &mut Vec<Envelope<S::Row>>,
    ) -> Result<(), Memory>
        ensures compares { OnOk result
            (Does S.Row.join S.words self.old self.new out.old.items out.new.items None
            (λ id x. compares S.Row.join S.words layouts id x from tag named p table prefix.now hash.now)) }
        ensures causes { WantOr result (Overflows S.Row.join S.words self.old
            (λ id x. compares S.Row.join S.words layouts id x from tag named p table prefix.now hash.now)) }
    {
        let newest = self.view.newest();
        if newest < named {
            return send(out, self.id, from, Message::Behind(tag, newest));
        }
        if !is_given(&self.view, self.id, p) {
            return send(out, self.id, from, Message::NotHere(tag));
        }
        let answer = self.contents.compare(tag, p, table, prefix, hash)?;
        send(out, self.id, from, answer)
    }

    /// A node answers to a walk: it has the same at a prefix, or these are its children there.
    pub(crate) fn take_answer(
        &mut self,
        from: u8,
        tag: Tag,
        table: u8,
        prefix: &Bytes,
        children: Option<&[(u8, Hash32)]>,
        out: &mut Vec<Envelope<S::Row>>,
    ) -> Result<(), Memory>
        ensures walks { OnOk result
            (Does S.Row.join S.words self.old self.new out.old.items out.new.items None
            (λ id x. walks_on S.Row.join S.words layouts id x from tag table prefix.now
            (option_copied children.entry))) }
        ensures causes { WantOr result (Overflows S.Row.join S.words self.old
            (λ id x. walks_on S.Row.join S.words layouts id x from tag table prefix.now
            (option_copied children.entry))) }
    {
        let Tag::Round { round, p } = tag else {
            return Ok(());
        };
        let answer = Answer {
            from,
            p,
            table,
            prefix: prefix.as_slice(),
            children,
        };
        self.answer_came(round, answer, out)
    }

    // An answer comes under a number.
    fn answer_came(
        &mut self,
        number: u64,
        answer: Answer<'_>,
        out: &mut Vec<Envelope<S::Row>>,
    ) -> Result<(), Memory>
        ensures comes { OnOk result
            (Does S.Row.join S.words self.old self.new out.old.items out.new.items None
            (λ id x. answer_came S.Row.join S.words layouts id x answer.entry.from number answer.entry.p answer.entry.table answer.entry.prefix.now
            (children_of answer.entry) x.round)) }
        ensures causes { WantOr result (Overflows S.Row.join S.words self.old
            (λ id x. answer_came S.Row.join S.words layouts id x answer.entry.from number answer.entry.p answer.entry.table answer.entry.prefix.now
            (children_of answer.entry) x.round)) }
    {
        let Some(moving) = self.rounds.round.take() else {
            return self.late_came(number, answer, out);
        };
        if moving.number == number {
            return self.round_walks(moving, answer, out);
        }
        self.rounds.round = Some(moving);
        self.late_came(number, answer, out)
    }

    // An answer comes to the open round. Where a walk ends with nothing to push its node has confirmed.
    fn round_walks(
        &mut self,
        moving: Moving,
        answer: Answer<'_>,
        out: &mut Vec<Envelope<S::Row>>,
    ) -> Result<(), Memory>
        ensures walks { OnOk result ((id : ℕ) (x : Model S.Row Layout) (r : Moved) →
            x.round ≡ Some r → IsMoving id moving r → StandsApart S.Row.join S.words self.old id x →
            Done S.Row.join S.words self.new id out.old.items out.new.items None (at_walk S.Row.join S.words layouts x answer.entry.table answer.entry.prefix.now (round_walks S.Row.join S.words layouts id x answer.entry.table answer.entry.prefix.now (children_of answer.entry) r) (walk_at answer.entry.p answer.entry.from r.walks))) }
        ensures causes { WantOr result ((id : ℕ) (x : Model S.Row Layout) (r : Moved) →
            x.round ≡ Some r → IsMoving id moving r → StandsApart S.Row.join S.words self.old id x →
            (at_walk S.Row.join S.words layouts x answer.entry.table answer.entry.prefix.now (round_walks S.Row.join S.words layouts id x answer.entry.table answer.entry.prefix.now (children_of answer.entry) r) (walk_at answer.entry.p answer.entry.from r.walks)).is_spelled ≡ false) }
    {
        let mut moving = moving;
        let sender = self.sender(moving.number);
        if sender.walk_on(&mut self.contents, &mut moving.walks, answer, out)? {
            moving.confirm(answer.p, answer.from);
            return self.go_on(moving);
        }
        self.rounds.round = Some(moving);
        Ok(())
    }

    // An answer that is not for the open round comes to the last round, or to the last repair.
    fn late_came(
        &mut self,
        number: u64,
        answer: Answer<'_>,
        out: &mut Vec<Envelope<S::Row>>,
    ) -> Result<(), Memory>
        ensures comes { OnOk result
            (Does S.Row.join S.words self.old self.new out.old.items out.new.items None
            (λ id x. late_came S.Row.join S.words layouts x answer.entry.from number answer.entry.p answer.entry.table answer.entry.prefix.now
            (children_of answer.entry))) }
        ensures causes { WantOr result (Overflows S.Row.join S.words self.old
            (λ id x. late_came S.Row.join S.words layouts x answer.entry.from number answer.entry.p answer.entry.table answer.entry.prefix.now
            (children_of answer.entry))) }
    {
        let sender = self.sender(number);
        let rounds = &mut self.rounds;
        if sender.mend(&mut self.contents, &mut rounds.lasting, answer, out)? {
            return Ok(());
        }
        let _ = sender.mend(&mut self.contents, &mut rounds.mending, answer, out)?;
        Ok(())
    }
}
