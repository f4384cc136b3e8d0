//! Every message that was ever sent, and what became of it.
ghost use Rattle.std.specs.Prelude.{◌≡◌, ◌⊎◌, ◌<◌, ◌≤◌, ◌^◌, ℕ, suc, Some, None, [], ◌∷◌, ◌++◌, false, true, length, map, drop, OnOk, IfOk, IfErr, IfSome, IfNone};
ghost use Rattle.crdt_core.specs.Outcomes.{WantOr};
ghost use Rattle.layout_roles.specs.declared.layout.Layout.{Layout};
ghost use Rattle.table_schema.specs.Words.{Words};
ghost use Rattle.cluster_machine.specs.World.{Sent, Mark, numbered, first_waiting, sent_bytes, forgot};
ghost use Rattle.cluster_machine.specs.Step.{marked};
ghost use Rattle.cluster_machine.specs.Fits.{IsWord};
ghost use Rattle.world_core.specs.Parts.{IsPost, IsPlace, HasNoPlace, AreSent, IsSent, IsFound, IsMissing, AreGone, IsFirst, forgotten, packet_bytes, not_yet, lines_from};

use crate::lines::kind;
use cluster_machine::applied::{Line, Refusal};
use crdt_core::{List, Memory};
use node_core::{Envelope, Packet};
use std::alloc::Global;
use std::collections::VecDeque;
use table_schema::Schema;
use wire_messages::size;

/// A message that was sent, unless it was lost since, and whether it was delivered.
#[derive(Drop)]
pub struct Slot<R> {
    pub envelope: Option<Envelope<R>>,
    pub is_delivered: bool,
}

impl<R: Drop> Slot<R> {
    ghost use Rattle.world_core.specs.Parts.{is_waiting, forgotten};

    /// Neither delivered nor lost.
    fn is_waiting(&self) -> bool
        ensures { result ≡ is_waiting self.now }
    {
        !self.is_delivered && self.envelope.is_some()
    }

    /// A delivered message is lost from here on.
    fn forget(&mut self)
        ensures { self.new ≡ forgotten self.old }
    {
        if self.is_delivered {
            self.envelope = None;
        }
    }
}

/// Every message that was ever sent. Those that are over, lost and before all that wait, are only counted.
#[derive(Drop)]
pub struct Post<R> {
    /// How many messages were sent.
    pub sent: u64,
    /// The last of them, in order.
    pub slots: VecDeque<Slot<R>>,
    /// The place of the first slot whose message waits, or how many slots there are.
    pub first: usize,
    /// The sizes of all messages.
    pub bytes: u64,
}

/// How many bytes a packet counts; a view counts 1,600 for each of its versions.
fn packet_size<S: Schema>(packet: &Packet<S::Row>) -> Result<u64, Memory>
    ensures is { IfOk result (λ n. packet_bytes S.words packet.now ≡ Some n) }
    ensures causes { WantOr result (IsWord (packet_bytes S.words packet.now) → ⊥) }
{
    match packet {
        Packet::Msg(message) => size::<S>(message.get()),
        Packet::View(view) => {
            let versions = view.get().layouts().len() as u64;
            match versions.checked_mul(1600) {
                None => Err(Memory::Full),
                Some(bytes) => match bytes.checked_add(64) {
                    None => Err(Memory::Full),
                    Some(total) => Ok(total),
                },
            }
        }
    }
}

impl<R: Drop> Post<R> {
    ghost use Rattle.std.specs.Prelude.{List};

    pub fn new(alloc: Global) -> Post<R>
        ensures { (s : Words R) → IsPost s result [] [] }
    {
        Post {
            sent: 0,
            slots: VecDeque::new(alloc),
            first: 0,
            bytes: 0,
        }
    }

    /// How many messages were sent.
    pub fn sent(&self) -> u64
        ensures { (s : Words R) (messages : List (Sent R Layout)) (marks : List Mark) →
            IsPost s self.now messages marks → result ≡ length messages }
    {
        self.sent
    }

    /// The least number of a message that was neither delivered nor lost.
    pub fn undelivered(&self) -> Option<u64>
        ensures { (s : Words R) (messages : List (Sent R Layout)) (marks : List Mark) →
            IsPost s self.now messages marks → result ≡ first_waiting 1 marks }
    {
        if self.first < self.slots.len() {
            let later = self.slots.len() - self.first - 1;
            self.sent.checked_sub(later as u64)
        } else {
            None
        }
    }

    // The place of the message's slot. None where it has none: it was never sent, or is over.
    fn place(&self, number: u64) -> Option<usize>
        ensures found { IfSome result (λ place. IsPlace self.now number place) }
        ensures none { IfNone result (HasNoPlace self.now number) }
    {
        let later = self.sent.checked_sub(number)?;
        let len = self.slots.len() as u64;
        if later < len {
            Some((len - 1 - later) as usize)
        } else {
            None
        }
    }

    /// The message with this number, or that there is none, or that it was lost.
    pub fn get(&self, number: u64) -> Result<&Envelope<R>, Refusal>
        ensures found { IfOk result
            (λ e. (s : Words R) (messages : List (Sent R Layout)) (marks : List Mark) →
            IsPost s self.now messages marks → IsFound number messages marks e.now) }
        ensures missing { IfErr result
            (λ why. (s : Words R) (messages : List (Sent R Layout)) (marks : List Mark) →
            IsPost s self.now messages marks → IsMissing number messages marks why) }
    {
        if number < 1 || number > self.sent {
            return Err(Refusal::NoSuchMessage);
        }
        let Some(place) = self.place(number) else {
            return Err(Refusal::Lost);
        };
        match &self.slots[place].envelope {
            Some(envelope) => Ok(envelope),
            None => Err(Refusal::Lost),
        }
    }

    /// A message that wasn't lost is delivered.
    pub fn deliver(&mut self, number: u64)
        ensures { (s : Words R) (messages : List (Sent R Layout)) (marks : List Mark)
            (mark : Mark) → IsPost s self.old messages marks → numbered marks number ≡ Some mark →
            mark.is_lost ≡ false →
            IsPost s self.new messages (marked marks (Some (number, record { is_delivered = true; is_lost = false }))) }
    {
        let Some(place) = self.place(number) else {
            return;
        };
        self.slots[place].is_delivered = true;
        self.first = next_waiting(&self.slots, self.first);
    }

    /// A message is lost: it can't be delivered any more.
    pub fn lose(&mut self, number: u64)
        ensures { (s : Words R) (messages : List (Sent R Layout)) (marks : List Mark)
            (mark : Mark) → IsPost s self.old messages marks → numbered marks number ≡ Some mark →
            IsPost s self.new messages (marked marks (Some (number, record { is_delivered = false; is_lost = true }))) }
    {
        let Some(place) = self.place(number) else {
            return;
        };
        let slot = &mut self.slots[place];
        slot.envelope = None;
        slot.is_delivered = false;
        self.first = next_waiting(&self.slots, self.first);
    }

    /// A delivered message counts as lost from here on, and its room is given back; all before the first that waits are
    /// over, and take none.
    pub fn forget_delivered(&mut self)
        ensures { (s : Words R) (messages : List (Sent R Layout)) (marks : List Mark) →
            IsPost s self.old messages marks → IsPost s self.new messages (map forgot marks) }
    {
        drop_front(&mut self.slots, self.first);
        forget_each(&mut self.slots);
        self.first = 0;
    }
}

/// Sends these messages, in order, and puts a line for each at the end.
pub fn send<S: Schema>(
    post: &mut Post<S::Row>,
    envelopes: Vec<Envelope<S::Row>>,
    lines: &mut List<Line>,
) -> Result<(), Memory>
    ensures sent { OnOk result ((messages : List (Sent S.Row Layout)) (marks : List Mark)
        (sent : List (Sent S.Row Layout)) → IsPost S.words post.old messages marks →
        AreSent envelopes.items sent →
        IsPost S.words post.new (messages ++ sent) (marks ++ not_yet sent)) }
    ensures told { OnOk result ((messages : List (Sent S.Row Layout)) (marks : List Mark) →
        IsPost S.words post.old messages marks →
        lines.new ≡ lines.old ++ lines_from (suc (length messages)) envelopes.items) }
    ensures causes { WantOr result ((messages : List (Sent S.Row Layout)) (marks : List Mark)
        (sent : List (Sent S.Row Layout)) →
        IsPost S.words post.old messages marks → AreSent envelopes.items sent → IsWord (sent_bytes S.words (messages ++ sent)) → ⊥) }
{
    for envelope in envelopes {
        put::<S>(post, envelope, lines)?;
    }
    Ok(())
}

/// Sends one message.
fn put<S: Schema>(
    post: &mut Post<S::Row>,
    envelope: Envelope<S::Row>,
    lines: &mut List<Line>,
) -> Result<(), Memory>
    ensures sent { OnOk result ((messages : List (Sent S.Row Layout)) (marks : List Mark)
        (m : Sent S.Row Layout) → IsPost S.words post.old messages marks → IsSent envelope m →
        IsPost S.words post.new (messages ++ m ∷ []) (marks ++ not_yet (m ∷ []))) }
    ensures told { OnOk result (lines.new ≡ lines.old ++ lines_from (suc post.old.sent)
        (envelope ∷ [])) }
    ensures more { OnOk result (post.new.sent ≡ suc post.old.sent) }
    ensures causes { WantOr result ((messages : List (Sent S.Row Layout)) (marks : List Mark)
        (m : Sent S.Row Layout) →
        IsPost S.words post.old messages marks → IsSent envelope m → IsWord (sent_bytes S.words (messages ++ m ∷ [])) → ⊥) }
{
    let Some(number) = post.sent.checked_add(1) else {
        return Err(Memory::Full);
    };
    let size = packet_size::<S>(&envelope.packet)?;
    let Some(bytes) = post.bytes.checked_add(size) else {
        return Err(Memory::Full);
    };
    let line = Line::Sent {
        number,
        kind: kind(&envelope.packet),
        from: envelope.from,
        to: envelope.to,
    };
    lines.push(line)?;
    post.slots.push_back(Slot {
        envelope: Some(envelope),
        is_delivered: false,
    })?;
    post.sent = number;
    post.bytes = bytes;
    Ok(())
}

/// The first place from `from` on whose message waits, where no one before it does.
fn next_waiting<R: Drop>(slots: &VecDeque<Slot<R>>, from: usize) -> usize
    ensures first { from ≤ length slots.now.items → AreGone slots.now.items from →
        IsFirst slots.now.items result }
    ensures later { from ≤ result }
{
    let mut first = from;
    while first < slots.len() && !slots[first].is_waiting() {
        first += 1;
    }
    first
}

/// The first slots, so many, are dropped.
fn drop_front<R: Drop>(slots: &mut VecDeque<Slot<R>>, count: usize)
    ensures { slots.new.items ≡ drop count slots.old.items }
{
    for _ in 0..count {
        slots.pop_front();
    }
}

/// Every delivered message is lost from here on.
fn forget_each<R: Drop>(slots: &mut VecDeque<Slot<R>>)
    ensures { slots.new.items ≡ map forgotten slots.old.items }
{
    for place in 0..slots.len() {
        slots[place].forget();
    }
}
