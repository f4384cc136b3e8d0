//! The cluster with its buckets and its requests for items.
ghost use Rattle.std.specs.Prelude.{◌≡◌, [], ◌⊎◌, ◌+◌, ◌<◌, length, map, option_map, Some, None, IsTrue, IfOk, IfSome, IfNone};
ghost use Rattle.crdt_core.specs.Outcomes.{OnlyWant, WantOr};
ghost use Rattle.table_model.specs.Rows.{rows};
ghost use Rattle.table_model.specs.Top.{any_unspelled};
ghost use Rattle.blake2_hash.specs.Hash.{digest_of};
ghost use Rattle.wire_messages.specs.declared.phase.PhaseEnd.TheVariants as ends;
ghost use Rattle.cluster_machine.specs.declared.step.Words.TheVariants.{Empty};
ghost use Rattle.cluster_machine.specs.declared.step.Step.TheVariants as step;
ghost use Rattle.cluster_machine.specs.World.{numbered, undelivered, sent_bytes, node_line};
ghost use Rattle.cluster_machine.specs.Layouts.{layouts};
ghost use Rattle.cluster_machine.specs.Worlds.{IsMeant};
ghost use Rattle.k2v_rows.specs.Row.{row_join};
ghost use Rattle.k2v_schema.specs.Schema.{words};
ghost use Rattle.world_core.specs.Nodes.{shown_line};
ghost use Rattle.world_core.specs.Stands.{Overflows as WorldOverflows, ended};
ghost use Rattle.k2v_model.specs.Orders.{no_times};
ghost use Rattle.k2v_model.specs.Acts.{acted, adds};
ghost use Rattle.k2v_model.specs.Run.{State, start, silent, begins, begins_reading, is_bucket as is_made, goes_on, delivers, drains};
ghost use Rattle.k2v_world.specs.Kept.{is_token, busy_from, times_at, hindrance, ended_one, ended_all, ended_by};
ghost use Rattle.k2v_world.specs.Stands.{IsMeantEvent, IsQuiet, HasMember, followed, told_of, storing_step};

use crate::asked::{Asked, Stage, open_write};
use crate::events::{delete, get, put};
use crate::rows::{asks_for, base, is_deletion, token_of, values_told};
use crate::told::{accepted, cluster_lines, of_cluster, refusal};
use blake2_hash::{Hash32, blake2b_256};
use cluster_machine::applied::Refusal;
use cluster_machine::{Step, Words};
use crdt_core::{Bytes, List, Map, Max, Memory, Value};
use k2v_model::{Ask, Item, ItemLine, ItemRefusal, Order};
use k2v_rows::{K2vRow, K2vValue};
use k2v_schema::K2vSchema;
use k2v_text::{ItemEvent, ItemTold};
use layout_roles::{Kind as RoleKind, Zone};
use std::alloc::Global;
use store_model::Event;
use wire_messages::{Phase, PhaseEnd};
use world_core::{NodeLine, Report, World};

/// The cluster over rows of items, the buckets, and the requests for items.
#[derive(Drop)]
pub struct ItemWorld {
    world: World<K2vSchema>,
    buckets: List<Bytes>,
    /// Request q is at place q - 1.
    requests: List<Asked>,
    alloc: Global,
}

// The place of a number from 1, among this many.
fn place(number: u64, count: usize) -> Option<usize>
    ensures found { IfSome result (λ i. (i + 1 ≡ number) × (i < count)) }
    ensures none { IfNone result ((number ≡ 0) ⊎ (count < number)) }
{
    if number >= 1 && number <= count as u64 {
        Some((number - 1) as usize)
    } else {
        None
    }
}

// A copy of a role.
fn copy_role(role: &Option<(Zone, RoleKind)>) -> Result<Option<(Zone, RoleKind)>, Memory>
    ensures same { IfOk result (λ copy. copy ≡ role.now) }
    ensures want { OnlyWant result }
{
    match role {
        Some((zone, kind)) => Ok(Some((zone.copy()?, *kind))),
        None => Ok(None),
    }
}

// Whether the bucket is one of these.
fn is_bucket(buckets: &List<Bytes>, name: &Bytes) -> bool
    ensures { result ≡ is_made buckets.now name.now }
{
    buckets.as_slice().contains(name)
}

impl ItemWorld {
    ghost use Rattle.k2v_world.specs.declared.asked.Asked.{Asked};
    ghost use Rattle.k2v_world.specs.declared.asked.Stage.TheVariants as doing;
    ghost use Rattle.k2v_world.specs.Stands.{IsItems, HasItems, IsIn, IsWritten, Plays, PlaysIf, PlaysStep, PlaysEvent, Overflows, OverflowsIf, OverflowsStep, OverflowsEvent, Stores, Closes, Finishes};

    /// Nothing has happened.
    pub fn new(alloc: Global) -> Result<ItemWorld, Memory>
        ensures starts { IfOk result (λ items. IsItems items start) }
        ensures want { OnlyWant result }
    {
        Ok(ItemWorld {
            world: World::new(alloc)?,
            buckets: List::new(alloc),
            requests: List::new(alloc),
            alloc,
        })
    }

    /// How many requests ever began.
    pub fn requests(&self) -> u64
        ensures { (s : State) → IsItems self.now s → result ≡ length s.world.requests }
    {
        self.world.requests()
    }

    /// How many messages were ever sent.
    pub fn sent(&self) -> u64
        ensures { (s : State) → IsItems self.now s → result ≡ length s.world.messages }
    {
        self.world.sent()
    }

    /// How many bytes the messages count that were ever sent.
    pub fn sent_bytes(&self) -> u64
        ensures { (s : State) → IsItems self.now s →
            sent_bytes words s.world.messages ≡ Some result }
    {
        self.world.sent_bytes()
    }

    /// The least number of a message that was neither delivered nor lost.
    pub fn undelivered(&self) -> Option<u64>
        ensures { (s : State) → IsItems self.now s → result ≡ undelivered s.world }
    {
        self.world.undelivered()
    }

    /// What a node shows of itself, None where it knows no layout version.
    pub fn node_line(&self, node: u8) -> Result<Option<NodeLine>, Memory>
        ensures line { IfOk result (λ line. (s : State) → IsItems self.now s →
            option_map shown_line line ≡ node_line row_join words layouts s.world node) }
        ensures causes { WantOr result ((s : State) → IsItems self.now s →
            IsTrue (any_unspelled words (rows row_join words (s.world.nodes node).accepted))) }
    {
        self.world.node_line(node)
    }

    /// Takes the next event. After an error the world is to be given up.
    pub fn step(&mut self, event: &ItemEvent) -> Result<ItemTold, Memory>
        requires stands { HasItems self.old }
        requires meant { IsMeantEvent event.now }
        ensures plays { IfOk result (λ told. PlaysEvent self.old self.new told event.now) }
        ensures causes { WantOr result (OverflowsEvent self.old event.now) }
    {
        match event {
            ItemEvent::Common(event) => self.common(event),
            ItemEvent::Put {
                node,
                item,
                size,
                fill,
                token,
            } => {
                let order = put(self.alloc, item, *size, *fill, *token)?;
                self.begins(*node, order)
            }
            ItemEvent::Delete { node, item, token } => {
                let order = delete(item, *token)?;
                self.begins(*node, order)
            }
            ItemEvent::Get { node, item } => {
                let order = get(item)?;
                self.begins(*node, order)
            }
        }
    }

    // Takes an event that schedules of objects have too.
    fn common(&mut self, event: &Event) -> Result<ItemTold, Memory>
        requires stands { HasItems self.old }
        requires meant { IsMeantEvent (ItemEvent.Common event.now) }
        ensures plays { IfOk result
            (λ told. PlaysEvent self.old self.new told (ItemEvent.Common event.now)) }
        ensures causes { WantOr result (OverflowsEvent self.old (ItemEvent.Common event.now)) }
    {
        match event {
            Event::Trio => self.plain(Step::Trio),
            Event::Bucket(name) => self.add_bucket(name),
            Event::Role { node, role } => {
                let role = copy_role(role)?;
                self.plain(Step::Role { node: *node, role })
            }
            Event::Redundancy(wanted) => self.plain(Step::Redundancy(*wanted)),
            Event::Apply(node) => self.plain(Step::Apply(*node)),
            Event::Tick(ms) => self.plain(Step::Tick(*ms)),
            Event::Skew { node, ms } => self.plain(Step::Skew {
                node: *node,
                ms: *ms,
            }),
            Event::Deliver(message) => self.delivers(*message),
            Event::Lose(message) => self.plain(Step::Lose(*message)),
            Event::Drain(count) => self.drains(u64::from(*count)),
            Event::Expire(request) => self.expire(*request),
            Event::Restart(node) => self.restart(*node),
            Event::Gossip { from, to } => self.plain(Step::Gossip {
                from: *from,
                to: *to,
            }),
            Event::Ack(node) => self.plain(Step::Ack(*node)),
            Event::Sync(node) => self.plain(Step::Sync(*node)),
            Event::SyncAck(node) => self.plain(Step::SyncAck(*node)),
            Event::Clean(node) => self.plain(Step::Clean(*node)),
            Event::Work(node) => self.plain(Step::Work(*node)),
            Event::Repair(node) => self.plain(Step::Repair(*node)),
            Event::Collect(node) => self.plain(Step::Collect(*node)),
            Event::Block(_)
            | Event::Put { .. }
            | Event::Get { .. }
            | Event::Head { .. }
            | Event::Delete { .. }
            | Event::Copy { .. }
            | Event::List { .. } => Ok(self.quiet()),
        }
    }

    // Nothing happens.
    fn quiet(&self) -> ItemTold
        ensures { Plays self.now self.now result silent }
    {
        accepted(List::new(self.alloc))
    }

    // What a step of the world answers, as the answer of an event.
    fn told(&self, report: Report<K2vRow>) -> Result<ItemTold, Memory>
        ensures tells { IfOk result (λ told. told ≡ told_of report) }
        ensures want { OnlyWant result }
    {
        Ok(ItemTold {
            refused: of_cluster(report.refused),
            words: report.words,
            lines: cluster_lines(self.alloc, report.lines)?,
        })
    }

    // One step of the world that ends no request is all.
    fn plain(&mut self, step: Step<K2vRow>) -> Result<ItemTold, Memory>
        requires stands { HasItems self.old }
        requires meant { IsMeant step }
        requires quiet { IsQuiet step }
        ensures plays { IfOk result (λ told. PlaysStep self.old self.new told step) }
        ensures causes { WantOr result (OverflowsStep self.old step) }
    {
        let report = self.world.step(step)?;
        self.told(report)
    }

    // Ends a request that is open.
    fn expire(&mut self, request: u64) -> Result<ItemTold, Memory>
        requires stands { HasItems self.old }
        ensures plays { IfOk result
            (λ told. PlaysStep self.old self.new told (step.Expire request)) }
        ensures causes { WantOr result (OverflowsStep self.old (step.Expire request)) }
    {
        let report = self.world.step(Step::Expire(request))?;
        self.end_unless(&report.refused, request);
        self.told(report)
    }

    // A node loses its open requests.
    fn restart(&mut self, node: u8) -> Result<ItemTold, Memory>
        requires stands { HasItems self.old }
        ensures plays { IfOk result (λ told. PlaysStep self.old self.new told (step.Restart node)) }
        ensures causes { WantOr result (OverflowsStep self.old (step.Restart node)) }
    {
        let report = self.world.step(Step::Restart(node))?;
        self.end_all(report.lost.as_slice());
        self.told(report)
    }

    // A request that is open is over.
    fn end(&mut self, request: u64)
        ensures { self.new ≡
            record self.old { requests = ended_one self.old.requests request (numbered self.old.requests request) } }
    {
        if let Some(i) = place(request, self.requests.len()) {
            if self.requests.at(i).is_open() {
                self.requests.at_mut(i).stage = Stage::Over;
            }
        }
    }

    // A request that was to be expired is over, unless that was refused.
    fn end_unless(&mut self, refused: &Option<Refusal>, request: u64)
        ensures { self.new ≡
            record self.old { requests = ended_by self.old.requests request refused.now } }
    {
        if refused.is_none() {
            self.end(request);
        }
    }

    // These requests are over, where they are open.
    fn end_all(&mut self, requests: &[u64])
        ensures { self.new ≡
            record self.old { requests = ended_all self.old.requests requests.now } }
    {
        for request in requests {
            self.end(*request);
        }
    }

    fn add_bucket(&mut self, name: &Bytes) -> Result<ItemTold, Memory>
        requires stands { HasItems self.old }
        ensures plays { IfOk result (λ told. Plays self.old self.new told
            (λ s. acted s (adds name.now))) }
        ensures want { OnlyWant result }
    {
        self.buckets.push(name.copy()?)?;
        Ok(accepted(List::new(self.alloc)))
    }

    // A request begins at a node, if it may.
    fn begins(&mut self, node: u8, order: Order) -> Result<ItemTold, Memory>
        requires stands { HasItems self.old }
        ensures plays { IfOk result (λ told. Plays self.old self.new told
            (λ s. begins s node order)) }
        ensures causes { WantOr result (Overflows self.old (λ s. begins s node order)) }
    {
        if !self.world.member(node) {
            return Ok(self.refusal(ItemRefusal::Cluster(Refusal::NotMember)));
        }
        if !is_bucket(&self.buckets, &order.item.bucket) {
            return Ok(self.refusal(ItemRefusal::Cluster(Refusal::NoSuchBucket)));
        }
        let bucket = blake2b_256(order.item.bucket.as_slice());
        match self.hindrance(node, &bucket, &order) {
            Some(reason) => Ok(self.refusal(reason)),
            None => self.opens(node, bucket, order),
        }
    }

    // Nothing happens, for this reason.
    fn refusal(&self, reason: ItemRefusal) -> ItemTold
        ensures { result ≡ record { refused = Some reason; words = Empty; lines = [] } }
    {
        refusal(self.alloc, reason)
    }

    // Why a write may not begin: its token isn't one, or another write of the item is open at the node.
    fn hindrance(&self, node: u8, bucket: &Hash32, order: &Order) -> Option<ItemRefusal>
        ensures { result ≡ hindrance self.now.requests node
            (bucket.now, (order.now.item.pk, order.now.item.sk)) order.now.ask }
    {
        let Ask::Write { token, .. } = &order.ask else {
            return None;
        };
        if !self.is_token(*token, bucket, &order.item) {
            return Some(ItemRefusal::NoSuchToken(*token));
        }
        match self.busy(node, bucket, &order.item) {
            Some(request) => Some(ItemRefusal::Busy(request)),
            None => None,
        }
    }

    // Whether the number is 0, or that of a finished read of the item.
    fn is_token(&self, token: u64, bucket: &Hash32, item: &Item) -> bool
        ensures { result ≡ is_token self.now.requests
            (bucket.now, (item.now.pk, item.now.sk)) token }
    {
        match place(token, self.requests.len()) {
            Some(i) => {
                let asked = self.requests.at(i);
                asked.is_shown() && asked.is_of(bucket, item)
            }
            None => token == 0,
        }
    }

    // The least number of an open write of the item at the node.
    #[tactic(auto, using(crate::proofs::Busy::busy_is))]
    fn busy(&self, node: u8, bucket: &Hash32, item: &Item) -> Option<u64>
        ensures { result ≡ busy_from 1 self.now.requests node
            (bucket.now, (item.now.pk, item.now.sk)) }
    {
        let found = open_write(self.requests.as_slice(), node, bucket, item)?;
        Some(found as u64 + 1)
    }

    // A request begins at a member, and its read phase does.
    fn opens(&mut self, node: u8, bucket: Hash32, order: Order) -> Result<ItemTold, Memory>
        requires stands { HasItems self.old }
        requires bucket { bucket ≡ digest_of order.item.bucket }
        ensures plays { IfOk result (λ told. PlaysIf (HasMember node) self.old self.new told
            (λ s. begins_reading s node order)) }
        ensures causes { WantOr result (OverflowsIf (HasMember node) self.old
            (λ s. begins_reading s node order)) }
    {
        let _ = self.world.step(Step::Open(node))?;
        let number = self.world.requests();
        let phase = asks_for(self.alloc, bucket, &order.item)?;
        let report = self.world.step(Step::Phase(number, phase))?;
        self.requests.push(Asked {
            node,
            order,
            bucket,
            stage: Stage::Reading,
        })?;
        Ok(ItemTold {
            refused: None,
            words: Words::One(number),
            lines: cluster_lines(self.alloc, report.lines)?,
        })
    }

    // A write stores its row.
    fn stores(&mut self, i: usize, request: u64, row: K2vRow) -> Result<ItemTold, Memory>
        requires stands { HasItems self.old }
        requires there { i < length self.old.requests }
        ensures goes { IfOk result (λ told. Stores self.old self.new told i request row) }
        ensures causes { WantOr result (WorldOverflows row_join words self.old.world
            (storing_step request row)) }
    {
        let mut rows = List::new(self.alloc);
        rows.push((row, None))?;
        let report = self
            .world
            .step(Step::Phase(request, Phase::Store { rows }))?;
        self.requests.at_mut(i).stage = Stage::Storing;
        Ok(accepted(cluster_lines(self.alloc, report.lines)?))
    }

    // A request is done, and this line says so.
    fn finishes(
        &mut self,
        i: usize,
        request: u64,
        stage: Stage,
        line: ItemLine,
    ) -> Result<ItemTold, Memory>
        requires stands { HasItems self.old }
        requires there { i < length self.old.requests }
        ensures goes { IfOk result (λ told. Closes self.old self.new told i request stage line) }
        ensures causes { WantOr result (WorldOverflows row_join words self.old.world
            (step.Close request)) }
    {
        let _ = self.world.step(Step::Close(request))?;
        self.requests.at_mut(i).stage = stage;
        let mut lines = List::new(self.alloc);
        lines.push(line)?;
        Ok(accepted(lines))
    }

    // The row that a write stores which has read this: its value stands in it, and what its token has seen is discarded.
    // None where it could not be made, which never comes.
    fn written(
        &self,
        i: usize,
        request: u64,
        value: K2vValue,
        token: u64,
        read: Option<K2vRow>,
    ) -> Result<Option<K2vRow>, Memory>
        requires stands { HasItems self.now }
        requires there { i < length self.now.requests }
        ensures is { IfOk result (λ row. IsWritten self.now i request value token read row) }
        ensures want { OnlyWant result }
    {
        let asked = self.requests.at(i);
        let mut row = base(self.alloc, asked.bucket, &asked.order.item, read)?;
        let none = Map::new(self.alloc);
        let times = self.times(token, &none);
        if !row.can_put(asked.node, request, times) {
            return Ok(None);
        }
        row.put(asked.node, request, value, times)?;
        Ok(Some(row))
    }

    // The times of the token that a finished read gave, or these where no request has that number.
    fn times<'a>(&'a self, token: u64, none: &'a Map<u8, Max<u64>>) -> &'a Map<u8, Max<u64>>
        requires empty { none.now ≡ no_times }
        ensures { result.now ≡ times_at (numbered self.now.requests token) }
    {
        match place(token, self.requests.len()) {
            Some(i) => match &self.requests.at(i).stage {
                Stage::Shown(times) => times,
                _ => none,
            },
            None => none,
        }
    }

    // A request goes on that has read a row, or none.
    fn has_read(&mut self, i: usize, request: u64, read: Option<K2vRow>) -> Result<ItemTold, Memory>
        requires stands { HasItems self.old }
        requires reading { IsIn self.old i request doing.Reading }
        ensures plays { IfOk result
            (λ told. Plays self.old self.new told (followed request (ends.Row read))) }
        ensures causes { WantOr result (Overflows self.old (followed request (ends.Row read))) }
    {
        match &self.requests.at(i).order.ask {
            Ask::Read => self.shows(i, request, read),
            Ask::Write { value, token } => {
                let token = *token;
                let value = value.copy()?;
                match self.written(i, request, value, token, read)? {
                    Some(row) => self.stores(i, request, row),
                    None => Ok(self.quiet()),
                }
            }
        }
    }

    // A read finishes with a row, or none.
    fn shows(&mut self, i: usize, request: u64, read: Option<K2vRow>) -> Result<ItemTold, Memory>
        requires stands { HasItems self.old }
        requires there { i < length self.old.requests }
        ensures goes { IfOk result (λ told. Finishes self.old self.new told i request read) }
        ensures causes { WantOr result (WorldOverflows row_join words self.old.world
            (step.Close request)) }
    {
        let times = token_of(self.alloc, &read)?;
        let values = values_told(self.alloc, &read)?;
        self.finishes(
            i,
            request,
            Stage::Shown(times),
            ItemLine::ReadDone { request, values },
        )
    }

    // A write is acknowledged.
    fn is_kept(&mut self, i: usize, request: u64) -> Result<ItemTold, Memory>
        requires stands { HasItems self.old }
        requires storing { IsIn self.old i request doing.Storing }
        ensures plays { IfOk result
            (λ told. Plays self.old self.new told (followed request ends.Kept)) }
        ensures causes { WantOr result (Overflows self.old (followed request ends.Kept)) }
    {
        let asked = self.requests.at(i);
        let line = ItemLine::WriteDone {
            request,
            is_deletion: is_deletion(&asked.order.ask),
            node: asked.node,
        };
        self.finishes(i, request, Stage::Over, line)
    }

    // What a request does when its phase ended.
    fn follow(&mut self, request: u64, end: PhaseEnd<K2vRow>) -> Result<ItemTold, Memory>
        requires stands { HasItems self.old }
        ensures plays { IfOk result (λ told. Plays self.old self.new told (followed request end)) }
        ensures causes { WantOr result (Overflows self.old (followed request end)) }
    {
        let Some(i) = place(request, self.requests.len()) else {
            return Ok(self.quiet());
        };
        match end {
            PhaseEnd::Row(read) => {
                if !self.requests.at(i).is_reading() {
                    return Ok(self.quiet());
                }
                self.has_read(i, request, read)
            }
            PhaseEnd::Kept => {
                if !self.requests.at(i).is_storing() {
                    return Ok(self.quiet());
                }
                self.is_kept(i, request)
            }
            _ => Ok(self.quiet()),
        }
    }

    // What the request does whose phase ended, if one did.
    fn goes_on(&mut self, mut ends: List<(u64, PhaseEnd<K2vRow>)>) -> Result<ItemTold, Memory>
        requires stands { HasItems self.old }
        ensures plays { IfOk result (λ told. Plays self.old self.new told
            (λ s. goes_on s (map ended ends))) }
        ensures causes { WantOr result (Overflows self.old (λ s. goes_on s (map ended ends))) }
    {
        if ends.is_empty() {
            return Ok(self.quiet());
        }
        let (request, end) = ends.remove(0);
        self.follow(request, end)
    }

    // Delivers a message.
    fn delivers(&mut self, message: u64) -> Result<ItemTold, Memory>
        requires stands { HasItems self.old }
        ensures plays { IfOk result (λ told. Plays self.old self.new told
            (λ s. delivers s message)) }
        ensures causes { WantOr result (Overflows self.old (λ s. delivers s message)) }
    {
        let report = self.world.step(Step::Deliver(message))?;
        let mut told = self.goes_on(report.ends)?;
        let mut lines = cluster_lines(self.alloc, report.lines)?;
        lines.append(&mut told.lines)?;
        Ok(ItemTold {
            refused: of_cluster(report.refused),
            words: report.words,
            lines,
        })
    }

    // Delivers the least message that was neither delivered nor lost, up to `count` times.
    fn drains(&mut self, count: u64) -> Result<ItemTold, Memory>
        requires stands { HasItems self.old }
        ensures plays { IfOk result (λ told. Plays self.old self.new told (λ s. drains count s)) }
        ensures causes { WantOr result (Overflows self.old (λ s. drains count s)) }
    {
        let mut lines = List::new(self.alloc);
        let mut left = count;
        while left > 0 {
            let Some(message) = self.world.undelivered() else {
                return Ok(accepted(lines));
            };
            let mut told = self.delivers(message)?;
            lines.append(&mut told.lines)?;
            left -= 1;
        }
        Ok(accepted(lines))
    }
}
