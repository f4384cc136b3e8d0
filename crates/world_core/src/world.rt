//! The cluster, step by step.
ghost use Rattle.std.specs.Prelude.{◌≡◌, ◌⊎◌, ◌≤◌, ◌+◌, ℕ, leb, not, ◌&&◌, false, Some, None, [], length, map, option_map, IsTrue, IfOk, IfErr, OnOk, OnErr};
ghost use Rattle.std.specs.Option.{option_map_or};
ghost use Rattle.crdt_core.specs.Outcomes.{OnlyWant, WantOr};
ghost use Rattle.crdt_core.specs.declared.memory.Memory.TheVariants.{Full};
ghost use Rattle.blake2_hash.specs.Blake2b.{blake2b};
ghost use Rattle.layout_roles.specs.Certificates.{IsRedundancy};
ghost use Rattle.layout_roles.specs.Fits.{IsGreatest};
ghost use Rattle.table_model.specs.Rows.{rows};
ghost use Rattle.table_model.specs.Top.{any_unspelled};
ghost use Rattle.view_model.specs.Layouts.{reading};
ghost use Rattle.cluster_machine.specs.Blocks.{BringsBlocks, StepBringsBlocks};
ghost use Rattle.cluster_machine.specs.Choices.{IsFirst};
ghost use Rattle.cluster_machine.specs.Keeping.{IsShort};
ghost use Rattle.cluster_machine.specs.Layouts.{layouts};
ghost use Rattle.node_core.specs.Stands.{ends_of};
ghost use Rattle.cluster_machine.specs.declared.step.Step.TheVariants as step;
ghost use Rattle.cluster_machine.specs.declared.step.Words.TheVariants.{Empty};
ghost use Rattle.cluster_machine.specs.declared.line.Line.TheVariants as line;
ghost use Rattle.cluster_machine.specs.declared.line.EndWord.TheVariants as word;
ghost use Rattle.cluster_machine.specs.Step.{told};
ghost use Rattle.cluster_machine.specs.World.{clock, is_member_at, numbered, undelivered, sent_bytes, node_line, forget_delivered, empty};
ghost use Rattle.cluster_machine.specs.Worlds.{Model, IsMeant, installed};
ghost use Rattle.world_core.specs.Given.{next_version, Applies};
ghost use Rattle.world_core.specs.Nodes.{shown_line, newest_in};
ghost use Rattle.world_core.specs.Stands.{SendsOut, CannotSend, acts_so, local_so, ended};

use crate::clocks::Clocks;
use crate::decide::{Decided, decide, layout_of};
use crate::lines::{push_dropped, push_synced};
use crate::node_line::NodeLine;
use crate::nodes::Nodes;
use crate::post::{Post, send};
use crate::report::Report;
use crate::requests::Requests;
use crate::staging::trio_layout;
use block_laws::steps_keep_blocks;
use cluster_machine::applied::{Applied, Line, Refusal};
use cluster_machine::{Action, EndWord, LocalEnd, Step, Words};
use crdt_core::{List, Memory};
use layout_roles::{Cut, Kind, Layout, Redundancy, Roles, Zone};
use node_core::Envelope;
use staged_roles::{staged, with_trio};
use std::alloc::Global;
use table_schema::Schema;
use wire_messages::{Phase, PhaseEnd};
use world_laws::empty_world_is_sound;

/// How many layout versions may be applied.
const MOST_VERSIONS: u32 = 100;

/// The cluster. Nodes are numbered; those of a layout are 1 to 64.
#[derive(Drop)]
pub struct World<S: Schema> {
    nodes: Nodes<S>,
    post: Post<S::Row>,
    clocks: Clocks,
    /// The staged roles and redundancy.
    roles: Roles,
    redundancy: Redundancy,
    /// How many layout versions were applied.
    applied: u32,
    requests: Requests,
    alloc: Global,
}

impl<S: Schema> World<S> {
    ghost use Rattle.world_core.specs.Stands.{StandsFor, IsWorld, Steps, Overflows, PlaysSo, ExceedsSo, Plays, Exceeds, Turns};

    /// A world without layout versions, messages and requests, at time 0. Any redundancy is wanted that there can be.
    pub fn new(alloc: Global) -> Result<World<S>, Memory>
        ensures stands { IfOk result (λ world. StandsFor S.Row.join S.words world empty) }
        ensures want { OnlyWant result }
    {
        empty_world_is_sound::<S::Row>();
        steps_keep_blocks::<S::Row, Layout, Applied, Cut>();
        Ok(World {
            nodes: Nodes::new(alloc),
            post: Post::new(alloc),
            clocks: Clocks::new(),
            roles: Roles {
                list: List::new(alloc),
            },
            redundancy: Redundancy::Maximum,
            applied: 0,
            requests: Requests::new(alloc),
            alloc,
        })
    }

    /// Puts a first layout, one of the greatest partition size, into the views of its nodes. It counts as applied from
    /// then on. Where memory is wanting the world is as before.
    pub fn install(&mut self, first: Layout, nodes: &[u8]) -> Result<(), Memory>
        requires stands { IsWorld S.Row.join S.words self.old }
        requires unused { (w : Model S.Row) → StandsFor S.Row.join S.words self.old w →
            w.applied ≡ 0 }
        requires greatest { IsFirst first }
        requires members { nodes.now ≡ reading.members first }
        ensures installed { OnOk result (Turns S.Row.join S.words self.old self.new
            (λ w. installed S.Row.join S.words w first)) }
        ensures unchanged { OnErr result (Turns S.Row.join S.words self.old self.new (λ w. w)) }
        ensures want { OnlyWant result }
    {
        self.nodes.install(&first, nodes)?;
        self.applied = 1;
        Ok(())
    }

    /// Whether the node has a role in its newest layout version.
    pub fn member(&self, node: u8) -> bool
        ensures { (w : Model S.Row) → StandsFor S.Row.join S.words self.now w →
            result ≡ is_member_at layouts w node }
    {
        self.nodes.is_member(node)
    }

    /// The node's clock, in milliseconds.
    pub fn clock(&self, node: u8) -> u64
        ensures { (w : Model S.Row) → StandsFor S.Row.join S.words self.now w →
            result ≡ clock w node }
    {
        self.clocks.now(node)
    }

    /// How many messages were sent.
    pub fn sent(&self) -> u64
        ensures { (w : Model S.Row) → StandsFor S.Row.join S.words self.now w →
            result ≡ length w.messages }
    {
        self.post.sent()
    }

    /// How many bytes the messages count that were sent.
    pub fn sent_bytes(&self) -> u64
        ensures { (w : Model S.Row) → StandsFor S.Row.join S.words self.now w →
            sent_bytes S.words w.messages ≡ Some result }
    {
        self.post.bytes
    }

    /// The least number of a message that was neither delivered nor lost.
    pub fn undelivered(&self) -> Option<u64>
        ensures { (w : Model S.Row) → StandsFor S.Row.join S.words self.now w →
            result ≡ undelivered w }
    {
        self.post.undelivered()
    }

    /// How many requests began.
    pub fn requests(&self) -> u64
        ensures { (w : Model S.Row) → StandsFor S.Row.join S.words self.now w →
            result ≡ length w.requests }
    {
        self.requests.len()
    }

    /// Whether the request with this number is open.
    pub fn is_open(&self, request: u64) -> bool
        ensures { (w : Model S.Row) → StandsFor S.Row.join S.words self.now w →
            result ≡ option_map_or (λ found. found.is_open) (numbered w.requests request) false }
    {
        match self.requests.get(request) {
            Some(found) => found.is_open,
            None => false,
        }
    }

    /// The staged roles and redundancy.
    pub fn staged(&self) -> (&Roles, Redundancy)
        ensures roles { (w : Model S.Row) → StandsFor S.Row.join S.words self.now w →
            result.0.now.list ≡ w.roles }
        ensures redundancy { (w : Model S.Row) → StandsFor S.Row.join S.words self.now w →
            result.1 ≡ w.redundancy }
    {
        (&self.roles, self.redundancy)
    }

    /// How many layout versions were applied.
    pub fn applied(&self) -> u32
        ensures { (w : Model S.Row) → StandsFor S.Row.join S.words self.now w → result ≡ w.applied }
    {
        self.applied
    }

    /// What a node shows of itself, None where it knows no layout version.
    pub fn node_line(&self, node: u8) -> Result<Option<NodeLine>, Memory>
        ensures line { IfOk result (λ line. (w : Model S.Row) →
            StandsFor S.Row.join S.words self.now w →
            option_map shown_line line ≡ node_line S.Row.join S.words layouts w node) }
        ensures causes { WantOr result ((w : Model S.Row) →
            StandsFor S.Row.join S.words self.now w →
            IsTrue (any_unspelled S.words (rows S.Row.join S.words (w.nodes node).accepted))) }
    {
        let line = self.nodes.line(node)?;
        Ok(line)
    }

    /// From here on a delivered message counts as lost, and takes no room.
    pub fn forget_delivered(&mut self)
        requires stands { IsWorld S.Row.join S.words self.old }
        ensures { Turns S.Row.join S.words self.old self.new (λ w. forget_delivered w) }
    {
        steps_keep_blocks::<S::Row, Layout, Applied, Cut>();
        self.post.forget_delivered();
    }

    /// One atomic change of the world. A refused step changes nothing. The rows of a store phase come each with the block
    /// that it needs, and no other.
    pub fn step(&mut self, step: Step<S::Row>) -> Result<Report<S::Row>, Memory>
        requires stands { IsWorld S.Row.join S.words self.old }
        requires meant { IsMeant step }
        requires stocked { StepBringsBlocks (blake2b 32) S.words step }
        ensures steps { IfOk result
            (λ report. Steps S.Row.join S.words self.old self.new report step) }
        ensures causes { WantOr result (Overflows S.Row.join S.words self.old step) }
    {
        match step {
            Step::Trio => self.trio(),
            Step::Role { node, role } => self.stage(node, role),
            Step::Redundancy(wanted) => self.spread(wanted),
            Step::Apply(node) => self.apply(node),
            Step::Tick(ms) => self.tick(ms),
            Step::Skew { node, ms } => self.skew(node, ms),
            Step::Deliver(message) => self.deliver(message),
            Step::Lose(message) => self.lose(message),
            Step::Expire(request) => self.expire(request),
            Step::Restart(node) => self.restart(node),
            Step::Gossip { from, to } => self.gossip(from, to),
            Step::Ack(node) => self.local(node, Action::Ack),
            Step::Sync(node) => self.local(node, Action::Sync),
            Step::SyncAck(node) => self.local(node, Action::SyncAck),
            Step::Clean(node) => self.local(node, Action::Clean),
            Step::Work(node) => self.local(node, Action::Work),
            Step::Repair(node) => self.repair(node),
            Step::Collect(node) => self.local(node, Action::Collect),
            Step::Open(node) => self.open(node),
            Step::Phase(request, phase) => self.phase(request, phase),
            Step::Close(request) => self.close(request),
        }
    }

    /// The step `Apply` at a node with a layout that was computed before, as the node's next version. It has to be the
    /// greatest of its own roles; that these are the ones that are staged is asked of a lawful run, not here.
    pub fn apply_with(&mut self, node: u8, shown: Applied) -> Result<Report<S::Row>, Memory>
        requires stands { IsWorld S.Row.join S.words self.old }
        requires greatest { IsGreatest shown.roles.list shown.certified.r shown.certified.size shown.certified.sets.sets }
        ensures applies { IfOk result
            (λ report. Applies S.Row.join S.words self.old self.new report node shown) }
        ensures want { OnlyWant result }
    {
        let version = match self.next_version(node) {
            Ok(version) => version,
            Err(reason) => return Ok(self.refused(reason)),
        };
        let layout = layout_of(version, &shown)?;
        self.nodes.append(node, layout)?;
        self.applied += 1;
        let mut lines = List::new(self.alloc);
        lines.push(Line::Layout(shown))?;
        Ok(self.told(Words::One(u64::from(version)), lines))
    }

    // Why a step is refused, and nothing else.
    fn refused(&self, reason: Refusal) -> Report<S::Row>
        ensures { result ≡
            record { refused = Some reason; words = Empty; lines = []; ends = []; lost = [] } }
    {
        Report {
            refused: Some(reason),
            words: Words::Empty,
            lines: List::new(self.alloc),
            ends: List::new(self.alloc),
            lost: List::new(self.alloc),
        }
    }

    // What a step answers and tells.
    fn told(&self, words: Words, lines: List<Line>) -> Report<S::Row>
        ensures { result ≡
            record { refused = None; words = words; lines = lines; ends = []; lost = [] } }
    {
        Report {
            refused: None,
            words,
            lines,
            ends: List::new(self.alloc),
            lost: List::new(self.alloc),
        }
    }

    // A step that answers and tells nothing.
    fn silent(&self) -> Report<S::Row>
        ensures { result ≡
            record { refused = None; words = Empty; lines = []; ends = []; lost = [] } }
    {
        self.told(Words::Empty, List::new(self.alloc))
    }

    // Nodes 1, 2 and 3 get their layout as version 1.
    fn trio(&mut self) -> Result<Report<S::Row>, Memory>
        requires stands { IsWorld S.Row.join S.words self.old }
        ensures plays { IfOk result
            (λ report. Plays S.Row.join S.words self.old self.new report step.Trio) }
        ensures want { OnlyWant result }
    {
        if self.applied >= 1 {
            return Ok(self.refused(Refusal::VersionTaken(1)));
        }
        let roles = with_trio(self.alloc, &self.roles)?;
        let first = trio_layout(self.alloc)?;
        self.nodes.install(&first, &[1, 2, 3])?;
        self.roles = roles;
        self.applied = 1;
        Ok(self.silent())
    }

    fn stage(&mut self, node: u8, role: Option<(Zone, Kind)>) -> Result<Report<S::Row>, Memory>
        requires low { 1 ≤ node }
        requires high { node ≤ 64 }
        ensures plays { IfOk result
            (λ report. Plays S.Row.join S.words self.old self.new report (step.Role node role)) }
        ensures want { OnlyWant result }
    {
        self.roles = staged(self.alloc, &self.roles, node, role)?;
        Ok(self.silent())
    }

    fn spread(&mut self, wanted: Redundancy) -> Result<Report<S::Row>, Memory>
        requires { IsRedundancy wanted }
        ensures plays { IfOk result
            (λ report. Plays S.Row.join S.words self.old self.new report (step.Redundancy wanted)) }
        ensures want { OnlyWant result }
    {
        self.redundancy = wanted;
        Ok(self.silent())
    }

    // A layout was applied, and the node has no role in its newest one.
    fn is_outside(&self, node: u8) -> bool
        ensures { (w : Model S.Row) → StandsFor S.Row.join S.words self.now w →
            result ≡ (leb 1 w.applied && not (is_member_at layouts w node)) }
    {
        self.applied >= 1 && !self.nodes.is_member(node)
    }

    // The version of a layout that is applied at a node, or why it is refused.
    fn next_version(&self, node: u8) -> Result<u32, Refusal>
        requires stands { IsWorld S.Row.join S.words self.now }
        ensures { (w : Model S.Row) → StandsFor S.Row.join S.words self.now w →
            result ≡ next_version w node }
    {
        if self.is_outside(node) {
            return Err(Refusal::NotMember);
        }
        let newest = self.nodes.newest(node);
        if newest < self.applied {
            return Err(Refusal::VersionTaken(newest + 1));
        }
        if self.applied >= MOST_VERSIONS {
            return Err(Refusal::VersionLimit);
        }
        Ok(newest + 1)
    }

    fn apply(&mut self, node: u8) -> Result<Report<S::Row>, Memory>
        requires stands { IsWorld S.Row.join S.words self.old }
        ensures steps { IfOk result
            (λ report. Steps S.Row.join S.words self.old self.new report (step.Apply node)) }
        ensures want { OnlyWant result }
    {
        if let Err(reason) = self.next_version(node) {
            return Ok(self.refused(reason));
        }
        match decide(self.alloc, &self.roles, self.redundancy)? {
            Decided::Refused(reason) => Ok(self.refused(reason)),
            Decided::Given(shown) => self.apply_with(node, shown),
        }
    }

    fn tick(&mut self, ms: u64) -> Result<Report<S::Row>, Memory>
        ensures plays { IfOk result
            (λ report. Plays S.Row.join S.words self.old self.new report (step.Tick ms)) }
        ensures causes { IfErr result (λ e. (e ≡ Full) ×
            Exceeds S.Row.join S.words self.old (step.Tick ms)) }
    {
        self.clocks.tick(ms)?;
        Ok(self.silent())
    }

    fn skew(&mut self, node: u8, ms: u64) -> Result<Report<S::Row>, Memory>
        ensures plays { IfOk result
            (λ report. Plays S.Row.join S.words self.old self.new report (step.Skew node ms)) }
        ensures causes { IfErr result (λ e. (e ≡ Full) ×
            Exceeds S.Row.join S.words self.old (step.Skew node ms)) }
    {
        self.clocks.skew(node, ms)?;
        Ok(self.silent())
    }

    // A node sent messages; its own sync was this before, and is that after.
    fn tell(
        &mut self,
        node: u8,
        before: u32,
        after: u32,
        out: Vec<Envelope<S::Row>>,
        lines: &mut List<Line>,
    ) -> Result<(), Memory>
        ensures tells { OnOk result
            (SendsOut S.Row.join S.words self.old self.new node before after out.items lines.old lines.new) }
        ensures causes { WantOr result (CannotSend S.words self.old out.items) }
    {
        send::<S>(&mut self.post, out, lines)?;
        push_synced(lines, node, before, after)?;
        Ok(())
    }

    fn deliver(&mut self, message: u64) -> Result<Report<S::Row>, Memory>
        requires stands { IsWorld S.Row.join S.words self.old }
        ensures plays { IfOk result
            (λ report. Plays S.Row.join S.words self.old self.new report (step.Deliver message)) }
        ensures causes { WantOr result (Exceeds S.Row.join S.words self.old
            (step.Deliver message)) }
    {
        let envelope = match self.post.get(message) {
            Ok(envelope) => envelope,
            Err(reason) => return Ok(self.refused(reason)),
        };
        let node = envelope.to;
        let now = self.clocks.now(node);
        let mut out = Vec::new(self.alloc);
        let given = self.nodes.receive(envelope, now, &mut out)?;
        self.post.deliver(message);
        let mut lines = List::new(self.alloc);
        lines.push(Line::Got(message))?;
        push_dropped(&mut lines, node, given.answer.dropped)?;
        self.tell(node, given.before, given.after, out, &mut lines)?;
        let mut report = self.told(Words::Empty, lines);
        report.ends = listed(self.alloc, given.answer.ended)?;
        Ok(report)
    }

    fn lose(&mut self, message: u64) -> Result<Report<S::Row>, Memory>
        ensures plays { IfOk result
            (λ report. Plays S.Row.join S.words self.old self.new report (step.Lose message)) }
        ensures want { OnlyWant result }
    {
        match self.post.get(message) {
            Ok(_) => {
                self.post.lose(message);
                Ok(self.silent())
            }
            Err(reason) => Ok(self.refused(reason)),
        }
    }

    // A request that is open ends without an answer.
    fn expire(&mut self, request: u64) -> Result<Report<S::Row>, Memory>
        ensures plays { IfOk result
            (λ report. Plays S.Row.join S.words self.old self.new report (step.Expire request)) }
        ensures want { OnlyWant result }
    {
        let Some(found) = self.requests.get(request) else {
            return Ok(self.refused(Refusal::NoSuchRequest));
        };
        if !found.is_open {
            return Ok(self.refused(Refusal::AlreadyEnded));
        }
        self.nodes.close(found.coordinator, request);
        self.requests.close(request);
        let mut lines = List::new(self.alloc);
        lines.push(Line::Ended {
            request,
            word: EndWord::Expired,
        })?;
        Ok(self.told(Words::Empty, lines))
    }

    fn restart(&mut self, node: u8) -> Result<Report<S::Row>, Memory>
        ensures plays { IfOk result
            (λ report. Plays S.Row.join S.words self.old self.new report (step.Restart node)) }
        ensures want { OnlyWant result }
    {
        let lost = self.nodes.restart(node)?;
        self.requests.close_all(&lost);
        let lines = restart_lines(self.alloc, &lost)?;
        let mut report = self.told(Words::Empty, lines);
        report.lost = List::from_vec(lost);
        Ok(report)
    }

    // A node sends its view to another.
    fn gossip(&mut self, from: u8, to: u8) -> Result<Report<S::Row>, Memory>
        ensures plays { IfOk result
            (λ report. Plays S.Row.join S.words self.old self.new report (step.Gossip from to)) }
        ensures causes { WantOr result (Exceeds S.Row.join S.words self.old (step.Gossip from to)) }
    {
        let packet = self.nodes.shown(from)?;
        let mut out = Vec::new(self.alloc);
        out.push(Envelope { from, to, packet })?;
        let mut lines = List::new(self.alloc);
        let synced = self.nodes.synced(from);
        self.tell(from, synced, synced, out, &mut lines)?;
        Ok(self.told(Words::Empty, lines))
    }

    // A node does something by itself.
    fn acts(&mut self, node: u8, action: Action) -> Result<Report<S::Row>, Memory>
        requires has_version { 1 ≤ newest_in self.old.nodes node }
        ensures plays { IfOk result
            (λ report. PlaysSo S.Row.join S.words self.old self.new report
            (acts_so S.Row.join S.words node action)) }
        ensures causes { WantOr result (ExceedsSo S.Row.join S.words self.old
            (acts_so S.Row.join S.words node action)) }
    {
        let now = self.clocks.now(node);
        let mut out = Vec::new(self.alloc);
        let given = self.nodes.act(node, action, now, &mut out)?;
        let mut lines = List::new(self.alloc);
        self.tell(node, given.before, given.after, out, &mut lines)?;
        Ok(self.told(words_of(given.answer), lines))
    }

    // The same, unless the node knows no layout version.
    fn local(&mut self, node: u8, action: Action) -> Result<Report<S::Row>, Memory>
        ensures plays { IfOk result
            (λ report. PlaysSo S.Row.join S.words self.old self.new report
            (local_so S.Row.join S.words node action)) }
        ensures causes { WantOr result (ExceedsSo S.Row.join S.words self.old
            (local_so S.Row.join S.words node action)) }
    {
        if self.nodes.newest(node) == 0 {
            return Ok(self.refused(Refusal::NotMember));
        }
        let report = self.acts(node, action)?;
        Ok(report)
    }

    fn repair(&mut self, node: u8) -> Result<Report<S::Row>, Memory>
        ensures plays { IfOk result
            (λ report. Plays S.Row.join S.words self.old self.new report (step.Repair node)) }
        ensures causes { WantOr result (Exceeds S.Row.join S.words self.old (step.Repair node)) }
    {
        if self.nodes.newest(node) == 0 || !self.nodes.is_member(node) {
            return Ok(self.refused(Refusal::NotMember));
        }
        let report = self.acts(node, Action::Repair)?;
        Ok(report)
    }

    // A request begins at a node, its coordinator.
    fn open(&mut self, node: u8) -> Result<Report<S::Row>, Memory>
        ensures plays { IfOk result
            (λ report. Plays S.Row.join S.words self.old self.new report (step.Open node)) }
        ensures want { OnlyWant result }
    {
        if !self.nodes.is_member(node) {
            return Ok(self.refused(Refusal::NotMember));
        }
        let request = self.requests.begin(node)?;
        let _ = self.nodes.open(node, request)?;
        Ok(self.told(Words::One(request), List::new(self.alloc)))
    }

    // A phase of an open request begins at its coordinator.
    fn phase(&mut self, request: u64, phase: Phase<S::Row>) -> Result<Report<S::Row>, Memory>
        requires short { IsShort phase }
        requires stocked { BringsBlocks (blake2b 32) S.words phase }
        ensures plays { IfOk result
            (λ report. Plays S.Row.join S.words self.old self.new report
            (step.Phase request phase)) }
        ensures causes { WantOr result (Exceeds S.Row.join S.words self.old
            (step.Phase request phase)) }
    {
        let Some(found) = self.requests.get(request) else {
            return Ok(self.silent());
        };
        if !found.is_open {
            return Ok(self.silent());
        }
        let node = found.coordinator;
        let mut out = Vec::new(self.alloc);
        let given = self.nodes.phase(node, request, phase, &mut out)?;
        let mut lines = List::new(self.alloc);
        self.tell(node, given.before, given.after, out, &mut lines)?;
        Ok(self.told(Words::Empty, lines))
    }

    // A request that has its answer ends.
    fn close(&mut self, request: u64) -> Result<Report<S::Row>, Memory>
        ensures plays { IfOk result
            (λ report. Plays S.Row.join S.words self.old self.new report (step.Close request)) }
        ensures want { OnlyWant result }
    {
        let Some(found) = self.requests.get(request) else {
            return Ok(self.silent());
        };
        if !found.is_open {
            return Ok(self.silent());
        }
        self.nodes.close(found.coordinator, request);
        self.requests.close(request);
        Ok(self.silent())
    }
}

// The phase that ended, if one did.
fn listed<R: Drop>(
    alloc: Global,
    given: Option<(u64, PhaseEnd<R>)>,
) -> Result<List<(u64, PhaseEnd<R>)>, Memory>
    ensures ends { IfOk result (λ ends. map ended ends ≡ ends_of given) }
    ensures want { OnlyWant result }
{
    let mut ends = List::new(alloc);
    if let Some(end) = given {
        ends.push(end)?;
    }
    Ok(ends)
}

// A line for each request that a restart lost.
fn restart_lines(alloc: Global, lost: &[u64]) -> Result<List<Line>, Memory>
    ensures lines { IfOk result (λ lines. lines ≡ map (λ q. line.Ended q word.Restarted) lost.now) }
    ensures want { OnlyWant result }
{
    let mut lines = List::new(alloc);
    for request in lost {
        lines.push(Line::Ended {
            request: *request,
            word: EndWord::Restarted,
        })?;
    }
    Ok(lines)
}

// What an action answers.
fn words_of(how: LocalEnd) -> Words
    ensures { result ≡ told how }
{
    match how {
        LocalEnd::At(version) => Words::One(u64::from(version)),
        LocalEnd::Idle { read, ack_least } => Words::Idle(read, ack_least),
        LocalEnd::Worked { rows, blocks } => Words::Two(rows, blocks),
        LocalEnd::Repaired => Words::Empty,
        LocalEnd::Collected { begun, left } => Words::Two(begun, left),
    }
}
