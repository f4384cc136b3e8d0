//! What the lines of a transcript told so far.
use crate::arrows::{draw_arrow, draw_waiting};
use crate::fault::Fault;
use crate::line::{Line, is_request};
use crate::marks::{draw_band, draw_note, draw_request};
use crate::pieces::{Piece, add, add_all};
use crate::plan::Plan;
use crdt_core::{Bytes, Memory};
use std::alloc::Global;

/// A message that was sent.
#[derive(Clone, Copy)]
pub(crate) struct Message<'a> {
    pub(crate) number: u64,
    pub(crate) kind: &'a str,
    pub(crate) from: u64,
    pub(crate) to: u64,
    /// Where it was sent.
    pub(crate) row: u64,
    /// The request that it was sent for, 0 for none.
    pub(crate) request: u64,
    pub(crate) has_come: bool,
    /// Where it was lost, 0 where that isn't known.
    pub(crate) lost: u64,
}

/// A message that came at a row.
#[derive(Clone, Copy)]
pub(crate) struct Arrival<'a> {
    pub(crate) message: Message<'a>,
    pub(crate) row: u64,
}

/// A request that began.
#[derive(Clone, Copy)]
pub(crate) struct Request<'a> {
    pub(crate) kind: &'a str,
    /// The node that coordinates it, 0 where that isn't known.
    pub(crate) node: u64,
    pub(crate) begin: u64,
    /// Where it ended, 0 where it didn't.
    pub(crate) end: u64,
    /// The line that tells its end.
    pub(crate) text: &'a str,
    pub(crate) word: &'a str,
    pub(crate) answer: &'a str,
    pub(crate) is_answered: bool,
}

/// A line that stands beside the lanes, or at its node's one.
#[derive(Clone, Copy)]
pub(crate) struct Note<'a> {
    pub(crate) text: &'a str,
    /// The event's name; none for what isn't one.
    pub(crate) name: &'a str,
    /// The number in its answer or of what it names, 0 for none.
    pub(crate) number: u64,
    pub(crate) is_refused: bool,
    pub(crate) row: u64,
    pub(crate) request: u64,
    pub(crate) node: u64,
}

/// What a check of the reads found.
#[derive(Clone, Copy)]
struct Check {
    is_fresh: bool,
    /// How many pairs of a read and a write before it were looked at.
    pairs: u64,
}

/// The version since a row, 0 where there is none: of a node's own sync, or of the layout.
#[derive(Clone, Copy)]
pub(crate) struct Since {
    pub(crate) version: u64,
    pub(crate) row: u64,
}

/// What the lines of a transcript told so far.
#[derive(Drop)]
pub(crate) struct Scene<'a> {
    /// The row of the last line that has one, from 1.
    row: u64,
    /// The request for which messages are sent, 0 for none.
    request: u64,
    /// Whether no message came since the last event: what is sent then is sent by the event's node.
    is_acting: bool,
    /// The greatest node.
    nodes: u64,
    messages: Vec<Message<'a>>,
    arrivals: Vec<Arrival<'a>>,
    requests: Vec<Request<'a>>,
    notes: Vec<Note<'a>>,
    /// What the schedule's lines say of their events, where it stands before.
    plans: Vec<Plan>,
    /// Whether a line of the transcript was taken.
    has_begun: bool,
    /// The last line that told of something else than a layout or a list.
    before: &'a str,
    check: Option<Check>,
    /// At 0 that of the layout, at N that of node N.
    versions: [Since; 17],
    pub(crate) bands: Bytes,
    /// The lines of layouts and lists.
    pub(crate) apart: Bytes,
    /// The lines after the last event.
    pub(crate) last: Bytes,
}

/// Where row `row` is.
pub(crate) fn y_of(row: u64) -> u64 {
    row.saturating_mul(14).saturating_add(30)
}

/// Where the lane of a node is.
pub(crate) fn x_of(node: u64) -> u64 {
    node.saturating_mul(130).saturating_add(170)
}

impl<'a> Scene<'a> {
    pub(crate) fn new(alloc: Global) -> Scene<'a> {
        Scene {
            row: 0,
            request: 0,
            is_acting: false,
            nodes: 1,
            messages: Vec::new(alloc),
            arrivals: Vec::new(alloc),
            requests: Vec::new(alloc),
            notes: Vec::new(alloc),
            plans: Vec::new(alloc),
            has_begun: false,
            before: "",
            check: None,
            versions: [Since { version: 0, row: 0 }; 17],
            bands: Bytes::new(alloc),
            apart: Bytes::new(alloc),
            last: Bytes::new(alloc),
        }
    }

    /// The last row.
    pub(crate) fn rows(&self) -> u64 {
        self.row
    }

    /// The greatest node that sent or got something, or raised its sync.
    pub(crate) fn nodes(&self) -> u64 {
        self.nodes
    }

    fn go_down(&mut self) {
        self.row = self.row.saturating_add(1);
    }

    fn note(
        &mut self,
        text: &'a str,
        name: &'a str,
        number: u64,
        request: u64,
        node: u64,
    ) -> Result<(), Fault> {
        self.go_down();
        let row = self.row;
        self.notes.push(Note {
            text,
            name,
            number,
            is_refused: false,
            row,
            request,
            node,
        })?;
        Ok(())
    }

    /// The place of a message or request in its list.
    fn place_of(number: u64) -> Result<usize, Fault> {
        let place = number.checked_sub(1).ok_or(Fault::Bad)?;
        Ok(place as usize)
    }

    fn message(&mut self, number: u64) -> Result<&mut Message<'a>, Fault> {
        let place = Scene::place_of(number)?;
        self.messages.get_mut(place).ok_or(Fault::Bad)
    }

    fn request(&mut self, number: u64) -> Result<&mut Request<'a>, Fault> {
        let place = Scene::place_of(number)?;
        self.requests.get_mut(place).ok_or(Fault::Bad)
    }

    /// A version begins, at a node or, for 0, of the layout: the band of the one before ends.
    fn begin_version(&mut self, node: u64, version: u64) -> Result<(), Fault> {
        let row = self.row;
        let since = self.versions.get_mut(node as usize).ok_or(Fault::Bad)?;
        let before = *since;
        *since = Since { version, row };
        draw_band(&mut self.bands, node, before, row)?;
        Ok(())
    }

    fn begin_request(&mut self, kind: &'a str, number: u64, node: u64) -> Result<(), Fault> {
        if self.requests.len() as u64 != number.saturating_sub(1) {
            return Err(Fault::Bad);
        }
        self.request = number;
        let begin = self.row;
        self.requests.push(Request {
            kind,
            node,
            begin,
            end: 0,
            text: "",
            word: "",
            answer: "",
            is_answered: false,
        })?;
        Ok(())
    }

    /// What the schedule says of its line with this number.
    fn plan_of(&self, line: u64) -> Plan {
        let place = line.saturating_sub(1) as usize;
        match self.plans.get(place) {
            Some(plan) => *plan,
            None => Plan {
                node: 0,
                message: 0,
                request: 0,
            },
        }
    }

    /// Whether the lines so far were a schedule's.
    pub(crate) fn is_before_transcript(&self) -> bool {
        !self.has_begun
    }

    /// Adds what a line of the schedule says of its event.
    pub(crate) fn expect(&mut self, plan: Plan) -> Result<(), Fault> {
        self.plans.push(plan)?;
        Ok(())
    }

    /// The node that the plan names, or that of the message or request that it names.
    fn node_of(&mut self, plan: &Plan) -> u64 {
        if plan.node > 0 {
            return plan.node;
        }
        if let Ok(message) = self.message(plan.message) {
            return message.to;
        }
        if let Ok(request) = self.request(plan.request) {
            return request.node;
        }
        0
    }

    fn event(
        &mut self,
        text: &'a str,
        line: u64,
        name: &'a str,
        is_done: bool,
        number: u64,
    ) -> Result<(), Fault> {
        let begins = number > 0 && is_request(name);
        let plan = self.plan_of(line);
        let node = self.node_of(&plan);
        self.nodes = self.nodes.max(node);
        let shown = number.max(plan.message).max(plan.request);
        self.note(text, name, shown, if begins { number } else { 0 }, node)?;
        self.request = 0;
        self.is_acting = true;
        if begins {
            self.begin_request(name, number, node)?;
        }
        if name == "apply" && number > 0 {
            self.begin_version(0, number)?;
        }
        if name == "trio" && is_done {
            self.begin_version(0, 1)?;
        }
        if name == "lose" && is_done {
            self.lose(plan.message);
        }
        if !is_done {
            self.refuse_last();
        }
        Ok(())
    }

    /// The event of the last line was refused.
    fn refuse_last(&mut self) {
        if let Some(note) = self.notes.last_mut() {
            note.is_refused = true;
        }
    }

    /// A message was lost at this row.
    fn lose(&mut self, number: u64) {
        let row = self.row;
        if let Ok(message) = self.message(number) {
            message.lost = row;
        }
    }

    fn got(&mut self, number: u64) -> Result<(), Fault> {
        self.go_down();
        let row = self.row;
        let message = self.message(number)?;
        let known = *message;
        message.has_come = true;
        self.request = known.request;
        self.is_acting = false;
        self.arrivals.push(Arrival {
            message: known,
            row,
        })?;
        Ok(())
    }

    /// The node of the last line, where that was an event whose node wasn't known.
    fn know_last(&mut self, node: u64) {
        if let Some(note) = self.notes.last_mut() {
            note.node = node;
        }
    }

    /// The event's node is known once it sends.
    fn know_node(&mut self, node: u64) {
        self.nodes = self.nodes.max(node);
        if !self.is_acting {
            return;
        }
        self.know_last(node);
        if let Ok(request) = self.request(self.request) {
            request.node = node;
        }
    }

    fn sent(&mut self, number: u64, kind: &'a str, from: u64, to: u64) -> Result<(), Fault> {
        if self.messages.len() as u64 != number.saturating_sub(1) || number == 0 {
            return Err(Fault::Bad);
        }
        self.know_node(from);
        self.nodes = self.nodes.max(to);
        let (row, request) = (self.row, self.request);
        self.messages.push(Message {
            number,
            kind,
            from,
            to,
            row,
            request,
            has_come: false,
            lost: 0,
        })?;
        Ok(())
    }

    fn synced(&mut self, text: &'a str, node: u64, version: u64) -> Result<(), Fault> {
        self.nodes = self.nodes.max(node);
        self.note(text, "synced", version, 0, node)?;
        self.begin_version(node, version)
    }

    fn ended(
        &mut self,
        text: &'a str,
        number: u64,
        word: &'a str,
        answer: &'a str,
        is_answered: bool,
    ) -> Result<(), Fault> {
        let node = self.request(number)?.node;
        if self.is_acting && self.is_last_unknown() {
            self.know_last(node);
        }
        self.note(text, "", 0, number, node)?;
        let row = self.row;
        let request = self.request(number)?;
        request.end = row;
        request.text = text;
        request.word = word;
        request.answer = answer;
        request.is_answered = is_answered;
        Ok(())
    }

    /// Whether the last line was one of an event whose node isn't known.
    fn is_last_unknown(&self) -> bool {
        match self.notes.last() {
            Some(note) => note.node == 0 && !note.name.is_empty(),
            None => false,
        }
    }

    /// Adds a line of a layout or a list, under the line that it belongs to.
    fn put_apart(&mut self, text: &'a str) -> Result<(), Fault> {
        if !self.before.is_empty() {
            let before = self.before;
            add_all(&mut self.apart, &[Piece::Word(before), Piece::Text("\n")])?;
            self.before = "";
        }
        add_all(
            &mut self.apart,
            &[Piece::Text("  "), Piece::Word(text), Piece::Text("\n")],
        )?;
        Ok(())
    }

    fn end_line(&mut self, text: &'a str) -> Result<(), Fault> {
        add_all(&mut self.last, &[Piece::Word(text), Piece::Text("\n")])?;
        Ok(())
    }

    /// Adds what a line with this text tells.
    pub(crate) fn take(&mut self, text: &'a str, line: Line<'a>) -> Result<(), Fault> {
        self.has_begun = true;
        if let Line::Other = line {
            return self.put_apart(text);
        }
        self.before = text;
        match line {
            Line::Event {
                line,
                name,
                is_done,
                number,
            } => self.event(text, line, name, is_done, number),
            Line::Got(number) => self.got(number),
            Line::Sent {
                message,
                kind,
                from,
                to,
            } => self.sent(message, kind, from, to),
            Line::Synced { node, version } => self.synced(text, node, version),
            Line::Ended {
                request,
                word,
                answer,
                is_answered,
            } => self.ended(text, request, word, answer, is_answered),
            Line::Check { is_fresh, pairs } => {
                self.check = Some(Check { is_fresh, pairs });
                self.end_line(text)
            }
            Line::Other | Line::Last => self.end_line(text),
        }
    }

    /// How many requests finished with an answer, and how many ended without one.
    fn ends(&self) -> (u64, u64) {
        let mut answered = 0u64;
        let mut broken = 0u64;
        for request in self.requests.iter() {
            if request.is_answered {
                answered = answered.saturating_add(1);
            } else if request.end > 0 {
                broken = broken.saturating_add(1);
            }
        }
        (answered, broken)
    }

    /// Says in a sentence what is drawn, and in another what the check found.
    pub(crate) fn describe(&self, page: &mut Bytes) -> Result<(), Memory> {
        let requests = self.requests.len() as u64;
        let (answered, broken) = self.ends();
        add_all(
            page,
            &[
                Piece::Text("<p>Requests: "),
                Piece::Amount(requests),
                Piece::Text(" ("),
                Piece::Amount(answered),
                Piece::Text(" answered, "),
                Piece::Amount(broken),
                Piece::Text(" ended without an answer, "),
                Piece::Amount(requests.saturating_sub(answered).saturating_sub(broken)),
                Piece::Text(" open). Messages: "),
                Piece::Amount(self.messages.len() as u64),
                Piece::Text(". Nodes: "),
                Piece::Amount(self.nodes),
                Piece::Text(
                    ". Time goes down; each node has a lane, arrows are messages from where they were sent to where they came, and bars are requests with their answers.</p>\n",
                ),
            ],
        )?;
        match self.check {
            Some(check) => describe_check(page, check),
            None => add(
                page,
                Piece::Text(
                    "<p>Whether its reads are fresh was not looked at here; <code>replay --check</code> does.</p>\n",
                ),
            ),
        }
    }

    /// Ends the bands of the versions that go on to the end.
    pub(crate) fn end_bands(&mut self) -> Result<(), Memory> {
        let end = self.row.saturating_add(1);
        let mut node = 0u64;
        for since in self.versions.iter() {
            draw_band(&mut self.bands, node, *since, end)?;
            node = node.saturating_add(1);
        }
        Ok(())
    }

    /// Draws the messages: those that came, then those that never did.
    pub(crate) fn draw_messages(&self, page: &mut Bytes) -> Result<(), Memory> {
        let arrivals = self.arrivals.as_slice();
        for (place, arrow) in arrivals.iter().enumerate() {
            draw_arrow(page, arrivals, place, arrow)?;
        }
        for message in self.messages.iter() {
            if !message.has_come {
                draw_waiting(page, message)?;
            }
        }
        Ok(())
    }

    /// Draws the requests, in the lanes of their nodes.
    pub(crate) fn draw_requests(&self, page: &mut Bytes) -> Result<(), Memory> {
        let mut number = 0u64;
        for request in self.requests.iter() {
            number = number.saturating_add(1);
            draw_request(page, request, number, self.row)?;
        }
        Ok(())
    }

    /// Writes the lines that stand beside the lanes, and the events at their nodes' lanes.
    pub(crate) fn draw_notes(&self, page: &mut Bytes) -> Result<(), Memory> {
        for note in self.notes.iter() {
            draw_note(page, note)?;
        }
        Ok(())
    }
}

/// Says what a check found.
fn describe_check(page: &mut Bytes, check: Check) -> Result<(), Memory> {
    add_all(
        page,
        &[
            Piece::Text(if check.is_fresh {
                "<p><b>fresh "
            } else {
                "<p><b>stale "
            }),
            Piece::Number(check.pairs),
            Piece::Text(if check.is_fresh {
                "</b>: all answered reads are fresh by the records of this run. "
            } else {
                "</b>: some answered read isn't fresh by the records of this run. "
            }),
            Piece::Text("Pairs of a read and a write acknowledged before it that were looked at: "),
            Piece::Amount(check.pairs),
            Piece::Text(".</p>\n"),
        ],
    )
}

/// The classes by which the filter finds what belongs to a request and to nodes.
pub(crate) fn add_classes(page: &mut Bytes, request: u64, a: u64, b: u64) -> Result<(), Memory> {
    if request > 0 {
        add_all(page, &[Piece::Text(" r"), Piece::Number(request)])?;
    }
    if a > 0 {
        add_all(page, &[Piece::Text(" n"), Piece::Number(a)])?;
    }
    if b > 0 && b != a {
        add_all(page, &[Piece::Text(" n"), Piece::Number(b)])?;
    }
    Ok(())
}
