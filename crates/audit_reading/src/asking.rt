//! What the events of a schedule ask, where they are requests, and what the others may answer.
ghost use Rattle.std.specs.Prelude.{◌≡◌, option_map, IfOk};
ghost use Rattle.crdt_core.specs.Outcomes.{OnlyWant};
ghost use Rattle.history_model.specs.declared.record.Record.TheVariants.{Began};
ghost use Rattle.audit_model.specs.Heard.{asking_of, is_answer};
ghost use Rattle.audit_reading.specs.Kept.{asked};

use cluster_machine::Words;
use crdt_core::{Bytes, Memory, Value};
use history_model::{Kind, Record};
use store_model::Event;

/// What a request asks, and of which key; a list's key is its prefix, a copy's its destination.
#[derive(Clone, Copy)]
pub struct Asking<'a> {
    pub node: u8,
    pub kind: Kind,
    pub bucket: &'a Bytes,
    pub key: &'a Bytes,
}

/// What an event asks, where it is a request.
pub fn asking_of(event: &Event) -> Option<Asking<'_>>
    ensures { option_map asked result ≡ asking_of event.now }
{
    let (node, kind, bucket, key) = match event {
        Event::Put {
            node,
            bucket,
            key,
            ..
        } => (*node, Kind::Put, bucket, key),
        Event::Get { node, bucket, key } => (*node, Kind::Get, bucket, key),
        Event::Head { node, bucket, key } => (*node, Kind::Head, bucket, key),
        Event::Delete { node, bucket, key } => (*node, Kind::Delete, bucket, key),
        Event::Copy {
            node,
            bucket,
            key,
            ..
        } => (*node, Kind::Copy, bucket, key),
        Event::List {
            node,
            bucket,
            prefix,
        } => (*node, Kind::List, bucket, prefix),
        _ => return None,
    };
    Some(Asking {
        node,
        kind,
        bucket,
        key,
    })
}

impl Asking<'_> {
    /// The record that a request with this number began.
    pub fn began(&self, request: u64) -> Result<Record, Memory>
        ensures began { IfOk result
            (λ began. began ≡
            Began request self.now.node self.now.kind self.now.bucket.now self.now.key.now) }
        ensures want { OnlyWant result }
    {
        Ok(Record::Began {
            request,
            node: self.node,
            kind: self.kind,
            bucket: self.bucket.copy()?,
            key: self.key.copy()?,
        })
    }
}

/// Whether an accepted event that begins no request may answer with these words.
pub fn is_answer(event: &Event, words: Words) -> bool
    ensures { result ≡ is_answer event.now words }
{
    match event {
        Event::Apply(_) | Event::Ack(_) | Event::SyncAck(_) | Event::Clean(_) => {
            matches!(words, Words::One(_))
        }
        Event::Sync(_) => matches!(words, Words::One(_) | Words::Idle(_, _)),
        Event::Work(_) | Event::Collect(_) => matches!(words, Words::Two(_, _)),
        _ => matches!(words, Words::Empty),
    }
}
