//! What a line does, by its first word.
ghost use Rattle.std.specs.Prelude.{◌≡◌};
ghost use Rattle.schedule_text.specs.Reads.{Finds};
ghost use Rattle.schedule_text.specs.Kinds.{kind_text};

use crate::names::is;

/// What a line does, by its first word.
#[derive(Clone, Copy, Debug, PartialEq, Eq)]
pub(crate) enum Kind {
    Trio,
    Block,
    Bucket,
    Role,
    Redundancy,
    Apply,
    Tick,
    Skew,
    Put,
    Get,
    Head,
    Delete,
    Copy,
    List,
    Deliver,
    Lose,
    Drain,
    Expire,
    Restart,
    Gossip,
    Ack,
    Sync,
    SyncAck,
    Clean,
    Work,
    Repair,
    Collect,
}

pub(crate) fn kind_of(word: &[u8]) -> Option<Kind>
    ensures { Finds (λ kind. word.now ≡ kind_text kind) result }
{
    if is(word, b"trio") {
        Some(Kind::Trio)
    } else if is(word, b"block") {
        Some(Kind::Block)
    } else if is(word, b"bucket") {
        Some(Kind::Bucket)
    } else if is(word, b"role") {
        Some(Kind::Role)
    } else if is(word, b"redundancy") {
        Some(Kind::Redundancy)
    } else if is(word, b"apply") {
        Some(Kind::Apply)
    } else if is(word, b"tick") {
        Some(Kind::Tick)
    } else if is(word, b"skew") {
        Some(Kind::Skew)
    } else if is(word, b"put") {
        Some(Kind::Put)
    } else if is(word, b"get") {
        Some(Kind::Get)
    } else if is(word, b"head") {
        Some(Kind::Head)
    } else if is(word, b"delete") {
        Some(Kind::Delete)
    } else if is(word, b"copy") {
        Some(Kind::Copy)
    } else if is(word, b"list") {
        Some(Kind::List)
    } else if is(word, b"deliver") {
        Some(Kind::Deliver)
    } else if is(word, b"lose") {
        Some(Kind::Lose)
    } else if is(word, b"drain") {
        Some(Kind::Drain)
    } else if is(word, b"expire") {
        Some(Kind::Expire)
    } else if is(word, b"restart") {
        Some(Kind::Restart)
    } else if is(word, b"gossip") {
        Some(Kind::Gossip)
    } else if is(word, b"ack") {
        Some(Kind::Ack)
    } else if is(word, b"sync") {
        Some(Kind::Sync)
    } else if is(word, b"syncack") {
        Some(Kind::SyncAck)
    } else if is(word, b"clean") {
        Some(Kind::Clean)
    } else if is(word, b"work") {
        Some(Kind::Work)
    } else if is(word, b"repair") {
        Some(Kind::Repair)
    } else if is(word, b"collect") {
        Some(Kind::Collect)
    } else {
        None
    }
}
