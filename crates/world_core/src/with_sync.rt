//! What a node answers, beside its sync entry.
use wire_messages::PhaseEnd;

/// What a node answers when it does something, and its own sync entry before and after.
#[derive(Drop)]
pub struct WithSync<T> {
    pub answer: T,
    pub before: u32,
    pub after: u32,
}

/// What came of a packet: how a phase of a request ended, and the delete marker of the row that was dropped, where so.
#[derive(Drop)]
pub struct Received<R> {
    pub ended: Option<(u64, PhaseEnd<R>)>,
    pub dropped: Option<(u64, u64)>,
}
