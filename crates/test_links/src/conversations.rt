//! Conversations with a server over two connections, of whose calls each fails in turn. Both connections have the same
//! requests, whose answers are the same whatever came of the first: it puts what it reads.
use crate::faulty::{Call, Fault, FaultyLink};
use crate::server::{Ended, served_with};
use crdt_core::Memory;
use lab_outside::Status;
use serve_run::Server;
use std::alloc::Global;

/// A server of both connections.
const TWO_CONNECTIONS: Server = Server {
    port: 3900,
    count: 2,
};

/// What a server's lines begin with whose layout stays.
pub const ONE_LAYOUT: &[u8] = b"p 0 255 1 2 3\nnode 1 rows ";

/// How a server is configured, what it is asked over each connection and answers there, how many bytes a read gives, and what
/// its lines begin with once a connection was served whole.
#[derive(Drop)]
pub struct Conversation {
    pub configuration: Vec<u8>,
    pub asks: Vec<u8>,
    pub answers: Vec<u8>,
    pub size: usize,
    pub lines: &'static [u8],
}

/// How a server of both connections ended, of whose calls this one fails, and its link then.
fn tried(alloc: Global, it: &Conversation, fault: Fault) -> Result<(Ended, FaultyLink), Memory> {
    let mut link = FaultyLink::new(alloc, &it.asks, it.size, fault)?;
    let end = served_with(alloc, &it.configuration, TWO_CONNECTIONS, &mut link)?;
    Ok((end, link))
}

/// Whether a server that couldn't wait for a connection says nothing, and has answered those before.
fn is_stopped(it: &Conversation, end: &Ended, link: &FaultyLink) -> bool {
    let answers: &[u8] = if link.is_first_whole() {
        &it.answers
    } else {
        b""
    };
    end.status == Status::LinkFault
        && end.output.is_empty()
        && link.written() == answers
        && link.written_later().is_empty()
}

/// Whether a server went on to its end. The connection whose call failed has a first part of the answers and was let alone
/// then, and the other one has them all.
fn is_served(it: &Conversation, end: &Ended, link: &FaultyLink) -> bool {
    let (cut, whole) = if link.is_first_whole() {
        (link.written_later(), link.written())
    } else {
        (link.written(), link.written_later())
    };
    end.status == Status::Done
        && end.output.starts_with(it.lines)
        && whole == it.answers.as_slice()
        && it.answers.starts_with(cut)
        && (link.has_failed() || cut == it.answers.as_slice())
        && !link.goes_on()
}

/// Which call of this kind is the first that no longer fails or after which a server doesn't go on as it should, and whether
/// it does after that one too. Two hundred calls are too many.
fn outcome(alloc: Global, it: &Conversation, call: Call) -> Result<(u64, bool), Memory> {
    for number in 1..=200 {
        let (end, link) = tried(alloc, it, Fault { call, number })?;
        let is_wait = call == Call::Open || call == Call::Next;
        let is_right = if is_wait && link.has_failed() {
            is_stopped(it, &end, &link)
        } else {
            is_served(it, &end, &link)
        };
        if !is_right || !link.has_failed() {
            return Ok((number, is_right));
        }
    }
    Ok((200, false))
}

/// Whether the server goes on as it should whichever call fails: the port is opened once, two connections are waited for, each
/// is read to its end, and so many writes are made to it.
pub fn goes_on(alloc: Global, it: &Conversation, writes: u64) -> Result<bool, Memory> {
    let (reads, is_right) = outcome(alloc, it, Call::Read)?;
    Ok(
        outcome(alloc, it, Call::Open)? == (2, true)
            && outcome(alloc, it, Call::Next)? == (3, true)
            && outcome(alloc, it, Call::Write)?
                == (writes.saturating_mul(2).saturating_add(1), true)
            && is_right
            && reads > 4,
    )
}
