//! What a node sends.
ghost use Rattle.std.specs.Prelude.{◌≡◌, [], ◌∷◌, IfOk, OnOk};
ghost use Rattle.crdt_core.specs.Outcomes.{OnlyWant};
ghost use Rattle.cluster_machine.specs.Phases.{to_each};
ghost use Rattle.node_parts.specs.Posts.{Posts};

use crate::packet::{Envelope, Packet};
use block_bytes::Block;
use crdt_core::Memory;
use shared_value::Shared;
use wire_messages::Message;

/// The same block for another owner, if there is one.
pub fn share_block(block: &Option<Block>) -> Result<Option<Block>, Memory>
    ensures same { IfOk result (λ shared. shared ≡ block.now) }
    ensures want { OnlyWant result }
{
    match block {
        Some(block) => Ok(Some(block.share()?)),
        None => Ok(None),
    }
}

/// Sends a message from a node to another.
pub fn send<R: Drop>(
    out: &mut Vec<Envelope<R>>,
    from: u8,
    to: u8,
    message: Message<R>,
) -> Result<(), Memory>
    ensures sent { OnOk result (Posts from out.old.items out.new.items
        (to_each (to ∷ []) message)) }
    ensures want { OnlyWant result }
{
    let message = Shared::new(*out.allocator(), message)?;
    post(out, from, to, message)
}

// Sends a message that others may have been sent.
fn post<R: Drop>(
    out: &mut Vec<Envelope<R>>,
    from: u8,
    to: u8,
    message: Shared<Message<R>>,
) -> Result<(), Memory>
    ensures sent { OnOk result (Posts from out.old.items out.new.items
        (to_each (to ∷ []) message)) }
    ensures want { OnlyWant result }
{
    out.push(Envelope {
        from,
        to,
        packet: Packet::Msg(message),
    })?;
    Ok(())
}

/// Sends a message from a node to each of these, who share it.
pub fn send_each<R: Drop>(
    out: &mut Vec<Envelope<R>>,
    from: u8,
    nodes: &[u8],
    message: Message<R>,
) -> Result<(), Memory>
    ensures sent { OnOk result (Posts from out.old.items out.new.items
        (to_each nodes.now message)) }
    ensures want { OnlyWant result }
{
    let message = Shared::new(*out.allocator(), message)?;
    share_with(out, from, nodes, &message)
}

fn share_with<R: Drop>(
    out: &mut Vec<Envelope<R>>,
    from: u8,
    nodes: &[u8],
    message: &Shared<Message<R>>,
) -> Result<(), Memory>
    ensures sent { OnOk result (Posts from out.old.items out.new.items
        (to_each nodes.now message.now)) }
    ensures want { OnlyWant result }
{
    for to in nodes {
        post(out, from, *to, message.share()?)?;
    }
    Ok(())
}
