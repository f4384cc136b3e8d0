//! What travels between nodes.
use layout_history::View;
use shared_value::Shared;
use wire_messages::Message;

/// A message, which all whom it is sent to share, or a whole view.
#[derive(Drop)]
pub enum Packet<R> {
    Msg(Shared<Message<R>>),
    View(Shared<View>),
}

/// A packet on its way. Nodes are 1 to 16.
#[derive(Drop)]
pub struct Envelope<R> {
    pub from: u8,
    pub to: u8,
    pub packet: Packet<R>,
}
