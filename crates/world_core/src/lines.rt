//! The kind of a message, and the lines of a sync and of a row that was dropped.
ghost use Rattle.std.specs.Prelude.{◌≡◌, ◌++◌, [], ◌∷◌, cond, leb, OnOk};
ghost use Rattle.crdt_core.specs.Outcomes.{OnlyWant};
ghost use Rattle.cluster_machine.specs.declared.line.Line.TheVariants.{Synced};
ghost use Rattle.cluster_machine.specs.Step.{dropped_line};
ghost use Rattle.world_core.specs.Parts.{kind_of};

use cluster_machine::SentKind;
use cluster_machine::applied::Line;
use crdt_core::{List, Memory};
use node_core::Packet;
use wire_messages::Message;

/// The kind of a packet.
pub fn kind<R>(packet: &Packet<R>) -> SentKind
    ensures { result ≡ kind_of packet.now }
{
    match packet {
        Packet::View(_) => SentKind::View,
        Packet::Msg(message) => match message.get() {
            Message::Get { .. } => SentKind::Get,
            Message::Row { .. } => SentKind::Row,
            Message::Range { .. } => SentKind::Range,
            Message::Rows { .. } => SentKind::Rows,
            Message::Store { .. } => SentKind::Store,
            Message::Stored(_) => SentKind::Stored,
            Message::Behind(_, _) => SentKind::Behind,
            Message::NotHere(_) => SentKind::NotHere,
            Message::BlockGet { .. } => SentKind::BlockGet,
            Message::Block { .. } => SentKind::Block,
            Message::NoBlock { .. } => SentKind::NoBlock,
            Message::Walk { .. } => SentKind::Walk,
            Message::Same { .. } => SentKind::Same,
            Message::Differ { .. } => SentKind::Differ,
            Message::Tomb { .. } => SentKind::Tomb,
            Message::Tombed { .. } => SentKind::Tombed,
            Message::Forget { .. } => SentKind::Forget,
        },
    }
}

/// Says that a node dropped a row with this delete marker, where it did.
pub fn push_dropped(
    lines: &mut List<Line>,
    node: u8,
    dropped: Option<(u64, u64)>,
) -> Result<(), Memory>
    ensures pushed { OnOk result (lines.new ≡ lines.old ++ dropped_line node dropped) }
    ensures want { OnlyWant result }
{
    if let Some((ts, id)) = dropped {
        lines.push(Line::Dropped { node, ts, id })?;
    }
    Ok(())
}

/// Says that a node raised its own sync, where it rose.
pub fn push_synced(lines: &mut List<Line>, node: u8, before: u32, after: u32) -> Result<(), Memory>
    ensures pushed { OnOk result (lines.new ≡ lines.old ++ cond (leb after before) []
        (Synced node after ∷ [])) }
    ensures want { OnlyWant result }
{
    if before < after {
        lines.push(Line::Synced(node, after))?;
    }
    Ok(())
}
