//! What nodes do one after the other in a change of the layout.
ghost use Rattle.std.specs.Prelude.{◌≡◌, ◌≤◌, ◌-◌, ◌++◌, map, OnOk};
ghost use Rattle.std.specs.List.{range_with_len};
ghost use Rattle.crdt_core.specs.Outcomes.{OnlyWant};
ghost use Rattle.workload.specs.Duties.{duty_of};

use crdt_core::{List, Memory};
use store_model::Event;

/// What each of some nodes does.
#[derive(Clone, Copy)]
pub(crate) enum Duty {
    Restart,
    Ack,
    Sync,
    SyncAck,
    Clean,
    /// It sends node 1 its view.
    Tell,
    /// Node 1 sends it its view.
    Hear,
}

impl Duty {
    fn event(self, node: u8) -> Event
        ensures { result ≡ duty_of self node }
    {
        match self {
            Duty::Restart => Event::Restart(node),
            Duty::Ack => Event::Ack(node),
            Duty::Sync => Event::Sync(node),
            Duty::SyncAck => Event::SyncAck(node),
            Duty::Clean => Event::Clean(node),
            Duty::Tell => Event::Gossip { from: node, to: 1 },
            Duty::Hear => Event::Gossip { from: 1, to: node },
        }
    }
}

/// Adds the events by which each node from the first one to node 6 does this.
pub(crate) fn add_duties(events: &mut List<Event>, duty: Duty, first: u8) -> Result<(), Memory>
    requires node { first ≤ 7 }
    ensures ok { OnOk result (events.new ≡ events.old ++ map (duty_of duty)
        (range_with_len first (7 - first))) }
    ensures want { OnlyWant result }
{
    for node in first..7 {
        events.push(duty.event(node))?;
    }
    Ok(())
}
