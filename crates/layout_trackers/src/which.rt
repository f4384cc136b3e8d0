//! Which of the three trackers.

/// Which of the three trackers.
#[derive(Clone, Copy, Debug, PartialEq, Eq)]
pub enum Which {
    Ack,
    Sync,
    SyncAck,
}
