//! Why a replay gave up.
ghost use Rattle.std.specs.Prelude.{◌≡◌};
ghost use Rattle.replay_command.specs.Stop.{stop_of_fault, stop_of_replay};

use replay_run::ReplayStop;
use schedule_text::ScheduleFault;

/// Why a replay gave up.
#[derive(Clone, Copy, Debug, PartialEq, Eq)]
pub enum Stop {
    /// A write failed.
    Write,
    /// Memory was refused.
    Memory,
    /// The input has more events than a schedule may have.
    TooManyEvents,
    /// The first line outside the grammar, counted from 1.
    BadLine(u64),
    /// After the next event a number would not fit its type, or after the last one a node has a row without a spelling.
    /// No schedule brings it (`no_replay_lacks_room` of replay_run).
    Number,
    /// With the next event more bytes were sent than may be.
    Sent,
}

impl From<ScheduleFault> for Stop {
    ghost from_gives = { λ why stop. stop ≡ stop_of_fault why };

    fn from(fault: ScheduleFault) -> Stop {
        match fault {
            ScheduleFault::BadLine(line) => Stop::BadLine(line),
            ScheduleFault::TooManyEvents => Stop::TooManyEvents,
            ScheduleFault::Memory => Stop::Memory,
        }
    }
}

impl From<ReplayStop> for Stop {
    ghost from_gives = { λ why stop. stop ≡ stop_of_replay why };

    fn from(stop: ReplayStop) -> Stop {
        match stop {
            ReplayStop::Write => Stop::Write,
            ReplayStop::Memory => Stop::Memory,
            ReplayStop::Number => Stop::Number,
            ReplayStop::Sent => Stop::Sent,
        }
    }
}
