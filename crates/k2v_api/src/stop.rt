//! Why a replay gave up.
ghost use Rattle.std.specs.Prelude.{◌≡◌};

use lab_outside::Failed;
use schedule_text::ScheduleFault;

/// Why a replay gave up.
#[derive(Clone, Copy, Debug, PartialEq, Eq)]
pub enum Stop {
    /// A write failed.
    Write,
    /// Memory was refused.
    Memory,
    /// The input has more events than a schedule may have.
    TooManyEvents,
    /// The first line outside the grammar, counted from 1.
    BadLine(u64),
    /// After the next step a number or row would not fit, or after the last one a node has a row without a spelling.
    /// No schedule brings it (`no_item_replay_lacks_room` of k2v_replay).
    Number,
    /// With the next step more bytes were sent than may be.
    Sent,
}

impl From<Failed> for Stop {
    ghost use Rattle.k2v_api.specs.declared.stop.Stop.TheVariants.{Write};

    ghost from_gives = { λ _ stop. stop ≡ Write };

    fn from(_: Failed) -> Stop {
        Stop::Write
    }
}

impl From<crdt_core::Memory> for Stop {
    ghost use Rattle.k2v_api.specs.Stop.{stop_of_memory};

    ghost from_gives = { λ why stop. stop ≡ stop_of_memory why };

    fn from(why: crdt_core::Memory) -> Stop {
        match why {
            crdt_core::Memory::Want => Stop::Memory,
            crdt_core::Memory::Full => Stop::Number,
        }
    }
}

impl From<ScheduleFault> for Stop {
    ghost use Rattle.k2v_api.specs.Stop.{stop_of_fault};

    ghost from_gives = { λ why stop. stop ≡ stop_of_fault why };

    fn from(fault: ScheduleFault) -> Stop {
        match fault {
            ScheduleFault::BadLine(line) => Stop::BadLine(line),
            ScheduleFault::TooManyEvents => Stop::TooManyEvents,
            ScheduleFault::Memory => Stop::Memory,
        }
    }
}
