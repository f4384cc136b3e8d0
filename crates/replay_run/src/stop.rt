//! Why a replay gave up.
ghost use Rattle.std.specs.Prelude.{◌≡◌};
ghost use Rattle.replay_run.specs.Stop.{stop_of_memory};

use lab_outside::Failed;

/// Why a replay gave up.
#[derive(Clone, Copy, Debug, PartialEq, Eq)]
pub enum ReplayStop {
    /// A write failed.
    Write,
    /// Memory was refused.
    Memory,
    /// After the next step a number or row would not fit, or after the last one a node has a row without a spelling.
    Number,
    /// With the next step more bytes were sent than may be.
    Sent,
}

impl From<Failed> for ReplayStop {
    ghost use Rattle.replay_run.specs.declared.stop.ReplayStop.TheVariants.{Write};

    ghost from_gives = { λ _ stop. stop ≡ Write };

    fn from(_: Failed) -> ReplayStop {
        ReplayStop::Write
    }
}

impl From<crdt_core::Memory> for ReplayStop {
    ghost from_gives = { λ why stop. stop ≡ stop_of_memory why };

    fn from(why: crdt_core::Memory) -> ReplayStop {
        match why {
            crdt_core::Memory::Want => ReplayStop::Memory,
            crdt_core::Memory::Full => ReplayStop::Number,
        }
    }
}
