//! The schedule that an input spells.
ghost use Rattle.std.specs.Prelude.{◌≡◌, ℕ, Err, IfOk, IfErr};
ghost use Rattle.std.specs.List.{All};
ghost use Rattle.text_model.specs.Reading.{IsSchedule, IsFirstBadLine, HasTooManyEvents};
ghost use Rattle.s3_world.specs.Stands.{IsMeantEvent};
ghost use Rattle.replay_command.specs.Stop.{IsOfSchedule};

use crate::stop::Stop;
use crdt_core::List;
use schedule_text::{Numbered, parse};
use std::alloc::Global;

/// The events of the schedule that a text spells.
pub fn schedule_of(alloc: Global, text: &[u8]) -> Result<List<Numbered>, Stop>
    ensures schedule { IfOk result (IsSchedule text.now) }
    ensures meant { IfOk result (λ events. All (λ e. IsMeantEvent e.event) events) }
    ensures bad_line { (n : ℕ) → result ≡ Err (Stop.BadLine n) → IsFirstBadLine text.now n }
    ensures many_events { result ≡ Err Stop.TooManyEvents → HasTooManyEvents text.now }
    ensures causes { IfErr result IsOfSchedule }
{
    let events = parse(alloc, text)?;
    Ok(events)
}
