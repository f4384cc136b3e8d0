//! What holds of the answers that are stated.
ghost use Rattle.std.specs.Prelude.{ℕ, List};
ghost use Rattle.lab_outside.specs.declared.exit.Status.{Status};
ghost use Rattle.lab_main.specs.Input.{OrTooLong};
ghost use Rattle.k2v_api.specs.Answer.{IsAnswer};

use k2v_limits::item_schedules_are_within_limits;
use k2v_replay::every_item_replay_ends;
use k2v_text::every_item_text_reads;

/// For each input an answer is stated: it is too long, or its text is a schedule, has a first bad line or too many events, and
/// a replay of each schedule has a stated end.
pub fn some_item_replay_is_stated()
    ensures { (input : List ℕ) → (status : Status) ×
        ((text : List ℕ) × OrTooLong IsAnswer input status text) }
{
    every_item_text_reads();
    item_schedules_are_within_limits();
    every_item_replay_ends();
}
