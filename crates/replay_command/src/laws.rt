//! What holds of the answers that are stated.
ghost use Rattle.std.specs.Prelude.{ℕ, List};
ghost use Rattle.lab_outside.specs.declared.exit.Status.{Status};
ghost use Rattle.lab_main.specs.Input.{OrTooLong};
ghost use Rattle.replay_run.specs.declared.account.Account.{Account};
ghost use Rattle.replay_command.specs.Answer.{IsAnswer};

use replay_run::every_replay_ends;
use schedule_text::every_text_reads;
use text_model::schedules_are_within_limits;

/// For each input an answer is stated: it is too long, or its text is a schedule, has a first bad line or too many events, and
/// a replay of each schedule has a stated end.
pub fn some_replay_is_stated()
    ensures { (account : Account) (input : List ℕ) → (status : Status) ×
        ((text : List ℕ) × OrTooLong (IsAnswer account) input status text) }
{
    every_text_reads();
    schedules_are_within_limits();
    every_replay_ends();
}
