//! What holds of the answers that are stated.
ghost use Rattle.std.specs.Prelude.{◌≤◌, ℕ, List};
ghost use Rattle.lab_outside.specs.declared.exit.Status.{Status};
ghost use Rattle.workload_run.specs.Answer.{IsAnswer};

use replay_run::every_replay_ends;

/// For each workload an answer is stated: its schedule is within the limits, and a replay of one has a stated end.
pub fn some_workload_is_stated()
    ensures { (count seed : ℕ) → count ≤ 100000 → (status : Status) ×
        ((text : List ℕ) × IsAnswer count seed status text) }
{
    every_replay_ends();
}
