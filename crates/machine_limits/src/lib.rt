//! Within which limits a world stays, whatever its rows are, as long as they are bounded. No body does more than name laws:
//! it is called for its contract.
//!
//! Rows are bounded (`AreBounded`) where each has a spelling and a merge counts no more bytes than both rows. Then a run of
//! steps that ask for little, and deliver and send few bytes, comes to no number, count or row without a place in the code.
#![tactic(auto)]

ghost use Rattle.std.specs.Prelude.{◌≤◌, ℕ, Bool, IsTrue, length, List};
ghost use Rattle.table_schema.specs.Words.{Words};
ghost use Rattle.cluster_machine.specs.World.{empty};
ghost use Rattle.cluster_machine.specs.Worlds.{Doing, HaveRoom};
ghost use Rattle.machine_limits.specs.Bounds.{AreBounded};
ghost use Rattle.machine_limits.specs.Run.{AreSmall};

use world_laws::{empty_world_is_sound, sound_worlds_stay_sound};

/// Where rows are bounded, each of at most 16,777,216 small steps has room: what it does fits the numbers of the code, and each
/// row that it sends or queues has a spelling.
pub fn small_runs_have_room<R>()
    ensures { (join : R → R → R) (s : Words R) (fits : R → Bool) (weight : R →
        ℕ) (moves : List (Doing R)) →
        AreBounded join s (λ r. IsTrue (fits r)) weight → AreSmall join s (λ r. IsTrue (fits r)) weight 0 empty moves →
        length moves ≤ 16777216 → HaveRoom join s empty moves }
{
    empty_world_is_sound::<R>();
    sound_worlds_stay_sound::<R>();
}
