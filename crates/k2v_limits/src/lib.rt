//! No schedule over items within its limits comes to a number, count or row that has no place in the code. No body does more
//! than name laws: each is called for its contract.
//!
//! A schedule has at most 100,000 events, whose words are in the ranges of the grammar, and its replay stops where more
//! than 268,435,456 bytes were sent. Where it goes on up to some step, that step has room: times, clocks and counts are
//! numbers of the code, and each row that is sent, queued or shown has a spelling.
#![tactic(auto)]

ghost use Rattle.std.specs.Prelude.{◌≡◌, ◌≤◌, ◌<◌, ◌++◌, ◌∷◌, ℕ, length, false, List};
ghost use Rattle.std.specs.List.{AllByRecursion};
ghost use Rattle.cluster_machine.specs.Worlds.{HaveRoom};
ghost use Rattle.k2v_rows.specs.Row.{row_join};
ghost use Rattle.k2v_schema.specs.Schema.{words};
ghost use Rattle.table_model.specs.Rows.{rows};
ghost use Rattle.table_model.specs.Top.{any_unspelled};
ghost use Rattle.k2v_model.specs.Run.{start};
ghost use Rattle.k2v_text.specs.declared.event.NumberedItemEvent.{NumberedItemEvent};
ghost use Rattle.k2v_text.specs.Events.{Turn, run};
ghost use Rattle.k2v_text.specs.Grammar.{IsAllowed};
ghost use Rattle.k2v_text.specs.Played.{Step, steps_of, GoesOn, IsLawful, ArePlayed};
ghost use Rattle.k2v_text.specs.Schedule.{IsSchedule};
ghost use Rattle.k2v_limits.specs.Limits.{AreAllowed, AreScheduled};

use k2v_rows::K2vRow;
use world_laws::{empty_world_is_sound, sound_worlds_stay_sound};

/// After turns that are played, fewer than 100,000 and with words in the grammar's ranges, each step of a further such event
/// has room, where the replay goes on after each step of it before: so no replay stops for lack of room.
pub fn played_item_turns_have_room()
    ensures { (before : List Turn) (next : Turn) → ArePlayed before → AreAllowed before →
        length before < 100000 →
        IsAllowed next.numbered.event → IsLawful (run start before) next →
        (done : List Step) (last : Step) (later : List Step) →
        steps_of (run start before) next.numbered.event next.choice ≡ done ++ last ∷ later → AllByRecursion GoesOn done →
        HaveRoom row_join words last.from.world last.outcome.moves }
{
    empty_world_is_sound::<K2vRow>();
    sound_worlds_stay_sound::<K2vRow>();
}

/// After such turns, at most 100,000, each row that a node has a spelling: so each node can be shown.
pub fn played_item_nodes_are_shown()
    ensures { (turns : List Turn) → ArePlayed turns → AreAllowed turns → length turns ≤ 100000 →
        (n : ℕ) → any_unspelled words (rows row_join words ((run start turns).world.nodes n).accepted) ≡ false }
{
    empty_world_is_sound::<K2vRow>();
    sound_worlds_stay_sound::<K2vRow>();
}

/// An input that is a schedule over items has at most 100,000 events, whose words are in their ranges.
pub fn item_schedules_are_within_limits()
    ensures { (input : List ℕ) (events : List NumberedItemEvent) → IsSchedule input events →
        AreScheduled events }
{}
