//! What holds of the ends that are stated.
ghost use Rattle.std.specs.Prelude.{ℕ, ◌++◌, ◌⊎◌, List};
ghost use Rattle.lab_outside.specs.declared.exit.Status.{Status};
ghost use Rattle.k2v_model.specs.Run.{start};
ghost use Rattle.k2v_text.specs.declared.event.NumberedItemEvent.{NumberedItemEvent};
ghost use Rattle.k2v_text.specs.Events.{Turn};
ghost use Rattle.k2v_text.specs.Played.{events_of, AreLawful, ArePlayed};
ghost use Rattle.k2v_text.specs.Transcript.{transcript};
ghost use Rattle.k2v_limits.specs.Limits.{AreScheduled};
ghost use Rattle.k2v_replay.specs.Replay.{sent_line, front, AreFirst, CutOff, ReplayLacksRoom, IsReplay, GoesFurther};

use k2v_limits::{played_item_nodes_are_shown, played_item_turns_have_room};

/// Of at most 100,000 events whose words are in the ranges of a schedule no replay stops for lack of room, and after it each
/// node can be shown.
pub fn no_item_replay_lacks_room()
    ensures { (events : List NumberedItemEvent) → AreScheduled events → ReplayLacksRoom events → ⊥ }
{
    played_item_turns_have_room();
    played_item_nodes_are_shown();
}

/// Given lawful layouts, a replay of such events has one end: all its turns are played, or it is cut off where more was sent
/// than may be, and never both. Done is stated of turns that are played, with their transcript; and where they are cut off,
/// the limit, with what is written of the turns before and the line of that limit.
pub fn item_turns_end_once()
    ensures one { (turns : List Turn) → AreScheduled (events_of turns) → AreLawful start turns →
        ArePlayed turns ⊎ CutOff turns }
    ensures never_both { (turns : List Turn) → ArePlayed turns → CutOff turns → ⊥ }
    ensures done { (turns : List Turn) → ArePlayed turns →
        IsReplay (events_of turns) Status.Done (transcript turns) }
    ensures limit { (turns : List Turn) → AreLawful start turns → (cut : CutOff turns) →
        IsReplay (events_of turns) Status.Limit (front cut.before ++ sent_line) }
{
    played_item_turns_have_room();
}

/// A replay of such events has a stated end: each event can be given something lawful, and lawful turns are played or cut off.
pub fn every_item_replay_ends()
    ensures { (events : List NumberedItemEvent) → AreScheduled events → (status : Status) ×
        ((text : List ℕ) × IsReplay events status text) }
{
    item_turns_end_once();
}

/// What is written of the first of such events, with layouts that are lawful, is the first part of a text that is stated for a
/// replay of all of them: the events after them can be given something lawful, too.
pub fn first_item_turns_go_further()
    ensures { (events : List NumberedItemEvent) (turns : List Turn) → AreScheduled events →
        AreFirst events turns → GoesFurther events turns }
{
    item_turns_end_once();
}
