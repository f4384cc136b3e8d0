//! What holds of the ends that are stated.
ghost use Rattle.std.specs.Prelude.{ℕ, ◌++◌, ◌⊎◌, List};
ghost use Rattle.lab_outside.specs.declared.exit.Status.{Status};
ghost use Rattle.store_model.specs.declared.event.Numbered.{Numbered};
ghost use Rattle.store_model.specs.Run.{start};
ghost use Rattle.store_model.specs.Events.{Turn, events_of};
ghost use Rattle.store_model.specs.Turns.{AreLawful};
ghost use Rattle.replay_run.specs.declared.account.Account.{Account};
ghost use Rattle.replay_run.specs.Account.{front};
ghost use Rattle.text_model.specs.Played.{ArePlayed, AreScheduled};
ghost use Rattle.replay_run.specs.Replay.{sent_line, AreFirst, CutOff, ReplayLacksRoom, IsReplay, GoesFurther};

use limit_laws::{played_nodes_are_shown, played_turns_have_room};

/// Of at most 100,000 events whose words are in the ranges of a schedule no replay stops for lack of room, and after it each
/// node can be shown.
pub fn no_replay_lacks_room()
    ensures { (events : List Numbered) → AreScheduled events → ReplayLacksRoom events → ⊥ }
{
    played_turns_have_room();
    played_nodes_are_shown();
}

/// Given lawful layouts, a replay of such events has one end: all its turns are played, or it is cut off where more was sent
/// than may be, and never both. Done is stated of turns that are played; and where they are cut off, the limit, with what is
/// written of the turns before and the line of that limit.
pub fn lawful_turns_end_once()
    ensures one { (turns : List Turn) → AreScheduled (events_of turns) → AreLawful start turns → ArePlayed turns ⊎ CutOff turns }
    ensures never_both { (turns : List Turn) → ArePlayed turns → CutOff turns → ⊥ }
    ensures done { (account : Account) (turns : List Turn) → ArePlayed turns → (text : List ℕ) × IsReplay account (events_of turns) Status.Done text }
    ensures limit { (account : Account) (turns : List Turn) → AreLawful start turns → (cut : CutOff turns) → IsReplay account (events_of turns) Status.Limit (front account cut.before ++ sent_line) }
{
    played_turns_have_room();
}

/// A replay of such events has a stated end: each event can be given something lawful, and lawful turns are played or cut off.
pub fn every_replay_ends()
    ensures { (account : Account) (events : List Numbered) → AreScheduled events → (status : Status) × ((text : List ℕ) × IsReplay account events status text) }
{
    lawful_turns_end_once();
}

/// What is written of the first of such events, with layouts that are lawful, is the first part of a text that is stated for a
/// replay of all of them: the events after them can be given something lawful, too.
pub fn first_turns_go_further()
    ensures { (account : Account) (events : List Numbered) (turns : List Turn) → AreScheduled events → AreFirst events turns → GoesFurther account events turns }
{
    lawful_turns_end_once();
}
