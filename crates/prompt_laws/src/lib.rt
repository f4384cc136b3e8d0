//! Which turns of a schedule are prompt: those of which messages come, and phases begin and end, within an hour. No body does
//! anything: each is called for its contract.
#![tactic(auto)]

ghost use Rattle.std.specs.Prelude.{List, []};
ghost use Rattle.store_model.specs.Run.{start};
ghost use Rattle.store_model.specs.Events.{Turn, acts_of};
ghost use Rattle.store_model.specs.Turns.{AreLawful};
ghost use Rattle.store_collects.specs.Prompt.{ArePromptActs};
ghost use Rattle.store_collects.specs.Times.{AreTimelyActs, ForgetsAreClear};
ghost use Rattle.store_laws.specs.Hashed.{CollectsSafely};
ghost use Rattle.text_model.specs.Played.{AreAllowed};
ghost use Rattle.prompt_laws.specs.Times.{CollectsInTime, IsPromptIfTimely};

use cluster_machine::applied::Applied;
use crdt_rows::AnyRow;
use layout_roles::{Cut, Layout};
use receiver_laws::worlds_name_places;
use store_laws::moments_are_runs;

/// The turns of a schedule whose times are prompt are prompt in all that collections ask. Each message goes to one of nodes 1
/// to 16; a request stores no version from before it began, since its write draws at a clock that isn't behind the time; and
/// the schedule's grammar says that no clock is ahead by more than an hour, and that nodes 1 to 16 collect. No forget may come
/// to a row with the digest of a collected one and other bytes.
pub fn timely_turns_are_prompt()
    ensures { (turns : List Turn) → AreAllowed turns → AreLawful start turns →
        AreTimelyActs [] start (acts_of turns) → ForgetsAreClear start (acts_of turns) → ArePromptActs [] start (acts_of turns) }
{
    worlds_name_places::<AnyRow, Layout, Applied, Cut>();
}

/// So they are at each moment of their run, within drains too; and what they collect is collected safely, if they collect
/// nothing, or if they are timely and no forget clashes.
pub fn timely_turns_collect_safely()
    ensures prompt { (turns : List Turn) → AreAllowed turns → AreLawful start turns →
        IsPromptIfTimely (acts_of turns) }
    ensures safely { (turns : List Turn) → AreAllowed turns → AreLawful start turns →
        CollectsInTime (acts_of turns) → CollectsSafely (acts_of turns) }
{
    timely_turns_are_prompt();
    moments_are_runs();
}
