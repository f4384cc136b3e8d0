//! What is owed at each moment of a run.
ghost use Rattle.std.specs.Prelude.{List};
ghost use Rattle.k2v_model.specs.Acts.{Act};
ghost use Rattle.k2v_text.specs.Events.{Turn};
ghost use Rattle.k2v_text.specs.Played.{acts_of, ArePlayed};
ghost use Rattle.k2v_replay.specs.Moments.{IsMoment, KeepsItems};

use k2v_laws::items_keep_what_they_owe;

/// At each moment of turns that were played, each delivery of a drain being one, the items keep what they owe.
pub fn moments_keep_items()
    ensures { (turns : List Turn) → ArePlayed turns → (moment : List Act) →
        IsMoment (acts_of turns) moment → KeepsItems moment }
{
    items_keep_what_they_owe();
}
