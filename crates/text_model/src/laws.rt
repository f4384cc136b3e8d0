//! What follows from the definitions. No body does anything: each is called for its contract.
ghost use Rattle.std.specs.Prelude.{ℕ, List};
ghost use Rattle.store_model.specs.declared.event.Numbered.{Numbered};
ghost use Rattle.text_model.specs.Reading.{IsSchedule};
ghost use Rattle.text_model.specs.Played.{AreScheduled};

/// An input that is a schedule has at most 100,000 events, whose words are in their ranges.
pub fn schedules_are_within_limits()
    ensures { (input : List ℕ) (events : List Numbered) → IsSchedule input events →
        AreScheduled events }
{}
