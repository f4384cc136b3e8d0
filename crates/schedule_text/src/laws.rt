//! What holds of every text.
ghost use Rattle.std.specs.Prelude.{◌≡◌, ◌↔◌, ◌⊎◌, ℕ, Some, List};
ghost use Rattle.store_model.specs.declared.event.Event.{Event};
ghost use Rattle.store_model.specs.declared.event.Numbered.{Numbered};
ghost use Rattle.text_model.specs.Grammar.{Spells};
ghost use Rattle.text_model.specs.Reading.{event_of, IsSchedule, IsFirstBadLine, HasTooManyEvents};

/// The event that is read of a line is the one that the line spells; and every text is a schedule of events, or
/// has a first line outside the grammar, or too many events before it.
pub fn every_text_reads()
    ensures lines { (line : List ℕ) (event : Event) → (event_of line ≡ Some event) ↔
        Spells line event }
    ensures texts { (input : List ℕ) → ((events : List Numbered) × IsSchedule input events) ⊎
        (((n : ℕ) × IsFirstBadLine input n) ⊎ HasTooManyEvents input) }
{}
