//! What holds of every line, and the text of some, worked out by hand. No body does anything: each is called for its
//! contract.
ghost use Rattle.std.specs.Prelude.{◌≡◌, ◌↔◌, ◌⊎◌, ◌∷◌, [], ℕ, Some, List, true, false, codes};
ghost use Rattle.k2v_model.specs.declared.line.ItemLine.TheVariants.{WriteDone, ReadDone};
ghost use Rattle.k2v_model.specs.declared.line.ItemRefusal.TheVariants.{NoSuchToken, Busy};
ghost use Rattle.k2v_text.specs.declared.event.ItemEvent.{ItemEvent};
ghost use Rattle.std.specs.List.{All};
ghost use Rattle.k2v_text.specs.declared.event.NumberedItemEvent.{NumberedItemEvent};
ghost use Rattle.k2v_text.specs.Grammar.{IsAllowed, Spells};
ghost use Rattle.k2v_text.specs.Schedule.{IsSchedule, IsFirstBadLine, HasTooManyEvents};
ghost use Rattle.k2v_text.specs.Reading.{event_of};
ghost use Rattle.k2v_text.specs.Transcript.{line_text, refusal_text};
ghost use Rattle.k2v_text.specs.Sample.{first_value, second_value, whole_line, both_lines};

/// The event that is read of a line is the one that the line spells; so a line spells one event at most.
pub fn every_item_line_reads()
    ensures { (line : List ℕ) (event : ItemEvent) → (event_of line ≡ Some event) ↔
        Spells line event }
{}

/// Every text is a schedule of events over items, or has a first line outside the grammar, or too many events before it; and
/// the events of a schedule have their words in their ranges.
pub fn every_item_text_reads()
    ensures texts { (input : List ℕ) → ((events : List NumberedItemEvent) ×
        IsSchedule input events) ⊎ (((n : ℕ) × IsFirstBadLine input n) ⊎ HasTooManyEvents input) }
    ensures allowed { (input : List ℕ) (events : List NumberedItemEvent) → IsSchedule input events →
        All (λ e. IsAllowed e.event) events }
{}

/// The lines of finished requests for items, and the words of the refusals that they alone have.
pub fn item_lines_are_worded()
    ensures wrote { line_text (WriteDone 1 false 1) ≡ whole_line (codes "done 1 kput 1/1") }
    ensures deleted { line_text (WriteDone 7 true 2) ≡ whole_line (codes "done 7 kdel 2/7") }
    ensures read { line_text (ReadDone 3 (first_value ∷ second_value ∷ [])) ≡ both_lines }
    ensures token { refusal_text (NoSuchToken 9) ≡ codes "NoSuchToken 9" }
    ensures busy { refusal_text (Busy 1) ≡ codes "Busy 1" }
{}
