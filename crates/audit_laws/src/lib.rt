//! What holds of every transcript and of every run, whatever reads and judges them. No body does anything: each is called
//! for its contract.
#![tactic(auto)]

ghost use Rattle.std.specs.Prelude.{◌≡◌, ◌↔◌, ◌⊎◌, ℕ, Some, List, ◌++◌, map};
ghost use Rattle.std.specs.List.{AllByRecursion};
ghost use Rattle.layout_roles.specs.declared.layout.Layout.{Layout};
ghost use Rattle.cluster_machine.specs.declared.applied.Applied.{Applied};
ghost use Rattle.cluster_machine.specs.declared.step.Step.TheVariants.{Apply};
ghost use Rattle.cluster_machine.specs.Choices.{Decision};
ghost use Rattle.cluster_machine.specs.Step.{given};
ghost use Rattle.cluster_machine.specs.World.{NodeLine};
ghost use Rattle.history_model.specs.declared.record.Record.{Record};
ghost use Rattle.history_model.specs.declared.record.Kind.{Kind};
ghost use Rattle.history_model.specs.Fresh.{Fresh};
ghost use Rattle.stale_model.specs.Stale.{IsFirstStale};
ghost use Rattle.store_model.specs.declared.event.Event.{Event};
ghost use Rattle.store_model.specs.declared.event.Numbered.{Numbered};
ghost use Rattle.store_model.specs.Run.{State, Outcome};
ghost use Rattle.store_model.specs.Acts.{Act, moves, acted};
ghost use Rattle.store_model.specs.Events.{Turn, outcome, run};
ghost use Rattle.text_model.specs.Transcript.{event_text, node_text, end_line};
ghost use Rattle.audit_model.specs.declared.said.Said.{Said};
ghost use Rattle.audit_model.specs.declared.said.Said.TheVariants.{End};
ghost use Rattle.audit_model.specs.Lines.{Says};
ghost use Rattle.audit_model.specs.Reading.{said_of};
ghost use Rattle.audit_model.specs.Heard.{AreReadable, IsUnreadable, hears_all, quiet, asking_of};
ghost use Rattle.audit_model.specs.Printed.{Print, IsUnlawful};
ghost use Rattle.audit_model.specs.Audit.{DifferFirst};
ghost use Rattle.audit_laws.specs.Account.{records_told, blunt, began_of, IsOuterAct, NoneGivenUp};
ghost use Rattle.audit_laws.specs.Told.{IsSpoken, IsAnswered, TurnsCanBeHeard, said_text, saids_text, event_saids, node_said, turns_say, requests_after};

/// What is read of a line is what the line says, and it says one thing at most.
pub fn lines_say_one_thing()
    ensures read { (line : List ℕ) (said : Said) → (said_of line ≡ Some said) ↔ Says line said }
    ensures one { (line : List ℕ) (said other : Said) → Says line said → Says line other →
        said ≡ other }
{}

/// The lines of a text can be read, and give one account, or one of them is the first that can't be read.
pub fn texts_give_one_account()
    ensures some { (events : List Numbered) (lines : List (List ℕ)) →
        ((saids : List Said) × (history : List Record) × AreReadable events lines saids history) ⊎ ((k : ℕ) × IsUnreadable events lines k) }
    ensures account { (events : List Numbered) (lines : List (List ℕ)) (saids others : List Said)
        (h k : List Record) →
        AreReadable events lines saids h → AreReadable events lines others k → (saids ≡ others) × (h ≡ k) }
    ensures not_both { (events : List Numbered) (lines : List (List ℕ)) (saids : List Said)
        (h : List Record) (k : ℕ) →
        AreReadable events lines saids h → ¬ IsUnreadable events lines k }
    ensures line { (events : List Numbered) (lines : List (List ℕ)) (k j : ℕ) →
        IsUnreadable events lines k → IsUnreadable events lines j → k ≡ j }
{}

/// One request's read is the first that is stale, one printed layout the first that isn't lawful, and in one line two texts
/// differ first.
pub fn findings_name_one_line()
    ensures stale { (history : List Record) (q other : ℕ) → IsFirstStale history q →
        IsFirstStale history other → q ≡ other }
    ensures unlawful { (prints : List Print) (k j : ℕ) → IsUnlawful prints k → IsUnlawful prints j →
        k ≡ j }
    ensures differs { (a b : List (List ℕ)) (k j : ℕ) → DifferFirst a b k → DifferFirst a b j →
        k ≡ j }
{}

/// What is printed of a layout changes the text alone: an apply that is given a layout leads to one state, whatever cut is
/// printed with it.
pub fn cuts_change_no_state()
    ensures { (s : State) (n : ℕ) (l : Layout) (shown other : Applied) →
        (acted s (moves (record { step = Apply n; choice = given l shown }))).state ≡ (acted s (moves (record { step = Apply n; choice = given l other }))).state }
{}

/// Where no upload was given up, of whose end no line tells, the records that the lines of an act give, with that of a request
/// that it begins, are those that it adds to the history, but for the identifiers of superseded ends; and a history that is
/// fresh is so without them.
pub fn lines_give_the_records()
    ensures adds { (s : State) (act : Act) → IsOuterAct act → NoneGivenUp s.asked →
        map blunt (acted s act).state.history ≡ map blunt s.history ++ (began_of act (acted s act) ++ records_told (acted s act).lines) }
    ensures fresh { (history : List Record) → Fresh history → Fresh (map blunt history) }
{}

/// The text of an event that prints no layout, of a node's line and of the last line is the words of what they say.
pub fn texts_spell_what_is_said()
    ensures events { (e : Numbered) (o : Outcome) → AllByRecursion IsSpoken o.lines →
        event_text e o ≡ saids_text (event_saids e o) }
    ensures nodes { (n : NodeLine) → node_text n ≡ said_text (node_said n) }
    ensures end { (events requests messages : ℕ) →
        end_line events requests messages ≡ said_text (End events requests messages) }
{}

/// Each event answers with words that it may. What the lines of turns say is heard as their history, but for the identifiers
/// of superseded ends, where each event and each request that they name is known by then, and no upload was given up before.
pub fn turns_are_heard()
    ensures answers { (s : State) (e : Event) (choice : Decision) →
        IsAnswered e (asking_of e) (outcome s e choice).refused (outcome s e choice).words }
    ensures heard { (events : List Numbered) (asked : List (ℕ ×
        Kind)) (s : State) (turns : List Turn) →
        NoneGivenUp s.asked → TurnsCanBeHeard events asked s turns →
        hears_all events (quiet asked (map blunt s.history)) (turns_say s turns) ≡ Some (quiet (requests_after asked s turns) (map blunt (run s turns).history)) }
{}
