//! What holds of the runs that an audit plays, whatever plays them: runs that are given layouts with other cuts than the
//! least ones. No body does more than name laws: each is called for its contract.
#![tactic(auto)]

ghost use Rattle.std.specs.Prelude.{◌≡◌, ◌<◌, ◌^◌, ℕ, IsTrue, Some, List, ◌∷◌, length, take};
ghost use Rattle.history_model.specs.declared.record.Record.{Record};
ghost use Rattle.std.specs.List.{AllByRecursion};
ghost use Rattle.layout_roles.specs.declared.layout.Layout.{Layout};
ghost use Rattle.layout_roles.specs.Zones.{nodes_ascend};
ghost use Rattle.layout_roles.specs.Fits.{NoneFits, IsGreatest};
ghost use Rattle.layout_roles.specs.Certificates.{IsRedundancy, zones_wanted};
ghost use Rattle.cluster_machine.specs.declared.applied.Applied.{Applied};
ghost use Rattle.cluster_machine.specs.declared.line.Line.{Line};
ghost use Rattle.cluster_machine.specs.Choices.{IsBest};
ghost use Rattle.store_model.specs.declared.event.Event.TheVariants.{Apply};
ghost use Rattle.store_model.specs.declared.event.Numbered.{Numbered};
ghost use Rattle.store_model.specs.Run.{State, start};
ghost use Rattle.store_model.specs.Events.{Turn, outcome_of, after, events_of, run};
ghost use Rattle.text_model.specs.Played.{AllGoOn, ArePlayed, AreAllowed, AreScheduled};
ghost use Rattle.audit_model.specs.declared.said.Said.{Said};
ghost use Rattle.audit_model.specs.Printed.{Staged, Printed, IsLawful, IsOfPrint, Print, print_at, all_prints, IsLawfulPrint};
ghost use Rattle.audit_model.specs.Audit.{staged_in, AreGiven, AreFirstPrinted, ok, Finds};
ghost use Rattle.audit_model.specs.Heard.{AscendFrom, AreReadable};
ghost use Rattle.text_model.specs.Grammar.{lines_of};
ghost use Rattle.text_model.specs.Transcript.{line_text, turns_text, transcript};
ghost use Rattle.text_model.specs.Reading.{IsSchedule};
ghost use Rattle.audit_runs.specs.Alike.{AreSameButCut, DifferInCuts, AreStagedSo};
ghost use Rattle.audit_runs.specs.Given.{AreRightlyGiven};
ghost use Rattle.audit_runs.specs.Fixed.{HavePrints};
ghost use Rattle.audit_runs.specs.Kept.{IsKeptBeside};
ghost use Rattle.audit_runs.specs.Audited.{IsAudited};
ghost use Rattle.audit_runs.specs.First.{AreToldFirst, IsPrintedNext, BeginsWithLayout};
ghost use Rattle.audit_runs.specs.Told.{stages_by, TellTurns};
ghost use Rattle.audit_runs.specs.Whole.{IsOtherLines, AreNumbered, IsUnbroken, TellUnbroken};

use layout_flow::light_cuts;
use layout_roles::smaller_sizes;
use object_schema::S3Schema;
use prompt_laws::timely_turns_collect_safely;
use store_anchors::promises_are_kept;
use text_model::schedules_are_within_limits;
use world_reads::{
    every_installed_world_reads_what_was_kept, every_world_collects_stored_objects,
    every_world_gives_windows, every_world_has_kept_reads, every_world_is_sound,
    every_world_reads_stored_rows, nothing_is_collected_without_collect,
};

/// A printed layout that is lawful for what is staged, its cut whatever light one, has the greatest partition size; and a layout
/// that is given as it was printed is one that is computed, with another cut perhaps.
pub fn lawful_prints_are_greatest()
    ensures greatest { (s : Staged) (p : Printed) → IsTrue (nodes_ascend s.roles) →
        IsRedundancy s.wanted → IsLawful s p →
        (let r = zones_wanted s.wanted s.roles in
        IsGreatest s.roles r p.size p.sets × ((size : ℕ) → p.size < size → NoneFits s.roles r size)) }
    ensures computed { (s : Staged) (p : Printed) (version : ℕ) (l : Layout) (shown : Applied) →
        IsRedundancy s.wanted → IsLawful s p →
        IsOfPrint s.roles s.wanted version p l shown →
        (best : Applied) × (AreSameButCut shown best × IsBest s.roles s.wanted version l best) }
{
    light_cuts();
    smaller_sizes();
}

/// Runs that are given the same layouts with other cuts have the same states, event by event; and where everything fits after
/// each step of one of them, and no more was sent than may be, it is so of the other.
pub fn cuts_change_no_run()
    ensures events { (turns others : List Turn) → DifferInCuts turns others →
        events_of turns ≡ events_of others }
    ensures states { (s : State) (turns others : List Turn) → DifferInCuts turns others →
        (n : ℕ) → run s (take n turns) ≡ run s (take n others) }
    ensures end { (s : State) (turns others : List Turn) → DifferInCuts turns others →
        run s turns ≡ run s others }
    ensures go_on { (s : State) (turns others : List Turn) → DifferInCuts turns others →
        AllGoOn s turns → AllGoOn s others }
{}

/// Where each layout that a transcript prints is lawful, the run that is given these layouts, each where it is of what is staged,
/// differs from a replay in nothing but cuts.
pub fn printed_turns_are_played()
    ensures { (events : List Numbered) (saids : List Said) (turns : List Turn) →
        AreRightlyGiven events saids turns →
        (others : List Turn) × (DifferInCuts turns others × ArePlayed others) }
{
    lawful_prints_are_greatest();
}

/// And what is promised of replays holds of it: at each moment of the replay beside it, whose states are its own, and of its
/// records.
pub fn printed_turns_keep_promises()
    ensures { (events : List Numbered) (saids : List Said) (turns : List Turn) →
        AreRightlyGiven events saids turns → IsKeptBeside turns }
{
    printed_turns_are_played();
    promises_are_kept();
    timely_turns_collect_safely();
}

/// So it is of the first turns of a schedule's events, after each step of which a replay goes on.
pub fn first_turns_keep_promises()
    ensures beside { (events : List Numbered) (saids : List Said) (turns : List Turn) →
        AreScheduled events →
        AllByRecursion IsLawfulPrint (all_prints events saids) → AreFirstPrinted events (all_prints events saids) turns →
        (others : List Turn) × (DifferInCuts turns others × ArePlayed others) }
    ensures kept { (events : List Numbered) (saids : List Said) (turns : List Turn) →
        AreScheduled events →
        AllByRecursion IsLawfulPrint (all_prints events saids) → AreFirstPrinted events (all_prints events saids) turns →
        IsKeptBeside turns }
{
    lawful_prints_are_greatest();
    promises_are_kept();
    timely_turns_collect_safely();
}

/// A printed layout is one that can be given: so runs of the same events that are given the same prints lead to one state and
/// have one text, as long as each apply that comes to a layout has one printed, of what is staged.
pub fn prints_fix_runs()
    ensures { (ps : List Print) (s : State) (turns others : List Turn) →
        events_of turns ≡ events_of others →
        AreGiven ps s turns → AreGiven ps s others → HavePrints ps s turns →
        (run s turns ≡ run s others) × (turns_text s turns ≡ turns_text s others) }
{}

/// What is staged after an event of any run is told by what was staged before, the event, and whether it was refused: roles,
/// redundancies and `trio` alone change it.
pub fn events_stage_what_they_say()
    ensures { (s : State) (t : Turn) →
        staged_in (after s t) ≡ stages_by (staged_in s) t.numbered.event (outcome_of s t).refused }
{}

/// Where lines say of each event in its turn whether it was accepted, what they say was staged when a layout is printed is what
/// is staged in the run.
pub fn lines_say_what_is_staged()
    ensures { (turns : List Turn) (saids : List Said) (line : ℕ) →
        AscendFrom line (events_of turns) → TellTurns start turns saids →
        AreStagedSo (all_prints (events_of turns) saids) start turns }
{
    events_stage_what_they_say();
}

/// What a run tells beside its events' own lines, layouts with their cuts among it, is whole lines that begin with no digit, where
/// no key and no zone's name holds a line feed.
pub fn other_lines_are_whole()
    ensures { (l : Line Applied) → IsUnbroken l → IsOtherLines (line_text l) }
{}

/// Where the lines of a run's own text can be read, and no key and no zone's name that it tells holds a line feed, what they say
/// tells of each event in its turn whether it was accepted.
pub fn texts_tell_turns()
    ensures { (events : List Numbered) (turns : List Turn) (saids : List Said)
        (history : List Record) →
        AreNumbered (events_of turns) → TellUnbroken start turns → AreReadable events (lines_of (transcript turns)) saids history → TellTurns start turns saids }
{
    other_lines_are_whole();
}

/// The events of a schedule stand in lines that ascend.
pub fn schedules_ascend()
    ensures { (input : List ℕ) (events : List Numbered) → IsSchedule input events →
        AscendFrom 0 events }
{}

/// And where the schedule is shorter than 2^64 bytes, in lines whose numbers are below 2^64.
pub fn schedules_are_numbered()
    ensures { (input : List ℕ) (events : List Numbered) → IsSchedule input events →
        length input < 2 ^ 64 → AreNumbered events }
{}

/// Turns that differ in nothing but cuts from a replay of events which the grammar allows tell no key and no zone's name with a
/// line feed: each key of a list comes from a put or copy, and each zone from a role or from `trio`.
pub fn turns_tell_unbroken()
    ensures { (turns others : List Turn) → AreAllowed turns → DifferInCuts turns others →
        ArePlayed others → TellUnbroken start turns }
{
    events_stage_what_they_say();
    every_world_is_sound::<S3Schema>();
    every_world_has_kept_reads::<S3Schema>();
    every_world_reads_stored_rows::<S3Schema>();
    every_world_gives_windows::<S3Schema>();
    every_installed_world_reads_what_was_kept::<S3Schema>();
    every_world_collects_stored_objects::<S3Schema>();
    nothing_is_collected_without_collect::<S3Schema>();
}

/// So it is of the first turns of a schedule's events that are given lawful layouts which a transcript prints.
pub fn first_turns_tell_unbroken()
    ensures { (events : List Numbered) (saids : List Said) (turns : List Turn) →
        AreScheduled events →
        AllByRecursion IsLawfulPrint (all_prints events saids) → AreFirstPrinted events (all_prints events saids) turns →
        TellUnbroken start turns }
{
    first_turns_keep_promises();
    turns_tell_unbroken();
}

/// Where the first lines of a transcript are those of the turns so far: a layout for the next event that is printed behind the line
/// that comes next is of what is staged in the run; and where the two lines that come next are those with which an apply tells a
/// layout, one is printed for it, of what is staged.
pub fn printed_roles_are_staged()
    ensures placed { (input text : List ℕ) (events : List Numbered) (saids : List Said)
        (turns : List Turn) →
        (told : AreToldFirst input text events saids turns) → (next : Numbered) (rest : List Numbered) → told.first.later ≡ next ∷ rest →
        (p : Print) → print_at (all_prints events saids) next.line ≡ Some p → IsPrintedNext turns p →
        p.staged ≡ staged_in (run start turns) }
    ensures agreed { (input text : List ℕ) (events : List Numbered) (saids : List Said)
        (turns : List Turn) →
        (told : AreToldFirst input text events saids turns) → (next : Numbered) (rest : List Numbered) → told.first.later ≡ next ∷ rest →
        (n version size : ℕ) → next.event ≡ Apply n → BeginsWithLayout told.more next version size →
        (p : Print) × ((print_at (all_prints events saids) next.line ≡ Some p) × (p.staged ≡ staged_in (run start turns))) }
{
    schedules_are_within_limits();
    schedules_ascend();
    schedules_are_numbered();
    events_stage_what_they_say();
    other_lines_are_whole();
    first_turns_tell_unbroken();
}

/// Where it is found of a schedule's transcript that all is well, it is the text of turns that are given the layouts which it
/// prints, its account is fresh, and what is promised of a replay holds beside these turns.
pub fn audited_transcripts_keep_promises()
    ensures { (input text : List ℕ) (events : List Numbered) (pairs : ℕ) → IsSchedule input events →
        Finds events text (ok pairs) → IsAudited events text pairs }
{
    schedules_are_within_limits();
    printed_turns_keep_promises();
}
