//! What holds of the account that a run's own text gives. No body does more than name laws: each is called for its contract.
//!
//! A run of a schedule is turns of its events, each apply given what a replay computes, but with a cut of its own perhaps
//! (`AreOfSchedule`). Where each printed layout has its numbers in their ranges and its cut in order (`TellOrderly`), the text
//! of the run can be read, and its account is the run's history, but for the identifiers of superseded ends.
#![tactic(auto)]

ghost use Rattle.std.specs.Prelude.{◌≡◌, ◌<◌, ◌^◌, ℕ, List, [], length};
ghost use Rattle.std.specs.List.{AllByRecursion};
ghost use Rattle.history_model.specs.declared.record.Record.{Record};
ghost use Rattle.history_model.specs.Fresh.{Fresh};
ghost use Rattle.store_model.specs.declared.event.Numbered.{Numbered};
ghost use Rattle.store_model.specs.Run.{start};
ghost use Rattle.store_model.specs.Events.{Turn, acts_of, events_of, run};
ghost use Rattle.store_model.specs.Fresh.{NoClash};
ghost use Rattle.store_anchors.specs.Promises.{WalksAreClear};
ghost use Rattle.text_model.specs.Grammar.{lines_of};
ghost use Rattle.text_model.specs.Transcript.{transcript};
ghost use Rattle.text_model.specs.Reading.{IsSchedule};
ghost use Rattle.text_model.specs.Played.{ArePlayed, AreAllowed, AreScheduled};
ghost use Rattle.prompt_laws.specs.Times.{CollectsInTime};
ghost use Rattle.audit_model.specs.declared.said.Said.{Said};
ghost use Rattle.audit_model.specs.Lines.{IsInRange};
ghost use Rattle.audit_model.specs.Heard.{AreReadable};
ghost use Rattle.audit_model.specs.Printed.{all_prints, IsLawfulPrint};
ghost use Rattle.audit_model.specs.Audit.{AreFirstPrinted, ArePrinted};
ghost use Rattle.audit_laws.specs.Told.{TurnsCanBeHeard, saids_text};
ghost use Rattle.audit_runs.specs.Alike.{DifferInCuts};
ghost use Rattle.audit_accounts.specs.Saying.{TellKeyed, TellOrderly, transcript_says};
ghost use Rattle.audit_accounts.specs.Runs.{AreOfSchedule, history_told};

use audit_laws::{lines_give_the_records, texts_give_one_account};
use audit_runs::{
    events_stage_what_they_say, lawful_prints_are_greatest, printed_turns_are_played,
    schedules_are_numbered, schedules_ascend,
};
use audit_sheets::{
    computed_sheets_are_orderly, schedules_stage_in_range, sheets_spell_what_is_said,
};
use crdt_rows::{
    AnyRow, object_rows_join_as_facts, reference_rows_join_as_facts, version_rows_join_as_facts,
};
use object_schema::S3Schema;
use prompt_laws::timely_turns_collect_safely;
use store_anchors::promises_are_kept;
use text_model::schedules_are_within_limits;
use world_laws::{empty_world_is_sound, sound_worlds_stay_sound};
use world_reads::{
    every_installed_world_reads_what_was_kept, every_world_collects_stored_objects,
    every_world_gives_windows, every_world_has_kept_reads, every_world_is_sound,
    every_world_reads_stored_rows, nothing_is_collected_without_collect,
};

/// The lines of such turns can be heard: each event is the schedule's, and answers with words that it may; and each line of a
/// request's end names one that an event's own line said to have begun, and tells of it what a request of its kind may.
pub fn turns_can_be_heard()
    ensures { (input : List ℕ) (events : List Numbered) (turns others : List Turn) →
        AreOfSchedule input events turns others →
        TurnsCanBeHeard events [] start turns }
{
    schedules_ascend();
    empty_world_is_sound::<AnyRow>();
    sound_worlds_stay_sound::<AnyRow>();
}

/// Each key of a list's line is one of the grammar: it comes from a put or copy of the schedule.
pub fn turns_tell_keys()
    ensures { (turns others : List Turn) → AreAllowed turns → DifferInCuts turns others →
        ArePlayed others → TellKeyed start turns }
{
    every_world_is_sound::<S3Schema>();
    every_world_has_kept_reads::<S3Schema>();
    every_world_reads_stored_rows::<S3Schema>();
    every_world_gives_windows::<S3Schema>();
    every_installed_world_reads_what_was_kept::<S3Schema>();
    every_world_collects_stored_objects::<S3Schema>();
    nothing_is_collected_without_collect::<S3Schema>();
}

/// All that the text of such turns says is in its ranges: numbers are those of the code, keys those of the grammar, and a
/// request answers with what its kind may.
pub fn texts_speak_in_range()
    ensures { (input : List ℕ) (events : List Numbered) (turns others : List Turn) →
        AreOfSchedule input events turns others →
        TellOrderly start turns → AllByRecursion IsInRange (transcript_says turns) }
{
    schedules_are_within_limits();
    schedules_are_numbered();
    object_rows_join_as_facts();
    version_rows_join_as_facts();
    reference_rows_join_as_facts();
    empty_world_is_sound::<AnyRow>();
    sound_worlds_stay_sound::<AnyRow>();
    sheets_spell_what_is_said();
    turns_tell_keys();
}

/// The text is the words of what its lines say; it can be read, and the account that its lines give is the history of the
/// turns, but for the identifiers of superseded ends. So where no digests of walks or of buckets' names clash, and what the
/// turns collect is collected in time, an account that is read of it is fresh.
pub fn texts_give_their_history()
    ensures spelled { (input : List ℕ) (events : List Numbered) (turns others : List Turn) →
        AreOfSchedule input events turns others →
        TellOrderly start turns → transcript turns ≡ saids_text (transcript_says turns) }
    ensures readable { (input : List ℕ) (events : List Numbered) (turns others : List Turn) →
        AreOfSchedule input events turns others →
        TellOrderly start turns → AreReadable events (lines_of (transcript turns)) (transcript_says turns) (history_told turns) }
    ensures fresh { (input : List ℕ) (events : List Numbered) (turns others : List Turn) →
        AreOfSchedule input events turns others →
        TellOrderly start turns → WalksAreClear (acts_of others) → CollectsInTime (acts_of others) → NoClash (run start turns).buckets →
        (saids : List Said) (history : List Record) → AreReadable events (lines_of (transcript turns)) saids history → Fresh history }
{
    schedules_ascend();
    empty_world_is_sound::<AnyRow>();
    sound_worlds_stay_sound::<AnyRow>();
    sheets_spell_what_is_said();
    texts_speak_in_range();
    texts_give_one_account();
    lines_give_the_records();
    promises_are_kept();
    schedules_are_within_limits();
    timely_turns_collect_safely();
}

/// So it is of each replay of a schedule, without a premise on what it prints: its layouts are in order.
pub fn replays_give_their_history()
    ensures orderly { (input : List ℕ) (events : List Numbered) (turns : List Turn) →
        IsSchedule input events → events_of turns ≡ events → ArePlayed turns → TellOrderly start turns }
    ensures readable { (input : List ℕ) (events : List Numbered) (turns : List Turn) →
        IsSchedule input events → length input < 2 ^ 64 → events_of turns ≡ events → ArePlayed turns →
        AreReadable events (lines_of (transcript turns)) (transcript_says turns) (history_told turns) }
    ensures fresh { (input : List ℕ) (events : List Numbered) (turns : List Turn) →
        IsSchedule input events → length input < 2 ^ 64 → events_of turns ≡ events → ArePlayed turns →
        WalksAreClear (acts_of turns) → CollectsInTime (acts_of turns) → NoClash (run start turns).buckets →
        (saids : List Said) (history : List Record) → AreReadable events (lines_of (transcript turns)) saids history → Fresh history }
{
    schedules_are_within_limits();
    computed_sheets_are_orderly();
    schedules_stage_in_range();
    events_stage_what_they_say();
    texts_give_their_history();
}

/// Turns that are given the lawful layouts which a transcript prints, each where it is of what is staged, tell layouts in order:
/// a printed cut is shown in order. So their own text can be read, and its account is their history; it is fresh where no digests
/// clash in the replay beside them, and what it collects is collected in time.
pub fn printed_turns_give_their_history()
    ensures orderly { (events : List Numbered) (saids : List Said) (turns : List Turn) →
        AreScheduled events →
        AllByRecursion IsLawfulPrint (all_prints events saids) → AreFirstPrinted events (all_prints events saids) turns →
        TellOrderly start turns }
    ensures readable { (input : List ℕ) (events : List Numbered) (saids : List Said)
        (turns : List Turn) →
        IsSchedule input events → length input < 2 ^ 64 → AllByRecursion IsLawfulPrint (all_prints events saids) →
        ArePrinted events (all_prints events saids) turns →
        AreReadable events (lines_of (transcript turns)) (transcript_says turns) (history_told turns) }
    ensures fresh { (input : List ℕ) (events : List Numbered) (saids : List Said)
        (turns others : List Turn) →
        IsSchedule input events → length input < 2 ^ 64 → AllByRecursion IsLawfulPrint (all_prints events saids) →
        ArePrinted events (all_prints events saids) turns → DifferInCuts turns others → ArePlayed others →
        WalksAreClear (acts_of others) → CollectsInTime (acts_of others) → NoClash (run start turns).buckets → (said : List Said) (history : List Record) →
        AreReadable events (lines_of (transcript turns)) said history → Fresh history }
{
    schedules_are_within_limits();
    lawful_prints_are_greatest();
    printed_turns_are_played();
    computed_sheets_are_orderly();
    schedules_stage_in_range();
    events_stage_what_they_say();
    texts_give_their_history();
}
