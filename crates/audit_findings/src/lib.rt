//! Each schedule and text has exactly one finding. No body does more than name laws: each is called for its contract.
#![tactic(auto)]

ghost use Rattle.std.specs.Prelude.{◌≡◌, ◌<◌, ◌^◌, ℕ, List, length, ◌⊎◌};
ghost use Rattle.layout_roles.specs.declared.role.Role.{Role};
ghost use Rattle.layout_roles.specs.declared.redundancy.Redundancy.{Redundancy};
ghost use Rattle.cluster_machine.specs.Choices.{Decision, IsComputed};
ghost use Rattle.store_model.specs.declared.event.Numbered.{Numbered};
ghost use Rattle.store_model.specs.Run.{State, start};
ghost use Rattle.store_model.specs.Events.{Turn, act_of, run};
ghost use Rattle.text_model.specs.Reading.{IsSchedule};
ghost use Rattle.text_model.specs.Transcript.{turns_text};
ghost use Rattle.audit_model.specs.Audit.{Finding, Finds};
ghost use Rattle.audit_findings.specs.Alone.{AreOneAnswer, IsWhole};
ghost use Rattle.std.specs.List.{AllByRecursion};
ghost use Rattle.history_model.specs.declared.record.Record.{Record};
ghost use Rattle.history_model.specs.Fresh.{Fresh};
ghost use Rattle.stale_model.specs.Stale.{IsFirstStale};
ghost use Rattle.store_model.specs.Acts.{IsLawfulAct};
ghost use Rattle.text_model.specs.Grammar.{lines_of, IsAllowed};
ghost use Rattle.text_model.specs.Played.{steps_of, GoesOn, ArePlayed, AreAllowed, AreScheduled};
ghost use Rattle.audit_model.specs.declared.said.Said.{Said};
ghost use Rattle.audit_model.specs.Heard.{AreReadable};
ghost use Rattle.audit_model.specs.Printed.{Print, all_prints, IsLawfulPrint, IsUnlawful};
ghost use Rattle.audit_findings.specs.Next.{Chosen, Passes};

use audit_laws::{findings_name_one_line, texts_give_one_account};
use audit_runs::{
    cuts_change_no_run, first_turns_keep_promises, lawful_prints_are_greatest,
    printed_roles_are_staged, prints_fix_runs,
};
use layout_roles::smaller_sizes;
use replay_run::lawful_turns_end_once;
use text_model::schedules_are_within_limits;

/// From the same roles a layout is computed each time, and its size is one, or it is refused each time, in the same words.
pub fn computed_answers_are_one()
    ensures { (roles : List Role) (wanted : Redundancy) (version : ℕ) (choice other : Decision) →
        IsComputed roles wanted version choice → IsComputed roles wanted version other → AreOneAnswer choice other }
{
    smaller_sizes();
}

/// The text of turns is whole lines.
pub fn turns_are_whole_lines()
    ensures { (s : State) (turns : List Turn) → IsWhole (turns_text s turns) }
{}

/// Of a schedule and a text one thing is found.
pub fn one_finding()
    ensures { (input text : List ℕ) (events : List Numbered) (f g : Finding) →
        IsSchedule input events → length input < 2 ^ 64 →
        Finds events text f → Finds events text g → f ≡ g }
{
    texts_give_one_account();
    findings_name_one_line();
    prints_fix_runs();
    printed_roles_are_staged();
    computed_answers_are_one();
}

/// Each history is fresh, or one request's read is the first that is stale; and all printed layouts are lawful, or one is the
/// first that isn't.
pub fn texts_are_judged()
    ensures fresh { (history : List Record) → Fresh history ⊎ ((q : ℕ) × IsFirstStale history q) }
    ensures lawful { (prints : List Print) → AllByRecursion IsLawfulPrint prints ⊎
        ((k : ℕ) × IsUnlawful prints k) }
{}

/// After turns that are played each further event can be given what the prints say, where these are lawful: a layout as it is
/// printed, where it is of what is staged, or what is computed.
pub fn next_turns_can_be_given()
    ensures { (events : List Numbered) (saids : List Said) (others : List Turn) (e : Numbered) →
        AreScheduled events →
        AllByRecursion IsLawfulPrint (all_prints events saids) → ArePlayed others → AreAllowed others → IsAllowed e.event →
        Chosen (all_prints events saids) (run start others) e }
{
    lawful_prints_are_greatest();
}

/// A replay goes on after each step of a further lawful turn, or after the first after which it doesn't too much was sent.
pub fn next_turns_go_on_or_pass()
    ensures { (others : List Turn) (next : Turn) → ArePlayed others → AreAllowed others →
        length others < 100000 →
        IsAllowed next.numbered.event → IsLawfulAct (run start others) (act_of next.numbered.event next.choice) →
        AllByRecursion GoesOn (steps_of (run start others) next.numbered.event next.choice)
        ⊎ Passes (steps_of (run start others) next.numbered.event next.choice) }
{
    lawful_turns_end_once();
}

/// Where a text can be read, its account is fresh and each layout that it prints is lawful, something is found of the run that
/// its prints give.
pub fn each_run_is_found()
    ensures { (events : List Numbered) (text : List ℕ) (saids : List Said) (history : List Record) →
        AreScheduled events →
        AreReadable events (lines_of text) saids history → Fresh history → AllByRecursion IsLawfulPrint (all_prints events saids) →
        (f : Finding) × Finds events text f }
{
    first_turns_keep_promises();
    cuts_change_no_run();
    next_turns_can_be_given();
    next_turns_go_on_or_pass();
}

/// Of each schedule and each text something is found.
pub fn some_finding()
    ensures { (input text : List ℕ) (events : List Numbered) → IsSchedule input events →
        (f : Finding) × Finds events text f }
{
    schedules_are_within_limits();
    texts_give_one_account();
    texts_are_judged();
    each_run_is_found();
}

/// And exactly one thing, where the schedule has fewer than 2^64 bytes.
pub fn each_audit_has_one_finding()
    ensures { (input text : List ℕ) (events : List Numbered) → IsSchedule input events →
        length input < 2 ^ 64 →
        (f : Finding) × (Finds events text f × ((g : Finding) → Finds events text g → f ≡ g)) }
{
    some_finding();
    one_finding();
}
