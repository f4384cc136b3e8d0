//! What holds of the answers that are stated.
ghost use Rattle.std.specs.Prelude.{ℕ, List};
ghost use Rattle.lab_outside.specs.declared.exit.Status.{Status};
ghost use Rattle.lab_main.specs.Input.{OrTooLong};
ghost use Rattle.audit_run.specs.Answer.{IsAnswer};

use audit_findings::some_finding;
use schedule_text::every_text_reads;

/// For each input an answer is stated: it is too long, or what stands before its first mark is a schedule, has a first bad line
/// or too many events, and of each schedule and each text behind it something is found.
pub fn some_audit_is_stated()
    ensures { (input : List ℕ) → (status : Status) ×
        ((text : List ℕ) × OrTooLong IsAnswer input status text) }
{
    every_text_reads();
    some_finding();
}
