//! A layout change in a calm time: a fixed script of steps, between which all is delivered in whatever order, takes a
//! cluster at rest on one layout version to rest on the next one. No body does anything: each is called for its contract.
//!
//! `R` is what a row is, `L` what a layout is, `A` what is printed of one, `C` what shows that there is none.
#![tactic(auto)]

ghost use Rattle.std.specs.Prelude.{◌≡◌, ◌≤◌, ◌<◌, ℕ, suc, false, IsTrue, length, List, [], ◌∷◌, Some};
ghost use Rattle.crdt_core.specs.Laws.{JoinLaws};
ghost use Rattle.layout_roles.specs.declared.role.Role.{Role};
ghost use Rattle.table_schema.specs.Words.{Words};
ghost use Rattle.table_schema.specs.Laws.{Laws};
ghost use Rattle.table_model.specs.Rows.{row_at, rows, rows_in};
ghost use Rattle.quorum_model.specs.Quorum.{is_among};
ghost use Rattle.machine_laws.specs.Follows.{Follows};
ghost use Rattle.cluster_machine.specs.declared.step.Step.TheVariants.{Sync};
ghost use Rattle.cluster_machine.specs.Hashes.{NoClash, RunHashes};
ghost use Rattle.cluster_machine.specs.Layouts.{Layouts, set_of};
ghost use Rattle.cluster_machine.specs.Blocks.{AllStocked};
ghost use Rattle.cluster_machine.specs.World.{World, forget_delivered};
ghost use Rattle.cluster_machine.specs.Step.{Choice};
ghost use Rattle.cluster_machine.specs.Run.{IsLayout, Move, run};
ghost use Rattle.drained_laws.specs.Calm.{IsMember, IsCalmRun};
ghost use Rattle.drained_laws.specs.Accounts.{IsAccounted};
ghost use Rattle.drained_laws.specs.Waiting.{waiting};
ghost use Rattle.drained_laws.specs.Drained.{AreEqual, accepted_in};
ghost use Rattle.change_model.specs.Steps.{each, members_of_both};
ghost use Rattle.change_laws.specs.Script.{AreApart, AreSpelled, Changes, RoundHashes, moves_of};
ghost use Rattle.change_laws.specs.Resting.{HasAlone, IsResting};
ghost use Rattle.change_laws.specs.Handing.{IsQuiet, AllKept, IsKeptIn};
ghost use Rattle.change_laws.specs.Whole.{MayChange, AreProperAt};

/// A change from a cluster at rest on a version leads to one at rest on the next version, whatever proper rows there are: each
/// node that took part has that version alone, nothing waits, no request and no round is open. Digests may clash.
pub fn changes_come_to_rest<R, L, A, C>()
    ensures rests { (join : R → R →
        R) (s : Words R) (k : Layouts L) (l new trio : L) (trio_roles : List Role →
        List Role) (part : List ℕ) (choice : Choice L A C) (shown : A) (m : ℕ)
        (w after : World R L) →
        Laws join s → MayChange k l new part m → IsResting k l w → AreProperAt s part w → Changes A C join s k trio trio_roles choice new shown m part w after → IsResting k new after }
    ensures alone { (join : R → R →
        R) (s : Words R) (k : Layouts L) (l new trio : L) (trio_roles : List Role →
        List Role) (part : List ℕ) (choice : Choice L A C) (shown : A) (m : ℕ)
        (w after : World R L) →
        Laws join s → MayChange k l new part m → IsResting k l w → AreProperAt s part w → Changes A C join s k trio trio_roles choice new shown m part w after → (n : ℕ) → IsTrue (is_among n part) → HasAlone k new (after.nodes n) }
    ensures others { (join : R → R →
        R) (s : Words R) (k : Layouts L) (l new trio : L) (trio_roles : List Role →
        List Role) (part : List ℕ) (choice : Choice L A C) (shown : A) (m : ℕ)
        (w after : World R L) →
        Laws join s → MayChange k l new part m → IsResting k l w → AreProperAt s part w → Changes A C join s k trio trio_roles choice new shown m part w after → (n : ℕ) → is_among n part ≡ false → after.nodes n ≡ w.nodes n }
{}

/// Where replicas are equal before a change they are equal after it, with the same rows, in the sets of the new version, and
/// no other node has any row, if no two strings that its rounds hash for walks have one digest. Whatever digests there are,
/// the outboxes are as they were, and what a node has some node had before, rows and blocks.
pub fn changes_keep_rows<R, L, A, C>()
    ensures equal { (join : R → R →
        R) (s : Words R) (k : Layouts L) (l new trio : L) (trio_roles : List Role →
        List Role) (part : List ℕ) (choice : Choice L A C) (shown : A) (m : ℕ)
        (w after : World R L) →
        JoinLaws join → Laws join s → IsQuiet s → MayChange k l new part m → IsResting k l w → AreEqual join s k l (accepted_in join s k l w) →
        (is : Changes A C join s k trio trio_roles choice new shown m part w after) → AreSpelled A C join s k trio trio_roles is.acked (each choice Sync part) →
        NoClash (RoundHashes A C join s k trio trio_roles choice new shown m part w after is) →
        AreEqual join s k new (accepted_in join s k new after) }
    ensures handed_on { (join : R → R →
        R) (s : Words R) (k : Layouts L) (l new trio : L) (trio_roles : List Role →
        List Role) (part : List ℕ) (choice : Choice L A C) (shown : A) (m : ℕ)
        (w after : World R L) →
        JoinLaws join → Laws join s → IsQuiet s → MayChange k l new part m → IsResting k l w → AreEqual join s k l (accepted_in join s k l w) →
        (is : Changes A C join s k trio trio_roles choice new shown m part w after) → AreSpelled A C join s k trio trio_roles is.acked (each choice Sync part) →
        NoClash (RoundHashes A C join s k trio trio_roles choice new shown m part w after is) →
        (p n b : ℕ) → p < 256 → IsTrue (is_among n (set_of k new p)) → IsTrue (is_among b (set_of k l p)) → rows_in s p (rows join s (after.nodes n).accepted) ≡ rows_in s p (rows join s (w.nodes b).accepted) }
    ensures outboxes { (join : R → R →
        R) (s : Words R) (k : Layouts L) (l new trio : L) (trio_roles : List Role →
        List Role) (part : List ℕ) (choice : Choice L A C) (shown : A) (m : ℕ)
        (w after : World R L) →
        JoinLaws join → Laws join s → IsQuiet s → MayChange k l new part m → IsResting k l w → AreEqual join s k l (accepted_in join s k l w) →
        (is : Changes A C join s k trio trio_roles choice new shown m part w after) → AreSpelled A C join s k trio trio_roles is.acked (each choice Sync part) →
        (n : ℕ) → (after.nodes n).items ≡ (w.nodes n).items }
    ensures nothing_new { (join : R → R →
        R) (s : Words R) (k : Layouts L) (l new trio : L) (trio_roles : List Role →
        List Role) (part : List ℕ) (choice : Choice L A C) (shown : A) (m : ℕ)
        (w after : World R L) →
        JoinLaws join → Laws join s → IsQuiet s → MayChange k l new part m → IsResting k l w → AreEqual join s k l (accepted_in join s k l w) →
        (is : Changes A C join s k trio trio_roles choice new shown m part w after) → AreSpelled A C join s k trio trio_roles is.acked (each choice Sync part) →
        (n table : ℕ) (key : List ℕ) (r : R) → row_at join s (after.nodes n).accepted table key ≡ Some r → (o : ℕ) × (row_at join s (w.nodes o).accepted table key ≡ Some r) }
    ensures blocks { (join : R → R →
        R) (s : Words R) (k : Layouts L) (l new trio : L) (trio_roles : List Role →
        List Role) (part : List ℕ) (choice : Choice L A C) (shown : A) (m : ℕ)
        (w after : World R L) →
        JoinLaws join → Laws join s → IsQuiet s → MayChange k l new part m → IsResting k l w → AreEqual join s k l (accepted_in join s k l w) →
        (is : Changes A C join s k trio trio_roles choice new shown m part w after) → AreSpelled A C join s k trio trio_roles is.acked (each choice Sync part) →
        (n : ℕ) → AllKept (IsKeptIn w) (after.nodes n).blocks }
{}

/// Where members of the newest version have it alone, no request is open and nothing waits, each world of a run is at rest.
pub fn reached_worlds_come_to_rest<R, L>()
    ensures { (k : Layouts L) (l : L) (w : World R L) → Follows k 256 w → IsLayout k 256 l →
        ((n : ℕ) → IsMember k l n → (w.nodes n).view.layouts ≡ l ∷ []) →
        w.applied ≡ k.reading.version l →
        ((n : ℕ) → (w.nodes n).calls ≡ []) → length w.messages ≡ length w.marks → waiting w ≡ [] → IsResting k l w }
{}

/// A calm run from an accounted world changes no view and no round, and applies no version, so that a cluster that was at
/// rest is at rest again when nothing waits and no request is open.
pub fn calm_runs_come_to_rest<R, L, A, C>()
    ensures { (join : R → R →
        R) (s : Words R) (k : Layouts L) (l trio : L) (trio_roles : List Role →
        List Role) (base : ℕ → List R) (w : World R L) (moves : List (Move R L A C)) →
        Laws join s → IsLayout k 256 l → IsResting k l w → IsAccounted s k l base w → IsCalmRun k l join s trio trio_roles w moves →
        (let then = run join s k trio trio_roles w moves in
        waiting then ≡ [] → length then.messages ≡ length then.marks → ((n : ℕ) → (then.nodes n).calls ≡ []) → IsResting k l then) }
{}

/// The steps of a change are a run, in which no time passes, no clock is set, no request begins or ends, and nodes keep the
/// blocks that their rows need. What its rounds hash for walks that run hashes.
pub fn changes_are_runs<R, L, A, C>()
    ensures leads { (join : R → R →
        R) (s : Words R) (k : Layouts L) (new trio : L) (trio_roles : List Role →
        List Role) (part : List ℕ) (choice : Choice L A C) (shown : A) (m : ℕ)
        (w after : World R L) →
        (is : Changes A C join s k trio trio_roles choice new shown m part w after) → after ≡ forget_delivered (run join s k trio trio_roles w (moves_of A C join s k trio trio_roles choice new shown m part w after is)) }
    ensures time { (join : R → R →
        R) (s : Words R) (k : Layouts L) (new trio : L) (trio_roles : List Role →
        List Role) (part : List ℕ) (choice : Choice L A C) (shown : A) (m : ℕ)
        (w after : World R L) →
        Changes A C join s k trio trio_roles choice new shown m part w after → (after.time ≡ w.time) × ((n : ℕ) → after.skew_of n ≡ w.skew_of n) × (after.requests ≡ w.requests) }
    ensures hashes { (join : R → R →
        R) (s : Words R) (k : Layouts L) (new trio : L) (trio_roles : List Role →
        List Role) (part : List ℕ) (choice : Choice L A C) (shown : A) (m : ℕ)
        (w after : World R L) →
        (is : Changes A C join s k trio trio_roles choice new shown m part w after) → (x : List ℕ) → RoundHashes A C join s k trio trio_roles choice new shown m part w after is x →
        RunHashes s join k trio trio_roles w (moves_of A C join s k trio trio_roles choice new shown m part w after is) x }
    ensures stocked { (digest : List ℕ → List ℕ) (join : R → R →
        R) (s : Words R) (k : Layouts L) (new trio : L) (trio_roles : List Role →
        List Role) (part : List ℕ) (choice : Choice L A C) (shown : A) (m : ℕ)
        (w after : World R L) →
        Laws join s → (is : Changes A C join s k trio trio_roles choice new shown m part w after) → AreSpelled A C join s k trio trio_roles w (moves_of A C join s k trio trio_roles choice new shown m part w after is) →
        AllStocked digest s join w → AllStocked digest s join after }
{}

/// The members of both layouts, in order of numbers, may take part in a change: none stands twice, and none is left out.
pub fn members_of_both_take_part<L>()
    ensures apart { (k : Layouts L) (l new : L) → AreApart (members_of_both k l new) }
    ensures members { (k : Layouts L) (l new : L) (n : ℕ) → IsMember k l n →
        IsTrue (is_among n (members_of_both k l new)) }
    ensures members_new { (k : Layouts L) (l new : L) (n : ℕ) → IsMember k new n →
        IsTrue (is_among n (members_of_both k l new)) }
{}
