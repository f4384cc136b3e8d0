//! Collections of delete markers in every prompt run of the machine. No body does anything: each is called for its
//! contract.
//!
//! The proof follows every step of the machine with actions of the world of one key (collection_model), whose law
//! then says that nothing below a collected marker is there or comes: `specs/Tie.antt` says what the machine's rows,
//! messages and collections are there. `specs/Prompt.antt` says which runs are prompt.
//!
//! `R` is what a row is, `L` what a layout is, `A` what is printed of one, `C` what shows that there is none.
#![tactic(auto)]

mod samples;

ghost use Rattle.std.specs.Prelude.{◌≡◌, ◌≤◌, ◌+◌, ℕ, false, None, Some, List, [], ◌++◌, IsTrue};
ghost use Rattle.std.specs.List.{AllByRecursion};
ghost use Rattle.crdt_core.specs.Members.{Has};
ghost use Rattle.layout_roles.specs.declared.role.Role.{Role};
ghost use Rattle.table_schema.specs.Words.{Words};
ghost use Rattle.table_schema.specs.Laws.{Laws};
ghost use Rattle.table_model.specs.Rows.{row_at};
ghost use Rattle.cluster_machine.specs.Layouts.{Layouts};
ghost use Rattle.cluster_machine.specs.World.{Sent, empty};
ghost use Rattle.cluster_machine.specs.Run.{Move, IsLayout, IsRun, run};
ghost use Rattle.machine_collects.specs.Versions.{Version, Versions, VersionLaws, hour};
ghost use Rattle.machine_collects.specs.Prompt.{IsPrompt};
ghost use Rattle.machine_collects.specs.Carried.{Carries};
ghost use Rattle.machine_collects.specs.Without.{AreOther, IsBare};

pub use samples::a_run_collects;

/// From the moment at which a delete marker was collected, in every prompt run of the cluster's machine: no node has
/// a row of its key with a version below it, and no message that may still come, an answer or a row to be stored,
/// carries one.
pub fn nothing_below<R, L, A, C>()
    ensures nodes { (join : R → R →
        R) (s : Words R) (v : Versions R) (k : Layouts L) (trio : L) (trio_roles : List Role →
        List Role) (partitions : ℕ) (before later : List (Move R L A C)) →
        Laws join s → VersionLaws join s v → 1 ≤ partitions → IsLayout k partitions trio → k.reading.version trio ≡ 1 →
        IsRun join s k trio trio_roles partitions empty (before ++ later) → IsPrompt join s v k trio trio_roles (before ++ later) →
        (r : R) (u : Version) → Has (run join s k trio trio_roles empty before).collected r → s.marker r ≡ Some u →
        (n : ℕ) (x : R) → row_at join s ((run join s k trio trio_roles empty (before ++ later)).nodes n).accepted 1 (s.key r) ≡ Some x → v.below x u ≡ false }
    ensures messages { (join : R → R →
        R) (s : Words R) (v : Versions R) (k : Layouts L) (trio : L) (trio_roles : List Role →
        List Role) (partitions : ℕ) (before later : List (Move R L A C)) →
        Laws join s → VersionLaws join s v → 1 ≤ partitions → IsLayout k partitions trio → k.reading.version trio ≡ 1 →
        IsRun join s k trio trio_roles partitions empty (before ++ later) → IsPrompt join s v k trio trio_roles (before ++ later) →
        (r : R) (u : Version) → Has (run join s k trio trio_roles empty before).collected r → s.marker r ≡ Some u →
        (x : Sent R L) (q : R) → Has (run join s k trio trio_roles empty (before ++ later)).messages x → (run join s k trio trio_roles empty (before ++ later)).time ≤ x.moment + hour →
        Carries s x.packet q → IsTrue (s.is_proper q) → s.table q ≡ 1 → s.key q ≡ s.key r → v.below q u ≡ false }
{}

/// Only delete markers are collected in a prompt run: each row that was collected is an object row with nothing else.
pub fn only_tombstones<R, L, A, C>()
    ensures { (join : R → R →
        R) (s : Words R) (v : Versions R) (k : Layouts L) (trio : L) (trio_roles : List Role →
        List Role) (partitions : ℕ) (moves : List (Move R L A C)) →
        Laws join s → VersionLaws join s v → 1 ≤ partitions → IsLayout k partitions trio → k.reading.version trio ≡ 1 →
        IsRun join s k trio trio_roles partitions empty moves → IsPrompt join s v k trio trio_roles moves →
        (r : R) → Has (run join s k trio trio_roles empty moves).collected r → (u : Version) × (s.marker r ≡ Some u) }
{}

/// In a run without the step `collect` nothing is collected, and no message is about collections.
pub fn nothing_without_collect<R, L, A, C>()
    ensures { (join : R → R → R) (s : Words R) (k : Layouts L) (trio : L) (trio_roles : List Role →
        List Role) (moves : List (Move R L A C)) → AreOther moves →
        ((run join s k trio trio_roles empty moves).collected ≡ []) × AllByRecursion (λ (x : Sent R L). IsBare x.packet) (run join s k trio trio_roles empty moves).messages }
{}

/// Where no row has nothing but a delete marker nothing is collected, whichever nodes are told to collect.
pub fn nothing_without_markers<R, L, A, C>()
    ensures { (join : R → R → R) (s : Words R) (k : Layouts L) (trio : L) (trio_roles : List Role →
        List Role) (moves : List (Move R L A C)) → ((r : R) → s.marker r ≡ None) →
        (run join s k trio trio_roles empty moves).collected ≡ [] }
{}
