//! What read and range phases give in prompt runs of the machine where delete markers were collected. No body does
//! anything: each is called for its contract.
//!
//! `R` is what a row is, `L` what a layout is, `A` what is printed of one, `C` what shows that there is none.
#![tactic(auto)]

ghost use Rattle.std.specs.Prelude.{◌≡◌, ◌≤◌, ℕ, Some, List, [], ◌++◌};
ghost use Rattle.std.specs.List.{AllByRecursion};
ghost use Rattle.crdt_core.specs.Members.{Has};
ghost use Rattle.layout_roles.specs.declared.role.Role.{Role};
ghost use Rattle.table_schema.specs.Words.{Words};
ghost use Rattle.table_schema.specs.Laws.{Laws};
ghost use Rattle.cluster_machine.specs.Layouts.{Layouts};
ghost use Rattle.cluster_machine.specs.World.{empty};
ghost use Rattle.cluster_machine.specs.Run.{Move, IsLayout, IsRun, does, run};
ghost use Rattle.machine_collects.specs.Versions.{Version, Versions, VersionLaws};
ghost use Rattle.machine_collects.specs.Prompt.{EndInTime, IsPrompt, moments_over};
ghost use Rattle.collect_reads.specs.Clean.{GaveNotBelow};

/// From the moment at which a delete marker was collected, in every prompt run of the cluster's machine: no read or
/// range phase gives a row of its key with a version below it, where phases end within an hour of their requests. The
/// answers of such a phase may have come before the marker was collected.
pub fn reads_give_nothing_below<R, L, A, C>()
    ensures { (join : R → R →
        R) (s : Words R) (v : Versions R) (k : Layouts L) (trio : L) (trio_roles : List Role →
        List Role) (partitions : ℕ) (before later : List (Move R L A C)) (move : Move R L A C) →
        Laws join s → VersionLaws join s v → 1 ≤ partitions → IsLayout k partitions trio → k.reading.version trio ≡ 1 →
        IsRun join s k trio trio_roles partitions empty (before ++ later) → IsPrompt join s v k trio trio_roles (before ++ later) →
        EndInTime (moments_over join s k trio trio_roles [] empty (before ++ later)) (run join s k trio trio_roles empty (before ++ later)).time (does join s k trio trio_roles (run join s k trio trio_roles empty (before ++ later)) move).ends →
        (r : R) (u : Version) → Has (run join s k trio trio_roles empty before).collected r → s.marker r ≡ Some u →
        AllByRecursion (GaveNotBelow s v (s.key r) u) (does join s k trio trio_roles (run join s k trio trio_roles empty (before ++ later)) move).reads }
{}
