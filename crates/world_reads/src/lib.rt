//! What reads give in every run of the cluster with the layouts of the code. No body does anything: each is called for its
//! contract.
#![tactic(auto)]

ghost use Rattle.std.specs.Prelude.{◌≡◌, ℕ, None, List, [], ◌++◌};
ghost use Rattle.std.specs.List.{Contains};
ghost use Rattle.layout_roles.specs.declared.layout.Layout.{Layout};
ghost use Rattle.table_model.specs.Rows.{AllProper};
ghost use Rattle.cluster_machine.specs.Node.{Reading};
ghost use Rattle.cluster_machine.specs.World.{empty};
ghost use Rattle.cluster_machine.specs.Kept.{KeptReads};
ghost use Rattle.cluster_machine.specs.Layouts.{layouts};
ghost use Rattle.cluster_machine.specs.Trio.{trio, stage_trio};
ghost use Rattle.cluster_machine.specs.Hashes.{NoClash, RunHashes};
ghost use Rattle.world_reads.specs.Hashed.{StartHashes};
ghost use Rattle.machine_origins.specs.Origins.{ComesFrom, Gave, stored_in};
ghost use Rattle.machine_collects.specs.Without.{AreOther};
ghost use Rattle.machine_origins.specs.Windows.{GaveWindow};
ghost use Rattle.cluster_machine.specs.Worlds.{Doing, IsLawfulRun, IsLawfulStart, run, start, IsSound};

use cluster_machine::applied::Applied;
use layout_roles::{Cut, Layout};
use machine_collects::{nothing_without_collect, nothing_without_markers};
use machine_origins::{
    collected_rows_are_stored_objects, every_range_phase_gives_a_window,
    every_read_gives_stored_rows,
};
use machine_reads::every_run_has_kept_reads;
use table_schema::Schema;
use world_laws::empty_world_is_sound;

/// Whatever comes, each read and range phase that ended gave, joined with what was collected, at least the join of all rows
/// that were kept before it began: over every list of steps of a `World<S>`, in which each apply was given what is computed from the staged roles,
/// where no two strings that are hashed for walks have one digest.
pub fn every_world_has_kept_reads<S: Schema>()
    ensures { (moves : List (Doing S.Row)) → IsLawfulRun S.Row.join S.words empty moves →
        NoClash (RunHashes S.words S.Row.join layouts trio stage_trio empty moves) →
        KeptReads S.Row.join S.words (run S.Row.join S.words empty moves) }
{
    empty_world_is_sound::<S::Row>();
    every_run_has_kept_reads::<S::Row, Layout, Applied, Cut>();
}

/// Each row that a read gave comes from rows that store phases began to store, and a read phase gave a row of the table
/// and key that it asked for.
pub fn every_world_reads_stored_rows<S: Schema>()
    ensures { (moves : List (Doing S.Row)) → IsLawfulRun S.Row.join S.words empty moves →
        (r : Reading S.Row) → Contains (run S.Row.join S.words empty moves).reads r → Gave S.words (ComesFrom S.Row.join S.words (stored_in moves)) r }
{
    empty_world_is_sound::<S::Row>();
    every_read_gives_stored_rows::<S::Row, Layout, Applied, Cut>();
}

/// Each window that a range phase gave has rows of the object table, each at a key that the window names, in ascending
/// order.
pub fn every_world_gives_windows<S: Schema>()
    ensures { (moves : List (Doing S.Row)) → IsLawfulRun S.Row.join S.words empty moves →
        (r : Reading S.Row) → Contains (run S.Row.join S.words empty moves).reads r → GaveWindow S.words r }
{
    empty_world_is_sound::<S::Row>();
    every_range_phase_gives_a_window::<S::Row, Layout, Applied, Cut>();
}

/// Each row that a node accepted is proper, in every world to which lawful steps lead, from the empty one and from one with
/// an installed layout.
pub fn every_world_has_proper_rows<S: Schema>()
    ensures from_empty { (moves : List (Doing S.Row)) → IsLawfulRun S.Row.join S.words empty moves →
        (n : ℕ) → AllProper S.words ((run S.Row.join S.words empty moves).nodes n).accepted }
    ensures from_installed { (before : List (Doing S.Row)) (first : Layout)
        (after : List (Doing S.Row)) → IsLawfulStart S.Row.join S.words before first →
        IsLawfulRun S.Row.join S.words (start S.Row.join S.words before first) after →
        (n : ℕ) → AllProper S.words ((run S.Row.join S.words (start S.Row.join S.words before first) after).nodes n).accepted }
{
    empty_world_is_sound::<S::Row>();
}

/// A lawful run leads to a sound world. So each layout that some node knows, or some view on its way, has the greatest
/// partition size for its roles.
pub fn every_world_is_sound<S: Schema>()
    ensures { (moves : List (Doing S.Row)) → IsLawfulRun S.Row.join S.words empty moves →
        IsSound (run S.Row.join S.words empty moves) }
{
    empty_world_is_sound::<S::Row>();
}

/// The same of every world into which a first layout was installed, after steps that applied none: reads give what was
/// kept or collected, where no digests clash, and only what was stored, range phases give windows, and each layout in use has the
/// greatest partition size.
pub fn every_installed_world_reads_what_was_kept<S: Schema>()
    ensures kept { (before : List (Doing S.Row)) (first : Layout) (after : List (Doing S.Row)) →
        IsLawfulStart S.Row.join S.words before first →
        IsLawfulRun S.Row.join S.words (start S.Row.join S.words before first) after →
        NoClash (StartHashes S.words S.Row.join before first after) → KeptReads S.Row.join S.words (run S.Row.join S.words (start S.Row.join S.words before first) after) }
    ensures stored { (before : List (Doing S.Row)) (first : Layout) (after : List (Doing S.Row)) →
        IsLawfulStart S.Row.join S.words before first →
        IsLawfulRun S.Row.join S.words (start S.Row.join S.words before first) after →
        (r : Reading S.Row) → Contains (run S.Row.join S.words (start S.Row.join S.words before first) after).reads r → Gave S.words (ComesFrom S.Row.join S.words (stored_in (before ++ after))) r }
    ensures windows { (before : List (Doing S.Row)) (first : Layout) (after : List (Doing S.Row)) →
        IsLawfulStart S.Row.join S.words before first →
        IsLawfulRun S.Row.join S.words (start S.Row.join S.words before first) after →
        (r : Reading S.Row) → Contains (run S.Row.join S.words (start S.Row.join S.words before first) after).reads r → GaveWindow S.words r }
    ensures sound { (before : List (Doing S.Row)) (first : Layout) (after : List (Doing S.Row)) →
        IsLawfulStart S.Row.join S.words before first →
        IsLawfulRun S.Row.join S.words (start S.Row.join S.words before first) after →
        IsSound (run S.Row.join S.words (start S.Row.join S.words before first) after) }
{
    empty_world_is_sound::<S::Row>();
    every_run_has_kept_reads::<S::Row, Layout, Applied, Cut>();
    every_read_gives_stored_rows::<S::Row, Layout, Applied, Cut>();
    every_range_phase_gives_a_window::<S::Row, Layout, Applied, Cut>();
}

/// Each row that was collected is an object row, and comes from rows that store phases began to store: in every world to
/// which lawful steps lead, from the empty one and from one with an installed layout.
pub fn every_world_collects_stored_objects<S: Schema>()
    ensures from_empty { (moves : List (Doing S.Row)) → IsLawfulRun S.Row.join S.words empty moves →
        (r : S.Row) → Contains (run S.Row.join S.words empty moves).collected r → (S.words.table r ≡ 1) × ComesFrom S.Row.join S.words (stored_in moves) r }
    ensures from_installed { (before : List (Doing S.Row)) (first : Layout)
        (after : List (Doing S.Row)) → IsLawfulStart S.Row.join S.words before first →
        IsLawfulRun S.Row.join S.words (start S.Row.join S.words before first) after →
        (r : S.Row) → Contains (run S.Row.join S.words (start S.Row.join S.words before first) after).collected r → (S.words.table r ≡ 1) × ComesFrom S.Row.join S.words (stored_in (before ++ after)) r }
{
    empty_world_is_sound::<S::Row>();
    collected_rows_are_stored_objects::<S::Row, Layout, Applied, Cut>();
}

/// Where none of the steps is `collect`, nothing is collected, from the empty world and from one with an installed layout.
pub fn nothing_is_collected_without_collect<S: Schema>()
    ensures from_empty { (moves : List (Doing S.Row)) → AreOther moves →
        (run S.Row.join S.words empty moves).collected ≡ [] }
    ensures from_installed { (before : List (Doing S.Row)) (first : Layout)
        (after : List (Doing S.Row)) → IsLawfulStart S.Row.join S.words before first →
        AreOther before → AreOther after → (run S.Row.join S.words (start S.Row.join S.words before first) after).collected ≡ [] }
{
    empty_world_is_sound::<S::Row>();
    nothing_without_collect::<S::Row, Layout, Applied, Cut>();
}

/// Where no row has nothing but a delete marker, nothing is collected, whichever nodes are told to collect.
pub fn nothing_is_collected_without_markers<S: Schema>()
    ensures { ((r : S.Row) → S.words.marker r ≡ None) → (moves : List (Doing S.Row)) →
        (run S.Row.join S.words empty moves).collected ≡ [] }
{
    nothing_without_markers::<S::Row, Layout, Applied, Cut>();
}
