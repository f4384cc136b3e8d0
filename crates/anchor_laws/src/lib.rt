//! Every row that was kept lies at two nodes, with the block that it needs. No body does more than name laws: each is
//! called for its contract.
//!
//! `kept_rows_have_their_blocks` says it of any rows, or that the row was collected. `kept_references_are_anchored` says it of the object store's: a live
//! reference that was kept lies, live and with its block, at two nodes, or its version is gone (`IsGone` of
//! `object_origins`): a store phase began to store a newer version of the same bucket id and key complete, or the version
//! itself aborted. `undeleted_references_are_anchored` says it where each identifier stands for one version of one object.
//!
//! Four computed runs show that what the laws ask of runs is met together, what it refuses, and when a block goes. They are
//! over one reference to one block (`specs/OneReference.antt`), and worked out by hand from the machine's rules.
//!
//! `R` is what a row is, `L` what a layout is, `A` what is printed of one, `C` what shows that there is none; `digest` is
//! the function that names blocks, whatever it is.
#![tactic(auto)]

ghost use Rattle.std.specs.Prelude.{◌≡◌, ◌≤◌, ◌⊎◌, ℕ, true, false, List, [], ◌∷◌, ◌++◌, Option};
ghost use Rattle.std.specs.List.{All, Contains};
ghost use Rattle.crdt_core.specs.Laws.{JoinLaws};
ghost use Rattle.layout_roles.specs.declared.role.Role.{Role};
ghost use Rattle.table_schema.specs.Words.{Words};
ghost use Rattle.table_schema.specs.Laws.{Laws};
ghost use Rattle.blake2_hash.specs.declared.digest.Hash32.{Hash32};
ghost use Rattle.crdt_rows.specs.declared.version.Version.{Version};
ghost use Rattle.crdt_rows.specs.declared.state.State.TheVariants.{Aborted};
ghost use Rattle.crdt_rows.specs.declared.ref_row.RefRow.{RefRow};
ghost use Rattle.crdt_rows.specs.declared.any_row.AnyRow.{AnyRow as Row};
ghost use Rattle.crdt_rows.specs.declared.any_row.AnyRow.TheVariants.{Ref};
ghost use Rattle.crdt_rows.specs.AnyRow.{any_join};
ghost use Rattle.object_schema.specs.Schema.{words};
ghost use Rattle.cluster_machine.specs.declared.step.Step.TheVariants.{Tick, Work};
ghost use Rattle.cluster_machine.specs.declared.step.Words.TheVariants.{Two};
ghost use Rattle.cluster_machine.specs.Layouts.{Layouts};
ghost use Rattle.cluster_machine.specs.World.{empty};
ghost use Rattle.cluster_machine.specs.Run.{Move, IsLayout, IsRun, run};
ghost use Rattle.cluster_machine.specs.Hashes.{RunHashes, NoClash};
ghost use Rattle.machine_origins.specs.Origins.{stored_by, stored_in};
ghost use Rattle.machine_laws.specs.Toy.{toys, one_two_three, same_roles};
ghost use Rattle.machine_reads.specs.Holders.{AreTwo, WasCollected};
ghost use Rattle.cluster_machine.specs.Blocks.{StepBringsBlocks};
ghost use Rattle.object_origins.specs.Gone.{WasStored, IsOverwritten, IsGone, AreDrawn, deletes_nothing};
ghost use Rattle.anchor_laws.specs.Anchored.{HoldsWithBlock, Anchors};
ghost use Rattle.anchor_laws.specs.OneReference.{references, either, digest, live, deleted, block, put, put_without_block, put_of_block, put_and_deleted, after, answer, plain};

use block_laws::every_node_has_its_blocks;
use crdt_rows::AnyRow;
use machine_origins::{collected_rows_are_stored_objects, every_node_has_stored_rows};
use machine_reads::every_kept_row_is_held;
use object_origins::{gone_versions_were_overwritten, rows_show_what_was_stored};

/// At the end of every run of the cluster's machine whose store phases have beside each row the block that it needs, two
/// nodes have, at the table and key of each row that a store phase kept, a row that is at least it, and the block that
/// that row needs, or what was collected there is at least it. This and the two laws below hold where no two strings that
/// the run hashes for walks have one digest.
pub fn kept_rows_have_their_blocks<R, L, A, C>()
    ensures { (digest : List ℕ → List ℕ) (join : R → R →
        R) (s : Words R) (k : Layouts L) (trio : L) (trio_roles : List Role →
        List Role) (partitions : ℕ) (moves : List (Move R L A C)) →
        JoinLaws join → Laws join s → 1 ≤ partitions → IsLayout k partitions trio → k.reading.version trio ≡ 1 →
        IsRun join s k trio trio_roles partitions empty moves → NoClash (RunHashes s join k trio trio_roles empty moves) → All (λ m. StepBringsBlocks digest s m.step) moves →
        (row : R) → Contains (run join s k trio trio_roles empty moves).kept row →
        AreTwo (HoldsWithBlock digest join s (run join s k trio trio_roles empty moves) row) ⊎ WasCollected join s (run join s k trio trio_roles empty moves) row }
{
    every_kept_row_is_held::<R, L, A, C>();
    every_node_has_its_blocks::<R, L, A, C>();
}

/// At the end of every run of the machine over the object store's rows, whose store phases store neither deleted version
/// rows nor deleted references, and have beside each live reference its block: each live reference that was kept lies at
/// two nodes, live and with its block, or its version is gone.
pub fn kept_references_are_anchored<L, A, C>()
    ensures { (digest : List ℕ → List ℕ) (k : Layouts L) (trio : L) (trio_roles : List Role →
        List Role) (partitions : ℕ) (moves : List (Move Row L A C)) →
        1 ≤ partitions → IsLayout k partitions trio → k.reading.version trio ≡ 1 →
        IsRun any_join words k trio trio_roles partitions empty moves → NoClash (RunHashes words any_join k trio trio_roles empty moves) → All (λ m. StepBringsBlocks digest words m.step) moves →
        All (λ m. All (λ r. deletes_nothing r ≡ true) (stored_by m.step)) moves →
        (r : RefRow) → r.deleted.0 ≡ false → Contains (run any_join words k trio trio_roles empty moves).kept (Ref r) →
        IsGone (stored_in moves) r.id ⊎ AreTwo (Anchors digest (run any_join words k trio trio_roles empty moves) r) }
{
    kept_rows_have_their_blocks::<AnyRow, L, A, C>();
    every_kept_row_is_held::<AnyRow, L, A, C>();
    every_node_has_its_blocks::<AnyRow, L, A, C>();
    every_node_has_stored_rows::<AnyRow, L, A, C>();
    collected_rows_are_stored_objects::<AnyRow, L, A, C>();
    rows_show_what_was_stored();
}

/// In such a run, where under each identifier one version of one object was begun to be stored: each live reference that
/// was kept lies at two nodes, live and with its block, unless its version was begun to be stored aborted, or a newer
/// version of the same object was begun to be stored complete.
pub fn undeleted_references_are_anchored<L, A, C>()
    ensures { (digest : List ℕ → List ℕ) (k : Layouts L) (trio : L) (trio_roles : List Role →
        List Role) (partitions : ℕ) (moves : List (Move Row L A C)) (draw : ℕ →
        Option ((Hash32 × List ℕ) × Version)) →
        1 ≤ partitions → IsLayout k partitions trio → k.reading.version trio ≡ 1 →
        IsRun any_join words k trio trio_roles partitions empty moves → NoClash (RunHashes words any_join k trio trio_roles empty moves) → All (λ m. StepBringsBlocks digest words m.step) moves →
        All (λ m. All (λ r. deletes_nothing r ≡ true) (stored_by m.step)) moves → AreDrawn (stored_in moves) draw →
        (r : RefRow) → r.deleted.0 ≡ false → Contains (run any_join words k trio trio_roles empty moves).kept (Ref r) →
        (key : Hash32 × List ℕ) (v : Version) → draw r.id ≡ Option.Some (key, v) →
        ¬ (IsOverwritten (stored_in moves) key v) → ¬ (WasStored (stored_in moves) key v Aborted) →
        AreTwo (Anchors digest (run any_join words k trio trio_roles empty moves) r) }
{
    kept_references_are_anchored::<L, A, C>();
    gone_versions_were_overwritten();
}

/// A reference is stored with its block at nodes 1 and 2, and so it is kept. The run meets what the laws ask of runs, and
/// the schema is lawful.
pub fn a_kept_reference_has_its_block()
    ensures lawful { Laws either references }
    ensures is_run { IsRun either references toys one_two_three same_roles 1 empty put }
    ensures brings { All (λ m. StepBringsBlocks digest references m.step) put }
    ensures kept { (after put).kept ≡ live ∷ [] }
    ensures first { ((after put).nodes 1).blocks ≡ block ∷ [] }
    ensures third { ((after put).nodes 3).blocks ≡ [] }
{}

/// A reference that is stored without its block is kept all the same, and no node has the block. The premise that rows come
/// with their blocks refuses such a run.
pub fn a_reference_alone_is_refused()
    ensures kept { (after put_without_block).kept ≡ live ∷ [] }
    ensures first { ((after put_without_block).nodes 1).blocks ≡ [] }
    ensures second { ((after put_without_block).nodes 2).blocks ≡ [] }
    ensures third { ((after put_without_block).nodes 3).blocks ≡ [] }
    ensures refused { ¬ (All (λ m. StepBringsBlocks digest references m.step) put_without_block) }
{}

/// A block that comes before its reference, beside a row that needs none, isn't kept by the nodes that confirm that row. The
/// premise refuses this run too.
pub fn a_block_alone_is_refused()
    ensures kept { (after put_of_block).kept ≡ deleted ∷ [] }
    ensures first { ((after put_of_block).nodes 1).blocks ≡ [] }
    ensures second { ((after put_of_block).nodes 2).blocks ≡ [] }
    ensures refused { ¬ (All (λ m. StepBringsBlocks digest references m.step) put_of_block) }
{}

/// A block stays while a reference to it is live, and 600,000 milliseconds after the last one was deleted it goes.
pub fn a_block_goes_after_its_last_reference()
    ensures live { answer (put ++ plain (Tick 600000) ∷ []) (Work 1) ≡ Two 0 0 }
    ensures early { answer (put_and_deleted ++ plain (Tick 599999) ∷ []) (Work 1) ≡ Two 0 0 }
    ensures due { answer (put_and_deleted ++ plain (Tick 600000) ∷ []) (Work 1) ≡ Two 0 1 }
    ensures gone { ((after (put_and_deleted ++ plain (Tick 600000) ∷ plain
        (Work 1) ∷ [])).nodes 1).blocks ≡ [] }
{}
