//! What the object store's rows show of the rows that store phases began to store. No body does more than name laws:
//! each is called for its contract.
//!
//! Rows merge, and changes of rows call for others; where no deleted version row and no deleted reference is ever stored by
//! a request, each such row was called for: a reference by the change of a version row that became deleted, a version row
//! by the change of an object row that lost the version below a newer complete one, or holds it aborted. So a deleted row
//! tells that its version is gone (`IsGone`), as the list of all rows says that store phases began to store.
#![tactic(auto)]

ghost use Rattle.std.specs.Prelude.{◌≡◌, ◌⊎◌, ◌↔◌, ℕ, true, false, List, Option};
ghost use Rattle.std.specs.List.{All, Contains};
ghost use Rattle.blake2_hash.specs.declared.digest.Hash32.{Hash32};
ghost use Rattle.crdt_core.specs.Order.{AtMost};
ghost use Rattle.crdt_rows.specs.declared.version.Version.{Version};
ghost use Rattle.crdt_rows.specs.declared.state.State.TheVariants.{Aborted};
ghost use Rattle.crdt_rows.specs.declared.version_row.Part.{Part};
ghost use Rattle.crdt_rows.specs.declared.version_row.BlockRef.{BlockRef};
ghost use Rattle.crdt_rows.specs.declared.version_row.VersionRow.{VersionRow};
ghost use Rattle.crdt_rows.specs.declared.any_row.AnyRow.{AnyRow};
ghost use Rattle.crdt_rows.specs.declared.any_row.AnyRow.TheVariants.{Version as VersionIs};
ghost use Rattle.crdt_rows.specs.VersionRow.{is_deleted, version_row_join};
ghost use Rattle.crdt_rows.specs.Facts.{HasBlock};
ghost use Rattle.crdt_rows.specs.AnyRow.{any_join};
ghost use Rattle.object_schema.specs.Schema.{words};
ghost use Rattle.machine_origins.specs.Origins.{ComesFrom};
ghost use Rattle.object_origins.specs.Gone.{WasStored, IsOverwritten, IsGone, AreDrawn, deletes_nothing};
ghost use Rattle.object_origins.specs.Shown.{KeepsBlock, BlockWasStored, HasOneBlockAtEach, ShowsVersion, Shows};

use crdt_rows::{
    object_rows_join_as_facts, reference_rows_join_as_facts, version_rows_join_as_facts,
};

/// A row that comes from stored rows, none of which is of a deleted version or a deleted reference, shows only what was
/// stored: each version of an object row, in the state that the row says; each block of a version row, at its place. And
/// the version of a deleted version row or of a deleted reference is gone.
pub fn rows_show_what_was_stored()
    ensures { (stored : List AnyRow) (row : AnyRow) → All (λ r. deletes_nothing r ≡ true) stored →
        ComesFrom any_join words stored row → Shows stored row }
{
    object_rows_join_as_facts();
    version_rows_join_as_facts();
    reference_rows_join_as_facts();
}

/// Where stored rows speak under each identifier of one version of one bucket and key alone, and the identifier of a version
/// is gone, a newer version of its bucket and key was stored complete, or the version itself was stored aborted.
pub fn gone_versions_were_overwritten()
    ensures { (stored : List AnyRow) (draw : ℕ → Option ((Hash32 × List ℕ) × Version)) →
        AreDrawn stored draw →
        (id : ℕ) (key : Hash32 × List ℕ) (v : Version) → draw id ≡ Option.Some (key, v) → IsGone stored id → IsOverwritten stored key v ⊎ WasStored stored key v Aborted }
{}

/// A version row that is at least another one of the version, and is not deleted, has a block at each place where that one
/// has one, and none below it.
pub fn version_rows_keep_their_blocks()
    ensures { (r v : VersionRow) → v.id ≡ r.id → AtMost version_row_join r v →
        is_deleted v ≡ false → (p : Part) (x : BlockRef) → HasBlock r p x → KeepsBlock v p x }
{
    version_rows_join_as_facts();
}

/// A version row whose blocks were all stored, and that is at least each row that was stored of its version, is deleted or
/// has just the blocks that were stored of the version, where these were one at each place.
pub fn version_rows_are_whole_or_deleted()
    ensures { (stored : List AnyRow) (v : VersionRow) → ShowsVersion stored v →
        ((r : VersionRow) → Contains stored (VersionIs r) → r.id ≡ v.id → AtMost version_row_join r v) → HasOneBlockAtEach stored v.id →
        is_deleted v ≡ false → (p : Part) (x : BlockRef) → HasBlock v p x ↔ BlockWasStored stored v.id p x }
{
    version_rows_join_as_facts();
}
