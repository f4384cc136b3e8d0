//! What merging does to what rows say, for the crates above. No body does anything: each is called for its
//! contract.
ghost use Rattle.std.specs.Prelude.{◌≡◌, ◌||◌, false};
ghost use Rattle.std.specs.Ordering.{nat_cmp};
ghost use Rattle.std.specs.declared.cmp.Ordering.TheVariants.{Less};
ghost use Rattle.crdt_rows.specs.declared.version.Version.{Version as VersionOf};
ghost use Rattle.crdt_rows.specs.declared.object_row.ObjectRow.{ObjectRow};
ghost use Rattle.crdt_rows.specs.declared.version_row.VersionRow.{VersionRow};
ghost use Rattle.crdt_rows.specs.declared.ref_row.RefRow.{RefRow};
ghost use Rattle.crdt_rows.specs.Newest.{later};
ghost use Rattle.crdt_rows.specs.Version.{version_cmp};
ghost use Rattle.crdt_rows.specs.ObjectRow.{object_key, object_key_cmp, object_join, newest, state_at};
ghost use Rattle.crdt_rows.specs.VersionRow.{is_deleted, version_row_join};
ghost use Rattle.crdt_rows.specs.RefRow.{ref_key, ref_key_cmp, ref_row_join};
ghost use Rattle.crdt_rows.specs.Facts.{HasState, IsNewest, IsObjectJoin, HasBlock, IsBlockJoin};

/// An object row says of versions in which state they are. Merging two with one row key joins what they say.
pub fn object_rows_join_as_facts()
    ensures joined { (a b : ObjectRow) → object_key a ≡ object_key b → IsObjectJoin (HasState a) (HasState b) (HasState (object_join a b)) }
    ensures decide { (a b : ObjectRow) → object_key a ≡ object_key b → ((v : VersionOf) → state_at a v ≡ state_at b v) → a ≡ b }
    ensures newest_is { (a : ObjectRow) → IsNewest (HasState a) (newest a) }
    ensures newest_joined { (a b : ObjectRow) → object_key a ≡ object_key b → newest (object_join a b) ≡ later version_cmp (newest a) (newest b) }
    ensures key { (a b : ObjectRow) → object_key a ≡ object_key b → object_key (object_join a b) ≡ object_key a }
    ensures greater_key { (a b : ObjectRow) → object_key_cmp (object_key a) (object_key b) ≡ Less → object_join a b ≡ b }
{}

/// A version row says that it is deleted, or which block is at which place.
pub fn version_rows_join_as_facts()
    ensures deleted { (a b : VersionRow) → a.id ≡ b.id → is_deleted (version_row_join a b) ≡ (is_deleted a || is_deleted b) }
    ensures blocks { (a b : VersionRow) → a.id ≡ b.id → is_deleted a ≡ false → is_deleted b ≡ false → IsBlockJoin (HasBlock a) (HasBlock b) (HasBlock (version_row_join a b)) }
    ensures key { (a b : VersionRow) → a.id ≡ b.id → (version_row_join a b).id ≡ a.id }
    ensures greater_key { (a b : VersionRow) → nat_cmp a.id b.id ≡ Less → version_row_join a b ≡ b }
{}

/// A reference row says whether it is deleted.
pub fn reference_rows_join_as_facts()
    ensures deleted { (a b : RefRow) → ref_key a ≡ ref_key b → (ref_row_join a b).deleted.0 ≡ (a.deleted.0 || b.deleted.0) }
    ensures key { (a b : RefRow) → ref_key a ≡ ref_key b → ref_key (ref_row_join a b) ≡ ref_key a }
    ensures greater_key { (a b : RefRow) → ref_key_cmp (ref_key a) (ref_key b) ≡ Less → ref_row_join a b ≡ b }
{}
