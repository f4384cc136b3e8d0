//! Rows of the object store that a run within its limits can have, and how many bytes they count. No body does more
//! than name laws: each is called for its contract.
//!
//! A row fits (`RowFits`) where its versions were drawn, its blocks lie at places where some were stored, and its numbers
//! are in their ranges.
#![tactic(auto)]

ghost use Rattle.std.specs.Prelude.{◌≡◌, ◌≤◌, ◌+◌, ℕ, length, Option};
ghost use Rattle.crdt_rows.specs.declared.any_row.AnyRow.{AnyRow};
ghost use Rattle.crdt_rows.specs.AnyRow.{any_join};
ghost use Rattle.object_schema.specs.Schema.{words};
ghost use Rattle.object_schema.specs.Triggers.{triggered};
ghost use Rattle.row_codec.specs.Rows.{spelling};
ghost use Rattle.row_codec.specs.Spelling.{spelled};
ghost use Rattle.table_schema.specs.Laws.{Same};
ghost use Rattle.limit_rows.specs.Fitting.{Drawn, AreWithin, RowFits, weight};

use crdt_rows::{
    object_rows_join_as_facts, reference_rows_join_as_facts, version_rows_join_as_facts,
};

/// Where so few versions were drawn, and so few blocks stored, each row that fits has a spelling.
pub fn rows_that_fit_have_a_spelling()
    ensures { (t : ℕ) (v : Drawn) → AreWithin t v → (r : AnyRow) → RowFits v r →
        spelling r ≡ Option.Some (spelled r) }
{}

/// What two rows that fit merge to fits and counts, with one byte for each row that the merge calls for, no more bytes than
/// both.
pub fn merges_count_no_more()
    ensures fits { (t : ℕ) (v : Drawn) → AreWithin t v → (a b : AnyRow) → Same words a b →
        RowFits v a → RowFits v b → RowFits v (any_join a b) }
    ensures counts { (t : ℕ) (v : Drawn) → AreWithin t v → (a b : AnyRow) → Same words a b →
        RowFits v a → RowFits v b → weight (any_join a b) + length
        (triggered a (any_join a b)) ≤ weight a + weight b }
{
    object_rows_join_as_facts();
    version_rows_join_as_facts();
    reference_rows_join_as_facts();
}
