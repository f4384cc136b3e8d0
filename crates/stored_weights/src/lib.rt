//! What rows weigh that come from stored rows. No body does more than name laws: each is called for its contract.
//!
//! A node's rows come from those that store phases began to store, by merges and by what changes call for, whichever messages
//! brought them and however often. So what they weigh is bounded by what was stored, and not by what was delivered.
#![tactic(auto)]

ghost use Rattle.std.specs.Prelude.{◌≡◌, ◌≤◌, ◌<◌, ◌*◌, ◌^◌, ℕ, List, Some};
ghost use Rattle.std.specs.List.{AllByRecursion};
ghost use Rattle.crdt_rows.specs.declared.any_row.AnyRow.{AnyRow};
ghost use Rattle.crdt_rows.specs.AnyRow.{any_join};
ghost use Rattle.limit_rows.specs.Fitting.{weight};
ghost use Rattle.machine_origins.specs.Origins.{ComesFrom};
ghost use Rattle.object_schema.specs.Schema.{words};
ghost use Rattle.table_model.specs.Rows.{AllProper, row_at, rows as rows_of};
ghost use Rattle.stored_weights.specs.Stored.{IsSpelled, entries_in, sum_of, beside, AreOfDifferentPlaces};

use crdt_rows::{
    object_rows_join_as_facts, reference_rows_join_as_facts, version_rows_join_as_facts,
};

/// Where stored rows have spellings, with fewer than 2^32 entries together, each row that comes from them has one.
pub fn rows_from_stored_rows_have_a_spelling()
    ensures { (stored : List AnyRow) (row : AnyRow) → AllByRecursion IsSpelled stored →
        sum_of entries_in stored < 2 ^ 32 → ComesFrom any_join words stored row → IsSpelled row }
{
    object_rows_join_as_facts();
    version_rows_join_as_facts();
    reference_rows_join_as_facts();
}

/// Where stored rows have spellings, and those of the row's own table and key have fewer than 2^32 entries together, a row that
/// comes from stored rows has one, however many entries there are at other places.
pub fn rows_with_few_entries_beside_them_have_a_spelling()
    ensures { (stored : List AnyRow) (row : AnyRow) → AllByRecursion IsSpelled stored → sum_of entries_in (beside row stored) < 2 ^ 32 → ComesFrom any_join words stored row → IsSpelled row }
{
    object_rows_join_as_facts();
    version_rows_join_as_facts();
    reference_rows_join_as_facts();
}

/// Where stored rows have spellings, rows of different places that come from them count no more than twice the bytes of the
/// stored rows, all together. So the rows that contents have, as those of a node, where each comes from the stored rows.
pub fn contents_weigh_no_more()
    ensures of_rows { (stored rows : List AnyRow) → AllByRecursion IsSpelled stored →
        AllByRecursion (ComesFrom any_join words stored) rows → AreOfDifferentPlaces rows →
        sum_of weight rows ≤ 2 * sum_of weight stored }
    ensures of_contents { (stored contents : List AnyRow) → AllByRecursion IsSpelled stored →
        AllProper words contents →
        ((table : ℕ) (key : List ℕ) (row : AnyRow) → row_at any_join words contents table key ≡ Some row → ComesFrom any_join words stored row) → sum_of weight (rows_of any_join words contents) ≤ 2 * sum_of weight stored }
{
    object_rows_join_as_facts();
    version_rows_join_as_facts();
    reference_rows_join_as_facts();
}
