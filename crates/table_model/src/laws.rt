//! What follows from the laws of every schema. No body does anything: each is called for its contract.
ghost use Rattle.std.specs.Prelude.{◌≡◌, ℕ, List, filter};
ghost use Rattle.std.specs.List.Sorted.{IsStrictlySortedBy};
ghost use Rattle.crdt_core.specs.Order.{join_of, SameMembers};
ghost use Rattle.table_model.specs.Rows.{AllProper, row_cmp, is_at, row_at, rows, find_row, rows_in, without};
ghost use Rattle.table_model.specs.Top.{root_of, roots, top};

use table_schema::Schema;

/// A table's row is the join of its list: at each table and key the rows of contents have the join of the members
/// there. The rows are proper, and ascend strictly by table and key.
pub fn rows_are_joins<S: Schema>()
    ensures join { (contents : List S.Row) (table : ℕ) (key : List ℕ) →
        row_at S.Row.join S.words contents table key ≡ join_of S.Row.join
        (filter (is_at S.words table key) contents) }
    ensures found { (contents : List S.Row) (table : ℕ) (key : List ℕ) →
        AllProper S.words contents → find_row S.words table key (rows S.Row.join S.words contents) ≡
        row_at S.Row.join S.words contents table key }
    ensures ascending { (contents : List S.Row) → AllProper S.words contents →
        IsStrictlySortedBy (row_cmp S.words) (rows S.Row.join S.words contents) }
    ensures proper { (contents : List S.Row) → AllProper S.words contents →
        AllProper S.words (rows S.Row.join S.words contents) }
{}

/// Each partition's rows are those of its own members, and to drop a partition's rows is to drop its members.
pub fn partitions_are_apart<S: Schema>()
    ensures kept { (contents : List S.Row) (p : ℕ) → AllProper S.words contents →
        rows S.Row.join S.words (rows_in S.words p contents) ≡ rows_in S.words p
        (rows S.Row.join S.words contents) }
    ensures dropped { (contents : List S.Row) (p : ℕ) → AllProper S.words contents →
        rows S.Row.join S.words (without S.words p contents) ≡ without S.words p
        (rows S.Row.join S.words contents) }
{}

/// Contents with the same members have the same rows, the same roots and the same top. Where they have the same
/// members of one partition, they have the same rows and roots of that partition.
pub fn same_members_give_same_rows<S: Schema>()
    ensures rows { (a b : List S.Row) → AllProper S.words a → SameMembers a b →
        rows S.Row.join S.words a ≡ rows S.Row.join S.words b }
    ensures roots { (a b : List S.Row) → AllProper S.words a → SameMembers a b →
        roots S.words (rows S.Row.join S.words a) ≡ roots S.words (rows S.Row.join S.words b) }
    ensures top { (a b : List S.Row) → AllProper S.words a → SameMembers a b →
        top S.words (rows S.Row.join S.words a) ≡ top S.words (rows S.Row.join S.words b) }
    ensures partition_rows { (a b : List S.Row) (p : ℕ) → AllProper S.words a →
        AllProper S.words b → SameMembers (rows_in S.words p a) (rows_in S.words p b) →
        rows_in S.words p (rows S.Row.join S.words a) ≡ rows_in S.words p
        (rows S.Row.join S.words b) }
    ensures partition_roots { (a b : List S.Row) (p table : ℕ) → AllProper S.words a →
        AllProper S.words b → SameMembers (rows_in S.words p a) (rows_in S.words p b) →
        root_of S.words table p (rows S.Row.join S.words a) ≡ root_of S.words table p
        (rows S.Row.join S.words b) }
{}
