//! The laws of every schema, for those who are generic over one. No body does anything: each is called for its
//! contract.
ghost use Rattle.std.specs.Prelude.{◌≡◌, ◌≤◌, ◌<◌, ◌↔◌, ℕ, List, Some, None, length, IsTrue};
ghost use Rattle.std.specs.List.{Contains};
ghost use Rattle.table_schema.specs.Words.{partition_of};
ghost use Rattle.table_schema.specs.Laws.{Same};

use crate::schema::Schema;

/// A row is read back from its bytes, and no other bytes are read as it.
pub fn rows_are_read_back<S: Schema>()
    ensures reads_back { (r : S.Row) (bytes : List ℕ) → (S.words.read bytes ≡ Some r) ↔
        (S.words.spelling r ≡ Some bytes) }
    ensures proper { (r : S.Row) (bytes : List ℕ) → S.words.read bytes ≡ Some r →
        IsTrue (S.words.is_proper r) }
{}

/// A proper row is of one of three tables and has a position of 32 bytes, which its table and key decide.
pub fn rows_have_one_place<S: Schema>()
    ensures table { (r : S.Row) → IsTrue (S.words.is_proper r) → (1 ≤ S.words.table r) ×
        (S.words.table r ≤ 3) }
    ensures position { (r : S.Row) → IsTrue (S.words.is_proper r) →
        length (S.words.position r) ≡ 32 }
    ensures partition { (r : S.Row) → IsTrue (S.words.is_proper r) → partition_of S.words r < 256 }
    ensures one_position { (a b : S.Row) → Same S.words a b →
        S.words.position a ≡ S.words.position b }
{}

/// Two rows of one table and key merge to a row of that table, key and position.
pub fn merged_rows_stay<S: Schema>()
    ensures proper { (a b : S.Row) → Same S.words a b →
        IsTrue (S.words.is_proper (S.Row.join a b)) }
    ensures table { (a b : S.Row) → Same S.words a b →
        S.words.table (S.Row.join a b) ≡ S.words.table a }
    ensures key { (a b : S.Row) → Same S.words a b → S.words.key (S.Row.join a b) ≡ S.words.key a }
    ensures position { (a b : S.Row) → Same S.words a b →
        S.words.position (S.Row.join a b) ≡ S.words.position a }
    ensures block { (a b : S.Row) (hash : List ℕ) → Same S.words a b →
        S.words.live_block (S.Row.join a b) ≡ Some hash → (S.words.live_block a ≡ Some hash) ×
        (S.words.live_block b ≡ Some hash) }
{}

/// The rows that a change calls for, and rows with nothing but a delete marker, need no block.
pub fn small_rows_need_no_block<S: Schema>()
    ensures triggered { (old new r : S.Row) → Contains (S.words.triggered old new) r →
        S.words.live_block r ≡ None }
    ensures marked_table { (r : S.Row) (version : ℕ × ℕ) → S.words.marker r ≡ Some version →
        S.words.table r ≡ 1 }
    ensures marked { (r : S.Row) (version : ℕ × ℕ) → S.words.marker r ≡ Some version →
        S.words.live_block r ≡ None }
{}
