//! What a range phase's window shows, as laws over any rows that have a schema's words. No body does anything: each
//! is called for its contract.
//!
//! A range phase asks two nodes for the first rows of the object table under a prefix, past a start key. Each gives
//! an `answer` from its contents, and the phase gives the window `window_between` the two. A key `IsNamed` that
//! begins as asked, is past the start key and lies in the window (specs/Scans.antt).
//!
//! `R` is what a row is.
#![tactic(auto)]

ghost use Rattle.std.specs.Prelude.{◌≡◌, ◌≤◌, ℕ, List, length, All};
ghost use Rattle.crdt_core.specs.Order.{option_join};
ghost use Rattle.table_schema.specs.Words.{Words};
ghost use Rattle.table_schema.specs.Laws.{Laws};
ghost use Rattle.table_model.specs.Rows.{AllProper, row_at, find_row};
ghost use Rattle.quorum_model.specs.Window.{IsAscending, IsNamed};
ghost use Rattle.range_laws.specs.Scans.{window_between};

/// At each key that a window names, its rows show the merge of what both nodes have there. For this an answer must
/// be allowed one row at least: with none it has no last key, so that it would seem to have shown all.
pub fn windows_show_all<R>()
    ensures { (join : R → R → R) (s : Words R) → Laws join s →
        (position prefix after : List ℕ) (limit : ℕ) (a b : List R) →
        length position ≡ 32 → 1 ≤ limit → AllProper s a → AllProper s b →
        (let w = window_between join s position prefix after limit a b in
        (key : List ℕ) → IsNamed position prefix after w.end key →
        find_row s 1 key w.rows ≡ option_join join (row_at join s a 1 key) (row_at join s b 1 key)) }
{}

/// A window's rows are proper rows of the object table, each at a key that the window names, in ascending order of
/// their keys.
pub fn windows_ascend<R>()
    ensures proper { (join : R → R → R) (s : Words R) → Laws join s →
        (position prefix after : List ℕ) (limit : ℕ) (a b : List R) → AllProper s a →
        AllProper s b →
        AllProper s (window_between join s position prefix after limit a b).rows }
    ensures table { (join : R → R → R) (s : Words R) → Laws join s →
        (position prefix after : List ℕ) (limit : ℕ) (a b : List R) → AllProper s a →
        AllProper s b →
        All (λ r. s.table r ≡ 1) (window_between join s position prefix after limit a b).rows }
    ensures named { (join : R → R → R) (s : Words R) → Laws join s →
        (position prefix after : List ℕ) (limit : ℕ) (a b : List R) →
        length position ≡ 32 → AllProper s a → AllProper s b →
        (let w = window_between join s position prefix after limit a b in
        All (λ r. IsNamed position prefix after w.end (s.key r)) w.rows) }
    ensures ascending { (join : R → R → R) (s : Words R) → Laws join s →
        (position prefix after : List ℕ) (limit : ℕ) (a b : List R) → AllProper s a →
        AllProper s b →
        IsAscending s (window_between join s position prefix after limit a b).rows }
{}
