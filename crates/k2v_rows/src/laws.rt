//! What merges and writes do to what rows say, for the crates above. No body does anything: each is called for its
//! contract.
ghost use Rattle.std.specs.Prelude.{◌≡◌, ◌≤◌, ◌&&◌, ◌==◌, false, ℕ, max, nat_le, None, Some, IsTrue, if◌then◌else◌};
ghost use Rattle.std.specs.declared.cmp.Ordering.TheVariants.{Less};
ghost use Rattle.crdt_core.specs.Lex.{larger};
ghost use Rattle.crdt_core.specs.Order.{option_join};
ghost use Rattle.k2v_rows.specs.declared.value.K2vValue.{K2vValue as ValueOf};
ghost use Rattle.k2v_rows.specs.declared.k2v_row.K2vRow.{K2vRow};
ghost use Rattle.k2v_rows.specs.Value.{value_cmp};
ghost use Rattle.k2v_rows.specs.Token.{TimeMap};
ghost use Rattle.k2v_rows.specs.Row.{item_key, item_cmp, row_join, discard_at, value_of, time_at, can_put, after_put};

/// A row says of each node up to which time its writes are discarded, and which values stand. Merging two rows of one
/// item keeps the greater discard time of each node and the values of both that are later.
pub fn rows_join_as_facts()
    ensures discards { (a b : K2vRow) → item_key a ≡ item_key b → (node : ℕ) →
        discard_at (row_join a b) node ≡ max (discard_at a node) (discard_at b node) }
    ensures values { (a b : K2vRow) → item_key a ≡ item_key b → (node time : ℕ) →
        value_of (row_join a b) node time ≡
        (if nat_le time (max (discard_at a node) (discard_at b node)) then None
        else option_join (larger value_cmp) (value_of a node time) (value_of b node time)) }
    ensures kept { (a : K2vRow) (node time : ℕ) → time ≤ discard_at a node →
        value_of a node time ≡ None }
    ensures key { (a b : K2vRow) → item_key a ≡ item_key b → item_key (row_join a b) ≡ item_key a }
    ensures greater_key { (a b : K2vRow) → item_cmp (item_key a) (item_key b) ≡ Less →
        row_join a b ≡ b }
{}

/// A write that may be made raises the discard time of each node to the token's time of that node. Its value stands at
/// its node and time, joined with one that stands there already, and of the other values those stay that are later
/// than the token's time of their node.
pub fn writes_are_facts()
    ensures discards { (r : K2vRow) (node time : ℕ) (value : ValueOf) (token : TimeMap) (at : ℕ) →
        discard_at (after_put r node time value token) at ≡ max (discard_at r at) (time_at token at) }
    ensures stands { (r : K2vRow) (node time : ℕ) (value : ValueOf) (token : TimeMap) →
        IsTrue (can_put r node time token) →
        value_of (after_put r node time value token) node time ≡ option_join (larger value_cmp) (value_of r node time) (Some value) }
    ensures others { (r : K2vRow) (node time : ℕ) (value : ValueOf) (token : TimeMap)
        (at when : ℕ) → ((at == node) && (when == time)) ≡ false →
        value_of (after_put r node time value token) at when ≡ (if nat_le when (time_at token at) then None else value_of r at when) }
    ensures key { (r : K2vRow) (node time : ℕ) (value : ValueOf) (token : TimeMap) →
        item_key (after_put r node time value token) ≡ item_key r }
{}
