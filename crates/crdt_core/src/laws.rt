//! What follows from the laws of a merge alone, for the crates above. No body does anything: each is
//! called for its contract.
ghost use Rattle.std.specs.Prelude.{◌≡◌, ◌≢◌, ◌++◌, List, Option, Some, None, All, if◌then◌else◌};
ghost use Rattle.std.specs.declared.cmp.Ordering.TheVariants.{Equal};
ghost use Rattle.std.specs.Ordering.{is_lt};
ghost use Rattle.crdt_core.specs.Laws.{JoinLaws};
ghost use Rattle.crdt_core.specs.Order.{AtMost, option_join, join_of, SameMembers, OrderLaws, IsLeastUpperBound};
ghost use Rattle.crdt_core.specs.Map.{MapOf, map_join, map_get, map_single, map_from};

use crate::crdt::Crdt;
use crate::value::Value;

/// Rows are ordered by what merging them gives, the join of two is their least upper bound, and none is
/// below every row.
pub fn rows_are_ordered<R: Crdt>()
    ensures order { OrderLaws (AtMost R.join) }
    ensures least_upper_bound { (a b : R) → IsLeastUpperBound (AtMost R.join) a b (R.join a b) }
    ensures none_joins { JoinLaws (option_join R.join) }
    ensures none_least { (a : Option R) → AtMost (option_join R.join) None a }
{}

/// The join of a list depends on its members alone, that of two lists appended is the join of their
/// joins, and it is the least row that each member is at most.
pub fn lists_join<R: Crdt>()
    ensures members { (xs ys : List R) → SameMembers xs ys → join_of R.join xs ≡ join_of R.join ys }
    ensures appended { (xs ys : List R) →
        join_of R.join (xs ++ ys) ≡ option_join R.join (join_of R.join xs) (join_of R.join ys) }
    ensures above { (xs : List R) →
        All (λ x. AtMost (option_join R.join) (Some x) (join_of R.join xs)) xs }
    ensures least { (xs : List R) (b : Option R) →
        All (λ x. AtMost (option_join R.join) (Some x) b) xs →
        AtMost (option_join R.join) (join_of R.join xs) b }
{}

/// A map is what it holds at each key, and merging acts on each key alone.
pub fn maps_join_by_key<K: Value, V: Crdt>()
    ensures values_decide { (a b : MapOf K.cmp K.eq K.partial_cmp V) →
        ((k : K) → map_get a k ≡ map_get b k) → a ≡ b }
    ensures joined { (a b : MapOf K.cmp K.eq K.partial_cmp V) (k : K) →
        map_get (map_join V.join a b) k ≡ option_join V.join (map_get a k) (map_get b k) }
    ensures put { (m : MapOf K.cmp K.eq K.partial_cmp V) (k : K) (v : V) →
        map_get (map_join V.join m (map_single k v)) k ≡ option_join V.join (map_get m k) (Some v) }
    ensures cut { (m : MapOf K.cmp K.eq K.partial_cmp V) (k at : K) →
        map_get (map_from k m) at ≡ (if is_lt (K.cmp at k) then None else map_get m at) }
    ensures put_elsewhere { (m : MapOf K.cmp K.eq K.partial_cmp V) (k : K) (v : V) (other : K) →
        K.cmp other k ≢ Equal → map_get (map_join V.join m (map_single k v)) other ≡
        map_get m other }
{}
