//! What holds of trackers however they change. No body does anything: each is called for its contract.
ghost use Rattle.std.specs.Prelude.{◌≡◌, ◌≢◌, ◌≤◌, ◌↔◌, ℕ, max, true, List, ◌∷◌, Some, IsSome, All, Contains};
ghost use Rattle.layout_trackers.specs.declared.trackers.Trackers.{Trackers};
ghost use Rattle.layout_trackers.specs.declared.which.Which.{Which};
ghost use Rattle.layout_trackers.specs.Trackers.{entry, counts, raised, is_reached, trackers_join};
ghost use Rattle.layout_trackers.specs.Entries.{later, Grows, Reached};
ghost use Rattle.layout_trackers.specs.Least.{least};

/// Merging and raising take the greater version at each node, so trackers only grow. A missing entry may
/// be read as 0 where no version is 0.
pub fn trackers_grow()
    ensures joined { (which : Which) (node : ℕ) (a b : Trackers) →
        entry which node (trackers_join a b) ≡ later (entry which node a) (entry which node b) }
    ensures raised_there { (which : Which) (node v : ℕ) (t : Trackers) →
        entry which node (raised which node v t) ≡ later (entry which node t) (Some v) }
    ensures raised_alone { (which other : Which) (node at v : ℕ) (t : Trackers) → at ≢ node →
        entry other at (raised which node v t) ≡ entry other at t }
    ensures raised_one { (which other : Which) (node at v : ℕ) (t : Trackers) → other ≢ which →
        entry other at (raised which node v t) ≡ entry other at t }
    ensures join_grows { (a b : Trackers) → Grows a (trackers_join a b) ×
        Grows b (trackers_join a b) }
    ensures raise_grows { (which : Which) (node v : ℕ) (t : Trackers) →
        Grows t (raised which node v t) }
    ensures joined_from_0 { (which : Which) (node : ℕ) (a b : Trackers) →
        counts 0 which (trackers_join a b) node ≡ max (counts 0 which a node)
        (counts 0 which b node) }
{}

/// What the least is, and that some node reached a version where one has an entry of at least that.
pub fn versions_compare()
    ensures least_is_one { (xs : List ℕ) (x : ℕ) → least xs ≡ Some x → Contains xs x ×
        All (λ y. x ≤ y) xs }
    ensures some_least { (x : ℕ) (xs : List ℕ) → IsSome (least (x ∷ xs)) }
    ensures reached { (which : Which) (v : ℕ) (t : Trackers) → is_reached which v t ≡ true ↔
        Reached which v t }
{}
