//! What is read in single views, and what their changes do to it.
ghost use Rattle.std.specs.Prelude.{◌≡◌, ◌≢◌, ◌<◌, ◌≤◌, ℕ, suc, min, max, leb, cond, None, Some, List, IsTrue};
ghost use Rattle.std.specs.List.{list_all};
ghost use Rattle.std.specs.Option.{option_or};
ghost use Rattle.layout_trackers.specs.declared.which.Which.{Which};
ghost use Rattle.layout_trackers.specs.declared.which.Which.TheVariants.{Sync, SyncAck};
ghost use Rattle.view_model.specs.View.{Reading, View, is_gapless, oldest, newest, layout_at, version_of, members_stored, least_of, have_synced, merged, cleaned, appended, with_entry};
ghost use Rattle.crdt_core.specs.Members.{two_pass, Has};
ghost use Rattle.control_model.specs.Facts.{entry_of};

/// A view as its oldest and newest version, its layout at each version, and its entries, with 0 for a missing
/// one: that this says the same as that a missing entry counts as the oldest stored version, and what merge,
/// raise, clean and append do to it.
pub fn views_in_short<L>()
    ensures missing_as_0 { (r : Reading L) (v : View L) (which : Which) (n i : ℕ) → oldest r v < i →
        leb i (version_of r which v n) ≡ leb i (entry_of which v n) }
    ensures synced { (r : Reading L) (v : View L) (i : ℕ) (l : L) → oldest r v < i →
        have_synced r v i (Some l) ≡ list_all (two_pass
        (λ n. leb i (entry_of Sync v n))) (r.sets l) }
    ensures least { (r : Reading L) (v : View L) (which : Which) (i m : ℕ) → oldest r v < i →
        Has (members_stored r v) m → leb i (least_of r which v) ≡ list_all
        (λ n. leb i (entry_of which v n)) (members_stored r v) }
    ensures merged_layout { (r : Reading L) (a b : View L) → IsTrue (is_gapless r a.layouts) →
        IsTrue (is_gapless r b.layouts) → (i : ℕ) →
        layout_at r (merged r a b) i ≡ cond (leb (max (oldest r a) (oldest r b)) i)
        (option_or (layout_at r a i) (layout_at r b i)) None }
    ensures merged_entry { (r : Reading L) (a b : View L) (which : Which) (n : ℕ) →
        entry_of which (merged r a b) n ≡ max (entry_of which a n) (entry_of which b n) }
    ensures raised_there { (r : Reading L) (v : View L) (which : Which) (n i : ℕ) →
        entry_of which (with_entry r which n i v) n ≡ max (entry_of which v n) i }
    ensures raised_alone { (r : Reading L) (v : View L) (which other : Which) (n i m : ℕ) → m ≢ n →
        entry_of other (with_entry r which n i v) m ≡ entry_of other v m }
    ensures raised_one { (r : Reading L) (v : View L) (which other : Which) (n i m : ℕ) →
        other ≢ which → entry_of other (with_entry r which n i v) m ≡ entry_of other v m }
    ensures cleaned_oldest { (r : Reading L) (v : View L) → IsTrue (is_gapless r v.layouts) →
        oldest r (cleaned r v) ≡ max (oldest r v) (min (least_of r SyncAck v) (newest r v)) }
    ensures cleaned_layout { (r : Reading L) (v : View L) → IsTrue (is_gapless r v.layouts) →
        (i : ℕ) → oldest r (cleaned r v) ≤ i → layout_at r (cleaned r v) i ≡ layout_at r v i }
    ensures appended_newest { (r : Reading L) (v : View L) (l : L) →
        IsTrue (is_gapless r v.layouts) → r.version l ≡ suc (newest r v) →
        newest r (appended r v l) ≡ suc (newest r v) }
    ensures appended_layout { (r : Reading L) (v : View L) (l : L) →
        IsTrue (is_gapless r v.layouts) → r.version l ≡ suc (newest r v) →
        (layout_at r (appended r v l) (suc (newest r v)) ≡ Some l) ×
        ((i : ℕ) → i ≤ newest r v → layout_at r (appended r v l) i ≡ layout_at r v i) }
{}
