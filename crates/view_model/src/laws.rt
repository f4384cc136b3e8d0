//! What holds of views however they change. No body does anything: each is called for its contract. `L` is
//! what a layout is, and a `Reading` says what its version, its members and its sets are.
ghost use Rattle.std.specs.Prelude.{◌≡◌, ◌≤◌, ℕ, suc, max, true, IsTrue};
ghost use Rattle.layout_trackers.specs.declared.which.Which.{Which};
ghost use Rattle.layout_trackers.specs.Entries.{Grows};
ghost use Rattle.view_model.specs.View.{Reading, View, is_gapless, oldest, newest, layout_at, is_readable, read_version, merged, cleaned, appended, with_entry, Agree};

/// The merge of views without a gap is a join where common versions agree: from the greater oldest version
/// to the greater newest one, without a gap.
pub fn views_join<L>()
    ensures oldest_is_greater { (r : Reading L) (a b : View L) → IsTrue (is_gapless r a.layouts) →
        IsTrue (is_gapless r b.layouts) → oldest r (merged r a b) ≡ max (oldest r a) (oldest r b) }
    ensures newest_is_greater { (r : Reading L) (a b : View L) → IsTrue (is_gapless r a.layouts) →
        IsTrue (is_gapless r b.layouts) → newest r (merged r a b) ≡ max (newest r a) (newest r b) }
    ensures no_gap { (r : Reading L) (a b : View L) → IsTrue (is_gapless r a.layouts) →
        IsTrue (is_gapless r b.layouts) → IsTrue (is_gapless r (merged r a b).layouts) }
    ensures commutative { (r : Reading L) (a b : View L) → IsTrue (is_gapless r a.layouts) →
        IsTrue (is_gapless r b.layouts) → Agree r a b → merged r a b ≡ merged r b a }
    ensures associative { (r : Reading L) (a b c : View L) → IsTrue (is_gapless r a.layouts) →
        IsTrue (is_gapless r b.layouts) → IsTrue (is_gapless r c.layouts) →
        merged r (merged r a b) c ≡ merged r a (merged r b c) }
    ensures idempotent { (r : Reading L) (a : View L) → IsTrue (is_gapless r a.layouts) →
        merged r a a ≡ a }
{}

/// The read version is the greatest version up to the newest that may be read, and it is stored.
pub fn read_versions_are_stored<L>()
    ensures stored { (r : Reading L) (v : View L) → IsTrue (is_gapless r v.layouts) →
        (oldest r v ≤ read_version r v) × (read_version r v ≤ newest r v) }
    ensures readable { (r : Reading L) (v : View L) → IsTrue (is_gapless r v.layouts) →
        IsTrue (is_readable r v (read_version r v)) }
    ensures greatest { (r : Reading L) (v : View L) (i : ℕ) → IsTrue (is_readable r v i) →
        i ≤ newest r v → i ≤ read_version r v }
{}

/// Merging, raising and appending make no entry and no read version fall.
pub fn views_grow<L>()
    ensures merge_grows { (r : Reading L) (a b : View L) →
        Grows a.trackers (merged r a b).trackers × Grows b.trackers (merged r a b).trackers }
    ensures raise_grows { (r : Reading L) (which : Which) (node i : ℕ) (v : View L) →
        Grows v.trackers (with_entry r which node i v).trackers }
    ensures read_under_merge { (r : Reading L) (a b : View L) → IsTrue (is_gapless r a.layouts) →
        IsTrue (is_gapless r b.layouts) → read_version r a ≤ read_version r (merged r a b) }
    ensures read_under_merge_of_other { (r : Reading L) (a b : View L) →
        IsTrue (is_gapless r a.layouts) → IsTrue (is_gapless r b.layouts) → Agree r a b →
        read_version r b ≤ read_version r (merged r a b) }
    ensures read_under_raise { (r : Reading L) (which : Which) (node i : ℕ) (v : View L) →
        IsTrue (is_gapless r v.layouts) →
        read_version r v ≤ read_version r (with_entry r which node i v) }
    ensures read_under_append { (r : Reading L) (v : View L) (l : L) →
        IsTrue (is_gapless r v.layouts) → r.version l ≡ suc (newest r v) →
        read_version r v ≤ read_version r (appended r v l) }
{}

/// A clean opens no gap and never drops the newest version.
pub fn the_newest_stays<L>()
    ensures newest_version { (r : Reading L) (v : View L) → IsTrue (is_gapless r v.layouts) →
        newest r (cleaned r v) ≡ newest r v }
    ensures newest_layout { (r : Reading L) (v : View L) → IsTrue (is_gapless r v.layouts) →
        layout_at r (cleaned r v) (newest r v) ≡ layout_at r v (newest r v) }
    ensures no_gap { (r : Reading L) (v : View L) → IsTrue (is_gapless r v.layouts) →
        IsTrue (is_gapless r (cleaned r v).layouts) }
{}
