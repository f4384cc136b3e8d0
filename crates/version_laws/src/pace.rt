//! How requests, rounds and read versions keep pace with one another.
ghost use Rattle.std.specs.Prelude.{◌≡◌, ◌<◌, ◌≤◌, ℕ, suc, pred, List, Some};
ghost use Rattle.layout_trackers.specs.declared.which.Which.TheVariants.{Ack};
ghost use Rattle.view_model.specs.View.{Reading, oldest, newest, layout_at};
ghost use Rattle.control_model.specs.Layouts.{IsMember};
ghost use Rattle.control_model.specs.World.{Request, Round, World, view_of, layout_of};
ghost use Rattle.control_model.specs.Steps.{Step, step, round_of};
ghost use Rattle.crdt_core.specs.Members.{Has, TwoOf};
ghost use Rattle.control_model.specs.Facts.{IsRead, IsRecent, IsSet, Open, Greatest, entry_of, read_of};
ghost use Rattle.control_model.specs.Reached.{IsReached};

/// Each member of a version that some node has dropped reads a later one, and each member of a version that
/// some node is past in reading knows a later one.
pub fn dropped_versions_were_passed<L>()
    ensures passed { (r : Reading L) (partitions : ℕ) (w : World L) → IsReached r partitions w →
        (n j m : ℕ) → j < oldest r (view_of w n) → IsMember r m (layout_of w j) →
        j < read_of r w m }
    ensures behind { (r : Reading L) (partitions : ℕ) (w : World L) → IsReached r partitions w →
        (n j m : ℕ) → j < read_of r w n → IsMember r m (layout_of w j) →
        j < newest r (view_of w m) }
{}

/// A request in flight holds back its coordinator's ack, and with it every read version and every round that
/// ever began, at its start version. Its coordinator is a member of that version.
pub fn requests_hold_back<L>()
    ensures acked { (r : Reading L) (partitions : ℕ) (w : World L) → IsReached r partitions w →
        (n : ℕ) (q : Request) → Has (w.nodes n).requests q →
        entry_of Ack (view_of w n) n ≤ q.start }
    ensures reads { (r : Reading L) (partitions : ℕ) (w : World L) → IsReached r partitions w →
        (n : ℕ) (q : Request) → Has (w.nodes n).requests q → (m : ℕ) → read_of r w m ≤ q.start }
    ensures rounds { (r : Reading L) (partitions : ℕ) (w : World L) → IsReached r partitions w →
        (n : ℕ) (q : Request) → Has (w.nodes n).requests q → (t : Round) → Has w.began t →
        t.version ≤ q.start }
    ensures member { (r : Reading L) (partitions : ℕ) (w : World L) → IsReached r partitions w →
        (n : ℕ) (q : Request) → Has (w.nodes n).requests q → IsMember r n (layout_of w q.start) }
    ensures known { (r : Reading L) (partitions : ℕ) (w : World L) → IsReached r partitions w →
        (n : ℕ) (q : Request) → Has (w.nodes n).requests q → (1 ≤ q.start) ×
        (q.start ≤ newest r (view_of w n)) }
{}

/// A round goes to the version after one that some node reads, and to one that each member of each version
/// before it knows or is past. An open round's node stores a version before it.
pub fn rounds_follow_read_versions<L>()
    ensures reached { (r : Reading L) (partitions : ℕ) (w : World L) → IsReached r partitions w →
        (t : Round) → Has w.began t → IsRead r w (pred t.version) }
    ensures known { (r : Reading L) (partitions : ℕ) (w : World L) → IsReached r partitions w →
        (t : Round) → Has w.began t → (j m : ℕ) → j < t.version → IsMember r m (layout_of w j) →
        j < newest r (view_of w m) }
    ensures completed { (r : Reading L) (partitions : ℕ) (w : World L) → IsReached r partitions w →
        (t : Round) → Has w.completed t → Has w.began t }
    ensures open { (r : Reading L) (partitions : ℕ) (w : World L) → IsReached r partitions w →
        (n i : ℕ) → (w.nodes n).round ≡ Some i → Open r w n i }
{}

/// A member of its newest version, and a node that has a request in flight, reads above every version that any
/// node has dropped.
pub fn members_read_recent_versions<L>()
    ensures members { (r : Reading L) (partitions : ℕ) (w : World L) → IsReached r partitions w →
        (n : ℕ) → IsMember r n (layout_at r (view_of w n) (newest r (view_of w n))) →
        IsRecent r w (read_of r w n) }
    ensures coordinators { (r : Reading L) (partitions : ℕ) (w : World L) →
        IsReached r partitions w → (n : ℕ) (q : Request) → Has (w.nodes n).requests q →
        IsRecent r w (read_of r w n) }
{}

/// The greatest read version rises by one at a time. When a version from 2 on is first read, then in each
/// partition two of the three nodes of the version before it have completed a round to it.
pub fn read_versions_rise_by_one<L>()
    ensures greatest { (r : Reading L) (partitions : ℕ) (w : World L) → IsReached r partitions w →
        Greatest r w }
    ensures by_one { (r : Reading L) (partitions : ℕ) (w : World L) (s : Step L) →
        IsReached r partitions w → (v n : ℕ) → 2 ≤ v → read_of r (step r partitions w s) n ≡ v →
        ((m : ℕ) → read_of r w m < v) → (m : ℕ) × (suc (read_of r w m) ≡ v) }
    ensures after_rounds { (r : Reading L) (partitions : ℕ) (w : World L) (s : Step L) →
        IsReached r partitions w → (v n : ℕ) → 2 ≤ v → read_of r (step r partitions w s) n ≡ v →
        ((m : ℕ) → read_of r w m < v) → (p : ℕ) (set : List ℕ) →
        IsSet r (step r partitions w s) (pred v) p set →
        TwoOf (λ m. Has (step r partitions w s).completed (round_of m v)) set }
{}
