//! What holds of views, in nodes and in messages.
ghost use Rattle.std.specs.Prelude.{◌≡◌, ◌≤◌, ℕ, Some, IsTrue};
ghost use Rattle.layout_trackers.specs.declared.which.Which.{Which};
ghost use Rattle.layout_trackers.specs.declared.which.Which.TheVariants.{Ack, SyncAck};
ghost use Rattle.view_model.specs.View.{Reading, View, oldest, newest, layout_at, GrewFrom};
ghost use Rattle.control_model.specs.Layouts.{is_lawful};
ghost use Rattle.control_model.specs.World.{Round, World, view_of, layout_of};
ghost use Rattle.control_model.specs.Steps.{Step, step};
ghost use Rattle.crdt_core.specs.Members.{Has};
ghost use Rattle.control_model.specs.Facts.{Stores, Travels, entry_of, read_of};
ghost use Rattle.control_model.specs.Reached.{IsReached};

/// A node's read version is one that it stores, and a node knows only versions that were applied.
pub fn versions_are_in_order<L>()
    ensures read_is_stored { (r : Reading L) (partitions : ℕ) (w : World L) →
        IsReached r partitions w → (n : ℕ) → (oldest r (view_of w n) ≤ read_of r w n) ×
        (read_of r w n ≤ newest r (view_of w n)) }
    ensures known_was_applied { (r : Reading L) (partitions : ℕ) (w : World L) →
        IsReached r partitions w → (n : ℕ) → newest r (view_of w n) ≤ w.top }
{}

/// No step makes a node's oldest or newest version, an entry or a read version fall, changes a layout, or
/// forgets a message or a round.
pub fn nothing_falls<L>()
    ensures views { (r : Reading L) (partitions : ℕ) (w : World L) (s : Step L) →
        IsReached r partitions w → (n : ℕ) →
        GrewFrom r (view_of w n) (view_of (step r partitions w s) n) }
    ensures reads { (r : Reading L) (partitions : ℕ) (w : World L) (s : Step L) →
        IsReached r partitions w → (n : ℕ) → read_of r w n ≤ read_of r (step r partitions w s) n }
    ensures applied { (r : Reading L) (partitions : ℕ) (w : World L) (s : Step L) →
        IsReached r partitions w → w.top ≤ (step r partitions w s).top }
    ensures layouts { (r : Reading L) (partitions : ℕ) (w : World L) (s : Step L) →
        IsReached r partitions w → (i : ℕ) → i ≤ w.top →
        layout_of w i ≡ layout_of (step r partitions w s) i }
    ensures sent { (r : Reading L) (partitions : ℕ) (w : World L) (s : Step L) →
        IsReached r partitions w → (v : View L) → Has w.sent v →
        Has (step r partitions w s).sent v }
    ensures began { (r : Reading L) (partitions : ℕ) (w : World L) (s : Step L) →
        IsReached r partitions w → (t : Round) → Has w.began t →
        Has (step r partitions w s).began t }
    ensures completed { (r : Reading L) (partitions : ℕ) (w : World L) (s : Step L) →
        IsReached r partitions w → (t : Round) → Has w.completed t →
        Has (step r partitions w s).completed t }
{}

/// No view, of a node or in a message, has a greater entry of a node than that node itself. A node's own ack is
/// at most its newest version, and its own sync-ack at most its read version.
pub fn own_entries_are_greatest<L>()
    ensures in_nodes { (r : Reading L) (partitions : ℕ) (w : World L) → IsReached r partitions w →
        (which : Which) (n m : ℕ) → entry_of which (view_of w n) m ≤ entry_of which
        (view_of w m) m }
    ensures in_messages { (r : Reading L) (partitions : ℕ) (w : World L) →
        IsReached r partitions w → (which : Which) (v : View L) (m : ℕ) → Has w.sent v →
        entry_of which v m ≤ entry_of which (view_of w m) m }
    ensures acks { (r : Reading L) (partitions : ℕ) (w : World L) → IsReached r partitions w →
        (n : ℕ) → entry_of Ack (view_of w n) n ≤ newest r (view_of w n) }
    ensures sync_acks { (r : Reading L) (partitions : ℕ) (w : World L) → IsReached r partitions w →
        (n : ℕ) → entry_of SyncAck (view_of w n) n ≤ read_of r w n }
{}

/// Views travel whole: a view that knows a version grew from the view with which that version was applied, and
/// one that doesn't know it has no greater entry of the node that applied it than that node had then.
pub fn views_travel_whole<L>()
    ensures nodes { (r : Reading L) (partitions : ℕ) (w : World L) → IsReached r partitions w →
        (n : ℕ) → Travels r w (view_of w n) }
    ensures messages { (r : Reading L) (partitions : ℕ) (w : World L) → IsReached r partitions w →
        (v : View L) → Has w.sent v → Travels r w v }
{}

/// Two nodes that store a version store the same layout, the one that was applied, and it gives each partition
/// three different members.
pub fn layouts_agree<L>()
    ensures stored { (r : Reading L) (partitions : ℕ) (w : World L) → IsReached r partitions w →
        (m n i : ℕ) → Stores r w m i → Stores r w n i →
        layout_at r (view_of w m) i ≡ layout_at r (view_of w n) i }
    ensures applied { (r : Reading L) (partitions : ℕ) (w : World L) → IsReached r partitions w →
        (n i : ℕ) → Stores r w n i → layout_at r (view_of w n) i ≡ layout_of w i }
    ensures lawful { (r : Reading L) (partitions : ℕ) (w : World L) → IsReached r partitions w →
        (i : ℕ) → 1 ≤ i → i ≤ w.top → (l : L) × (layout_of w i ≡ Some l) ×
        IsTrue (is_lawful r partitions i l) }
{}
