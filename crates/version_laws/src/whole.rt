//! All laws at once.
ghost use Rattle.std.specs.Prelude.{ℕ};
ghost use Rattle.view_model.specs.View.{Reading};
ghost use Rattle.control_model.specs.World.{World};
ghost use Rattle.control_model.specs.Steps.{Step, step};
ghost use Rattle.control_model.specs.Facts.{Safe, Moves};
ghost use Rattle.control_model.specs.Reached.{IsReached};

/// What holds of each world that steps lead to.
pub fn safe<L>()
    ensures { (r : Reading L) (partitions : ℕ) (w : World L) → IsReached r partitions w →
        Safe r partitions w }
{}

/// What each step does: nothing falls, and the greatest read version rises by one at a time, after rounds.
pub fn moves<L>()
    ensures { (r : Reading L) (partitions : ℕ) (w : World L) (s : Step L) →
        IsReached r partitions w → Moves r w (step r partitions w s) }
{}
