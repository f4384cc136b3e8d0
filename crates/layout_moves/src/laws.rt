//! What holds of moves and potentials whatever the code does.
ghost use Rattle.std.specs.Prelude.{ℕ, List, pos, ◌≡◌, ◌≤◌, ◌≤ℤ◌, IsTrue};
ghost use Rattle.layout_roles.specs.declared.role.Role.{Role};
ghost use Rattle.layout_roles.specs.Zones.{nodes_ascend};
ghost use Rattle.layout_roles.specs.Fits.{NodeSet, Fits};
ghost use Rattle.layout_roles.specs.declared.vertex.Vertex.TheVariants.{Source};
ghost use Rattle.layout_moves.specs.Moves.{Potentials, bound, moves};

/// Potentials show how many copies every assignment that fits has to move: no bound is above the moves of one.
pub fn potentials_bound()
    ensures { (roles : List Role) (r size : ℕ) (old sets : List NodeSet) (potential : Potentials) →
        IsTrue (nodes_ascend roles) → 1 ≤ r → r ≤ 3 → potential Source ≡ pos 0 →
        Fits roles r size sets → bound roles r size old potential ≤ℤ pos (moves old sets) }
{}
