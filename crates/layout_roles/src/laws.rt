//! What holds of partition sizes whatever the code does.
ghost use Rattle.std.specs.Prelude.{ℕ, List, ◌<◌, ◌≤◌};
ghost use Rattle.layout_roles.specs.declared.role.Role.{Role};
ghost use Rattle.layout_roles.specs.Fits.{NodeSet, Fits};

/// An assignment that fits a partition size fits each smaller one.
pub fn smaller_sizes()
    ensures { (roles : List Role) (r small great : ℕ) (sets : List NodeSet) → 0 < small →
        small ≤ great → Fits roles r great sets → Fits roles r small sets }
{}
