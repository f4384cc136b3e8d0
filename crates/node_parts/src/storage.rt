//! Who keeps copies.
ghost use Rattle.std.specs.Prelude.{◌≡◌, ◌&&◌, ◌==◌};
ghost use Rattle.std.specs.List.{list_any};
ghost use Rattle.layout_roles.specs.Zones.{is_storage};
ghost use Rattle.view_model.specs.Layouts.{reading};
ghost use Rattle.layout_history.specs.Views.{known};
ghost use Rattle.view_model.specs.View.{layout_at};
ghost use Rattle.quorum_model.specs.Quorum.{is_among};
ghost use Rattle.cluster_machine.specs.Layouts.{storage_in, layouts};

use layout_history::View;
use layout_roles::Role;

fn is_storage_among(roles: &[Role], node: u8) -> bool
    ensures { result ≡ list_any (λ role. is_storage role && (role.node == node)) roles.now }
{
    roles
        .iter()
        .any(|role| role.is_storage() && role.node == node)
}

/// Whether the node is one that keeps copies in a version, where it is stored.
pub fn keeps_copies(view: &View, version: u32, node: u8) -> bool
    ensures { result ≡ is_among node
        (storage_in layouts (layout_at reading (known view.now) version)) }
{
    match view.layout(version) {
        Some(layout) => is_storage_among(layout.roles.list.as_slice(), node),
        None => false,
    }
}
