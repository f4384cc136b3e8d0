//! Lists of layouts in ascending order of versions.
ghost use Rattle.std.specs.Prelude.{◌≡◌, suc, nat_lt, IsTrue, IfOk};
ghost use Rattle.std.specs.List.{count_by};
ghost use Rattle.crdt_core.specs.Outcomes.{OnlyWant};
ghost use Rattle.view_model.specs.View.{from};
ghost use Rattle.view_model.specs.Layouts.{reading};
ghost use Rattle.layout_history.specs.Known.{ascends, kind_among};

use crdt_core::{List, Memory};
use layout_roles::{Kind, Layout, Role};
use std::alloc::Global;

pub fn copies_of(alloc: Global, layouts: &[Layout]) -> Result<List<Layout>, Memory>
    ensures same { IfOk result (λ copies. copies ≡ layouts.now) }
    ensures want { OnlyWant result }
{
    let mut copies = List::new(alloc);
    for layout in layouts {
        copies.push(layout.copy()?)?;
    }
    Ok(copies)
}

/// Copies of the layouts whose versions are above `version`.
pub fn copies_above(alloc: Global, layouts: &[Layout], version: u32) -> Result<List<Layout>, Memory>
    ensures copied { IfOk result (λ copies. copies ≡ from reading (suc version) layouts.now) }
    ensures want { OnlyWant result }
{
    let mut copies = List::new(alloc);
    for layout in layouts {
        if version < layout.version {
            copies.push(layout.copy()?)?;
        }
    }
    Ok(copies)
}

/// Drops the layouts whose versions are below `version`.
pub fn drop_below(layouts: &mut List<Layout>, version: u32)
    requires { IsTrue (ascends 0 layouts.old) }
    ensures { layouts.new ≡ from reading version layouts.old }
{
    let below = count_below(layouts.as_slice(), version);
    layouts.drop_front(below);
}

fn count_below(layouts: &[Layout], version: u32) -> usize
    ensures { result ≡ count_by (λ l. nat_lt l.version version) layouts.now }
{
    layouts
        .iter()
        .filter(|layout| layout.version < version)
        .count()
}

/// The kind of a node's role, where it has one.
pub fn kind_in(roles: &[Role], node: u8) -> Option<Kind>
    ensures { result ≡ kind_among roles.now node }
{
    match roles.iter().find(|role| role.node == node) {
        Some(role) => Some(role.kind),
        None => None,
    }
}
