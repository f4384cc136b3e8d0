//! The first layout.
ghost use Rattle.std.specs.Prelude.{◌≡◌, IfOk};
ghost use Rattle.crdt_core.specs.Outcomes.{OnlyWant};
ghost use Rattle.cluster_machine.specs.Trio.{trio, trio_sets};

use crdt_core::{List, Memory};
use layout_roles::{Assignment, Layout, PARTITIONS, Roles};
use staged_roles::with_trio;
use std::alloc::Global;

// Every partition lies at nodes 1, 2 and 3.
fn trio_assignment(alloc: Global) -> Result<Assignment, Memory>
    ensures sets { IfOk result (λ assignment. assignment.sets ≡ trio_sets) }
    ensures want { OnlyWant result }
{
    let mut sets = Vec::new(alloc);
    for _ in 0..PARTITIONS {
        sets.push([1, 2, 3])?;
    }
    Ok(Assignment {
        sets: List::from_vec(sets),
    })
}

/// The layout of nodes 1, 2 and 3.
pub fn trio_layout(alloc: Global) -> Result<Layout, Memory>
    ensures is { IfOk result (λ layout. layout ≡ trio) }
    ensures want { OnlyWant result }
{
    let none = Roles {
        list: List::new(alloc),
    };
    Ok(Layout {
        version: 1,
        roles: with_trio(alloc, &none)?,
        r: 3,
        size: 3,
        sets: trio_assignment(alloc)?,
    })
}
