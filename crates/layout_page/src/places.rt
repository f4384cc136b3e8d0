//! The nodes of a layout, zone by zone.
use crate::plan::Plan;
use chart_page::Fault;
use layout_roles::Role;
use std::alloc::Global;
use std::str::from_utf8;

/// A node with what it has to give and what it keeps.
#[derive(Clone, Copy)]
pub(crate) struct Place<'a> {
    pub(crate) node: u64,
    /// Empty where it isn't told.
    pub(crate) zone: &'a str,
    /// 0 where it isn't told, or for a gateway.
    pub(crate) capacity: u64,
    pub(crate) is_gateway: bool,
    pub(crate) copies: u64,
}

fn place_of<'a>(role: &'a Role, plan: &Plan<'_>) -> Place<'a> {
    let node = u64::from(role.node);
    Place {
        node,
        zone: from_utf8(role.zone.0.as_slice()).unwrap_or(""),
        capacity: role.capacity(),
        is_gateway: !role.is_storage(),
        copies: plan.copies(node),
    }
}

fn is_in_zone(places: &[Place<'_>], zone: &str) -> bool {
    for place in places {
        if place.zone == zone {
            return true;
        }
    }
    false
}

/// The same nodes, those of a zone side by side.
fn by_zone<'a>(alloc: Global, places: &[Place<'a>]) -> Result<Vec<Place<'a>>, Fault> {
    let mut sorted: Vec<Place<'a>> = Vec::new(alloc);
    for place in places {
        if !is_in_zone(sorted.as_slice(), place.zone) {
            for other in places {
                if other.zone == place.zone {
                    sorted.push(*other)?;
                }
            }
        }
    }
    Ok(sorted)
}

/// The nodes of a configuration, zone by zone.
pub(crate) fn told_places<'a>(
    alloc: Global,
    roles: &'a [Role],
    plan: &Plan<'_>,
) -> Result<Vec<Place<'a>>, Fault> {
    let mut places = Vec::new(alloc);
    for role in roles {
        places.push(place_of(role, plan))?;
    }
    by_zone(alloc, places.as_slice())
}

/// The nodes that have copies, where nothing else is told of them.
pub(crate) fn bare_places(alloc: Global, plan: &Plan<'_>) -> Result<Vec<Place<'static>>, Fault> {
    let mut places = Vec::new(alloc);
    for node in 1..65u64 {
        let copies = plan.copies(node);
        if copies > 0 {
            places.push(Place {
                node,
                zone: "",
                capacity: 0,
                is_gateway: false,
                copies,
            })?;
        }
    }
    Ok(places)
}
