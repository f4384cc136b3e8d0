//! The cut as a line through the ways of the copies.
use crate::places::Place;
use crate::plan::{Plan, Side};
use crate::rooms::{begin_drawing, draw_text};
use chart_page::{Piece, add, add_all};
use crdt_core::{Bytes, Memory};

/// Where the line passes the way of a node's copies.
fn place_of_line(plan: &Plan<'_>, side: &Side<'_>, place: &Place<'_>) -> u64 {
    if !side.has("up") && !side.has("down") {
        150
    } else if !side.has_zone(place.zone) {
        255
    } else if !plan.has_node(place.node) {
        455
    } else {
        640
    }
}

/// A line from one point to another.
fn draw_way(page: &mut Bytes, x: u64, y: u64, to_x: u64, to_y: u64) -> Result<(), Memory> {
    add_all(
        page,
        &[
            Piece::Text("<path class=\"way\" d=\"M"),
            Piece::Number(x),
            Piece::Text(","),
            Piece::Number(y),
            Piece::Text("L"),
            Piece::Number(to_x),
            Piece::Text(","),
            Piece::Number(to_y),
            Piece::Text("\"/>"),
        ],
    )
}

/// The ways into the zones, to the nodes, and to their room.
fn draw_ways(
    page: &mut Bytes,
    places: &[Place<'_>],
    plan: &Plan<'_>,
    middle: u64,
) -> Result<(), Memory> {
    let (mut y, mut zone, mut zone_y) = (40u64, "", 40u64);
    for place in places {
        if !place.is_gateway {
            if place.zone != zone {
                zone = place.zone;
                zone_y = y;
                draw_way(page, 180, middle, 330, y)?;
                draw_text(page, 335, y.saturating_add(4), "zone", &[Piece::Word(zone)])?;
            }
            draw_way(page, 410, zone_y, 525, y)?;
            draw_text(
                page,
                530,
                y.saturating_add(4),
                "node",
                &[Piece::Text("node "), Piece::Number(place.node)],
            )?;
            draw_way(page, 590, y, 700, y)?;
            draw_text(
                page,
                705,
                y.saturating_add(4),
                "",
                &[
                    Piece::Text("has room for "),
                    Piece::Amount(place.capacity.checked_div(plan.cut_size).unwrap_or(0)),
                ],
            )?;
            y = y.saturating_add(24);
        }
    }
    Ok(())
}

/// The line of the cut, past the ways of all nodes.
fn draw_line(
    page: &mut Bytes,
    places: &[Place<'_>],
    plan: &Plan<'_>,
    side: &Side<'_>,
) -> Result<(), Memory> {
    let mut y = 40u64;
    let mut step = "<path class=\"cut\" d=\"M";
    for place in places {
        if !place.is_gateway {
            let x = place_of_line(plan, side, place);
            add_all(
                page,
                &[
                    Piece::Text(step),
                    Piece::Number(x),
                    Piece::Text(","),
                    Piece::Number(y.saturating_sub(12)),
                    Piece::Text("L"),
                    Piece::Number(x),
                    Piece::Text(","),
                    Piece::Number(y.saturating_add(12)),
                ],
            )?;
            step = "L";
            y = y.saturating_add(24);
        }
    }
    if step == "L" {
        add(page, Piece::Text("\"/>"))?;
    }
    Ok(())
}

/// Draws the cut for a run of partitions.
pub(crate) fn draw_cut(
    page: &mut Bytes,
    places: &[Place<'_>],
    plan: &Plan<'_>,
    side: &Side<'_>,
) -> Result<(), Memory> {
    let rows = places.len() as u64;
    let middle = rows.saturating_mul(12).saturating_add(28);
    begin_drawing(page, 900, rows)?;
    draw_text(
        page,
        8,
        middle,
        "node",
        &[Piece::Text("copies of partitions")],
    )?;
    draw_text(
        page,
        8,
        middle.saturating_add(16),
        "node",
        &[
            Piece::Number(side.first),
            Piece::Text(" to "),
            Piece::Number(side.last),
        ],
    )?;
    draw_ways(page, places, plan, middle)?;
    draw_line(page, places, plan, side)?;
    add(page, Piece::Text("</svg>\n"))
}
