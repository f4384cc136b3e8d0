//! How full the nodes are, and which partitions they have.
use crate::places::Place;
use crate::plan::{Plan, Run};
use chart_page::{Piece, add, add_all};
use crdt_core::{Bytes, Memory};

/// The part of `whole` that `part` is of `all`, 0 where that is 0.
fn share(part: u64, all: u64, whole: u64) -> u64 {
    part.saturating_mul(whole).checked_div(all).unwrap_or(0)
}

/// Begins a drawing of so many rows.
pub(crate) fn begin_drawing(page: &mut Bytes, width: u64, rows: u64) -> Result<(), Memory> {
    add_all(
        page,
        &[
            Piece::Text("<svg width=\""),
            Piece::Number(width),
            Piece::Text("\" height=\""),
            Piece::Number(rows.saturating_mul(24).saturating_add(40)),
            Piece::Text("\">\n"),
        ],
    )
}

/// A text at a place.
pub(crate) fn draw_text(
    page: &mut Bytes,
    x: u64,
    y: u64,
    class: &'static str,
    pieces: &[Piece<'_>],
) -> Result<(), Memory> {
    add_all(
        page,
        &[
            Piece::Text("<text class=\""),
            Piece::Text(class),
            Piece::Text("\" x=\""),
            Piece::Number(x),
            Piece::Text("\" y=\""),
            Piece::Number(y),
            Piece::Text("\">"),
        ],
    )?;
    add_all(page, pieces)?;
    add(page, Piece::Text("</text>"))
}

/// A bar at a place.
fn draw_bar(
    page: &mut Bytes,
    x: u64,
    y: u64,
    width: u64,
    class: &'static str,
    number: u64,
) -> Result<(), Memory> {
    add_all(
        page,
        &[
            Piece::Text("<rect class=\""),
            Piece::Text(class),
            Piece::Number(number),
            Piece::Text("\" x=\""),
            Piece::Number(x),
            Piece::Text("\" y=\""),
            Piece::Number(y.saturating_sub(13)),
            Piece::Text("\" height=\"17\" width=\""),
            Piece::Number(width),
            Piece::Text("\"/>"),
        ],
    )
}

/// The name of a node, after that of its zone where the node is the zone's first.
pub(crate) fn draw_name(
    page: &mut Bytes,
    place: &Place<'_>,
    zone: &str,
    x: u64,
    y: u64,
) -> Result<(), Memory> {
    if place.zone != zone {
        draw_text(page, x, y, "zone", &[Piece::Word(place.zone)])?;
    }
    draw_text(
        page,
        x.saturating_add(150),
        y,
        "node",
        &[Piece::Text("node "), Piece::Number(place.node)],
    )
}

/// The greatest number of bytes that a bar has to show.
fn greatest(places: &[Place<'_>], size: u64) -> u64 {
    let mut greatest = 0;
    for place in places {
        greatest = greatest
            .max(place.capacity)
            .max(place.copies.saturating_mul(size));
    }
    greatest
}

/// What is said of a node beside its bar.
fn draw_fill(page: &mut Bytes, place: &Place<'_>, used: u64, y: u64) -> Result<(), Memory> {
    if place.is_gateway {
        return draw_text(
            page,
            250,
            y,
            "",
            &[Piece::Text("a gateway, which keeps no copies")],
        );
    }
    if place.capacity == 0 {
        return draw_text(
            page,
            570,
            y,
            "",
            &[
                Piece::Number(place.copies),
                Piece::Text(" copies, "),
                Piece::Amount(used),
                Piece::Text(" bytes"),
            ],
        );
    }
    draw_text(
        page,
        570,
        y,
        "",
        &[
            Piece::Number(share(used, place.capacity, 100)),
            Piece::Text("% full: "),
            Piece::Number(place.copies),
            Piece::Text(" copies, "),
            Piece::Amount(used),
            Piece::Text(" of "),
            Piece::Amount(place.capacity),
            Piece::Text(" bytes"),
        ],
    )
}

/// Draws how full each node is.
pub(crate) fn draw_rooms(
    page: &mut Bytes,
    places: &[Place<'_>],
    plan: &Plan<'_>,
) -> Result<(), Memory> {
    begin_drawing(page, 1100, places.len() as u64)?;
    let all = greatest(places, plan.size);
    let (mut y, mut zone) = (24u64, "");
    for place in places {
        let used = place.copies.saturating_mul(plan.size);
        draw_name(page, place, zone, 8, y)?;
        draw_bar(page, 250, y, share(place.capacity, all, 300), "whole", 0)?;
        draw_bar(page, 250, y, share(used, all, 300), "used", 0)?;
        draw_fill(page, place, used, y)?;
        zone = place.zone;
        y = y.saturating_add(24);
    }
    add(page, Piece::Text("</svg>\n"))
}

/// Draws the partitions of a node, in the colour of their run.
fn draw_partitions(page: &mut Bytes, runs: &[Run], node: u64, y: u64) -> Result<(), Memory> {
    let mut number = 0u64;
    for run in runs {
        if run.has(node) {
            let x = run.first.saturating_mul(3).saturating_add(250);
            draw_bar(page, x, y, run.count().saturating_mul(3), "set", number % 5)?;
        }
        number = number.saturating_add(1);
    }
    Ok(())
}

/// Draws which partitions each node has.
pub(crate) fn draw_sets(
    page: &mut Bytes,
    places: &[Place<'_>],
    plan: &Plan<'_>,
) -> Result<(), Memory> {
    begin_drawing(page, 1100, places.len() as u64)?;
    let (mut y, mut zone) = (24u64, "");
    for place in places {
        draw_name(page, place, zone, 8, y)?;
        draw_bar(page, 250, y, 768, "whole", 0)?;
        draw_partitions(page, plan.runs.as_slice(), place.node, y)?;
        zone = place.zone;
        y = y.saturating_add(24);
    }
    draw_text(page, 250, y, "", &[Piece::Text("partition 0")])?;
    draw_text(page, 1018, y, "end", &[Piece::Text("255")])?;
    add(page, Piece::Text("</svg>\n"))
}

/// Says which nodes each run of partitions has.
pub(crate) fn list_sets(page: &mut Bytes, runs: &[Run]) -> Result<(), Memory> {
    add(page, Piece::Text("<ul class=\"sets\">\n"))?;
    for run in runs {
        let [a, b, c] = run.nodes;
        add_all(
            page,
            &[
                Piece::Text("<li>"),
                Piece::Number(run.first),
                Piece::Text(" to "),
                Piece::Number(run.last),
                Piece::Text(": nodes "),
                Piece::Number(a),
                Piece::Text(", "),
                Piece::Number(b),
                Piece::Text(", "),
                Piece::Number(c),
                Piece::Text("</li>\n"),
            ],
        )?;
    }
    add(page, Piece::Text("</ul>\n"))
}
