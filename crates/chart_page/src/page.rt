//! The page of a scene, put together.
use crate::pieces::{Piece, add, add_all};
use crate::scene::{Scene, x_of, y_of};
use crate::script::SCRIPT;
use crate::style::{APART, CONTROLS, HEAD, LEGEND, MARKERS};
use crdt_core::{Bytes, Memory};
use std::alloc::Global;

/// The filter, with the choice of a node.
fn draw_filter(page: &mut Bytes, nodes: u64) -> Result<(), Memory> {
    add(page, Piece::Text(CONTROLS))?;
    for node in 1..nodes.saturating_add(1) {
        add_all(
            page,
            &[
                Piece::Text("<option>"),
                Piece::Number(node),
                Piece::Text("</option>"),
            ],
        )?;
    }
    add(
        page,
        Piece::Text("</select></label> <span id=\"said\"></span></form>\n"),
    )
}

/// The names of the lanes, above all else in the drawing.
fn draw_names(page: &mut Bytes, nodes: u64) -> Result<(), Memory> {
    add_all(
        page,
        &[
            Piece::Text("<g id=\"names\"><rect height=\"18\" width=\""),
            Piece::Number(x_of(nodes.saturating_add(1))),
            Piece::Text("\"/>"),
        ],
    )?;
    for node in 1..nodes.saturating_add(1) {
        add_all(
            page,
            &[
                Piece::Text("<text y=\"13\" x=\""),
                Piece::Number(x_of(node)),
                Piece::Text("\">node "),
                Piece::Number(node),
                Piece::Text("</text>"),
            ],
        )?;
    }
    add(page, Piece::Text("</g>\n"))
}

/// The lanes.
fn draw_lanes(page: &mut Bytes, nodes: u64, bottom: u64) -> Result<(), Memory> {
    for node in 1..nodes.saturating_add(1) {
        add_all(
            page,
            &[
                Piece::Text("<path class=\"k lane\" d=\"M"),
                Piece::Number(x_of(node)),
                Piece::Text(",18L"),
                Piece::Number(x_of(node)),
                Piece::Text(","),
                Piece::Number(bottom),
                Piece::Text("\"/>"),
            ],
        )?;
    }
    Ok(())
}

/// The drawing of a scene.
fn draw_scene(page: &mut Bytes, scene: &Scene<'_>) -> Result<(), Memory> {
    let nodes = scene.nodes();
    let bottom = y_of(scene.rows().saturating_add(1));
    add_all(
        page,
        &[
            Piece::Text("<svg id=\"s\" width=\""),
            Piece::Number(x_of(nodes.saturating_add(1))),
            Piece::Text("\" height=\""),
            Piece::Number(bottom.saturating_add(16)),
            Piece::Text("\">\n"),
            Piece::Text(MARKERS),
        ],
    )?;
    page.extend_from_slice(scene.bands.as_slice())?;
    draw_lanes(page, nodes, bottom)?;
    scene.draw_messages(page)?;
    scene.draw_requests(page)?;
    scene.draw_notes(page)?;
    draw_names(page, nodes)?;
    add(page, Piece::Text("</svg>\n"))
}

/// The foot of the page: what the drawing's lines mean, the nodes at the end, and the lines that aren't drawn.
fn draw_foot(page: &mut Bytes, scene: &Scene<'_>) -> Result<(), Memory> {
    add(page, Piece::Text(LEGEND))?;
    page.extend_from_slice(scene.last.as_slice())?;
    add(page, Piece::Text(APART))?;
    page.extend_from_slice(scene.apart.as_slice())?;
    add(page, Piece::Text("</pre></details>\n"))
}

/// The page of a scene.
pub(crate) fn page_of(alloc: Global, scene: &mut Scene<'_>) -> Result<Bytes, Memory> {
    scene.end_bands()?;
    let mut page = Bytes::new(alloc);
    add(&mut page, Piece::Text(HEAD))?;
    scene.describe(&mut page)?;
    draw_filter(&mut page, scene.nodes())?;
    draw_scene(&mut page, scene)?;
    draw_foot(&mut page, scene)?;
    add(&mut page, Piece::Text("<script>\n"))?;
    add(&mut page, Piece::Text(SCRIPT))?;
    add(&mut page, Piece::Text("</script>\n</html>\n"))?;
    Ok(page)
}
