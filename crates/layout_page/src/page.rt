//! The page of a layout.
use crate::cut::draw_cut;
use crate::places::{Place, bare_places, told_places};
use crate::plan::Plan;
use crate::rooms::{draw_rooms, draw_sets, list_sets};
use crate::style::HEAD;
use crate::tally::Tally;
use chart_page::{Fault, Piece, add, add_all, without_last_feed};
use crdt_core::{Bytes, Memory};
use layout_text::{Config, ConfigFault, FieldName, read_config};
use std::alloc::Global;
use std::str::from_utf8;

/// Why there is no page of a layout.
#[derive(Clone, Copy, Debug, PartialEq, Eq)]
pub enum LayoutStop {
    /// The first line that is bad, counted from 1.
    BadLine(u64),
    /// The configuration before the layout is no TOML document.
    NotToml,
    /// Its first field that is missing, of a wrong type or out of range.
    BadField(FieldName),
    /// The allocator had none to give.
    Memory,
}

fn stop_at(fault: Fault, line: u64) -> LayoutStop {
    match fault {
        Fault::Bad => LayoutStop::BadLine(line),
        Fault::Memory => LayoutStop::Memory,
    }
}

fn stop_of(fault: ConfigFault) -> LayoutStop {
    match fault {
        ConfigFault::NotToml => LayoutStop::NotToml,
        ConfigFault::Field(name) => LayoutStop::BadField(name),
        ConfigFault::Memory => LayoutStop::Memory,
    }
}

/// What the page says first.
fn say(page: &mut Bytes, plan: &Plan<'_>) -> Result<(), Memory> {
    add_all(
        page,
        &[
            Piece::Text("<p>256 partitions of at most "),
            Piece::Amount(plan.size),
            Piece::Text(" bytes, each with copies on three nodes. Redundancy "),
            Piece::Number(plan.redundancy),
            Piece::Text(": the copies of a partition are in that many zones, at least."),
        ],
    )?;
    if let Some(moves) = plan.moves {
        add_all(
            page,
            &[
                Piece::Text(" "),
                Piece::Number(moves),
                Piece::Text(" copies come to nodes that didn't have them."),
            ],
        )?;
    }
    add(page, Piece::Text("</p>\n"))
}

/// Reads the cut in a sentence.
fn say_cut(page: &mut Bytes, plan: &Plan<'_>) -> Result<(), Memory> {
    add_all(
        page,
        &[
            Piece::Text("<h2>Why partitions can't be larger</h2>\n<p>With partitions of "),
            Piece::Amount(plan.cut_size),
            Piece::Text(" bytes, one more than these, only "),
            Piece::Number(plan.weight),
            Piece::Text(
                " of the 768 copies could cross the dashed line, and each has to cross it on its way to its room: so no layout of these nodes has larger partitions.</p>\n",
            ),
        ],
    )
}

/// What crosses the cut, and the drawings of its line.
fn draw_cuts(
    alloc: Global,
    page: &mut Bytes,
    places: &[Place<'_>],
    plan: &Plan<'_>,
) -> Result<(), Memory> {
    let mut tally = Tally {
        total: 0,
        items: Bytes::new(alloc),
    };
    for side in plan.sides.iter() {
        draw_cut(page, places, plan, side)?;
        tally.count_side(places, plan, side)?;
    }
    tally.count_others(plan)?;
    tally.count_rooms(places, plan)?;
    add(page, Piece::Text("<p>What crosses it:</p>\n<ul>\n"))?;
    page.extend_from_slice(tally.items.as_slice())?;
    add_all(
        page,
        &[
            Piece::Text("</ul>\n<p>Together "),
            Piece::Amount(tally.total),
            Piece::Text(", and 768 would be needed.</p>\n"),
        ],
    )
}

/// The page of a plan over these nodes, of which more is told or not than their copies.
fn page_of(
    alloc: Global,
    places: &[Place<'_>],
    plan: &Plan<'_>,
    is_told: bool,
) -> Result<Bytes, Memory> {
    let mut page = Bytes::new(alloc);
    add(&mut page, Piece::Text(HEAD))?;
    say(&mut page, plan)?;
    add(&mut page, Piece::Text("<h2>How full each node is</h2>\n"))?;
    draw_rooms(&mut page, places, plan)?;
    add(
        &mut page,
        Piece::Text("<h2>Which partitions each node has</h2>\n"),
    )?;
    draw_sets(&mut page, places, plan)?;
    list_sets(&mut page, plan.runs.as_slice())?;
    say_cut(&mut page, plan)?;
    if is_told {
        draw_cuts(alloc, &mut page, places, plan)?;
    } else {
        add(
            &mut page,
            Piece::Text(
                "<p>Put the configuration before the layout to see zones, rooms and the line.</p>\n",
            ),
        )?;
    }
    add(&mut page, Piece::Text("</html>\n"))?;
    Ok(page)
}

/// Adds one line of the layout.
fn take_line<'a>(alloc: Global, plan: &mut Plan<'a>, bytes: &'a [u8]) -> Result<(), Fault> {
    let text = from_utf8(bytes).ok().ok_or(Fault::Bad)?;
    let words: Vec<&'a str> = text.split(' ').collect(alloc)?;
    plan.take(text, words.as_slice())
}

/// The configuration that the lines before the layout are.
fn config_of(alloc: Global, lines: &Bytes) -> Result<Config, LayoutStop> {
    let Ok(text) = from_utf8(lines.as_slice()) else {
        return Err(LayoutStop::NotToml);
    };
    match read_config(alloc, text, 64) {
        Ok(config) => Ok(config),
        Err(fault) => Err(stop_of(fault)),
    }
}

fn drawn(alloc: Global, plan: &Plan<'_>, config: &Option<Config>) -> Result<Bytes, Fault> {
    match config {
        Some(config) => {
            let places = told_places(alloc, config.roles.list.as_slice(), plan)?;
            Ok(page_of(alloc, places.as_slice(), plan, true)?)
        }
        None => {
            let places = bare_places(alloc, plan)?;
            Ok(page_of(alloc, places.as_slice(), plan, false)?)
        }
    }
}

fn add_line(config: &mut Bytes, line: &[u8]) -> Result<(), Memory> {
    config.extend_from_slice(line)?;
    config.push(b'\n')
}

/// The page of a layout, before which the configuration may stand that it was computed for.
pub fn layout_page(alloc: Global, bytes: &[u8]) -> Result<Bytes, LayoutStop> {
    let mut plan = Plan::new(alloc);
    let mut before = Bytes::new(alloc);
    let mut has_begun = false;
    let mut number = 0u64;
    for line in without_last_feed(bytes).split(|byte| *byte == b'\n') {
        number = number.saturating_add(1);
        has_begun = has_begun || line.starts_with(b"size ");
        let taken = if has_begun {
            take_line(alloc, &mut plan, line)
        } else {
            add_line(&mut before, line).map_err(Fault::from)
        };
        if let Err(fault) = taken {
            return Err(stop_at(fault, number));
        }
    }
    if !plan.is_whole() {
        return Err(LayoutStop::BadLine(number.saturating_add(1)));
    }
    let config = if before.is_empty() {
        None
    } else {
        Some(config_of(alloc, &before)?)
    };
    match drawn(alloc, &plan, &config) {
        Ok(page) => Ok(page),
        Err(_) => Err(LayoutStop::Memory),
    }
}
