//! Messages as arrows.
use crate::pieces::{Piece, add, add_all};
use crate::scene::{Arrival, Message, add_classes, x_of, y_of};
use crdt_core::{Bytes, Memory};

/// How many rows a message may go down as a whole line; of one that goes further the ends alone are drawn.
const LONG: u64 = 80;

/// Where an arrow ends: beside the lane that it comes to, on the side that it comes from.
fn beside(lane: u64, other: u64) -> u64 {
    if lane < other {
        x_of(lane).saturating_add(13)
    } else {
        x_of(lane).saturating_sub(13)
    }
}

/// Where a stub ends that stands for an arrow to or from another row.
fn aside(lane: u64, other: u64) -> u64 {
    if lane < other {
        x_of(lane).saturating_add(43)
    } else {
        x_of(lane).saturating_sub(43)
    }
}

/// Begins a path of these classes.
fn begin_path(page: &mut Bytes, message: &Message<'_>, class: &'static str) -> Result<(), Memory> {
    add_all(
        page,
        &[
            Piece::Text("<path class=\"m k-"),
            Piece::Word(message.kind),
            Piece::Text(class),
        ],
    )?;
    add_classes(page, message.request, message.from, message.to)?;
    add(page, Piece::Text("\" d=\"M"))
}

/// Ends a path, with what is shown where it is pointed at.
fn end_path(page: &mut Bytes, message: &Message<'_>) -> Result<(), Memory> {
    add_all(
        page,
        &[
            Piece::Text("\"><title>message "),
            Piece::Number(message.number),
            Piece::Text(", "),
            Piece::Word(message.kind),
            Piece::Text(" from node "),
            Piece::Number(message.from),
            Piece::Text(" to "),
            Piece::Number(message.to),
            Piece::Text("</title></path>"),
        ],
    )
}

/// Writes the number and kind of a message.
fn draw_name(
    page: &mut Bytes,
    message: &Message<'_>,
    class: &'static str,
    x: u64,
    y: u64,
) -> Result<(), Memory> {
    add(page, Piece::Text("<text class=\"l"))?;
    add(page, Piece::Text(class))?;
    add_classes(page, message.request, message.from, message.to)?;
    add_all(
        page,
        &[
            Piece::Text("\" x=\""),
            Piece::Number(x),
            Piece::Text("\" y=\""),
            Piece::Number(y),
            Piece::Text("\">"),
            Piece::Number(message.number),
            Piece::Text(" "),
            Piece::Word(message.kind),
            Piece::Text("</text>\n"),
        ],
    )
}

/// Draws the line of a message from where it was sent to where it came.
fn draw_line(page: &mut Bytes, message: &Message<'_>, end: u64) -> Result<(), Memory> {
    let begin = y_of(message.row).saturating_sub(4);
    if message.from == message.to {
        let near = x_of(message.from).saturating_add(13);
        let far = x_of(message.from).saturating_add(50);
        return add_all(
            page,
            &[
                Piece::Number(near),
                Piece::Text(","),
                Piece::Number(begin),
                Piece::Text("C"),
                Piece::Number(far),
                Piece::Text(","),
                Piece::Number(begin),
                Piece::Text(" "),
                Piece::Number(far),
                Piece::Text(","),
                Piece::Number(end),
                Piece::Text(" "),
                Piece::Number(near),
                Piece::Text(","),
                Piece::Number(end),
            ],
        );
    }
    add_all(
        page,
        &[
            Piece::Number(beside(message.from, message.to)),
            Piece::Text(","),
            Piece::Number(begin),
            Piece::Text("L"),
            Piece::Number(beside(message.to, message.from)),
            Piece::Text(","),
            Piece::Number(end),
        ],
    )
}

/// Draws the two ends of the line of a message that came long after it was sent.
fn draw_ends(page: &mut Bytes, message: &Message<'_>, end: u64) -> Result<(), Memory> {
    let begin = y_of(message.row).saturating_sub(4);
    let (from, to) = (message.from, message.to);
    // Of a message to the node itself both ends are on the right.
    let (there, here) = if from == to {
        (to.saturating_add(1), from.saturating_add(1))
    } else {
        (to, from)
    };
    add_all(
        page,
        &[
            Piece::Number(beside(from, there)),
            Piece::Text(","),
            Piece::Number(begin),
            Piece::Text("L"),
            Piece::Number(aside(from, there)),
            Piece::Text(","),
            Piece::Number(begin.saturating_add(4)),
            Piece::Text("M"),
            Piece::Number(aside(to, here)),
            Piece::Text(","),
            Piece::Number(end.saturating_sub(4)),
            Piece::Text("L"),
            Piece::Number(beside(to, here)),
            Piece::Text(","),
            Piece::Number(end),
        ],
    )
}

/// How high an arrow is at x, which lies between its ends.
fn height_at(arrow: &Arrival<'_>, x: u64) -> u64 {
    let (from, to) = (arrow.message.from, arrow.message.to);
    let (begin, end) = (beside(from, to), beside(to, from));
    let (top, bottom) = (y_of(arrow.message.row), y_of(arrow.row));
    let width = begin.max(end).saturating_sub(begin.min(end));
    if width == 0 {
        return top;
    }
    let passed = x.max(begin).saturating_sub(x.min(begin));
    let fall = bottom.saturating_sub(top).saturating_mul(passed);
    top.saturating_add(fall / width).saturating_sub(4)
}

/// Whether an arrow goes through the place where the name of another one stands, on the far side of the lane that this comes to.
fn crosses(arrow: &Arrival<'_>, named: &Arrival<'_>) -> bool {
    if arrow.row.saturating_sub(arrow.message.row) > LONG {
        return false;
    }
    let (from, to) = (arrow.message.from, arrow.message.to);
    let lane = named.message.to;
    let is_right = named.message.from < lane;
    if from == to {
        return is_right && to == lane && arrow.message.row <= named.row && named.row <= arrow.row;
    }
    let left = if is_right {
        lane
    } else {
        lane.saturating_sub(1)
    };
    if from.min(to) > left || from.max(to) <= left {
        return false;
    }
    let (near, far) = if is_right {
        (x_of(lane).saturating_add(16), x_of(lane).saturating_add(76))
    } else {
        (x_of(lane).saturating_sub(16), x_of(lane).saturating_sub(76))
    };
    let (one, other) = (height_at(arrow, near), height_at(arrow, far));
    let place = y_of(named.row);
    one.min(other) <= place.saturating_add(2) && place.saturating_sub(9) <= one.max(other)
}

/// Whether the name at the end of an arrow would lie under another arrow. Each row has one that comes, so of those that come
/// later only the next ones can have been sent before this one came.
fn is_covered(arrivals: &[Arrival<'_>], place: usize, named: &Arrival<'_>) -> bool {
    let first = place.saturating_sub(2);
    let last = place.saturating_add(82).min(arrivals.len());
    let Some(near) = arrivals.get(first..last) else {
        return false;
    };
    for arrow in near {
        if arrow.row != named.row && crosses(arrow, named) {
            return true;
        }
    }
    false
}

/// Draws a message that came: dashed where it had come before. Its name is hidden where it would lie under another arrow.
pub(crate) fn draw_arrow(
    page: &mut Bytes,
    arrivals: &[Arrival<'_>],
    place: usize,
    arrow: &Arrival<'_>,
) -> Result<(), Memory> {
    let message = &arrow.message;
    begin_path(page, message, if message.has_come { " again" } else { "" })?;
    let end = y_of(arrow.row).saturating_sub(4);
    if arrow.row.saturating_sub(message.row) > LONG {
        draw_ends(page, message, end)?;
    } else {
        draw_line(page, message, end)?;
    }
    end_path(page, message)?;
    let is_hidden = is_covered(arrivals, place, arrow);
    let y = y_of(arrow.row);
    if message.from < message.to {
        let x = x_of(message.to).saturating_add(16);
        draw_name(page, message, if is_hidden { " h" } else { "" }, x, y)
    } else {
        let x = x_of(message.to).saturating_sub(16);
        draw_name(page, message, if is_hidden { " h e" } else { " e" }, x, y)
    }
}

/// Draws a message that never came: dotted, with a cross; down to where it was lost, where that is known.
pub(crate) fn draw_waiting(page: &mut Bytes, message: &Message<'_>) -> Result<(), Memory> {
    let row = if message.lost > 0 {
        message.lost
    } else {
        message.row
    };
    let end = y_of(row).saturating_sub(4);
    begin_path(page, message, " gone")?;
    draw_line(page, message, end)?;
    end_path(page, message)?;
    if message.lost > 0 {
        // The event's mark names it.
        return Ok(());
    }
    if message.from < message.to {
        draw_name(
            page,
            message,
            " x e",
            x_of(message.to).saturating_sub(20),
            end,
        )
    } else {
        draw_name(
            page,
            message,
            " x",
            x_of(message.to).saturating_add(20),
            end,
        )
    }
}
