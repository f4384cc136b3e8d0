//! What stands at the lanes beside messages: requests as bars, events as marks, versions as bands; and the lines beside the lanes.
use crate::pieces::{Piece, add, add_all};
use crate::scene::{Note, Request, Since, add_classes, x_of, y_of};
use crdt_core::{Bytes, Memory};

/// Draws the band of a version from where it began to a row, where there is one.
pub(crate) fn draw_band(page: &mut Bytes, node: u64, since: Since, end: u64) -> Result<(), Memory> {
    if since.version == 0 {
        return Ok(());
    }
    let (left, right) = if node == 0 {
        (200, 2570)
    } else {
        (x_of(node).saturating_sub(5), x_of(node).saturating_add(5))
    };
    let (top, bottom) = (
        y_of(since.row).saturating_sub(10),
        y_of(end).saturating_sub(10),
    );
    add_all(
        page,
        &[
            Piece::Text(if node == 0 {
                "<path class=\"k v"
            } else {
                "<path class=\"k s"
            }),
            Piece::Number(since.version % 3),
            Piece::Text("\" d=\"M"),
            Piece::Number(left),
            Piece::Text(","),
            Piece::Number(top),
            Piece::Text("L"),
            Piece::Number(right),
            Piece::Text(","),
            Piece::Number(top),
            Piece::Text(" "),
            Piece::Number(right),
            Piece::Text(","),
            Piece::Number(bottom),
            Piece::Text(" "),
            Piece::Number(left),
            Piece::Text(","),
            Piece::Number(bottom),
            Piece::Text("Z\"/>\n"),
        ],
    )?;
    if node > 0 {
        return Ok(());
    }
    add_all(
        page,
        &[
            Piece::Text("<path class=\"k from\" d=\"M"),
            Piece::Number(left),
            Piece::Text(","),
            Piece::Number(top),
            Piece::Text("L"),
            Piece::Number(right),
            Piece::Text(","),
            Piece::Number(top),
            Piece::Text("\"/><text class=\"k w e\" x=\"196\" y=\""),
            Piece::Number(y_of(since.row).saturating_sub(6)),
            Piece::Text("\">version "),
            Piece::Number(since.version),
            Piece::Text("</text>\n"),
        ],
    )
}

/// Draws a request as a bar, from where it began to where it ended or to the last row.
pub(crate) fn draw_request(
    page: &mut Bytes,
    request: &Request<'_>,
    number: u64,
    rows: u64,
) -> Result<(), Memory> {
    let middle = x_of(request.node);
    let x = middle.saturating_sub(8).saturating_add(number % 4 * 5);
    let is_open = request.end == 0;
    add(page, Piece::Text("<path class=\"b"))?;
    add(
        page,
        Piece::Text(if is_open {
            " open"
        } else if request.is_answered {
            ""
        } else {
            " broken"
        }),
    )?;
    add_classes(page, number, request.node, request.node)?;
    add_all(
        page,
        &[
            Piece::Text("\" d=\"M"),
            Piece::Number(x),
            Piece::Text(","),
            Piece::Number(y_of(request.begin).saturating_sub(8)),
            Piece::Text("L"),
            Piece::Number(x),
            Piece::Text(","),
            Piece::Number(y_of(if is_open { rows } else { request.end })),
            Piece::Text("\"/>"),
        ],
    )?;
    draw_words(
        page,
        number,
        request.node,
        request.begin,
        &[
            Piece::Number(number),
            Piece::Text(" "),
            Piece::Word(request.kind),
        ],
    )?;
    if is_open {
        return Ok(());
    }
    draw_words(
        page,
        number,
        request.node,
        request.end,
        &[
            Piece::Number(number),
            Piece::Text(" "),
            Piece::Word(request.word),
            Piece::Text(" "),
            Piece::Word(request.answer),
            Piece::Text("<title>"),
            Piece::Word(request.text),
            Piece::Text("</title>"),
        ],
    )
}

/// Writes words about a request beside the lane of its node.
fn draw_words(
    page: &mut Bytes,
    number: u64,
    node: u64,
    row: u64,
    words: &[Piece<'_>],
) -> Result<(), Memory> {
    add(page, Piece::Text("<text class=\"q e"))?;
    add_classes(page, number, node, node)?;
    add_all(
        page,
        &[
            Piece::Text("\" x=\""),
            Piece::Number(x_of(node).saturating_sub(14)),
            Piece::Text("\" y=\""),
            Piece::Number(y_of(row)),
            Piece::Text("\">"),
        ],
    )?;
    add_all(page, words)?;
    add(page, Piece::Text("</text>\n"))
}

/// Draws a line: beside the lanes where its node isn't known, and an event at its node's lane. A request has its bar.
pub(crate) fn draw_note(page: &mut Bytes, note: &Note<'_>) -> Result<(), Memory> {
    if note.node == 0 {
        return draw_beside(page, note);
    }
    if note.name.is_empty() || note.request > 0 {
        return Ok(());
    }
    draw_mark(page, note)
}

/// Writes a line beside the lanes.
fn draw_beside(page: &mut Bytes, note: &Note<'_>) -> Result<(), Memory> {
    add(page, Piece::Text("<text class=\"t"))?;
    add_classes(page, note.request, 0, 0)?;
    add_all(
        page,
        &[
            Piece::Text("\" x=\"8\" y=\""),
            Piece::Number(y_of(note.row)),
            Piece::Text("\">"),
            Piece::Word(note.text),
            Piece::Text("</text>\n"),
        ],
    )
}

/// Draws an event as a diamond in its node's lane, with its name, and its line where it is pointed at.
fn draw_mark(page: &mut Bytes, note: &Note<'_>) -> Result<(), Memory> {
    let x = x_of(note.node);
    let y = y_of(note.row);
    add(page, Piece::Text("<path class=\"a"))?;
    add_classes(page, 0, note.node, note.node)?;
    add_all(
        page,
        &[
            Piece::Text("\" d=\"M"),
            Piece::Number(x),
            Piece::Text(","),
            Piece::Number(y.saturating_sub(9)),
            Piece::Text("L"),
            Piece::Number(x.saturating_add(5)),
            Piece::Text(","),
            Piece::Number(y.saturating_sub(4)),
            Piece::Text(" "),
            Piece::Number(x),
            Piece::Text(","),
            Piece::Number(y.saturating_add(1)),
            Piece::Text(" "),
            Piece::Number(x.saturating_sub(5)),
            Piece::Text(","),
            Piece::Number(y.saturating_sub(4)),
            Piece::Text("Z\"><title>"),
            Piece::Word(note.text),
            Piece::Text("</title></path><text class=\"a e"),
        ],
    )?;
    add_classes(page, 0, note.node, note.node)?;
    add_all(
        page,
        &[
            Piece::Text("\" x=\""),
            Piece::Number(x.saturating_sub(14)),
            Piece::Text("\" y=\""),
            Piece::Number(y),
            Piece::Text("\">"),
            Piece::Word(note.name),
        ],
    )?;
    if note.number > 0 {
        add_all(page, &[Piece::Text(" "), Piece::Number(note.number)])?;
    }
    if note.is_refused {
        add(page, Piece::Text(" refused"))?;
    }
    add(page, Piece::Text("</text>\n"))
}
