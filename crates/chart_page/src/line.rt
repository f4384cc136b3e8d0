//! One line of a transcript.
use crate::words::{is_one_of, node_of, number_of};

/// What a line of a transcript tells.
#[derive(Clone, Copy)]
pub(crate) enum Line<'a> {
    /// An event's line in its schedule, its name, whether it was done or refused, and the number of its answer, 0 for none.
    Event {
        line: u64,
        name: &'a str,
        is_done: bool,
        number: u64,
    },
    /// A message came.
    Got(u64),
    /// A message went from a node to a node.
    Sent {
        message: u64,
        kind: &'a str,
        from: u64,
        to: u64,
    },
    /// A node raised its own sync to a version.
    Synced {
        node: u64,
        version: u64,
    },
    /// A request ended: the word of its kind and its answer, or `ended` and the cause.
    Ended {
        request: u64,
        word: &'a str,
        answer: &'a str,
        is_answered: bool,
    },
    /// A line of a layout, a row that a node dropped by a collection, a key that a list shows, or a value that a read of an item shows.
    Other,
    /// Whether all finished reads are fresh, and how many pairs of a read and a write were looked at.
    Check {
        is_fresh: bool,
        pairs: u64,
    },
    /// What a node has at the end, or the last line.
    Last,
}

const KINDS: [&str; 18] = [
    "get", "row", "range", "rows", "store", "stored", "behind", "nothere", "blockget", "block",
    "noblock", "walk", "same", "differ", "tomb", "tombed", "forget", "view",
];

const EVENTS: [&str; 30] = [
    "trio",
    "block",
    "bucket",
    "role",
    "redundancy",
    "apply",
    "tick",
    "skew",
    "put",
    "get",
    "head",
    "delete",
    "copy",
    "list",
    "kput",
    "kdel",
    "kget",
    "deliver",
    "lose",
    "drain",
    "expire",
    "restart",
    "gossip",
    "ack",
    "sync",
    "syncack",
    "clean",
    "work",
    "repair",
    "collect",
];

const REQUESTS: [&str; 9] = [
    "put", "get", "head", "delete", "copy", "list", "kput", "kdel", "kget",
];

const CAUSES: [&str; 3] = ["expired", "restarted", "superseded"];

/// Whether an event of this name begins a request.
pub(crate) fn is_request(name: &str) -> bool {
    is_one_of(name, &REQUESTS)
}

/// Whether an event has this name.
pub(crate) fn is_event(name: &str) -> bool {
    is_one_of(name, &EVENTS)
}

fn are_numbers(words: &[&str]) -> bool {
    for word in words {
        if number_of(word).is_none() {
            return false;
        }
    }
    true
}

/// Whether the words are a line of a layout's text.
pub fn is_layout_line(words: &[&str]) -> bool {
    match *words {
        ["size", size] => are_numbers(&[size]),
        ["redundancy", zones] => are_numbers(&[zones]),
        ["p", first, last, a, b, c] => are_numbers(&[first, last, a, b, c]),
        ["cut", size, weight] => are_numbers(&[size, weight]),
        ["c", first, last, ..] => are_numbers(&[first, last]),
        ["cn", ref nodes @ ..] => are_numbers(nodes),
        _ => false,
    }
}

fn sent<'a>(message: &str, kind: &'a str, from: &str, to: &str) -> Option<Line<'a>> {
    if !is_one_of(kind, &KINDS) {
        return None;
    }
    Some(Line::Sent {
        message: number_of(message)?,
        kind,
        from: node_of(from, 16)?,
        to: node_of(to, 16)?,
    })
}

fn done<'a>(request: &str, word: &'a str, answer: &'a str) -> Option<Line<'a>> {
    if !is_request(word) {
        return None;
    }
    Some(Line::Ended {
        request: number_of(request)?,
        word,
        answer,
        is_answered: true,
    })
}

fn ended<'a>(request: &str, cause: &'a str) -> Option<Line<'a>> {
    if !is_one_of(cause, &CAUSES) {
        return None;
    }
    Some(Line::Ended {
        request: number_of(request)?,
        word: "ended",
        answer: cause,
        is_answered: false,
    })
}

fn event<'a>(line: &str, name: &'a str, is_done: bool, number: u64) -> Option<Line<'a>> {
    let line = number_of(line)?;
    if !is_event(name) {
        return None;
    }
    Some(Line::Event {
        line,
        name,
        is_done,
        number,
    })
}

fn last(words: &[&str]) -> Option<Line<'static>> {
    match *words {
        ["node", node, "rows", rows, "blocks", blocks, "top", _]
            if are_numbers(&[node, rows, blocks]) => { Some(Line::Last) }
        ["fresh", pairs] => Some(Line::Check {
            is_fresh: true,
            pairs: number_of(pairs)?,
        }),
        ["stale", pairs] => Some(Line::Check {
            is_fresh: false,
            pairs: number_of(pairs)?,
        }),
        ["end", events, requests, messages] if are_numbers(&[events, requests, messages]) => {
            Some(Line::Last)
        }
        ["dropped", node, _] if are_numbers(&[node]) => Some(Line::Other),
        ["key", _, _, size] if are_numbers(&[size]) => Some(Line::Other),
        ["value", _, size, _] if are_numbers(&[size]) => Some(Line::Other),
        ["limit", "number"] => Some(Line::Last),
        ["limit", "sent", bytes] if are_numbers(&[bytes]) => Some(Line::Last),
        _ if is_layout_line(words) => Some(Line::Other),
        _ => None,
    }
}

/// What a line with these words tells, where it is one of a transcript.
pub(crate) fn line_of<'a>(words: &[&'a str]) -> Option<Line<'a>> {
    match *words {
        ["got", message] => Some(Line::Got(number_of(message)?)),
        ["sent", message, kind, from, to] => sent(message, kind, from, to),
        ["synced", node, version] => Some(Line::Synced {
            node: node_of(node, 16)?,
            version: number_of(version)?,
        }),
        ["done", request, word, answer, ..] => done(request, word, answer),
        ["ended", request, cause] => ended(request, cause),
        [line, name, "refused", _, ..] => event(line, name, false, 0),
        [line, name, "ok"] => event(line, name, true, 0),
        [line, name, "ok", "idle", read, least] if are_numbers(&[read, least]) => {
            event(line, name, true, 0)
        }
        [line, name, "ok", number] => event(line, name, true, number_of(number)?),
        [line, name, "ok", rows, blocks] if are_numbers(&[rows, blocks]) => {
            event(line, name, true, 0)
        }
        _ => last(words),
    }
}
