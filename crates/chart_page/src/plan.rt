//! What the lines of a schedule tell of events that their transcript doesn't: whom they concern.
use crate::line::is_event;
use crate::words::{is_one_of, node_of, number_of};

/// Whom an event concerns, as far as its line in the schedule says: 0 for none.
#[derive(Clone, Copy)]
pub(crate) struct Plan {
    pub(crate) node: u64,
    pub(crate) message: u64,
    pub(crate) request: u64,
}

/// The events whose second word is their node.
const AT_NODES: [&str; 20] = [
    "apply", "skew", "put", "get", "head", "delete", "copy", "list", "kput", "kdel", "kget",
    "restart", "gossip", "ack", "sync", "syncack", "clean", "work", "repair", "collect",
];

/// Whether a line with these words is one of a schedule: of an event, a comment, or empty.
pub(crate) fn is_planned(words: &[&str]) -> bool {
    match *words {
        [] => true,
        [first, ..] => first.is_empty() || first.starts_with('#') || is_event(first),
    }
}

/// Whom the event of a schedule's line concerns.
pub(crate) fn plan_of(words: &[&str]) -> Plan {
    let mut plan = Plan {
        node: 0,
        message: 0,
        request: 0,
    };
    match *words {
        ["lose", message] => plan.message = number_of(message).unwrap_or(0),
        ["expire", request] => plan.request = number_of(request).unwrap_or(0),
        [name, node, ..] if is_one_of(name, &AT_NODES) => {
            plan.node = node_of(node, 16).unwrap_or(0)
        }
        _ => (),
    }
    plan
}
