//! Where the event of a line stands.
ghost use Rattle.std.specs.Prelude.{◌≡◌, ◌<◌, ◌==◌, Some, None, false, cond, length, slice_get, option_map, IfSome, IfNone};
ghost use Rattle.std.specs.List.{AllByRecursion};
ghost use Rattle.history_model.specs.Record.{same_bytes};
ghost use Rattle.text_model.specs.Grammar.{name_of};
ghost use Rattle.audit_model.specs.Heard.{event_at, AscendFrom};

use store_model::{Event, Numbered};

// The place of the event of this line.
fn place_of(events: &[Numbered], line: u64) -> Option<usize>
    requires { AscendFrom 0 events.now }
    ensures in_range { IfSome result (λ i. i < length events.now) }
    ensures found { IfSome result (λ i. IfSome (slice_get events.now i) (λ e. e.line ≡ line)) }
    ensures absent { IfNone result (AllByRecursion (λ e. (e.line == line) ≡ false) events.now) }
{
    events.binary_search_by(|event| event.line.cmp(&line)).ok()
}

// The event, where it has this name.
fn named<'a>(numbered: &'a Numbered, name: &[u8]) -> Option<&'a Event>
    ensures { option_map (λ e. e.now) result ≡ cond
        (same_bytes (name_of numbered.now.event) name.now) (Some numbered.now.event) None }
{
    if event_text::name(&numbered.event) == name {
        Some(&numbered.event)
    } else {
        None
    }
}

/// The event of the schedule at this line and with this name, among events whose lines ascend.
pub fn event_at<'a>(events: &'a [Numbered], line: u64, name: &[u8]) -> Option<&'a Event>
    requires { AscendFrom 0 events.now }
    ensures { option_map (λ e. e.now) result ≡ event_at events.now line name.now }
{
    match place_of(events, line) {
        Some(place) => named(&events[place], name),
        None => None,
    }
}
