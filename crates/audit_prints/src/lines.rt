//! Which lines are those of a printed layout.
ghost use Rattle.std.specs.Prelude.{◌≡◌, ◌<◌, length, IfSome};
ghost use Rattle.audit_model.specs.Printed.{is_more, more_lines};
ghost use Rattle.audit_prints.specs.Lines.{is_apply, gives_one, size_first};

use audit_model::{Said, Told};
use cluster_machine::Words;
use store_model::Event;

/// Whether the event computes a layout.
pub fn is_apply(event: &Event) -> bool
    ensures { result ≡ is_apply event.now }
{
    matches!(event, Event::Apply(_))
}

/// Whether it was accepted, with one number.
pub fn gives_one(told: &Told) -> bool
    ensures { result ≡ gives_one told.now }
{
    matches!(told, Told::Accepted(Words::One(_)))
}

/// The size, where the first of these lines tells one.
pub fn size_first(saids: &[Said]) -> Option<u64>
    ensures size { result ≡ size_first saids.now }
    ensures some { IfSome result (λ _. 0 < length saids.now) }
{
    match saids.first() {
        Some(Said::Size(size)) => Some(*size),
        _ => None,
    }
}

// Whether the line is one of a printed layout, past its first.
fn is_more(said: &Said) -> bool
    ensures { result ≡ is_more said.now }
{
    matches!(
        said,
        Said::Redundancy(_)
            | Said::Sets { .. }
            | Said::Cut { .. }
            | Said::Side { .. }
            | Said::Nodes(_)
    )
}

/// The first of these lines that are those of a printed layout.
pub fn more_lines(saids: &[Said]) -> &[Said]
    ensures { result.now ≡ more_lines saids.now }
{
    for (i, said) in saids.iter().enumerate() {
        if !is_more(said) {
            return &saids[..i];
        }
    }
    saids
}
