//! How an input is cut into a schedule and the transcript behind it.
ghost use Rattle.std.specs.Prelude.{◌≡◌, ◌==◌, position, option_map, IfSome};
ghost use Rattle.audit_play.specs.Parting.{IsWhole};
ghost use Rattle.audit_run.specs.Parts.{AreParts};
ghost use Rattle.audit_run.specs.Scanned.{IsMark, IsScanned};

/// The line between a schedule and its transcript.
const MARK: &[u8] = b"---";

/// A schedule, and the transcript behind it, where there is one.
#[derive(Clone, Copy, Debug)]
pub struct Parts<'a> {
    pub schedule: &'a [u8],
    pub transcript: Option<&'a [u8]>,
}

fn line_feed(text: &[u8]) -> Option<usize>
    ensures { result ≡ position (λ b. b == 10) text.now }
{
    text.iter().position(|byte| *byte == b'\n')
}

/// Where the first line that is the mark begins, and where what follows it does.
fn mark(text: &[u8]) -> Option<(usize, usize)>
    ensures { IsMark text.now result }
{
    let mut at = 0;
    while at < text.len() {
        let rest = &text[at..];
        let Some(end) = line_feed(rest) else {
            return if rest == MARK {
                Some((at, text.len()))
            } else {
                None
            };
        };
        let next = at + end + 1;
        if &rest[..end] == MARK {
            return Some((at, next));
        }
        at = next;
    }
    None
}

/// Cuts an input at its first line `---`.
pub fn cut(input: &[u8]) -> Parts<'_>
    ensures parts { AreParts input.now result.schedule.now (option_map
        (λ t. t.now) result.transcript) }
    ensures whole { IsWhole input.now → IfSome result.transcript (λ t. IsWhole t.now) }
{
    match mark(input) {
        Some((end, next)) => Parts {
            schedule: &input[..end],
            transcript: Some(&input[next..]),
        },
        None => Parts {
            schedule: input,
            transcript: None,
        },
    }
}
