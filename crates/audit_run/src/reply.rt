//! The line that an audit writes, with its status.
ghost use Rattle.std.specs.Prelude.{◌≡◌, ◌++◌, ◌-◌, ◌^◌, min, IfOk};
ghost use Rattle.crdt_core.specs.Outcomes.{OnlyWant};
ghost use Rattle.layout_roles.specs.Text.{line, number};
ghost use Rattle.replay_command.specs.Answer.{events_line, bad_line_text};
ghost use Rattle.replay_run.specs.Replay.{sent_line};
ghost use Rattle.audit_run.specs.Answer.{no_transcript_line};

use crdt_core::{Bytes, Memory};
use lab_outside::Status;
use layout_text::append_number;
use std::alloc::Global;

/// What is answered.
#[derive(Debug, Drop)]
pub struct Reply {
    pub status: Status,
    pub text: Bytes,
}

/// A line without numbers.
pub fn plain(alloc: Global, status: Status, words: &[u8]) -> Result<Reply, Memory>
    ensures status { IfOk result (λ reply. reply.status ≡ status) }
    ensures text { IfOk result (λ reply. reply.text ≡ line words.now) }
    ensures want { OnlyWant result }
{
    let mut text = Bytes::from_slice(alloc, words)?;
    text.push(b'\n')?;
    Ok(Reply { status, text })
}

/// A line that ends with a number.
pub fn numbered(alloc: Global, status: Status, words: &[u8], n: u64) -> Result<Reply, Memory>
    ensures status { IfOk result (λ reply. reply.status ≡ status) }
    ensures text { IfOk result (λ reply. reply.text ≡ line (words.now ++ number n)) }
    ensures want { OnlyWant result }
{
    let mut text = Bytes::from_slice(alloc, words)?;
    append_number(&mut text, n)?;
    text.push(b'\n')?;
    Ok(Reply { status, text })
}
