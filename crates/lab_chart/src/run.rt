//! The program as one call.
ghost use Rattle.std.specs.Prelude.{◌≡◌, ◌≢◌, IfOk};
ghost use Rattle.std.specs.Io.KnownBytes.{IsAtEnd};
ghost use Rattle.lab_outside.specs.Rose.{Rose};
ghost use Rattle.lab_outside.specs.declared.exit.Status.TheVariants.{ReadFault, WriteFault};
ghost use Rattle.lab_outside.specs.Bytes.{Wrote};

use chart_page::{Piece, Stop, add_all, transcript_page};
use crdt_core::{Bytes, Memory};
use lab_outside::{Failed, ReadStop, Sink, Source, Status, read_up_to, write_whole};
use layout_page::{LayoutStop, layout_page};
use layout_text::FieldName;
use std::alloc::Global;

/// How many bytes the input may have.
const INPUT_LIMIT: usize = 8_388_608;

/// What is drawn.
#[derive(Clone, Copy)]
enum Drawing {
    Transcript,
    Layout,
}

/// What is to be written, and the status that goes with it.
#[derive(Drop)]
struct Reply {
    text: Bytes,
    status: Status,
    ghost unread: { status ≢ ReadFault },
    ghost unwritten: { status ≢ WriteFault },
}

/// The name of a field, as a configuration spells it.
fn field_text(name: FieldName) -> &'static str {
    match name {
        FieldName::Redundancy => "redundancy",
        FieldName::Buckets => "buckets",
        FieldName::BlockSize => "block_size",
        FieldName::Node => "node",
        FieldName::Id => "id",
        FieldName::Zone => "zone",
        FieldName::Capacity => "capacity",
        FieldName::Change => "change",
        FieldName::After => "after",
        FieldName::Region => "region",
        FieldName::Key => "key",
        FieldName::Old => "old",
    }
}

/// A line that refuses.
fn said(alloc: Global, pieces: &[Piece<'_>], status: Status) -> Result<Reply, Memory>
    requires unread { status ≢ Status.ReadFault }
    requires unwritten { status ≢ Status.WriteFault }
    ensures { status ≢ Status.Done → IfOk result (λ reply. reply.status ≢ Status.Done) }
{
    let mut text = Bytes::new(alloc);
    add_all(&mut text, pieces)?;
    text.push(b'\n')?;
    Ok(Reply { text, status })
}

fn bad_line(alloc: Global, line: u64) -> Result<Reply, Memory> {
    let pieces = [Piece::Text("bad line "), Piece::Number(line)];
    said(alloc, &pieces, Status::Refused)
}

fn transcript(alloc: Global, bytes: &[u8]) -> Result<Reply, Memory> {
    match transcript_page(alloc, bytes) {
        Ok(text) => Ok(Reply {
            text,
            status: Status::Done,
        }),
        Err(Stop::BadLine(line)) => bad_line(alloc, line),
        Err(Stop::Memory) => Err(Memory::Want),
    }
}

fn layout(alloc: Global, bytes: &[u8]) -> Result<Reply, Memory> {
    match layout_page(alloc, bytes) {
        Ok(text) => Ok(Reply {
            text,
            status: Status::Done,
        }),
        Err(LayoutStop::BadLine(line)) => bad_line(alloc, line),
        Err(LayoutStop::NotToml) => said(alloc, &[Piece::Text("bad toml")], Status::Refused),
        Err(LayoutStop::BadField(name)) => said(
            alloc,
            &[Piece::Text("bad field "), Piece::Text(field_text(name))],
            Status::Refused,
        ),
        Err(LayoutStop::Memory) => Err(Memory::Want),
    }
}

/// What the words ask for, if they ask for anything.
fn asked_by(words: &[String]) -> Option<Drawing> {
    match words {
        [chart] if chart.as_str() == "chart" => Some(Drawing::Transcript),
        [chart, what] if chart.as_str() == "chart" && what.as_str() == "layout" => {
            Some(Drawing::Layout)
        }
        _ => None,
    }
}

/// Writes what is replied, and says how that ended.
fn written<O: Sink>(output: &mut O, replied: Result<Reply, Memory>) -> Status
    ensures whole { result ≢ Status.WriteFault →
        IfOk replied (λ reply. Wrote (O.written output.old) (O.written output.new) reply.text) }
    ensures write_fault { result ≡ Status.WriteFault →
        Rose (O.faults output.old) (O.faults output.new) }
    ensures unread { result ≢ Status.ReadFault }
    ensures undone { IfOk replied (λ reply. reply.status ≢ Status.Done) → result ≢ Status.Done }
{
    match replied {
        Ok(reply) => match write_whole(output, reply.text.as_slice()) {
            Ok(()) => reply.status,
            Err(Failed) => Status::WriteFault,
        },
        Err(_) => Status::Memory,
    }
}

/// Does what the words after the program's name ask for.
pub(crate) fn run<I: Source, O: Sink>(
    alloc: Global,
    words: &[String],
    input: &mut I,
    output: &mut O,
) -> Status
    // After Done the input was read to its end.
    ensures end { result ≡ Status.Done → IsAtEnd (I.left input.new) }

    // A fault is answered only where that object's count rose, and nothing was written where a read failed.
    ensures read_fault { result ≡ Status.ReadFault →
        Rose (I.faults input.old) (I.faults input.new) }
    ensures unwritten { result ≡ Status.ReadFault → output.new ≡ output.old }
    ensures write_fault { result ≡ Status.WriteFault →
        Rose (O.faults output.old) (O.faults output.new) }
{
    let Some(drawing) = asked_by(words) else {
        let usage = "usage: garage_lab chart < TRANSCRIPT | chart layout < LAYOUT";
        return written(output, said(alloc, &[Piece::Text(usage)], Status::Usage));
    };
    let bytes = match read_up_to(alloc, input, INPUT_LIMIT) {
        Ok(bytes) => bytes,
        Err(ReadStop::Failed) => return Status::ReadFault,
        Err(ReadStop::Memory) => return Status::Memory,
    };
    if bytes.len() > INPUT_LIMIT {
        let limit = said(alloc, &[Piece::Text("limit input 8388608")], Status::Limit);
        return written(output, limit);
    }
    let replied = match drawing {
        Drawing::Transcript => transcript(alloc, bytes.as_slice()),
        Drawing::Layout => layout(alloc, bytes.as_slice()),
    };
    written(output, replied)
}
