//! The lines of one event.
ghost use Rattle.std.specs.Prelude.{◌≡◌, ◌++◌, ◌∷◌, [], Some, decimal, codes, flat_map, IfOk, OnOk};
ghost use Rattle.crdt_core.specs.Outcomes.{OnlyWant};
ghost use Rattle.layout_roles.specs.Text.{word, number};
ghost use Rattle.k2v_model.specs.declared.line.ItemLine.TheVariants as item;
ghost use Rattle.k2v_text.specs.Grammar.{name_of};
ghost use Rattle.k2v_text.specs.Transcript.{write_word, value_line, line_text, refusal_text, answer_text, told_text};

use cluster_machine::Words;
use crdt_core::{Bytes, Memory};
use event_text::name;
use itoa::Buffer;
use k2v_model::{ItemLine, ItemRefusal, ShownValue};
use k2v_text::{ItemEvent, ItemTold};
use layout_text::{append_number, append_word};
use std::alloc::Global;

/// The first word of the line that spells an event.
pub fn item_name(event: &ItemEvent) -> &'static [u8]
    ensures { result.now ≡ name_of event.now }
{
    match event {
        ItemEvent::Common(event) => name(event),
        ItemEvent::Put { .. } => b"kput",
        ItemEvent::Delete { .. } => b"kdel",
        ItemEvent::Get { .. } => b"kget",
    }
}

/// A number in decimal, with nothing before it.
fn append_digits(out: &mut Bytes, n: u64) -> Result<(), Memory>
    ensures ok { OnOk result (out.new ≡ out.old ++ decimal n) }
    ensures want { OnlyWant result }
{
    let mut buffer = Buffer::new();
    out.extend_from_slice(buffer.format(n).as_bytes())
}

/// `N/T` after a space: the write of a node with this number.
fn append_write(out: &mut Bytes, node: u8, time: u64) -> Result<(), Memory>
    ensures ok { OnOk result (out.new ≡ out.old ++ word (decimal node ++ 47 ∷ decimal time)) }
    ensures want { OnlyWant result }
{
    append_number(out, u64::from(node))?;
    out.push(b'/')?;
    append_digits(out, time)
}

/// The word of a write.
fn write_word(is_deletion: bool) -> &'static [u8]
    ensures { result.now ≡ write_word is_deletion }
{
    if is_deletion { b"kdel" } else { b"kput" }
}

fn append_write_done(
    out: &mut Bytes,
    request: u64,
    is_deletion: bool,
    node: u8,
) -> Result<(), Memory>
    ensures ok { OnOk result (out.new ≡ out.old ++ line_text
        (item.WriteDone request is_deletion node)) }
    ensures want { OnlyWant result }
{
    out.extend_from_slice(b"done")?;
    append_number(out, request)?;
    append_word(out, write_word(is_deletion))?;
    append_write(out, node, request)?;
    out.push(b'\n')
}

fn append_value(out: &mut Bytes, value: &ShownValue) -> Result<(), Memory>
    ensures ok { OnOk result (out.new ≡ out.old ++ value_line value.now) }
    ensures want { OnlyWant result }
{
    out.extend_from_slice(b"value")?;
    append_write(out, value.node, value.time)?;
    append_number(out, value.size)?;
    let text = hex::encode(out.allocator(), &value.md5)?;
    append_word(out, text.as_bytes())?;
    out.push(b'\n')
}

fn append_values(out: &mut Bytes, values: &[ShownValue]) -> Result<(), Memory>
    ensures ok { OnOk result (out.new ≡ out.old ++ flat_map value_line values.now) }
    ensures want { OnlyWant result }
{
    for value in values {
        append_value(out, value)?;
    }
    Ok(())
}

fn append_read_done(out: &mut Bytes, request: u64, values: &[ShownValue]) -> Result<(), Memory>
    ensures ok { OnOk result (out.new ≡ out.old ++ line_text (item.ReadDone request values.now)) }
    ensures want { OnlyWant result }
{
    out.extend_from_slice(b"done")?;
    append_number(out, request)?;
    append_word(out, b"kget")?;
    append_number(out, values.len() as u64)?;
    out.push(b'\n')?;
    append_values(out, values)
}

fn append_line(out: &mut Bytes, line: &ItemLine) -> Result<(), Memory>
    ensures ok { OnOk result (out.new ≡ out.old ++ line_text line.now) }
    ensures want { OnlyWant result }
{
    match line {
        ItemLine::Cluster(line) => {
            let text = event_text::line_text(out.allocator(), line)?;
            out.extend_from_slice(text.as_slice())
        }
        ItemLine::WriteDone {
            request,
            is_deletion,
            node,
        } => append_write_done(out, *request, *is_deletion, *node),
        ItemLine::ReadDone { request, values } => {
            append_read_done(out, *request, values.as_slice())
        }
    }
}

fn append_lines(out: &mut Bytes, lines: &[ItemLine]) -> Result<(), Memory>
    ensures ok { OnOk result (out.new ≡ out.old ++ flat_map line_text lines.now) }
    ensures want { OnlyWant result }
{
    for line in lines {
        append_line(out, line)?;
    }
    Ok(())
}

/// `L NAME refused REASON N` and a line feed.
fn refused_line(
    alloc: Global,
    line: u64,
    name: &[u8],
    reason: &[u8],
    n: u64,
) -> Result<Bytes, Memory>
    ensures text { IfOk result
        (λ t. t ≡ decimal line ++ word name.now ++ word
        (codes "refused" ++ word (reason.now ++ number n)) ++ 10 ∷ []) }
    ensures want { OnlyWant result }
{
    let mut out = Bytes::new(alloc);
    append_digits(&mut out, line)?;
    append_word(&mut out, name)?;
    append_word(&mut out, b"refused")?;
    append_word(&mut out, reason)?;
    append_number(&mut out, n)?;
    out.push(b'\n')?;
    Ok(out)
}

/// An event's own line.
fn answer_line(
    alloc: Global,
    line: u64,
    name: &[u8],
    refused: Option<ItemRefusal>,
    words: &Words,
) -> Result<Bytes, Memory>
    ensures text { IfOk result
        (λ t. t ≡ decimal line ++ word name.now ++ word (answer_text refused words.now) ++
        10 ∷ []) }
    ensures want { OnlyWant result }
{
    match refused {
        None => event_text::told_text(alloc, line, name, &None, words, &[]),
        Some(ItemRefusal::Cluster(reason)) => {
            event_text::told_text(alloc, line, name, &Some(reason), words, &[])
        }
        Some(ItemRefusal::NoSuchToken(token)) => {
            refused_line(alloc, line, name, b"NoSuchToken", token)
        }
        Some(ItemRefusal::Busy(request)) => refused_line(alloc, line, name, b"Busy", request),
    }
}

/// The lines of one event: `L NAME ok WORDS` or `L NAME refused REASON`, where L is its line in the schedule, counted from
/// 1, and NAME its first word (`item_name`), and then those of what happened, in order.
pub fn told_text(alloc: Global, line: u64, name: &[u8], told: ItemTold) -> Result<Bytes, Memory>
    ensures text { IfOk result
        (λ t. t ≡ told_text line name.now told.refused told.words told.lines) }
    ensures want { OnlyWant result }
{
    let mut out = answer_line(alloc, line, name, told.refused, &told.words)?;
    append_lines(&mut out, told.lines.as_slice())?;
    Ok(out)
}
