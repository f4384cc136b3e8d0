//! The bytes of a head, read by `httparse`.
ghost use Rattle.std.specs.Prelude.{◌≡◌, ◌≤◌, length, map, take, All, IfOk};
ghost use Rattle.crdt_core.specs.Outcomes.{OnlyWant};
ghost use Rattle.httparse.specs.Spans.{IsRequestWithin, IsHeaderWithin, header_bytes};
ghost use Rattle.http_model.specs.Heads.{IsReading};
ghost use Rattle.http_wire.specs.Parts.{parts_at};

use crdt_core::{Bytes, List, Memory};
use http_model::Head;
use httparse::Status;
use httparse::spans::{EMPTY_HEADER_SPAN, HeaderSpan, RequestSpans, parse_request};
use std::alloc::Global;

/// How many headers a head may have.
const HEADER_LIMIT: usize = 64;

/// The names and values that the spans cover.
fn headers_at(
    alloc: Global,
    front: &[u8],
    spans: &[HeaderSpan],
) -> Result<List<(Bytes, Bytes)>, Memory>
    requires { All (IsHeaderWithin (length front.now)) spans.now }
    ensures headers { IfOk result (λ headers. headers ≡ map (header_bytes front.now) spans.now) }
    ensures want { OnlyWant result }
{
    let mut headers = Vec::with_capacity(alloc, spans.len())?;
    for span in spans {
        let name = Bytes::from_slice(alloc, span.name.of(front))?;
        let value = Bytes::from_slice(alloc, span.value.of(front))?;
        headers.push((name, value))?;
    }
    Ok(List::from_vec(headers))
}

/// What the spans cover of a head's bytes.
fn head_at(
    alloc: Global,
    front: &[u8],
    headers: &[HeaderSpan],
    spans: RequestSpans,
) -> Result<Head, Memory>
    requires { IsRequestWithin front.now headers.now spans }
    ensures head { IfOk result (λ head. head ≡ parts_at front.now headers.now spans) }
    ensures want { OnlyWant result }
{
    let method = Bytes::from_slice(alloc, spans.method.of(front))?;
    let target = Bytes::from_slice(alloc, spans.path.of(front))?;
    let headers = headers_at(alloc, front, &headers[..spans.headers])?;
    Ok(Head {
        method,
        target,
        minor: spans.version,
        headers,
    })
}

/// What the bytes of a head say, if they are one.
pub fn parse(alloc: Global, front: &[u8]) -> Result<Option<Head>, Memory>
    ensures head { IfOk result (IsReading front.now) }
    ensures want { OnlyWant result }
{
    let mut headers = [EMPTY_HEADER_SPAN; HEADER_LIMIT];
    match parse_request(front, &mut headers) {
        Ok(Status::Complete(spans)) if spans.len == front.len() => {
            let head = head_at(alloc, front, &headers, spans)?;
            Ok(Some(head))
        }
        _ => Ok(None),
    }
}
