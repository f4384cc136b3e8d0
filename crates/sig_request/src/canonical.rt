//! The canonical request.
ghost use Rattle.std.specs.Prelude.{◌≡◌, IfOk};
ghost use Rattle.crdt_core.specs.Outcomes.{OnlyWant};
ghost use Rattle.sig_request.specs.Texts.{parts as parts_of};
ghost use Rattle.sig_request.specs.Fields.{fields_of as fields_in, field_lines as lines_of};
ghost use Rattle.sig_request.specs.Canonical as spec;

use crate::fields::{field_lines, fields_of};
use crate::query::{canonical_path, canonical_query};
use crate::texts::parts;
use crdt_core::{Bytes, Memory};
use http_model::Head;
use std::alloc::Global;

// The method, the path and the parameters, a line each.
fn target_lines(alloc: Global, method: &[u8], target: &[u8]) -> Result<Bytes, Memory>
    ensures text { IfOk result (λ text. text ≡ spec.target_lines method.now target.now) }
    ensures want { OnlyWant result }
{
    let path = canonical_path(alloc, target)?;
    let query = canonical_query(alloc, target)?;
    let mut text = Bytes::from_slice(alloc, method)?;
    text.extend_from_slice(b"\n")?;
    text.extend_from_slice(path.as_slice())?;
    text.extend_from_slice(b"\n")?;
    text.extend_from_slice(query.as_slice())?;
    text.extend_from_slice(b"\n")?;
    Ok(text)
}

// The lines of the signed headers.
fn header_lines(alloc: Global, head: &Head, names: &[u8]) -> Result<Bytes, Memory>
    ensures text { IfOk result
        (λ text. text ≡ lines_of (fields_in head.now) (parts_of 59 names.now)) }
    ensures want { OnlyWant result }
{
    let fields = fields_of(alloc, head)?;
    let names = parts(alloc, b';', names)?;
    field_lines(alloc, fields.as_slice(), names.as_slice())
}

/// The canonical request of a head with these signed names, with `;` between, and what is said of its body.
pub fn canonical_request(
    alloc: Global,
    head: &Head,
    names: &[u8],
    payload: &[u8],
) -> Result<Bytes, Memory>
    ensures text { IfOk result
        (λ text. text ≡ spec.canonical_request head.now names.now payload.now) }
    ensures want { OnlyWant result }
{
    let lines = header_lines(alloc, head, names)?;
    let mut text = target_lines(alloc, head.method.as_slice(), head.target.as_slice())?;
    text.extend_from_slice(lines.as_slice())?;
    text.extend_from_slice(b"\n")?;
    text.extend_from_slice(names)?;
    text.extend_from_slice(b"\n")?;
    text.extend_from_slice(payload)?;
    Ok(text)
}
