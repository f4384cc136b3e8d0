//! The headers of a request as they are signed.
ghost use Rattle.std.specs.Prelude.{◌≡◌, [], map, IfOk};
ghost use Rattle.std.specs.List.{list_all};
ghost use Rattle.std.specs.Char.{to_ascii_lowercase};
ghost use Rattle.crdt_core.specs.Outcomes.{OnlyWant};
ghost use Rattle.sig_request.specs.Fields as spec;

use crate::texts::{is_less, joined, words};
use crdt_core::{Bytes, List, Memory};
use http_model::Head;
use std::alloc::Global;

fn lowered(alloc: Global, name: &[u8]) -> Result<Bytes, Memory>
    ensures name { IfOk result (λ text. text ≡ map to_ascii_lowercase name.now) }
    ensures want { OnlyWant result }
{
    let mut text = Bytes::new(alloc);
    for byte in name {
        text.push(byte.to_ascii_lowercase())?;
    }
    Ok(text)
}

/// The headers of a request, with their names in lower case.
pub fn fields_of(alloc: Global, head: &Head) -> Result<List<(Bytes, Bytes)>, Memory>
    ensures fields { IfOk result (λ fields. fields ≡ spec.fields_of head.now) }
    ensures want { OnlyWant result }
{
    let mut fields: List<(Bytes, Bytes)> = List::new(alloc);
    for (name, value) in head.headers.as_slice() {
        let name = lowered(alloc, name.as_slice())?;
        let value = Bytes::from_slice(alloc, value.as_slice())?;
        fields.push((name, value))?;
    }
    Ok(fields)
}

/// The values of the fields of a name, in their order.
pub fn values_of(
    alloc: Global,
    name: &[u8],
    fields: &[(Bytes, Bytes)],
) -> Result<List<Bytes>, Memory>
    ensures values { IfOk result (λ values. values ≡ spec.values_of name.now fields.now) }
    ensures want { OnlyWant result }
{
    let mut values: List<Bytes> = List::new(alloc);
    for field in fields {
        if field.0.as_slice() == name {
            values.push(Bytes::from_slice(alloc, field.1.as_slice())?)?;
        }
    }
    Ok(values)
}

// A value without the spaces around it, and with one space for each run of them.
fn plain_value(alloc: Global, value: &[u8]) -> Result<Bytes, Memory>
    ensures text { IfOk result (λ text. text ≡ spec.plain_value value.now) }
    ensures want { OnlyWant result }
{
    let words = words(alloc, b' ', value)?;
    joined(alloc, b' ', words.as_slice())
}

fn plain_values(alloc: Global, values: &[Bytes]) -> Result<List<Bytes>, Memory>
    ensures texts { IfOk result (λ texts. texts ≡ map spec.plain_value values.now) }
    ensures want { OnlyWant result }
{
    let mut texts: List<Bytes> = List::new(alloc);
    for value in values {
        texts.push(plain_value(alloc, value.as_slice())?)?;
    }
    Ok(texts)
}

// A name's line: the name, and its values with commas between.
fn field_line(alloc: Global, fields: &[(Bytes, Bytes)], name: &[u8]) -> Result<Bytes, Memory>
    ensures text { IfOk result (λ text. text ≡ spec.field_line fields.now name.now) }
    ensures want { OnlyWant result }
{
    let values = values_of(alloc, name, fields)?;
    let values = plain_values(alloc, values.as_slice())?;
    let values = joined(alloc, b',', values.as_slice())?;
    let mut text = Bytes::from_slice(alloc, name)?;
    text.extend_from_slice(b":")?;
    text.extend_from_slice(values.as_slice())?;
    text.extend_from_slice(b"\n")?;
    Ok(text)
}

/// The lines of the names that are signed.
pub(crate) fn field_lines(
    alloc: Global,
    fields: &[(Bytes, Bytes)],
    names: &[Bytes],
) -> Result<Bytes, Memory>
    ensures text { IfOk result (λ text. text ≡ spec.field_lines fields.now names.now) }
    ensures want { OnlyWant result }
{
    let mut text = Bytes::new(alloc);
    for name in names {
        let line = field_line(alloc, fields, name.as_slice())?;
        text.extend_from_slice(line.as_slice())?;
    }
    Ok(text)
}

// Whether each name is above the one before it, and the first isn't empty.
fn ascend(names: &[Bytes]) -> bool
    ensures { result ≡ spec.ascend_after [] names.now }
{
    let mut last: &[u8] = &[];
    for name in names {
        if !is_less(last, name.as_slice()) {
            return false;
        }
        last = name.as_slice();
    }
    true
}

fn has_field(fields: &[(Bytes, Bytes)], name: &[u8]) -> bool
    ensures { result ≡ spec.has_field fields.now name.now }
{
    fields.iter().any(|field| field.0.as_slice() == name)
}

fn has_fields(fields: &[(Bytes, Bytes)], names: &[Bytes]) -> bool
    ensures { result ≡ list_all (spec.has_field fields.now) names.now }
{
    names.iter().all(|name| has_field(fields, name.as_slice()))
}

fn has_name(names: &[Bytes], name: &[u8]) -> bool
    ensures { result ≡ spec.has_name names.now name.now }
{
    names.iter().any(|other| name == other.as_slice())
}

fn is_of_amazon(name: &[u8]) -> bool
    ensures { result ≡ spec.is_of_amazon name.now }
{
    name.starts_with(b"x-amz-")
}

fn is_covered(names: &[Bytes], field: &(Bytes, Bytes)) -> bool
    ensures { result ≡ spec.is_covered names.now field.now }
{
    !is_of_amazon(field.0.as_slice()) || has_name(names, field.0.as_slice())
}

fn are_covered(names: &[Bytes], fields: &[(Bytes, Bytes)]) -> bool
    ensures { result ≡ list_all (spec.is_covered names.now) fields.now }
{
    fields.iter().all(|field| is_covered(names, field))
}

/// Whether these names may be signed: they ascend, the request has a field of each, and `host` and the names of
/// all its `x-amz-` fields are among them.
pub fn may_be_signed(fields: &[(Bytes, Bytes)], names: &[Bytes]) -> bool
    ensures { result ≡ spec.may_be_signed fields.now names.now }
{
    ascend(names)
        && has_fields(fields, names)
        && has_name(names, b"host")
        && are_covered(names, fields)
}
