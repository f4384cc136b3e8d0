//! The target of a request: its path and its query.
ghost use Rattle.std.specs.Prelude.{◌≡◌, [], ◌++◌, not, map, filter_map, IfOk, OnOk};
ghost use Rattle.std.specs.List.{slice_split, cons_option};
ghost use Rattle.std.specs.Str.{is_utf8};
ghost use Rattle.crdt_core.specs.Outcomes.{OnlyWant};
ghost use Rattle.s3_model.specs.Targets.{path_of, query_of, place_in as place_with, place_of, has_text_key, spaced, query_text as text_of_part, parameter_of, parameter_in, is_and, parameters_of, is_bad_target};

use crate::pieces::{after, before, decoded};
use crdt_core::{Bytes, List, Memory};
use s3_model::Place;
use std::alloc::{AllocError, Global};
use std::str::from_utf8;

/// The path of a target: what stands before its first `?`.
pub fn path(target: &[u8]) -> &[u8]
    ensures { result.now ≡ path_of target.now }
{
    before(target, b'?')
}

/// The query of a target: what stands after its first `?`.
pub(crate) fn query(target: &[u8]) -> &[u8]
    ensures { result.now ≡ query_of target.now }
{
    after(target, b'?')
}

// A bucket, and what follows its slash.
fn place_in(alloc: Global, bucket: &[u8], key: &[u8]) -> Result<Place, Memory>
    ensures same { IfOk result (λ place. place ≡ place_with bucket.now key.now) }
    ensures want { OnlyWant result }
{
    let bucket = decoded(alloc, bucket)?;
    if key.is_empty() {
        return Ok(Place::Bucket(bucket));
    }
    let key = decoded(alloc, key)?;
    Ok(Place::Object(bucket, key))
}

/// What a path names.
pub(crate) fn place(alloc: Global, path: &[u8]) -> Result<Place, Memory>
    ensures same { IfOk result (λ place. place ≡ place_of path.now) }
    ensures want { OnlyWant result }
{
    match path {
        [] | [_] => Ok(Place::Root),
        [_, rest @ ..] => place_in(alloc, before(rest, b'/'), after(rest, b'/')),
    }
}

fn is_text(bytes: &[u8]) -> bool
    ensures { result ≡ is_utf8 bytes.now }
{
    from_utf8(bytes).is_ok()
}

/// The key of a place, if it has one, is UTF-8.
pub(crate) fn has_text_key(place: &Place) -> bool
    ensures { result ≡ has_text_key place.now }
{
    match place {
        Place::Root | Place::Bucket(_) => true,
        Place::Object(_, key) => is_text(key.as_slice()),
    }
}

// `+` is a space in a query.
fn spaced(byte: u8) -> u8
    ensures { result ≡ spaced byte }
{
    if byte == b'+' { b' ' } else { byte }
}

// What a part of a query stands for.
fn query_text(alloc: Global, part: &[u8]) -> Result<Bytes, Memory>
    ensures same { IfOk result (λ text. text ≡ text_of_part part.now) }
    ensures want { OnlyWant result }
{
    let spaced: Vec<u8> = part.iter().map(|byte| spaced(*byte)).collect(alloc)?;
    decoded(alloc, &spaced)
}

// The name and the value of a parameter.
fn parameter(alloc: Global, piece: &[u8]) -> Result<(Bytes, Bytes), Memory>
    ensures same { IfOk result (λ pair. pair ≡ parameter_of piece.now) }
    ensures want { OnlyWant result }
{
    let name = query_text(alloc, before(piece, b'='))?;
    let value = query_text(alloc, after(piece, b'='))?;
    Ok((name, value))
}

// The parameter that a piece of a query gives, if it gives one.
fn parameter_in(alloc: Global, piece: &[u8]) -> Result<Option<(Bytes, Bytes)>, Memory>
    ensures same { IfOk result (λ given. given ≡ parameter_in piece.now) }
    ensures want { OnlyWant result }
{
    if piece.is_empty() {
        return Ok(None);
    }
    let parameter = parameter(alloc, piece)?;
    if parameter.0.as_slice() == b"x-id".as_slice() {
        return Ok(None);
    }
    Ok(Some(parameter))
}

// The pieces of a query, which stand between `&`.
fn pieces(alloc: Global, query: &[u8]) -> Result<Vec<&[u8]>, AllocError>
    ensures { IfOk result (λ pieces. map
        (λ piece. piece.now) pieces.items ≡ slice_split is_and query.now) }
{
    query.split(|byte| *byte == b'&').collect(alloc)
}

// Puts a parameter, if there is one, behind those that are given.
fn push_given(
    given: &mut List<(Bytes, Bytes)>,
    parameter: Option<(Bytes, Bytes)>,
) -> Result<(), Memory>
    ensures ok { OnOk result (given.new ≡ given.old ++ cons_option parameter []) }
    ensures want { OnlyWant result }
{
    match parameter {
        Some(parameter) => given.push(parameter),
        None => Ok(()),
    }
}

// The parameters that the pieces give.
fn parameters_in(alloc: Global, pieces: &[&[u8]]) -> Result<List<(Bytes, Bytes)>, Memory>
    ensures same { IfOk result
        (λ given. given ≡ filter_map parameter_in (map (λ piece. piece.now) pieces.now)) }
    ensures want { OnlyWant result }
{
    let mut given = List::new(alloc);
    for piece in pieces {
        let parameter = parameter_in(alloc, piece)?;
        push_given(&mut given, parameter)?;
    }
    Ok(given)
}

/// The parameters of a query: names and values, decoded.
pub(crate) fn parameters(alloc: Global, query: &[u8]) -> Result<List<(Bytes, Bytes)>, Memory>
    ensures same { IfOk result (λ given. given ≡ parameters_of query.now) }
    ensures want { OnlyWant result }
{
    let pieces = pieces(alloc, query)?;
    let given = parameters_in(alloc, &pieces)?;
    Ok(given)
}

/// A target begins with a slash, and its key, if it has one, is UTF-8.
pub fn has_path(alloc: Global, target: &[u8]) -> Result<bool, Memory>
    ensures same { IfOk result (λ has. has ≡ not (is_bad_target target.now)) }
    ensures want { OnlyWant result }
{
    if !target.starts_with(b"/") {
        return Ok(false);
    }
    let place = place(alloc, path(target))?;
    Ok(has_text_key(&place))
}
