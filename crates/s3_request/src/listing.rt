//! What a list asks (ListObjectsV2).
ghost use Rattle.std.specs.Prelude.{◌≡◌, [], codes, bytes_eq, IfOk, unwrap_or};
ghost use Rattle.std.specs.List.{list_any, list_all};
ghost use Rattle.crdt_core.specs.Outcomes.{OnlyWant};
ghost use Rattle.s3_model.specs.Lists.{list_names, is_list, max_of, url_of, after_marked as after_of_marked, after_token as after_of_token, after_of, list_with, list_of};
ghost use Rattle.s3_model.specs.Words.{is_text, first_named as first_of};

use crate::number::number;
use crate::word::{first_named, is_in};
use crdt_core::{Bytes, Memory};
use hex::FromHexError;
use s3_model::{After, Ask, ListAsk};
use std::alloc::Global;

/// How many entries a page shows, by default and at most.
const PAGE_LIMIT: u64 = 1000;

/// The parameters that a list may have.
const NAMES: [&[u8]; 8] = [
    b"list-type",
    b"prefix",
    b"delimiter",
    b"max-keys",
    b"continuation-token",
    b"start-after",
    b"encoding-type",
    b"fetch-owner",
];

fn is_name(name: &[u8]) -> bool
    ensures { result ≡ list_any (λ other. bytes_eq name.now other) list_names }
{
    is_in(&NAMES, name)
}

fn have_names(parameters: &[(Bytes, Bytes)]) -> bool
    ensures { result ≡ list_all
        (λ p. list_any (λ name. bytes_eq p.0 name) list_names) parameters.now }
{
    parameters.iter().all(|p| is_name(p.0.as_slice()))
}

fn is_second_type(parameters: &[(Bytes, Bytes)]) -> bool
    ensures { result ≡ is_text (first_of parameters.now (codes "list-type")) (codes "2") }
{
    match first_named(parameters, b"list-type") {
        Some(value) => value == b"2".as_slice(),
        None => false,
    }
}

/// The parameters are those of a list, whose list-type is 2.
pub(crate) fn is_list(parameters: &[(Bytes, Bytes)]) -> bool
    ensures { result ≡ is_list parameters.now }
{
    is_second_type(parameters) && have_names(parameters)
}

// How many entries are shown, if the parameter max-keys is in order.
fn max(parameters: &[(Bytes, Bytes)]) -> Option<u32>
    ensures { result ≡ max_of (first_of parameters.now (codes "max-keys")) }
{
    match first_named(parameters, b"max-keys") {
        Some(text) => Some(number(text, 9)?.min(PAGE_LIMIT) as u32),
        None => Some(PAGE_LIMIT as u32),
    }
}

// Whether keys are percent-encoded in the answer, if the parameter encoding-type is in order.
fn url(parameters: &[(Bytes, Bytes)]) -> Option<bool>
    ensures { result ≡ url_of (first_of parameters.now (codes "encoding-type")) }
{
    match first_named(parameters, b"encoding-type") {
        Some(text) if text == b"url".as_slice() => Some(true),
        Some(_) => None,
        None => Some(false),
    }
}

// Where a list goes on after these bytes of a token.
fn after_marked(alloc: Global, bytes: &[u8]) -> Result<Option<After>, Memory>
    ensures same { IfOk result (λ after. after ≡ after_of_marked bytes.now) }
    ensures want { OnlyWant result }
{
    match bytes {
        [b'k', key @ ..] => Ok(Some(After::Key(Bytes::from_slice(alloc, key)?))),
        [b'p', prefix @ ..] => Ok(Some(After::Prefix(Bytes::from_slice(alloc, prefix)?))),
        _ => Ok(None),
    }
}

// Where a list goes on whose token this is, if it is one.
fn after_token(alloc: Global, token: &[u8]) -> Result<Option<After>, Memory>
    ensures same { IfOk result (λ after. after ≡ after_of_token token.now) }
    ensures want { OnlyWant result }
{
    match hex::decode(alloc, token) {
        Ok(bytes) => after_marked(alloc, &bytes),
        Err(FromHexError::OutOfMemory) => Err(Memory::Want),
        Err(_) => Ok(None),
    }
}

// Where a list starts, if the token is in order.
fn after(alloc: Global, parameters: &[(Bytes, Bytes)]) -> Result<Option<After>, Memory>
    ensures same { IfOk result
        (λ after. after ≡ after_of (first_of parameters.now (codes "continuation-token"))
        (first_of parameters.now (codes "start-after"))) }
    ensures want { OnlyWant result }
{
    match first_named(parameters, b"continuation-token") {
        Some(token) => after_token(alloc, token),
        None => {
            let key = value_or_empty(alloc, parameters, b"start-after")?;
            Ok(Some(After::Key(key)))
        }
    }
}

// A parameter's value, if it is given.
fn value(alloc: Global, parameters: &[(Bytes, Bytes)], name: &[u8]) -> Result<Option<Bytes>, Memory>
    ensures same { IfOk result (λ value. value ≡ first_of parameters.now name.now) }
    ensures want { OnlyWant result }
{
    match first_named(parameters, name) {
        Some(text) => Ok(Some(Bytes::from_slice(alloc, text)?)),
        None => Ok(None),
    }
}

// A parameter's value, or the empty text.
fn value_or_empty(
    alloc: Global,
    parameters: &[(Bytes, Bytes)],
    name: &[u8],
) -> Result<Bytes, Memory>
    ensures same { IfOk result (λ value. value ≡ unwrap_or (first_of parameters.now name.now) []) }
    ensures want { OnlyWant result }
{
    Bytes::from_slice(alloc, first_named(parameters, name).unwrap_or(&[]))
}

// The list whose start, size and encoding these are.
fn list_with(
    alloc: Global,
    bucket: Bytes,
    parameters: &[(Bytes, Bytes)],
    max: u32,
    url: bool,
    after: After,
) -> Result<Ask, Memory>
    ensures same { IfOk result
        (λ ask. ask ≡ list_with bucket parameters.now (Some max) (Some url) (Some after)) }
    ensures want { OnlyWant result }
{
    let prefix = value_or_empty(alloc, parameters, b"prefix")?;
    let delimiter = value_or_empty(alloc, parameters, b"delimiter")?;
    let ask = ListAsk {
        prefix,
        delimiter,
        after,
        max,
    };
    let delimiter = value(alloc, parameters, b"delimiter")?;
    let token = value(alloc, parameters, b"continuation-token")?;
    let start_after = value(alloc, parameters, b"start-after")?;
    Ok(Ask::List {
        bucket,
        ask,
        delimiter,
        url,
        token,
        start_after,
    })
}

/// What the parameters of a list ask of a bucket.
pub(crate) fn list(
    alloc: Global,
    bucket: Bytes,
    parameters: &[(Bytes, Bytes)],
) -> Result<Ask, Memory>
    ensures same { IfOk result (λ ask. ask ≡ list_of bucket parameters.now) }
    ensures want { OnlyWant result }
{
    let after = after(alloc, parameters)?;
    match (max(parameters), url(parameters), after) {
        (Some(max), Some(url), Some(after)) => {
            list_with(alloc, bucket, parameters, max, url, after)
        }
        _ => Ok(Ask::BadList(bucket)),
    }
}
