//! The target of a request as it is signed.
ghost use Rattle.std.specs.Prelude.{◌≡◌, [], map, IfOk};
ghost use Rattle.crdt_core.specs.Outcomes.{OnlyWant};
ghost use Rattle.sig_request.specs.Query as spec;

use crate::texts::{after, before, decoded, escaped, joined, words};
use crdt_core::{Bytes, List, Memory};
use std::alloc::Global;

/// A parameter of a query, with its name and value decoded and encoded anew; in order of names, then of values.
#[derive(Debug, Drop, PartialEq, Eq, PartialOrd, Ord)]
pub struct Parameter {
    pub name: Bytes,
    pub value: Bytes,
}

/// The path of a target, decoded and encoded anew.
pub(crate) fn canonical_path(alloc: Global, target: &[u8]) -> Result<Bytes, Memory>
    ensures text { IfOk result (λ text. text ≡ spec.canonical_path target.now) }
    ensures want { OnlyWant result }
{
    let path = decoded(alloc, before(target, b'?'))?;
    escaped(alloc, true, path.as_slice())
}

fn space_of(byte: u8) -> u8
    ensures { result ≡ spec.space_of byte }
{
    if byte == b'+' { b' ' } else { byte }
}

fn spaced(alloc: Global, bytes: &[u8]) -> Result<Bytes, Memory>
    ensures text { IfOk result (λ text. text ≡ map spec.space_of bytes.now) }
    ensures want { OnlyWant result }
{
    let mut text = Bytes::new(alloc);
    for byte in bytes {
        text.push(space_of(*byte))?;
    }
    Ok(text)
}

// A name or a value of a query, decoded and encoded anew.
fn recoded(alloc: Global, text: &[u8]) -> Result<Bytes, Memory>
    ensures recoded { IfOk result (λ same. same ≡ spec.recoded text.now) }
    ensures want { OnlyWant result }
{
    let text = spaced(alloc, text)?;
    let text = decoded(alloc, text.as_slice())?;
    escaped(alloc, false, text.as_slice())
}

fn parameter_of(alloc: Global, word: &[u8]) -> Result<Parameter, Memory>
    ensures parameter { IfOk result (λ parameter. parameter ≡ spec.parameter_of word.now) }
    ensures want { OnlyWant result }
{
    Ok(Parameter {
        name: recoded(alloc, before(word, b'='))?,
        value: recoded(alloc, after(word, b'='))?,
    })
}

// The parameters that words spell.
fn spelled(alloc: Global, words: &[Bytes]) -> Result<List<Parameter>, Memory>
    ensures parameters { IfOk result (λ parameters. parameters ≡ map spec.parameter_of words.now) }
    ensures want { OnlyWant result }
{
    let mut parameters: List<Parameter> = List::new(alloc);
    for word in words {
        let parameter = parameter_of(alloc, word.as_slice())?;
        parameters.push(parameter)?;
    }
    Ok(parameters)
}

// The parameters that words spell, in order.
fn in_order(alloc: Global, words: &[Bytes]) -> Result<List<Parameter>, Memory>
    ensures parameters { IfOk result
        (λ parameters. parameters ≡ spec.parameters_after [] words.now) }
    ensures want { OnlyWant result }
{
    let mut parameters = spelled(alloc, words)?.into_vec();
    parameters.sort_unstable();
    Ok(List::from_vec(parameters))
}

// The parameters of a target, in order.
fn parameters_of(alloc: Global, target: &[u8]) -> Result<List<Parameter>, Memory>
    ensures parameters { IfOk result (λ parameters. parameters ≡ spec.parameters_of target.now) }
    ensures want { OnlyWant result }
{
    let words = words(alloc, b'&', after(target, b'?'))?;
    in_order(alloc, words.as_slice())
}

fn parameter_text(alloc: Global, parameter: &Parameter) -> Result<Bytes, Memory>
    ensures text { IfOk result (λ text. text ≡ spec.parameter_text parameter.now) }
    ensures want { OnlyWant result }
{
    let mut text = Bytes::from_slice(alloc, parameter.name.as_slice())?;
    text.extend_from_slice(b"=")?;
    text.extend_from_slice(parameter.value.as_slice())?;
    Ok(text)
}

fn parameter_texts(alloc: Global, parameters: &[Parameter]) -> Result<List<Bytes>, Memory>
    ensures texts { IfOk result (λ texts. texts ≡ map spec.parameter_text parameters.now) }
    ensures want { OnlyWant result }
{
    let mut texts: List<Bytes> = List::new(alloc);
    for parameter in parameters {
        texts.push(parameter_text(alloc, parameter)?)?;
    }
    Ok(texts)
}

/// The parameters of a target, decoded and encoded anew, in order of their names and values.
pub(crate) fn canonical_query(alloc: Global, target: &[u8]) -> Result<Bytes, Memory>
    ensures text { IfOk result (λ text. text ≡ spec.canonical_query target.now) }
    ensures want { OnlyWant result }
{
    let parameters = parameters_of(alloc, target)?;
    let texts = parameter_texts(alloc, parameters.as_slice())?;
    joined(alloc, b'&', texts.as_slice())
}
