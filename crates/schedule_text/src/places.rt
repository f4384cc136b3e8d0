//! Words that name a request's node, bucket and key.
ghost use Rattle.std.specs.Prelude.{◌≡◌, take, drop};
ghost use Rattle.schedule_text.specs.Reads.{Reads};
ghost use Rattle.schedule_text.specs.Kinds.{texts, IsObject, IsPlace, IsPrefixed};

use crate::fault::LineFault;
use crate::names::{bucket_name, key_prefix, object_key};
use crate::numbers::node;
use crdt_core::Bytes;
use std::alloc::Global;

/// A bucket's name and a key.
pub(crate) fn object(alloc: Global, words: &[&[u8]]) -> Result<(Bytes, Bytes), LineFault>
    ensures { Reads (IsObject (texts words.now)) result }
{
    match *words {
        [bucket, key] => Ok((bucket_name(alloc, bucket)?, object_key(alloc, key)?)),
        _ => Err(LineFault::Outside),
    }
}

/// A node, a bucket's name and a key.
pub(crate) fn place(alloc: Global, words: &[&[u8]]) -> Result<(u8, Bytes, Bytes), LineFault>
    ensures { Reads (IsPlace (texts words.now)) result }
{
    let [at, rest @ ..] = words else {
        return Err(LineFault::Outside);
    };
    let (bucket, key) = object(alloc, rest)?;
    Ok((node(at)?, bucket, key))
}

/// A bucket's name and a prefix.
pub(crate) fn prefixed(alloc: Global, words: &[&[u8]]) -> Result<(Bytes, Bytes), LineFault>
    ensures { Reads (IsPrefixed (texts words.now)) result }
{
    match *words {
        [bucket, prefix] => Ok((bucket_name(alloc, bucket)?, key_prefix(alloc, prefix)?)),
        _ => Err(LineFault::Outside),
    }
}

/// The first three words, or all where there are fewer, and those that follow.
pub(crate) fn split_three<'a, 'b>(words: &'a [&'b [u8]]) -> (&'a [&'b [u8]], &'a [&'b [u8]])
    ensures front { texts result.0.now ≡ take 3 (texts words.now) }
    ensures rest { texts result.1.now ≡ drop 3 (texts words.now) }
{
    words.split_at(words.len().min(3))
}
