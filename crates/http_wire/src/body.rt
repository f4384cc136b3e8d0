//! A body, read from a connection.
ghost use Rattle.std.specs.Prelude.{◌≡◌, ◌≤◌, length, take, drop, IsSome, IfOk, OnOk, OnErr};
ghost use Rattle.lab_outside.specs.Connection.{OnPresent};
ghost use Rattle.lab_outside.specs.Links.{Stays};
ghost use Rattle.http_wire.specs.Reading.{ReadsBody, IsBodyOf, OnAll};
ghost use Rattle.http_wire.specs.Pieces.{FillsPlace};

use crate::head::HeadEnd;
use crate::pieces::Kept;
use crdt_core::Bytes;
use lab_outside::Link;
use std::alloc::{AllocError, Global};

/// A place for a body of `size` bytes, and how many of them were kept and stand there now. Where memory is
/// refused, they are still kept.
fn place_with_kept(
    alloc: Global,
    size: usize,
    kept: &mut Kept,
) -> Result<(Vec<u8>, usize), AllocError>
    ensures size { IfOk result (λ r. length r.0.items ≡ size) }
    ensures count { IfOk result (λ r. r.1 ≤ size) }
    ensures front { IfOk result (λ r. take r.1 r.0.items ≡ take size kept.old.bytes.items) }
    ensures rest { OnOk result (kept.new.bytes.items ≡ drop size kept.old.bytes.items) }
    ensures kept { OnErr result (kept.new.bytes.items ≡ kept.old.bytes.items) }
{
    let count = kept.bytes.len().min(size);
    let mut place = Vec::with_capacity(alloc, size)?;
    place.extend_from_slice(&kept.bytes[..count])?;
    place.resize(size, 0)?;
    kept.remove_front(count);
    Ok((place, count))
}

/// Reads into the place until it is full. `count` says how many bytes have come there.
fn fill<L: Link>(link: &mut L, place: &mut [u8], count: &mut usize) -> Result<(), HeadEnd>
    requires present { IsSome (L.present link.old) }
    requires within { count.old ≤ length place.old }
    ensures present { IsSome (L.present link.new) }
    ensures size { length place.new ≡ length place.old }
    ensures within { count.new ≤ length place.old }
    ensures fills { OnPresent (FillsPlace (length place.old) (take count.old place.old) result
        (take count.new place.new)) (L.present link.old) (L.present link.new) }
    ensures stays { Stays L.Link link.old link.new }
{
    'pieces: while *count < place.len() {
        let from = *count;
        match link.read(&mut place[from..]) {
            Ok(0) => return Err(HeadEnd::Closed),
            Ok(more) => *count += more,
            Err(_) => return Err(HeadEnd::Failed),
        }
    }
    Ok(())
}

/// Reads a body, whether or not the connection tells its bytes.
fn find_body<L: Link>(
    alloc: Global,
    link: &mut L,
    kept: &mut Kept,
    size: u64,
) -> Result<Bytes, HeadEnd>
    requires { IsSome (L.present link.old) }
    ensures present { IsSome (L.present link.new) }
    ensures reads { OnPresent (ReadsBody kept.old.bytes.items size result kept.new.bytes.items)
        (L.present link.old) (L.present link.new) }
    ensures stays { Stays L.Link link.old link.new }
{
    let (mut place, mut count) = place_with_kept(alloc, size as usize, kept)?;
    match fill(link, place.as_mut_slice(), &mut count) {
        Ok(()) => Ok(Bytes::from_vec(place)),
        Err(end) => {
            place.truncate(count);
            kept.bytes = place;
            Err(end)
        }
    }
}

/// Reads a body of `length` bytes, each into its place.
///
/// What is kept comes before what the connection gives, and what follows the body stays kept. Memory is asked for
/// before anything is read. After an answer that isn't `Ok` all bytes that were read are kept.
pub fn read_body<L: Link>(
    alloc: Global,
    link: &mut L,
    kept: &mut Kept,
    length: u64,
) -> Result<Bytes, HeadEnd>
    requires { IsSome (L.present link.old) }
    ensures present { IsSome (L.present link.new) }

    // What was read of the connection, and what is kept, for each answer.
    ensures reads { OnPresent (ReadsBody kept.old.bytes.items length result kept.new.bytes.items)
        (L.present link.old) (L.present link.new) }

    // Where the connection tells its bytes: what all of them begin with.
    ensures told { OnPresent (OnAll
        (λ all rest. IsBodyOf all length result rest) kept.old.bytes.items kept.new.bytes.items)
        (L.present link.old) (L.present link.new) }
    ensures stays { Stays L.Link link.old link.new }
{
    find_body(alloc, link, kept, length)
}
