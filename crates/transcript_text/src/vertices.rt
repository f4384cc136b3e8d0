//! Words that name vertices of a cut.
ghost use Rattle.std.specs.Prelude.{◌≡◌, ◌++◌};
ghost use Rattle.schedule_text.specs.Reads.{Reads};
ghost use Rattle.schedule_text.specs.Kinds.{texts};
ghost use Rattle.audit_model.specs.Lines.{word_where};
ghost use Rattle.audit_model.specs.Reading.{begins};
ghost use Rattle.transcript_text.specs.Words.{IsZone, AreZones, AreNodes, IsSide};

use crate::numbers::whole;
use crdt_core::{Bytes, List};
use schedule_text::{LineFault, is, zone_name};
use std::alloc::Global;

// Whether the words begin with this one, and those behind it.
fn behind<'a, 'b>(words: &'a [&'b [u8]], name: &[u8]) -> (bool, &'a [&'b [u8]])
    ensures whole { texts words.now ≡ word_where result.0 name.now ++ texts result.1.now }
    ensures begins { result.0 ≡ begins name.now (texts words.now) }
{
    match words {
        [first, rest @ ..] if is(first, name) => (true, rest),
        _ => (false, words),
    }
}

// A zone, by its name.
fn zone(alloc: Global, word: &[u8]) -> Result<Bytes, LineFault>
    ensures { Reads (IsZone word.now) result }
{
    match word {
        [b'z', b':', name @ ..] => zone_name(alloc, name),
        _ => Err(LineFault::Outside),
    }
}

// Zones, by their names.
fn zones(alloc: Global, words: &[&[u8]]) -> Result<List<Bytes>, LineFault>
    ensures { Reads (AreZones (texts words.now)) result }
{
    let mut zones = List::new(alloc);
    for word in words {
        let zone = zone(alloc, word)?;
        zones.push(zone)?;
    }
    Ok(zones)
}

/// Nodes.
pub(crate) fn nodes(alloc: Global, words: &[&[u8]]) -> Result<List<u64>, LineFault>
    ensures { Reads (AreNodes (texts words.now)) result }
{
    let mut nodes = List::new(alloc);
    for word in words {
        let node = whole(word)?;
        nodes.push(node)?;
    }
    Ok(nodes)
}

/// The first and the last of some partitions, and which of their vertices are on the side: up, down, and zones by name.
pub(crate) fn side_run(
    alloc: Global,
    words: &[&[u8]],
) -> Result<(u64, u64, bool, bool, List<Bytes>), LineFault>
    ensures { Reads (IsSide (texts words.now)) result }
{
    let [first, last, rest @ ..] = words else {
        return Err(LineFault::Outside);
    };
    let first = whole(first)?;
    let last = whole(last)?;
    let (up, rest) = behind(rest, b"up");
    let (down, rest) = behind(rest, b"down");
    let zones = zones(alloc, rest)?;
    Ok((first, last, up, down, zones))
}
