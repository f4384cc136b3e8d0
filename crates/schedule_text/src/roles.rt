//! Words that say what a node does, and in how many zones the copies lie.
ghost use Rattle.std.specs.Prelude.{◌≡◌};
ghost use Rattle.text_model.specs.Grammar.{kind_word, redundancy_word, role_words, IsIn, capacity_range, redundancy_range, role_range};
ghost use Rattle.schedule_text.specs.Reads.{Reads};
ghost use Rattle.schedule_text.specs.Kinds.{texts};

use crate::fault::LineFault;
use crate::names::{is, zone_name};
use crate::numbers::number;
use layout_roles::{Kind, Redundancy, Zone};
use std::alloc::Global;

/// A capacity in bytes, 1 to 2^50, or `gateway`.
fn kind(word: &[u8]) -> Result<Kind, LineFault>
    ensures { Reads (λ kind. (word.now ≡ kind_word kind) × IsIn (capacity_range kind)) result }
{
    if is(word, b"gateway") {
        return Ok(Kind::Gateway);
    }
    Ok(Kind::Storage(number(word, 1, 1_125_899_906_842_624)?))
}

/// A zone and a capacity, or `none`.
pub(crate) fn role_of(alloc: Global, words: &[&[u8]]) -> Result<Option<(Zone, Kind)>, LineFault>
    ensures { Reads (λ role. (texts words.now ≡ role_words role) × IsIn (role_range role)) result }
{
    match *words {
        [word] if is(word, b"none") => Ok(None),
        [zone, capacity] => Ok(Some((Zone(zone_name(alloc, zone)?), kind(capacity)?))),
        _ => Err(LineFault::Outside),
    }
}

/// At least 1, 2 or 3 zones, or `maximum`.
pub(crate) fn wanted(word: &[u8]) -> Result<Redundancy, LineFault>
    ensures { Reads (λ wanted. (word.now ≡ redundancy_word wanted) ×
        IsIn (redundancy_range wanted)) result }
{
    if is(word, b"maximum") {
        return Ok(Redundancy::Maximum);
    }
    Ok(Redundancy::AtLeast(number(word, 1, 3)? as u8))
}
