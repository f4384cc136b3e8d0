//! A round's partitions, each with the marks of its set.
ghost use Rattle.std.specs.Prelude.{◌≡◌, ◌+◌, IfOk, if◌then◌else◌};
ghost use Rattle.std.specs.Ordering.{nat_cmp};
ghost use Rattle.std.specs.BTreeMap.{IsOrdered};
ghost use Rattle.crdt_core.specs.Outcomes.{OnlyWant};
ghost use Rattle.quorum_tally.specs.Marks.{has_two};
ghost use Rattle.sync_round.specs.Parts.{missing_of, entries_after, lacking_in};

use crdt_core::Memory;
use quorum_tally::Marks;
use std::alloc::Global;
use std::collections::BTreeMap;

/// The nodes of a set that haven't confirmed.
pub fn missing(alloc: Global, marks: Marks) -> Result<Vec<u8>, Memory>
    ensures nodes { IfOk result (λ v. v.items ≡ missing_of marks) }
    ensures want { OnlyWant result }
{
    let three = [marks.first, marks.second, marks.third];
    let waited = three.iter().filter(|mark| !mark.is_confirmed);
    Ok(waited.map(|mark| mark.node).collect(alloc)?)
}

/// The node confirms a partition, and the answer is whether it is the second to do so. One that isn't there
/// changes nothing.
pub fn confirm_in(parts: &mut BTreeMap<u8, Marks>, p: u8, node: u8) -> bool
    ensures entries { parts.new.entries ≡ entries_after p node parts.old.entries }
    ensures second { lacking_in parts.new + (if result then 1 else 0) ≡ lacking_in parts.old }
{
    match parts.get_mut(&p) {
        Some(marks) => {
            let had_two = marks.has_two();
            *marks = marks.after(node);
            !had_two && marks.has_two()
        }
        None => false,
    }
}
