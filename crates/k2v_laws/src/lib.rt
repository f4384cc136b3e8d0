//! What holds over every list of acts on items. No body does anything: each is called for its contract.
//!
//! What reads and rows owe to writes that were acknowledged before has a premise: no two strings that the acts hash for walks
//! have one digest, and none has 32 zero bytes (`NoClash` of `ActsHash`). Acts without rounds and repairs hash none. The rest
//! has no such premise.
#![tactic(auto)]

mod samples;

ghost use Rattle.k2v_model.specs.Acts.{AfterEveryRun};
ghost use Rattle.k2v_model.specs.Owed.{AreWhole, ReadsCover, ReadsShowWrites, ReadsLeaveReplaced, WritesHavePlace};
ghost use Rattle.k2v_laws.specs.Hashed.{AfterEveryClearRun};

use k2v_schema::K2vSchema;
pub use samples::{busy_and_unknown_token, concurrent_values};
use world_reads::{
    every_world_has_kept_reads, every_world_is_sound, every_world_reads_stored_rows,
    nothing_is_collected_without_markers,
};

/// Whatever comes, and whichever layouts are given, where no two strings that the run hashes for walks have one digest, and
/// none has 32 zero bytes:
///
/// - A row that a read phase gave and that shows a write of a node shows each write of its item at that node that was
///   acknowledged and has a smaller number, or its discard time covers it (`whole`).
/// - A finished read shows each write of its item that was acknowledged before it began, or a write that began before the
///   read finished replaced it (`cover`).
/// - It shows none that was replaced by a write that was acknowledged before it began (`replaced`).
///
/// And whatever the run hashes:
///
/// - Each write that a finished read shows is one of its item that began before it finished, and wrote what is shown
///   (`written`).
/// - A write that still asks for its item's row may be made on whatever it will read (`place`).
pub fn items_keep_what_they_owe()
    ensures whole { AfterEveryClearRun AreWhole }
    ensures cover { AfterEveryClearRun ReadsCover }
    ensures written { AfterEveryRun ReadsShowWrites }
    ensures replaced { AfterEveryClearRun ReadsLeaveReplaced }
    ensures place { AfterEveryRun WritesHavePlace }
{
    every_world_has_kept_reads::<K2vSchema>();
    every_world_reads_stored_rows::<K2vSchema>();
    every_world_is_sound::<K2vSchema>();
    nothing_is_collected_without_markers::<K2vSchema>();
}
