//! What holds over every list of acts of the object store. No body does anything: each is called for its contract.
//!
//! That reads are fresh, and gave what was kept, has a premise: no two strings that the acts hash for walks have one digest,
//! and none has 32 zero bytes (`NoClash` of `ActsHash`). Acts without rounds and repairs hash none. The rest has no such premise.
//!
//! Fresh reads have one more: none of the acts is the step `collect` (`NeverCollect`), or all are prompt (`ArePromptActs`), and
//! then a collected marker too explains that nothing is shown. All else but what is below markers holds of every list of acts.
#![tactic(auto)]

ghost use Rattle.std.specs.Prelude.{◌≡◌, None, List, []};
ghost use Rattle.crdt_rows.specs.AnyRow.{any_join};
ghost use Rattle.object_schema.specs.Schema.{words};
ghost use Rattle.cluster_machine.specs.World.{undelivered};
ghost use Rattle.cluster_machine.specs.Kept.{KeptReads};
ghost use Rattle.cluster_machine.specs.Worlds.{FitAll};
ghost use Rattle.store_model.specs.Run.{start};
ghost use Rattle.store_model.specs.Acts.{Act, drain, all_messages, AreLawfulActs, ActsFit, acted, after_acts};
ghost use Rattle.history_model.specs.Fresh.{Fresh};
ghost use Rattle.store_model.specs.Fresh.{NoClash as NoBucketsClash, IsFresh};
ghost use Rattle.cluster_machine.specs.Hashes.{NoClash};
ghost use Rattle.store_collects.specs.Fresh.{IsFresh as IsFreshOrForgotten};
ghost use Rattle.store_collects.specs.Past.{NothingIsBelow};
ghost use Rattle.store_collects.specs.Prompt.{ArePromptActs};
ghost use Rattle.store_laws.specs.Hashed.{ActsHash, NeverCollect, CollectsSafely};
ghost use Rattle.store_model.specs.Moments.{IsMoment};
ghost use Rattle.store_model.specs.Equal.{AreEqual};
ghost use Rattle.store_model.specs.Written.{GivesWhatWasWritten};
ghost use Rattle.store_laws.specs.Promised.{UsesGreatest};

use object_schema::S3Schema;
use store_collects::nothing_collected_reads_as_now;
use table_model::same_members_give_same_rows;
use world_reads::{
    every_installed_world_reads_what_was_kept, every_world_collects_stored_objects,
    every_world_gives_windows, every_world_has_kept_reads, every_world_has_proper_rows,
    every_world_is_sound, every_world_reads_stored_rows, nothing_is_collected_without_collect,
};

/// Whatever comes but `collect`, and whichever layouts are given, an answered get, head or list covers, for each key that it names, every
/// put, delete and copy of that key that was acknowledged before it began: with a version that is not below, or with none
/// where a delete marker that is not below was what it read. And what it shows was drawn before it finished, by a put or
/// copy of that key, and such a delete marker by a delete of it.
pub fn fresh_reads()
    ensures { (acts : List Act) → AreLawfulActs start acts → ActsFit start acts →
        NoClash (ActsHash start acts) → NeverCollect acts → IsFresh (after_acts start acts) }
{
    every_world_is_sound::<S3Schema>();
    every_world_has_kept_reads::<S3Schema>();
    every_world_reads_stored_rows::<S3Schema>();
    every_world_gives_windows::<S3Schema>();
    every_installed_world_reads_what_was_kept::<S3Schema>();
    every_world_collects_stored_objects::<S3Schema>();
    nothing_is_collected_without_collect::<S3Schema>();
    nothing_collected_reads_as_now();
}

/// The same of prompt acts, whatever they collect: where a read shows none, a delete marker that is not below was what it
/// read, or was collected; and such a marker was drawn by a delete of that key.
pub fn prompt_reads_are_fresh()
    ensures { (acts : List Act) → AreLawfulActs start acts → ActsFit start acts →
        NoClash (ActsHash start acts) → ArePromptActs [] start acts →
        IsFreshOrForgotten (after_acts start acts) }
{
    every_world_is_sound::<S3Schema>();
    every_world_has_kept_reads::<S3Schema>();
    every_world_reads_stored_rows::<S3Schema>();
    every_world_gives_windows::<S3Schema>();
    every_installed_world_reads_what_was_kept::<S3Schema>();
    every_world_collects_stored_objects::<S3Schema>();
    nothing_is_collected_without_collect::<S3Schema>();
}

/// In prompt acts nothing but delete markers is collected, and from the act in which one was collected no node has an
/// older version of its object, at any moment.
pub fn nothing_comes_below_collected_markers()
    ensures { (acts : List Act) → AreLawfulActs start acts → ActsFit start acts →
        ArePromptActs [] start acts → NothingIsBelow acts }
{
    every_world_is_sound::<S3Schema>();
    every_world_has_kept_reads::<S3Schema>();
    every_world_reads_stored_rows::<S3Schema>();
    every_world_gives_windows::<S3Schema>();
    every_installed_world_reads_what_was_kept::<S3Schema>();
    every_world_collects_stored_objects::<S3Schema>();
    nothing_is_collected_without_collect::<S3Schema>();
}

/// Whatever comes, and whichever layouts are given, the reads of a run are fresh by its records alone, where no two of its
/// buckets' names have one digest, and what is collected is collected safely: nothing is, or all acts are prompt.
pub fn records_are_fresh()
    ensures { (acts : List Act) → AreLawfulActs start acts → ActsFit start acts →
        NoClash (ActsHash start acts) → CollectsSafely acts →
        NoBucketsClash (after_acts start acts).buckets → Fresh (after_acts start acts).history }
{
    every_world_is_sound::<S3Schema>();
    every_world_has_kept_reads::<S3Schema>();
    every_world_reads_stored_rows::<S3Schema>();
    every_world_gives_windows::<S3Schema>();
    every_installed_world_reads_what_was_kept::<S3Schema>();
    every_world_collects_stored_objects::<S3Schema>();
    nothing_is_collected_without_collect::<S3Schema>();
}

/// Whatever comes, and whichever layouts are given, no two writes draw one version, so that the bytes that were written as a
/// version are one text; the size and the MD5 in the line of a get that found a version are those of these bytes, unless they
/// are kept in blocks; and the size in the line of a head, and each size in the line of a list, is theirs, also where they
/// are kept in blocks.
pub fn reads_give_what_was_written()
    ensures { (acts : List Act) → AreLawfulActs start acts → ActsFit start acts →
        GivesWhatWasWritten acts }
{
    every_world_is_sound::<S3Schema>();
    every_world_has_kept_reads::<S3Schema>();
    every_world_reads_stored_rows::<S3Schema>();
    every_world_gives_windows::<S3Schema>();
    every_installed_world_reads_what_was_kept::<S3Schema>();
    every_world_collects_stored_objects::<S3Schema>();
    nothing_is_collected_without_collect::<S3Schema>();
}

/// Where as many deliveries are asked for as messages can have numbers, and every number fits, no message waits after them.
pub fn draining_leaves_nothing()
    ensures { (acts : List Act) → AreLawfulActs start acts → ActsFit start acts →
        (let s = after_acts start acts in let drained = acted s (drain all_messages) in FitAll any_join words s.world drained.moves → undelivered drained.state.world ≡ None) }
{
    every_world_is_sound::<S3Schema>();
    every_world_has_kept_reads::<S3Schema>();
    every_world_reads_stored_rows::<S3Schema>();
    every_world_gives_windows::<S3Schema>();
    every_installed_world_reads_what_was_kept::<S3Schema>();
    every_world_collects_stored_objects::<S3Schema>();
    nothing_is_collected_without_collect::<S3Schema>();
}

/// The acts that lead to a moment of a run are lawful, and fit, what they hash is hashed in the run, none of them is
/// `collect` if none of the run's is, and they are prompt if the run's are; so each law over lists of acts holds at each moment.
pub fn moments_are_runs()
    ensures runs { (acts moment : List Act) → AreLawfulActs start acts → ActsFit start acts →
        IsMoment acts moment → AreLawfulActs start moment × ActsFit start moment }
    ensures clear { (acts moment : List Act) → IsMoment acts moment →
        NoClash (ActsHash start acts) → NoClash (ActsHash start moment) }
    ensures never { (acts moment : List Act) → IsMoment acts moment → NeverCollect acts →
        NeverCollect moment }
    ensures prompt { (acts moment : List Act) → IsMoment acts moment → ArePromptActs [] start acts →
        ArePromptActs [] start moment }
{}

/// Whatever comes, two nodes that accepted rows of a partition with the same members, in whatever order and however often,
/// have the same rows of it and the same roots; and if it is so of all their rows, they show the same rows and the same top.
pub fn replicas_are_equal()
    ensures { (acts : List Act) → AreLawfulActs start acts → ActsFit start acts → AreEqual acts }
{
    every_world_is_sound::<S3Schema>();
    every_world_has_kept_reads::<S3Schema>();
    every_world_reads_stored_rows::<S3Schema>();
    every_world_gives_windows::<S3Schema>();
    every_installed_world_reads_what_was_kept::<S3Schema>();
    every_world_collects_stored_objects::<S3Schema>();
    nothing_is_collected_without_collect::<S3Schema>();
    every_world_has_proper_rows::<S3Schema>();
    same_members_give_same_rows::<S3Schema>();
}

/// Whatever comes, each read and range phase that ended gave, joined with what was collected, at least the join of all rows that were kept before it began;
/// and each layout that a node knows, or that a view on its way shows, has the greatest partition size for its roles: those of
/// applies, the one of `trio`, and an installed one.
pub fn phases_read_what_was_kept()
    ensures kept { (acts : List Act) → AreLawfulActs start acts → ActsFit start acts →
        NoClash (ActsHash start acts) → KeptReads any_join words (after_acts start acts).world }
    ensures greatest { (acts : List Act) → AreLawfulActs start acts → ActsFit start acts →
        UsesGreatest (after_acts start acts).world }
{
    every_world_is_sound::<S3Schema>();
    every_world_has_kept_reads::<S3Schema>();
    every_world_reads_stored_rows::<S3Schema>();
    every_world_gives_windows::<S3Schema>();
    every_installed_world_reads_what_was_kept::<S3Schema>();
    every_world_collects_stored_objects::<S3Schema>();
    nothing_is_collected_without_collect::<S3Schema>();
}
