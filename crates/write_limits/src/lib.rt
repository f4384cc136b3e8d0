//! What requests store has a spelling. No body does anything: each is called for its contract.
#![tactic(auto)]

ghost use Rattle.std.specs.Prelude.{◌≡◌, ◌<◌, ◌^◌, ℕ, true, List, length, Some};
ghost use Rattle.row_codec.specs.Reads.{are_bytes};
ghost use Rattle.wire_messages.specs.declared.phase.PhaseEnd.{PhaseEnd};
ghost use Rattle.crdt_rows.specs.declared.any_row.AnyRow.{AnyRow};
ghost use Rattle.crdt_rows.specs.declared.version.Version.{Version};
ghost use Rattle.flow_model.specs.declared.order.Order.{Order};
ghost use Rattle.flow_model.specs.declared.flow.Stage.{Stage};
ghost use Rattle.flow_model.specs.Flow.{started};
ghost use Rattle.flow_model.specs.Next.{goes_on};
ghost use Rattle.flow_model.specs.Streams.{need_in, fed_in, kept_in, given_up_in};
ghost use Rattle.std.specs.List.{AllByRecursion};
ghost use Rattle.store_model.specs.Run.{start};
ghost use Rattle.store_model.specs.Acts.{Act, after_acts, AreLawfulActs, ActsFit};
ghost use Rattle.phase_limits.specs.Phases.{Held, IsWithin, GivesFew};
ghost use Rattle.write_limits.specs.Fitting.{OrderFits, StageFits, EndFits, DrawsInRange, StoresSingle, GoesFit, HeardFits};
ghost use Rattle.write_limits.specs.Acting.{ActFits, GaveFits, WaitFitting, ActsStoreSingle};

use object_schema::S3Schema;
use world_reads::{
    every_installed_world_reads_what_was_kept, every_world_collects_stored_objects,
    every_world_gives_windows, every_world_has_kept_reads, every_world_is_sound,
    every_world_reads_stored_rows, nothing_is_collected_without_collect,
};

/// What a request stores has a spelling, and each of its rows one entry at most: as it begins, once a phase of it has ended, and
/// once its client was heard, where its order fits, what phases give has a spelling, and the version that is drawn is in range.
pub fn what_requests_store_has_a_spelling()
    ensures begun { (o : Order) (id block : ℕ) → OrderFits o → (let first = started o id block in StageFits first.0.stage × StoresSingle id first.1) }
    ensures ended { (h : Held) (id block : ℕ) (stage : Stage) (end : PhaseEnd AnyRow) (now : ℕ) → h.bytes < 2 ^ 64 → block < 2 ^ 32 →
        IsWithin h stage → GivesFew h end → StageFits stage → EndFits end → DrawsInRange id now stage end → GoesFit (goes_on id block stage end now) }
    ensures fed { (id block : ℕ) (stage : Stage) (bytes : List ℕ) → block < 2 ^ 32 → StageFits stage → are_bytes bytes ≡ true →
        need_in id block stage ≡ Some (length bytes) → HeardFits (fed_in id block stage bytes) }
    ensures kept { (id block : ℕ) (stage : Stage) → StageFits stage → HeardFits (kept_in id block stage) }
    ensures given_up { (id block : ℕ) (stage : Stage) → StageFits stage → HeardFits (given_up_in id block stage) }
{}

/// In a run of lawful acts that fit, whose orders and bytes are in range, each request waits so that it fits, and each row that is
/// stored has a spelling and one entry at most, as long as all that phases gave fits and all versions that were drawn are in range.
pub fn acts_store_what_has_a_spelling()
    ensures waits { (h : Held) (acts : List Act) → h.bytes < 2 ^ 64 → AreLawfulActs start acts → ActsFit start acts → AllByRecursion ActFits acts → GaveFits h (after_acts start acts) → WaitFitting h (after_acts start acts).asked }
    ensures stored { (h : Held) (acts : List Act) → h.bytes < 2 ^ 64 → AreLawfulActs start acts → ActsFit start acts → AllByRecursion ActFits acts → GaveFits h (after_acts start acts) → ActsStoreSingle start acts }
{
    every_world_is_sound::<S3Schema>();
    every_world_has_kept_reads::<S3Schema>();
    every_world_reads_stored_rows::<S3Schema>();
    every_world_gives_windows::<S3Schema>();
    every_installed_world_reads_what_was_kept::<S3Schema>();
    every_world_collects_stored_objects::<S3Schema>();
    nothing_is_collected_without_collect::<S3Schema>();
}
