//! What no server within its limits comes to the end of. No body does anything: each is called for its contract.
//!
//! A server serves 1,000 connections at most, of 1,000 requests each, and no time of a request is past the greatest one.
//! So its world's time and clocks, the numbers of its requests and of its nodes' rounds have their places in the code, and so
//! have the timestamps that its writes draw. No node of it begins a collection.
#![tactic(auto)]

ghost use Rattle.std.specs.Prelude.{◌≡◌, ◌≤◌, ◌<◌, ◌+◌, ◌^◌, ℕ, true, List, [], ◌∷◌, ◌++◌, length};
ghost use Rattle.std.specs.List.{AllByRecursion, Contains};
ghost use Rattle.crdt_rows.specs.AnyRow.{any_join};
ghost use Rattle.row_codec.specs.Range.{version_in_range};
ghost use Rattle.object_schema.specs.Schema.{words};
ghost use Rattle.cluster_machine.specs.declared.step.Step.TheVariants.{Deliver};
ghost use Rattle.cluster_machine.specs.Worlds.{FitAll, FitsAfter};
ghost use Rattle.store_model.specs.Run.{Draw, State, start, plainly, delivers};
ghost use Rattle.store_model.specs.Acts.{Act, acted, after_acts, AreLawfulActs, ActsFit};
ghost use Rattle.store_model.specs.Moments.{IsMoment};
ghost use Rattle.store_laws.specs.Hashed.{NeverCollect};
ghost use Rattle.serve_model.specs.declared.buckets.Buckets.{Buckets};
ghost use Rattle.serve_model.specs.Connections.{stated};
ghost use Rattle.serve_model.specs.Stores.{Job};
ghost use Rattle.serve_model.specs.Talk.{Grammar, Serving, time_limit};
ghost use Rattle.serve_changes.specs.Changing.{Changing, changing, acts_through};
ghost use Rattle.serve_limits.specs.Asked.{AreAskable, ArePlanned, IsAtFirst, AsksAskable};
ghost use Rattle.serve_limits.specs.Counts.{IsUpTo, AllAreUpTo, passes_in, opens_in, rounds_in, IsEvenAct, sum_in, AllCountsFit, HaveBegun, AllHaveBegun};
ghost use Rattle.serve_limits.specs.Stamps.{IsLedTo, stamp_limit, AreStampedBy, DrewBy};

use object_schema::S3Schema;
use world_reads::{
    every_installed_world_reads_what_was_kept, every_world_collects_stored_objects,
    every_world_gives_windows, every_world_has_kept_reads, every_world_is_sound,
    every_world_reads_stored_rows, nothing_is_collected_without_collect,
};

/// Time passes by ticks alone, requests are opened by what is asked for alone, and rounds are begun by syncs and repairs alone:
/// after each step of each of these acts no more of them are there than before all, with what the acts add.
pub fn acts_add_so_much()
    ensures { (s : State) (time requests rounds : ℕ) (before : List Act) (act : Act)
        (later : List Act) →
        IsUpTo time requests rounds s.world → AllByRecursion IsEvenAct (before ++ act ∷ later) →
        (let acts = before ++ act ∷ later in
        let then = after_acts s before in
        AllAreUpTo (time + sum_in passes_in acts) (requests + sum_in opens_in acts) (rounds + sum_in rounds_in acts) then.world (acted then act).moves) }
{}

/// Whatever a server within its limits is asked, time, clocks, the number of requests and each node's number of rounds are
/// numbers of the code after each step of each of its acts, those of layout changes too, whether the acts fit or not.
pub fn clocks_and_counts_have_room()
    ensures { (c : Changing) (jobs : List (ℕ × Job)) → IsAtFirst c → AreAskable jobs →
        (before : List Act) (act : Act) (later : List Act) → acts_through c jobs ≡ before ++ act ∷ later →
        (let then = after_acts c.cluster.run before in
        AllCountsFit then.world (acted then act).moves) }
{}

/// Acts of which none is the step `collect` begin no collection: after each step of each of them no node has begun more than
/// each had at most before all.
pub fn collections_begin_by_collecting()
    ensures { (k : ℕ) (s : State) (before : List Act) (act : Act) (later : List Act) → HaveBegun k s.world → NeverCollect (before ++ act ∷ later) →
        (let then = after_acts s before in AllHaveBegun k then.world (acted then act).moves) }
{}

/// Whatever a server is asked, whether it is askable or not, and whether its acts fit or not: no node begins a collection.
pub fn no_server_collects()
    ensures { (k : ℕ) (c : Changing) (jobs : List (ℕ × Job)) → ArePlanned c.to_come → HaveBegun k c.cluster.run.world →
        (before : List Act) (act : Act) (later : List Act) → acts_through c jobs ≡ before ++ act ∷ later →
        (let then = after_acts c.cluster.run before in AllHaveBegun k then.world (acted then act).moves) }
{}

/// Over a cluster with changes to come a connection asks a job for each of its requests at most, each in the state to which those
/// before it lead, and at no time past the greatest one, if nothing that was served before was. So what 1,000 connections ask is askable.
pub fn connections_ask_what_is_askable()
    ensures { (buckets : Buckets) (g : Grammar) (p : Serving Changing) (bytes : List ℕ) →
        p.time ≤ time_limit → AsksAskable changing p (stated changing buckets g p bytes) }
{}

/// Of any lawful acts that fit, as long as none puts a clock ahead, no write drew a timestamp past the time that has passed and
/// one for each request: each is its node's clock's, or one more than one that was drawn, and a request draws once.
pub fn timestamps_stay_near_the_time()
    ensures { (acts : List Act) → AreLawfulActs start acts → ActsFit start acts → AllByRecursion IsEvenAct acts →
        (let s = after_acts start acts in DrewBy (s.world.time + length s.world.requests) s) }
{
    every_world_is_sound::<S3Schema>();
    every_world_has_kept_reads::<S3Schema>();
    every_world_reads_stored_rows::<S3Schema>();
    every_world_gives_windows::<S3Schema>();
    every_installed_world_reads_what_was_kept::<S3Schema>();
    every_world_collects_stored_objects::<S3Schema>();
    nothing_is_collected_without_collect::<S3Schema>();
}

/// Whatever a server within its limits is asked, no timestamp that its writes draw is past the greatest time of a request and
/// one for each request: none that was drawn until a moment up to which all acts are lawful and fit; none that is drawn in a
/// delivery that fits then, whether what its request begins fits or not; and none that is drawn in an act whose steps fit.
pub fn timestamps_have_room()
    ensures drawn { (c : Changing) (jobs : List (ℕ × Job)) → IsAtFirst c → IsLedTo c.cluster.run → AreAskable jobs →
        (moment : List Act) → IsMoment (acts_through c jobs) moment → AreLawfulActs c.cluster.run moment → ActsFit c.cluster.run moment →
        DrewBy stamp_limit (after_acts c.cluster.run moment) }
    ensures next { (c : Changing) (jobs : List (ℕ × Job)) → IsAtFirst c → IsLedTo c.cluster.run → AreAskable jobs →
        (moment : List Act) → IsMoment (acts_through c jobs) moment → AreLawfulActs c.cluster.run moment → ActsFit c.cluster.run moment → (m : ℕ) →
        (let s = after_acts c.cluster.run moment in FitsAfter any_join words s.world (plainly (Deliver m)) → AreStampedBy stamp_limit (delivers s m).new_versions) }
    ensures act { (c : Changing) (jobs : List (ℕ × Job)) → IsAtFirst c → IsLedTo c.cluster.run → AreAskable jobs →
        (before : List Act) (act : Act) (later : List Act) → acts_through c jobs ≡ before ++ act ∷ later → AreLawfulActs c.cluster.run before → ActsFit c.cluster.run before →
        (let s = after_acts c.cluster.run before in FitAll any_join words s.world (acted s act).moves → AreStampedBy stamp_limit (acted s act).new_versions) }
    ensures fits { stamp_limit < 2 ^ 64 }
{
    every_world_is_sound::<S3Schema>();
    every_world_has_kept_reads::<S3Schema>();
    every_world_reads_stored_rows::<S3Schema>();
    every_world_gives_windows::<S3Schema>();
    every_installed_world_reads_what_was_kept::<S3Schema>();
    every_world_collects_stored_objects::<S3Schema>();
    nothing_is_collected_without_collect::<S3Schema>();
}

/// So each version that was drawn until such a moment is in range: it has the number of its request as its identifier.
pub fn drawn_versions_are_in_range()
    ensures { (c : Changing) (jobs : List (ℕ × Job)) → IsAtFirst c → IsLedTo c.cluster.run → AreAskable jobs →
        (moment : List Act) → IsMoment (acts_through c jobs) moment → AreLawfulActs c.cluster.run moment → ActsFit c.cluster.run moment →
        (d : Draw) → Contains (after_acts c.cluster.run moment).draws d → version_in_range d.version ≡ true }
{
    every_world_is_sound::<S3Schema>();
    every_world_has_kept_reads::<S3Schema>();
    every_world_reads_stored_rows::<S3Schema>();
    every_world_gives_windows::<S3Schema>();
    every_installed_world_reads_what_was_kept::<S3Schema>();
    every_world_collects_stored_objects::<S3Schema>();
    nothing_is_collected_without_collect::<S3Schema>();
}
