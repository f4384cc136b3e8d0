//! A cluster to which lawful acts lead, and which looks like one that holds a map, holds it. No body does more than name laws:
//! each is called for its contract.
//!
//! `LooksLike` (specs/) says what is seen of such a cluster; `Holds` of plain_laws says it with all that every lawful run keeps.
#![tactic(auto)]

ghost use Rattle.serve_model.specs.Clusters.{Cluster};
ghost use Rattle.serve_model.specs.Plain.{Plain};
ghost use Rattle.plain_laws.specs.Holds.{Holds};
ghost use Rattle.held_laws.specs.Looks.{IsLedToLooks};

use block_laws::{every_block_phase_gives_its_block, every_node_has_its_blocks};
use cluster_machine::applied::Applied;
use crdt_rows::{AnyRow, version_rows_join_as_facts};
use get_laws::states_know_their_requests;
use layout_roles::{Cut, Layout};
use machine_origins::every_node_has_stored_rows;
use object_origins::{gone_versions_were_overwritten, rows_show_what_was_stored};
use object_schema::S3Schema;
use world_reads::{
    every_installed_world_reads_what_was_kept, every_world_collects_stored_objects,
    every_world_gives_windows, every_world_has_kept_reads, every_world_is_sound,
    every_world_reads_stored_rows, nothing_is_collected_without_collect,
};

/// A cluster to which lawful acts lead from nothing, with whatever layout was installed first, and which looks like one that
/// holds a map, holds it, where no version that was given up is later than what a write would draw now; no two strings that
/// are hashed for walks have one digest, and neither have two names of buckets.
pub fn a_cluster_that_looks_like_a_map_holds_it()
    ensures { (c : Cluster) (P : Plain) → IsLedToLooks c P → Holds c P }
{
    every_world_is_sound::<S3Schema>();
    every_world_has_kept_reads::<S3Schema>();
    every_world_reads_stored_rows::<S3Schema>();
    every_world_gives_windows::<S3Schema>();
    every_installed_world_reads_what_was_kept::<S3Schema>();
    every_world_collects_stored_objects::<S3Schema>();
    nothing_is_collected_without_collect::<S3Schema>();
    every_block_phase_gives_its_block::<AnyRow, Layout, Applied, Cut>();
    every_node_has_its_blocks::<AnyRow, Layout, Applied, Cut>();
    every_node_has_stored_rows::<AnyRow, Layout, Applied, Cut>();
    rows_show_what_was_stored();
    gone_versions_were_overwritten();
    version_rows_join_as_facts();
    states_know_their_requests();
}
