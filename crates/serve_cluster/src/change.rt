//! A layout change on a world.
ghost use Rattle.std.specs.Prelude.{◌≡◌, ◌≤◌, [], ◌∷◌, map, length, OnOk, IfOk, IsTrue, None};
ghost use Rattle.std.specs.List.{list_all, range_with_len};
ghost use Rattle.crdt_core.specs.Outcomes.{WantOr, OnlyWant};
ghost use Rattle.layout_roles.specs.Certificates.{IsRedundancy};
ghost use Rattle.layout_roles.specs.Fits.{IsGreatest};
ghost use Rattle.cluster_machine.specs.declared.step.Step.TheVariants as step;
ghost use Rattle.store_model.specs.Run.{plainly};
ghost use Rattle.store_model.specs.Acts.{moves};
ghost use Rattle.serve_changes.specs.Acts.{steps, stages_of};
ghost use Rattle.store_model.specs.declared.event.Told.{Told};
ghost use Rattle.s3_world.specs.Stands.{HasStore, IsMeantEvent, PlaysEvent, OverflowsEvent};
ghost use Rattle.serve_cluster.specs.Acting.{DoesActs, LacksRoom};
ghost use Rattle.s3_world.specs.declared.world.S3World.{S3World as World};
ghost use Rattle.serve_cluster.specs.Changes.{IsComputed, HasWithin, Applies, ApplyLacks, acts_at, acts_with, nodes_of as nodes_in, DoesIn};
ghost use Rattle.change_deeds.specs.Deeds.{act_of, step_of, staged_as, staged_roles};

use crate::acts::drain_all;
use crate::cluster::asker;
use change_deeds::{Deed, deeds_past_apply, nodes_of, of_both};
use cluster_machine::Action;
use cluster_machine::applied::Applied;
use crdt_core::{List, Memory};
use layout_roles::{Kind, Redundancy, Role, Roles, Zone};
use s3_world::{Event, S3World};

/// A change of the layout that is to come.
#[derive(Drop)]
pub struct Change {
    /// How many requests have reached the cluster when it is made.
    pub after: u32,
    /// In how many zones the nodes of a partition have to be from then on.
    pub redundancy: Redundancy,
    /// The layout that was computed for its roles, with the cut that shows that it is the best.
    pub shown: Applied,
}

/// The greatest node of a server.
const GREATEST_NODE: u8 = 16;

// A node has this role, or none.
fn stage_as(world: &mut S3World, node: u8, role: Option<(Zone, Kind)>) -> Result<(), Memory>
    requires stands { HasStore world.old }
    requires low { 1 ≤ node }
    requires high { node ≤ 64 }
    ensures does { OnOk result (DoesActs world.old world.new (moves (plainly (step.Role node role)) ∷ [])) }
    ensures causes { WantOr result (LacksRoom world.old (λ _. moves (plainly (step.Role node role)) ∷ [])) }
{
    match world.step(&Event::Role { node, role }) {
        Ok(_) => Ok(()),
        Err(memory) => Err(memory),
    }
}

// No node has a role any more.
fn unstage_all(world: &mut S3World) -> Result<(), Memory>
    requires { HasStore world.old }
    ensures does { OnOk result (DoesActs world.old world.new (steps (map (λ n. plainly (step.Role n None)) (range_with_len 1 16)))) }
    ensures causes { WantOr result (LacksRoom world.old (λ _. steps (map (λ n. plainly (step.Role n None)) (range_with_len 1 16)))) }
{
    let mut node = 0;
    'nodes: while node < GREATEST_NODE {
        match stage_as(world, node + 1, None) {
            Ok(()) => node += 1,
            Err(memory) => return Err(memory),
        }
    }
    Ok(())
}

// A node has its role.
fn stage(world: &mut S3World, role: &Role) -> Result<(), Memory>
    requires stands { HasStore world.old }
    requires low { 1 ≤ role.now.node }
    requires high { role.now.node ≤ 64 }
    ensures does { OnOk result (DoesActs world.old world.new (moves (plainly (staged_as role.now)) ∷ [])) }
    ensures causes { WantOr result (LacksRoom world.old (λ _. moves (plainly (staged_as role.now)) ∷ [])) }
{
    match role.zone.copy() {
        Ok(zone) => stage_as(world, role.node, Some((zone, role.kind))),
        Err(memory) => Err(memory),
    }
}

// Each node has its role.
fn stage_all(world: &mut S3World, roles: &Roles) -> Result<(), Memory>
    requires { HasStore world.old }
    ensures does { OnOk result (DoesActs world.old world.new (steps (map (λ role. plainly (staged_as role)) roles.now.list))) }
    ensures causes { WantOr result (LacksRoom world.old (λ _. steps (map (λ role. plainly (staged_as role)) roles.now.list))) }
{
    let mut rest = roles.list.as_slice();
    'roles: while !rest.is_empty() {
        match stage(world, &rest[0]) {
            Ok(()) => rest = &rest[1..],
            Err(memory) => return Err(memory),
        }
    }
    Ok(())
}

// The copies have to lie in so many zones.
fn spread(world: &mut S3World, wanted: Redundancy) -> Result<(), Memory>
    requires stands { HasStore world.old }
    requires wanted { IsRedundancy wanted }
    ensures does { OnOk result (DoesActs world.old world.new (moves (plainly (step.Redundancy wanted)) ∷ [])) }
    ensures causes { WantOr result (LacksRoom world.old (λ _. moves (plainly (step.Redundancy wanted)) ∷ [])) }
{
    match world.step(&Event::Redundancy(wanted)) {
        Ok(_) => Ok(()),
        Err(memory) => Err(memory),
    }
}

// Each node has its role, and the copies have to lie in so many zones.
fn stage_and_spread(world: &mut S3World, roles: &Roles, wanted: Redundancy) -> Result<(), Memory>
    requires stands { HasStore world.old }
    requires wanted { IsRedundancy wanted }
    ensures does { OnOk result (DoesActs world.old world.new (staged_roles roles.now.list wanted)) }
    ensures causes { WantOr result (LacksRoom world.old (λ _. staged_roles roles.now.list wanted)) }
{
    match stage_all(world, roles) {
        Ok(()) => spread(world, wanted),
        Err(memory) => Err(memory),
    }
}

// What is staged is these roles, and this redundancy.
fn stage_roles(world: &mut S3World, roles: &Roles, wanted: Redundancy) -> Result<(), Memory>
    requires stands { HasStore world.old }
    requires wanted { IsRedundancy wanted }
    ensures does { OnOk result (DoesActs world.old world.new (stages_of roles.now.list wanted)) }
    ensures causes { WantOr result (LacksRoom world.old (λ _. stages_of roles.now.list wanted)) }
{
    match unstage_all(world) {
        Ok(()) => stage_and_spread(world, roles, wanted),
        Err(memory) => Err(memory),
    }
}

// The event by which a node acts so.
fn event_of(action: Action, node: u8) -> Event
    ensures does { (old new : World) (told : Told) → PlaysEvent old new told result → DoesActs old new (moves (plainly (step_of action node)) ∷ []) }
    ensures causes { (old : World) → OverflowsEvent old result → LacksRoom old (λ _. moves (plainly (step_of action node)) ∷ []) }
    ensures meant { IsMeantEvent result }
{
    match action {
        Action::Ack => Event::Ack(node),
        Action::Sync => Event::Sync(node),
        Action::SyncAck => Event::SyncAck(node),
        Action::Clean => Event::Clean(node),
        Action::Work => Event::Work(node),
        Action::Repair => Event::Repair(node),
        Action::Collect => Event::Collect(node),
    }
}

// A node acts so.
fn turn(world: &mut S3World, action: Action, node: u8) -> Result<(), Memory>
    requires { HasStore world.old }
    ensures does { OnOk result (DoesActs world.old world.new (moves (plainly (step_of action node)) ∷ [])) }
    ensures causes { WantOr result (LacksRoom world.old (λ _. moves (plainly (step_of action node)) ∷ [])) }
{
    let event = event_of(action, node);
    match world.step(&event) {
        Ok(_) => Ok(()),
        Err(memory) => Err(memory),
    }
}

// A node shows its view to another.
fn show(world: &mut S3World, from: u8, to: u8) -> Result<(), Memory>
    requires { HasStore world.old }
    ensures does { OnOk result (DoesActs world.old world.new (moves (plainly (step.Gossip from to)) ∷ [])) }
    ensures causes { WantOr result (LacksRoom world.old (λ _. moves (plainly (step.Gossip from to)) ∷ [])) }
{
    match world.step(&Event::Gossip { from, to }) {
        Ok(_) => Ok(()),
        Err(memory) => Err(memory),
    }
}

// One thing is done.
fn play(world: &mut S3World, deed: Deed) -> Result<(), Memory>
    requires { HasStore world.old }
    ensures does { OnOk result (DoesActs world.old world.new (act_of deed ∷ [])) }
    ensures causes { WantOr result (LacksRoom world.old (λ _. act_of deed ∷ [])) }
{
    match deed {
        Deed::Show { from, to } => show(world, from, to),
        Deed::Turn { action, node } => turn(world, action, node),
        Deed::Drain => drain_all(world),
    }
}

// All of this is done, one after the other.
fn play_all(world: &mut S3World, deeds: &[Deed]) -> Result<(), Memory>
    requires { HasStore world.old }
    ensures does { OnOk result (DoesActs world.old world.new (map act_of deeds.now)) }
    ensures causes { WantOr result (LacksRoom world.old (λ _. map act_of deeds.now)) }
{
    let mut rest = deeds;
    'deeds: while !rest.is_empty() {
        match play(world, rest[0]) {
            Ok(()) => rest = &rest[1..],
            Err(memory) => return Err(memory),
        }
    }
    Ok(())
}

// The layout that was computed is applied at a node.
fn apply(world: &mut S3World, node: u8, shown: Applied) -> Result<(), Memory>
    requires stands { HasStore world.old }
    requires greatest { IsGreatest shown.roles.list shown.certified.r shown.certified.size shown.certified.sets.sets }
    ensures stands { OnOk result (HasStore world.new) }
    ensures does { OnOk result (Applies world.old world.new node shown []) }
    ensures want { OnlyWant result }
{
    let _ = world.apply_with(node, shown)?;
    Ok(())
}

// The layout that was computed is applied at a node, and then this is done.
fn apply_and_play(
    world: &mut S3World,
    node: u8,
    shown: Applied,
    deeds: &[Deed],
) -> Result<(), Memory>
    requires stands { HasStore world.old }
    requires greatest { IsGreatest shown.roles.list shown.certified.r shown.certified.size shown.certified.sets.sets }
    ensures stands { OnOk result (HasStore world.new) }
    ensures does { OnOk result (Applies world.old world.new node shown (map act_of deeds.now)) }
    ensures causes { WantOr result (ApplyLacks world.old node shown (map act_of deeds.now)) }
{
    match apply(world, node, shown) {
        Ok(()) => play_all(world, deeds),
        Err(memory) => Err(memory),
    }
}

// The roles are staged, their layout is applied at a node, and then this is done.
fn stage_and_apply(
    world: &mut S3World,
    node: u8,
    change: Change,
    deeds: &[Deed],
) -> Result<(), Memory>
    requires stands { HasStore world.old }
    requires computed { IsComputed change }
    requires within { HasWithin world.old }
    ensures stands { OnOk result (HasStore world.new) }
    ensures does { OnOk result (DoesIn world.old world.new (acts_at node change (map act_of deeds.now))) }
    ensures causes { WantOr result (LacksRoom world.old (acts_at node change (map act_of deeds.now))) }
{
    match stage_roles(world, &change.shown.roles, change.redundancy) {
        Ok(()) => apply_and_play(world, node, change.shown, deeds),
        Err(memory) => Err(memory),
    }
}

/// Carries a change out among the members of the older layout, and gives those of the newer one.
pub(crate) fn make(world: &mut S3World, older: &[u8], change: Change) -> Result<List<u8>, Memory>
    requires stands { HasStore world.old }
    requires computed { IsComputed change }
    requires within { HasWithin world.old }
    ensures newer { IfOk result (λ newer. newer ≡ nodes_in change.shown.roles.list) }
    ensures does { OnOk result (DoesIn world.old world.new (acts_with older.now change)) }
    ensures causes { WantOr result (LacksRoom world.old (acts_with older.now change)) }
{
    let roles = change.shown.roles.list.as_slice();
    let alloc = change.shown.roles.list.allocator();
    let newer = nodes_of(alloc, roles)?;
    let part = of_both(alloc, older, newer.as_slice())?;
    let node = asker(older);
    let deeds = deeds_past_apply(alloc, node, part.as_slice())?;
    match stage_and_apply(world, node, change, deeds.as_slice()) {
        Ok(()) => {
            world.forget_delivered();
            Ok(newer)
        }
        Err(memory) => Err(memory),
    }
}
