//! The acts of a request, on a world.
ghost use Rattle.std.specs.Prelude.{◌≡◌, false, [], ◌∷◌, ◌++◌, OnOk, IfOk};
ghost use Rattle.crdt_core.specs.Outcomes.{WantOr};
ghost use Rattle.cluster_machine.specs.declared.step.Step.TheVariants.{Tick, Expire};
ghost use Rattle.store_model.specs.Run.{plainly, need_at};
ghost use Rattle.store_model.specs.Acts.{moves, drain, feeds, keeps, acted, end_of};
ghost use Rattle.s3_world.specs.Stands.{HasStore, Allows, Overflows};
ghost use Rattle.serve_model.specs.Clusters.{works, round as round_of, delivered, fed_block, decided, acts_past_end, acts_opened, expiry};
ghost use Rattle.serve_cluster.specs.Acting.{DoesActs, KeepsActs, LacksRoom, IsDrained, TakesEnd, Finishes};

use crdt_core::{Bytes, Memory};
use flow_model::FlowEnd;
use s3_world::{Event, S3World};

/// The world's time goes on by so many milliseconds.
pub(crate) fn tick(world: &mut S3World, ms: u64) -> Result<(), Memory>
    requires { HasStore world.old }
    ensures does { OnOk result (DoesActs world.old world.new (moves (plainly (Tick ms)) ∷ [])) }
    ensures causes { WantOr result (LacksRoom world.old (λ _. moves (plainly (Tick ms)) ∷ [])) }
{
    match world.step(&Event::Tick(ms)) {
        Ok(_) => Ok(()),
        Err(memory) => Err(memory),
    }
}

/// All messages are delivered.
pub(crate) fn drain_all(world: &mut S3World) -> Result<(), Memory>
    requires { HasStore world.old }
    ensures keeps { OnOk result (KeepsActs world.old world.new delivered) }
    ensures causes { WantOr result (LacksRoom world.old (λ _. delivered)) }
{
    match world.drain_all() {
        Ok(()) => Ok(()),
        Err(memory) => Err(memory),
    }
}

/// The next message is delivered. False where none was left.
pub(crate) fn deliver(world: &mut S3World) -> Result<bool, Memory>
    requires { HasStore world.old }
    ensures keeps { OnOk result (KeepsActs world.old world.new (drain 1 ∷ [])) }
    ensures last { IfOk result (λ more. more ≡ false → IsDrained world.old) }
    ensures causes { WantOr result (Overflows world.old (λ s. acted s (drain 1))) }
{
    match world.deliver_next() {
        Ok(more) => Ok(more),
        Err(memory) => Err(memory),
    }
}

// One member works off what waits at it.
fn work(world: &mut S3World, member: u8) -> Result<(), Memory>
    requires { HasStore world.old }
    ensures keeps { OnOk result (KeepsActs world.old world.new (works (member ∷ []))) }
    ensures causes { WantOr result (LacksRoom world.old (λ _. works (member ∷ []))) }
{
    match world.step(&Event::Work(member)) {
        Ok(_) => Ok(()),
        Err(memory) => Err(memory),
    }
}

// Each member works off what waits at it.
fn work_all(world: &mut S3World, members: &[u8]) -> Result<(), Memory>
    requires { HasStore world.old }
    ensures keeps { OnOk result (KeepsActs world.old world.new (works members.now)) }
    ensures causes { WantOr result (LacksRoom world.old (λ _. works members.now)) }
{
    let mut rest = members;
    'members: while !rest.is_empty() {
        match work(world, rest[0]) {
            Ok(()) => rest = &rest[1..],
            Err(memory) => return Err(memory),
        }
    }
    Ok(())
}

// Each member works, and all messages are delivered.
fn round(world: &mut S3World, members: &[u8]) -> Result<(), Memory>
    requires { HasStore world.old }
    ensures keeps { OnOk result (KeepsActs world.old world.new (round_of members.now)) }
    ensures causes { WantOr result (LacksRoom world.old (λ _. round_of members.now)) }
{
    match work_all(world, members) {
        Ok(()) => drain_all(world),
        Err(memory) => Err(memory),
    }
}

/// Two rounds.
pub(crate) fn rounds(world: &mut S3World, members: &[u8]) -> Result<(), Memory>
    requires { HasStore world.old }
    ensures keeps { OnOk result (KeepsActs world.old world.new (round_of members.now ++ round_of members.now)) }
    ensures causes { WantOr result (LacksRoom world.old (λ _. round_of members.now ++ round_of members.now)) }
{
    match round(world, members) {
        Ok(()) => round(world, members),
        Err(memory) => Err(memory),
    }
}

// A request without an end is expired.
fn expire(world: &mut S3World, request: u64, end: &Option<FlowEnd>) -> Result<(), Memory>
    requires { HasStore world.old }
    ensures does { OnOk result (DoesActs world.old world.new (expiry request end.now)) }
    ensures causes { WantOr result (LacksRoom world.old (λ _. expiry request end.now)) }
{
    if end.is_some() {
        return Ok(());
    }
    match world.step(&Event::Expire(request)) {
        Ok(_) => Ok(()),
        Err(memory) => Err(memory),
    }
}

/// The end is taken, and delivered messages are forgotten.
pub(crate) fn take(world: &mut S3World, request: u64) -> Result<Option<FlowEnd>, Memory>
    requires { HasStore world.old }
    ensures does { IfOk result (λ end. TakesEnd world.old world.new request end) }
    ensures causes { WantOr result (LacksRoom world.old (λ s. acts_past_end request (end_of s.ends request))) }
{
    let end = world.take_end(request);
    match expire(world, request, &end) {
        Ok(()) => {
            world.forget_delivered();
            Ok(end)
        }
        Err(memory) => Err(memory),
    }
}

// Two rounds follow, and the end of a request is taken. None where it has none.
fn end(world: &mut S3World, members: &[u8], request: u64) -> Result<Option<FlowEnd>, Memory>
    requires { HasStore world.old }
    ensures does { IfOk result (λ end. Finishes world.old world.new members.now request (λ _. []) end) }
    ensures causes { WantOr result (LacksRoom world.old (λ s. acts_opened members.now s request [])) }
{
    match rounds(world, members) {
        Ok(()) => take(world, request),
        Err(memory) => Err(memory),
    }
}

/// A request that was opened comes to its end, which is taken. None where it has none.
pub(crate) fn finish(
    world: &mut S3World,
    members: &[u8],
    request: u64,
) -> Result<Option<FlowEnd>, Memory>
    requires { HasStore world.old }
    ensures does { IfOk result (λ end. Finishes world.old world.new members.now request (λ _. delivered) end) }
    ensures causes { WantOr result (LacksRoom world.old (λ s. acts_opened members.now s request delivered)) }
{
    match drain_all(world) {
        Ok(()) => end(world, members, request),
        Err(memory) => Err(memory),
    }
}

/// A block comes for a request that needs it, and all messages are delivered.
pub(crate) fn feed(world: &mut S3World, request: u64, bytes: Bytes) -> Result<(), Memory>
    requires stands { HasStore world.old }
    requires needed { Allows world.old (feeds request bytes) }
    ensures keeps { OnOk result (KeepsActs world.old world.new (fed_block request bytes)) }
    ensures causes { WantOr result (LacksRoom world.old (λ _. fed_block request bytes)) }
{
    match world.feed(request, bytes) {
        Ok(()) => drain_all(world),
        Err(memory) => Err(memory),
    }
}

/// A request whose bytes all came is kept, and comes to its end.
pub(crate) fn keep(
    world: &mut S3World,
    members: &[u8],
    request: u64,
) -> Result<Option<FlowEnd>, Memory>
    requires stands { HasStore world.old }
    requires needed { Allows world.old (keeps request) }
    ensures does { IfOk result (λ end. Finishes world.old world.new members.now request (λ _. keeps request ∷ delivered) end) }
    ensures causes { WantOr result (LacksRoom world.old (λ s. acts_opened members.now s request (keeps request ∷ delivered))) }
{
    match world.finish(request) {
        Ok(()) => finish(world, members, request),
        Err(memory) => Err(memory),
    }
}

/// A request is given up if it waits for bytes, and comes to its end.
pub(crate) fn leave(
    world: &mut S3World,
    members: &[u8],
    request: u64,
) -> Result<Option<FlowEnd>, Memory>
    requires { HasStore world.old }
    ensures does { IfOk result (λ end. Finishes world.old world.new members.now request (λ s. decided false request (need_at s request)) end) }
    ensures causes { WantOr result (LacksRoom world.old (λ s. acts_opened members.now s request (decided false request (need_at s request)))) }
{
    match world.need(request) {
        Some(_) => match world.abort(request) {
            Ok(()) => finish(world, members, request),
            Err(memory) => Err(memory),
        },
        None => end(world, members, request),
    }
}
