//! What a get gives, one after the other.
ghost use Rattle.std.specs.Prelude.{◌≡◌, ◌<◌, ◌≤◌, ℕ, false, true, List, IfOk, IfSome};
ghost use Rattle.crdt_core.specs.Outcomes.{OnlyWant, WantOr};
ghost use Rattle.store_model.specs.Run.{State};
ghost use Rattle.store_model.specs.Acts.{end_of, all_messages};
ghost use Rattle.s3_world.specs.Stands.{IsStore};
ghost use Rattle.serve_loop.specs.Gets.{GoesOn};
ghost use Rattle.serve_cluster.specs.Giving.{begun_get, Delivers, GivesNext, GivesRest, HandsOut, HasDrainedGet, HasGot};
ghost use Rattle.serve_cluster.specs.Giving.{is_object, LacksDrain, LacksGetting, LacksRest, left_of};

use crate::acts::{deliver, rounds, take};
use crdt_core::{Memory, Value};
use flow_model::FlowEnd;
use s3_world::S3World;
use serve_loop::Got;

/// A get that was opened.
#[derive(Drop)]
pub(crate) struct Getting {
    /// Its number.
    request: u64,
    /// What it found was told.
    told: bool,
    /// Its rounds of work are over.
    worked: bool,
    /// How many messages may still be delivered before its rounds of work; after them, how often it may still go on.
    left: u64,
}

/// The get that was opened with this number. None where it was refused.
pub(crate) fn begun(number: Option<u64>) -> Option<Getting>
    ensures { result ≡ begun_get number }
{
    match number {
        Some(request) => Some(Getting {
            request,
            told: false,
            worked: false,
            left: u64::MAX,
        }),
        None => None,
    }
}

// The request ended with an object, which is to be had with its end.
fn has_object(world: &S3World, request: u64) -> bool
    ensures { (s : State) → IsStore world.now s → result ≡ is_object (end_of s.ends request) }
{
    matches!(world.end(request), Some(FlowEnd::Found { .. }))
}

// What was found, unless the get ended with it.
fn tell(world: &S3World, getting: &mut Getting) -> Result<Option<Got>, Memory>
    requires { getting.old.told ≡ false }
    ensures same { getting.new ≡ record getting.old { told = getting.new.told } }
    ensures hands { IfOk result (λ got. HandsOut world.now world.now getting.old getting.new got) }
    ensures want { OnlyWant result }
{
    if has_object(world, getting.request) {
        return Ok(None);
    }
    match world.found(getting.request) {
        Some((version, meta)) => {
            let meta = meta.copy()?;
            getting.told = true;
            Ok(Some(Got::Found(version, meta)))
        }
        None => Ok(None),
    }
}

// What may be given now: the object that was found, and then its bytes as they came.
fn hand_out(world: &mut S3World, getting: &mut Getting) -> Result<Option<Got>, Memory>
    ensures same { getting.new ≡ record getting.old { told = getting.new.told } }
    ensures hands { IfOk result (λ got. HandsOut world.old world.new getting.old getting.new got) }
    ensures want { OnlyWant result }
{
    if !getting.told {
        return tell(world, getting);
    }
    match world.take_piece(getting.request) {
        Some(piece) => Ok(Some(Got::Piece(piece))),
        None => Ok(None),
    }
}

// Messages are delivered until something may be given. None where no message is left.
fn deliver_on(world: &mut S3World, getting: &mut Getting) -> Result<Option<Got>, Memory>
    requires on_its_way { HasGot world.old getting.old }
    requires early { getting.old.worked ≡ false }
    ensures same { getting.new ≡ record getting.old { told = getting.new.told; left = getting.new.left } }
    ensures fewer { IfOk result (λ got. IfSome got (λ _. getting.new.left < getting.old.left)) }
    ensures delivers { IfOk result (λ got. Delivers world.old world.new getting.old getting.new got) }
    ensures causes { WantOr result (LacksDrain world.old getting.old) }
{
    'messages: while getting.left > 0 {
        match deliver(world) {
            Ok(true) => getting.left -= 1,
            Ok(false) => return Ok(None),
            Err(memory) => return Err(memory),
        }
        match hand_out(world, getting) {
            Ok(Some(got)) => return Ok(Some(got)),
            Ok(None) => {}
            Err(memory) => return Err(memory),
        }
    }
    Ok(None)
}

// What is given after the rounds of work, one after the other: what waits to be handed out, and then the end.
fn end(world: &mut S3World, getting: &mut Getting) -> Result<Got, Memory>
    requires on_its_way { HasGot world.old getting.old }
    requires late { getting.old.worked ≡ true }
    ensures same { getting.new ≡ record getting.old { told = getting.new.told } }
    ensures gives { IfOk result (λ got. (members : List ℕ) → GivesNext world.old world.new members getting.old getting.new got) }
    ensures causes { WantOr result ((members : List ℕ) → LacksGetting world.old members getting.old) }
{
    match hand_out(world, getting) {
        Ok(Some(got)) => Ok(got),
        Ok(None) => match take(world, getting.request) {
            Ok(end) => Ok(Got::End(end)),
            Err(memory) => Err(memory),
        },
        Err(memory) => Err(memory),
    }
}

// The same, so many times. More pieces than can be counted are never had, and count as want of memory.
fn count_and_end(world: &mut S3World, getting: &mut Getting) -> Result<Got, Memory>
    requires on_its_way { HasGot world.old getting.old }
    requires late { getting.old.worked ≡ true }
    ensures same { getting.new.request ≡ getting.old.request }
    ensures fewer { IfOk result (λ got. GoesOn got → left_of getting.new < left_of getting.old) }
    ensures gives { IfOk result (λ got. (members : List ℕ) → GivesNext world.old world.new members getting.old getting.new got) }
    ensures causes { WantOr result ((members : List ℕ) → LacksGetting world.old members getting.old) }
{
    let Some(left) = getting.left.checked_sub(1) else {
        return Err(Memory::Want);
    };
    getting.left = left;
    end(world, getting)
}

// All messages were delivered: the members work twice, and then it gives the rest.
fn work_and_end(world: &mut S3World, members: &[u8], getting: &mut Getting) -> Result<Got, Memory>
    requires on_its_way { HasDrainedGet world.old getting.old }
    ensures same { getting.new.request ≡ getting.old.request }
    ensures fewer { IfOk result (λ got. GoesOn got → left_of getting.new ≤ all_messages) }
    ensures gives { IfOk result (λ got. GivesRest world.old world.new members.now getting.old getting.new got) }
    ensures causes { WantOr result (LacksRest world.old members.now getting.old) }
{
    match rounds(world, members) {
        Ok(()) => {
            getting.worked = true;
            getting.left = u64::MAX;
            count_and_end(world, getting)
        }
        Err(memory) => Err(memory),
    }
}

/// What it gives next. More pieces than can be counted are never had, and count as want of memory.
pub(crate) fn go_on(
    world: &mut S3World,
    members: &[u8],
    getting: &mut Getting,
) -> Result<Got, Memory>
    requires { HasGot world.old getting.old }
    ensures fewer { IfOk result (λ got. GoesOn got → left_of getting.new < left_of getting.old) }
    ensures same { getting.new.request ≡ getting.old.request }
    ensures gives { IfOk result (λ got. GivesNext world.old world.new members.now getting.old getting.new got) }
    ensures causes { WantOr result (LacksGetting world.old members.now getting.old) }
{
    if getting.worked {
        return count_and_end(world, getting);
    }
    match deliver_on(world, getting) {
        Ok(Some(got)) => Ok(got),
        Ok(None) => work_and_end(world, members, getting),
        Err(memory) => Err(memory),
    }
}
