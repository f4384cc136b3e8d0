//! The event that a turn draws.
ghost use Rattle.std.specs.Prelude.{◌≡◌, ◌<◌, ◌≤◌, ◌^◌, IfOk, OnOk};
ghost use Rattle.crdt_core.specs.Outcomes.{OnlyWant};
ghost use Rattle.workload.specs.Numbers.{after, draw};
ghost use Rattle.workload.specs.Turns.{pics, key_of, size_of, chosen, first_event};
ghost use Rattle.store_model.specs.declared.event.Event.TheVariants as event;

use crate::numbers::Numbers;
use crdt_core::{Bytes, Memory};
use itoa::Buffer;
use std::alloc::Global;
use store_model::Event;

/// The name of the one bucket.
pub(crate) fn pics(alloc: Global) -> Result<Bytes, Memory>
    ensures name { IfOk result (λ name. name ≡ pics) }
    ensures want { OnlyWant result }
{
    Bytes::from_slice(alloc, b"pics")
}

/// The key with this number.
fn key(alloc: Global, i: u64) -> Result<Bytes, Memory>
    ensures key { IfOk result (λ key. key ≡ key_of i) }
    ensures want { OnlyWant result }
{
    let mut key = Bytes::from_slice(alloc, b"k")?;
    let mut digits = Buffer::new();
    key.extend_from_slice(digits.format(i).as_bytes())?;
    Ok(key)
}

/// A key by the next number.
fn draw_key(alloc: Global, numbers: &mut Numbers) -> Result<Bytes, Memory>
    ensures key { IfOk result (λ key. key ≡ key_of (draw numbers.old.state 1 16)) }
    ensures state { numbers.new.state ≡ after numbers.old.state 1 }
    ensures want { OnlyWant result }
{
    let i = numbers.draw(16);
    key(alloc, i)
}

/// The size of what is put, in bytes.
fn draw_size(numbers: &mut Numbers) -> u32
    ensures size { result ≡ size_of numbers.old.state }
    ensures state { numbers.new.state ≡ after numbers.old.state 2 }
{
    if numbers.draw(32) == 0 {
        3072 + numbers.draw(1024) as u32
    } else {
        numbers.draw(64) as u32
    }
}

fn put(alloc: Global, numbers: &mut Numbers, node: u8, key: Bytes) -> Result<Event, Memory>
    ensures event { IfOk result
        (λ e. e ≡ event.Put node pics key (size_of numbers.old.state)
        (draw numbers.old.state 3 251)) }
    ensures state { numbers.new.state ≡ after numbers.old.state 3 }
    ensures want { OnlyWant result }
{
    let size = draw_size(numbers);
    let fill = numbers.draw(251) as u8;
    Ok(Event::Put {
        node,
        bucket: pics(alloc)?,
        key,
        size,
        fill,
    })
}

fn copy(alloc: Global, numbers: &mut Numbers, node: u8, from_key: Bytes) -> Result<Event, Memory>
    ensures event { IfOk result
        (λ e. e ≡ event.Copy node pics from_key pics (key_of (draw numbers.old.state 1 16))) }
    ensures state { numbers.new.state ≡ after numbers.old.state 1 }
    ensures want { OnlyWant result }
{
    let key = draw_key(alloc, numbers);
    Ok(Event::Copy {
        node,
        from_bucket: pics(alloc)?,
        from_key,
        bucket: pics(alloc)?,
        key: key?,
    })
}

/// The event of choice `c`, at a node and for a key, where `count` events came before it.
fn choose(
    alloc: Global,
    c: u64,
    node: u8,
    key: Bytes,
    count: u64,
    numbers: &mut Numbers,
) -> Result<Event, Memory>
    requires some { 0 < count }
    requires few { count < 2 ^ 32 }
    ensures event { IfOk result (λ e. e ≡ (chosen c node key count numbers.old.state).event) }
    ensures state { OnOk result
        (numbers.new.state ≡ (chosen c node key count numbers.old.state).state) }
    ensures want { OnlyWant result }
{
    match c {
        0..=4 => put(alloc, numbers, node, key),
        5..=7 => Ok(Event::Get {
            node,
            bucket: pics(alloc)?,
            key,
        }),
        8 => Ok(Event::List {
            node,
            bucket: pics(alloc)?,
            prefix: Bytes::new(alloc),
        }),
        9 => Ok(Event::Delete {
            node,
            bucket: pics(alloc)?,
            key,
        }),
        10 => Ok(Event::Head {
            node,
            bucket: pics(alloc)?,
            key,
        }),
        11 => copy(alloc, numbers, node, key),
        12 => Ok(Event::Tick(numbers.draw(1000))),
        13 => Ok(Event::Work(node)),
        14 => Ok(Event::Deliver(1 + numbers.draw(8 * count))),
        _ => Ok(Event::Lose(1 + numbers.draw(8 * count))),
    }
}

/// The event that the next numbers give, where `count` events came before it.
pub(crate) fn draw_event(alloc: Global, count: u64, numbers: &mut Numbers) -> Result<Event, Memory>
    requires some { 0 < count }
    requires few { count < 2 ^ 32 }
    ensures event { IfOk result (λ e. e ≡ (first_event numbers.old.state count).event) }
    ensures state { OnOk result (numbers.new.state ≡ (first_event numbers.old.state count).state) }
    ensures want { OnlyWant result }
{
    let c = numbers.draw(16);
    let node = 1 + numbers.draw(6) as u8;
    let key = draw_key(alloc, numbers)?;
    choose(alloc, c, node, key, count, numbers)
}
