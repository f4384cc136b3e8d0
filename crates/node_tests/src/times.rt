//! The world's time.
use cluster_machine::Step;
use crdt_core::Memory;
use object_schema::S3Schema;
use std::alloc::Global;
use std::test::Fail;
use world_core::World;

/// Two ticks of 2^63 ms: the time after the second one fits no u64.
fn two_long_ticks(alloc: Global) -> Result<bool, Memory> {
    let mut world = World::<S3Schema>::new(alloc)?;
    let first = world.step(Step::Tick(1 << 63))?;
    let second = world.step(Step::Tick(1 << 63));
    Ok(first.refused.is_none() && matches!(second, Err(Memory::Full)))
}

#[test]
fn tick_past_the_greatest_time(rt: HostRuntime) -> Result<(), Fail> {
    assert!(rt; two_long_ticks(rt.alloc())?);
    Ok(())
}
