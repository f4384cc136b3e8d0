//! What no clause says: that a summary comes with ample memory, and what it is of five events, whose numbers were worked
//! out by hand.
ghost use Rattle.std.specs.Prelude.{◌≤◌};

use lab_outside::{MemSink, Status};
use std::alloc::Global;
use std::test::Fail;
use workload_run::{Workload, run_workload};

/// Three nodes without rows: a bucket, a size of blocks, the loss of message 5, which wasn't sent, and a drain.
const FIVE_EVENTS: &[u8] = b"\
    workload 5 0\n\
    finished 0 ended 0 open 0\n\
    versions 1\n\
    node 1 rows 0 blocks 0 top 7e1c26a17bd3d7fa395f34897712e0533bd0d69b934e542d6a4a4fb3ce779cda\n\
    node 2 rows 0 blocks 0 top 7e1c26a17bd3d7fa395f34897712e0533bd0d69b934e542d6a4a4fb3ce779cda\n\
    node 3 rows 0 blocks 0 top 7e1c26a17bd3d7fa395f34897712e0533bd0d69b934e542d6a4a4fb3ce779cda\n\
    fresh 0\n\
    end 5 0 0\n";

/// The status and the text of a workload of so many events, at most 100,000.
fn summarized(alloc: Global, count: u32, seed: u64) -> Result<(Status, Vec<u8>), Fail>
    requires few { count ≤ 100000 }
{
    let mut sink = MemSink::new(alloc, Vec::new(alloc));
    let status = run_workload(alloc, Workload { count, seed }, &mut sink);
    Ok((status, sink.bytes().to_vec(alloc)?))
}

#[test]
fn workload_of_five(rt: HostRuntime) -> Result<(), Fail> {
    let (status, text) = summarized(rt.alloc(), 5, 0)?;
    assert_eq!(rt; status, Status::Done);
    assert_eq!(rt; text.as_slice(), FIVE_EVENTS);
    Ok(())
}

/// One seed gives one summary, over whole layout changes.
#[test]
fn workload_repeats(rt: HostRuntime) -> Result<(), Fail> {
    let (status, text) = summarized(rt.alloc(), 20_000, 7)?;
    let (again, same) = summarized(rt.alloc(), 20_000, 7)?;
    assert_eq!(rt; status, Status::Done);
    assert_eq!(rt; again, Status::Done);
    assert!(rt; text.starts_with(b"workload 20000 7\nfinished "));
    assert_eq!(rt; text, same);
    Ok(())
}
