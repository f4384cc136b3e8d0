//! The command with its output.
ghost use Rattle.std.specs.Prelude.{◌≡◌, ◌⊎◌, ◌≤◌, Err, OnOk, IfErr};
ghost use Rattle.lab_outside.specs.Rose.{Rose};
ghost use Rattle.lab_main.specs.Ends.{Ends};
ghost use Rattle.lab_main.specs.Limits.{number_line};
ghost use Rattle.lab_main.specs.Edges.{Writes};
ghost use Rattle.replay_run.specs.Replay.{sent_line};
ghost use Rattle.replay_run.specs.Stop.{Halts, IsWhole};
ghost use Rattle.workload.specs.Schedule.{schedule};
ghost use Rattle.workload_run.specs.Answer.{IsAnswer, IsOfWorkload, Summarizes};

use crate::laws::some_workload_is_stated;
use lab_main::ends;
use lab_outside::{Sink, Status};
use replay_run::{Account, ReplayStop, no_replay_lacks_room, replay};
use std::alloc::Global;
use store_anchors::promises_are_kept;
use workload::schedule;

/// A workload of so many events, from a seed.
#[derive(Clone, Copy, Debug, PartialEq, Eq)]
pub struct Workload {
    pub count: u32,
    pub seed: u64,
}

/// Replays the schedule of a workload, and writes the summary.
fn replayed<O: Sink>(alloc: Global, workload: Workload, output: &mut O) -> Result<(), ReplayStop>
    requires few { workload.count ≤ 100000 }
    ensures whole { OnOk result (IsWhole (Account.Summary workload.count workload.seed)
        (schedule workload.count workload.seed) (O.written output.old) (O.written output.new)) }
    ensures halts { IfErr result
        (λ stop. Halts (Account.Summary workload.count workload.seed)
        (schedule workload.count workload.seed) stop (O.written output.old)
        (O.written output.new)) }
    ensures room { result ≡ Err ReplayStop.Number → ⊥ }
    ensures fault { result ≡ Err ReplayStop.Write →
        Rose (O.faults output.old) (O.faults output.new) }
    ensures counted { O.faults output.old ≤ O.faults output.new }
    ensures told { (result ≡ Err ReplayStop.Write) ⊎ (O.faults output.new ≡ O.faults output.old) }
{
    no_replay_lacks_room();
    let events = schedule(alloc, workload.count, workload.seed)?;
    let account = Account::Summary {
        count: workload.count,
        seed: workload.seed,
    };
    replay(alloc, account, events.as_slice(), output)
}

/// Says why a replay gave up, where that is said in the output.
fn stopped<O: Sink>(output: &mut O, stop: ReplayStop) -> Status
    ensures number { stop ≡ ReplayStop.Number →
        Ends Status.Limit number_line result (O.written output.old) (O.written output.new)
        (O.faults output.old) (O.faults output.new) }
    ensures sent { stop ≡ ReplayStop.Sent →
        Ends Status.Limit sent_line result (O.written output.old) (O.written output.new)
        (O.faults output.old) (O.faults output.new) }
    ensures write { stop ≡ ReplayStop.Write → (result ≡ Status.WriteFault) ×
        (output.new ≡ output.old) }
    ensures memory { stop ≡ ReplayStop.Memory → (result ≡ Status.Memory) ×
        (output.new ≡ output.old) }
    ensures counted { O.faults output.old ≤ O.faults output.new }
    ensures told { (result ≡ Status.WriteFault) ⊎ (O.faults output.new ≡ O.faults output.old) }
    ensures statuses { IsOfWorkload result }
{
    match stop {
        ReplayStop::Write => Status::WriteFault,
        ReplayStop::Memory => Status::Memory,
        ReplayStop::Number => ends(output, b"limit number\n", Status::Limit),
        ReplayStop::Sent => ends(output, b"limit sent 268435456\n", Status::Limit),
    }
}

/// Replays a workload, and says how that ended.
fn summarized<O: Sink>(alloc: Global, workload: Workload, output: &mut O) -> Status
    requires few { workload.count ≤ 100000 }
    ensures writes { Writes O.Sink
        (IsAnswer workload.count workload.seed) result output.old output.new }
    ensures statuses { IsOfWorkload result }
{
    match replayed(alloc, workload, output) {
        Ok(()) => Status::Done,
        Err(stop) => stopped(output, stop),
    }
}

/// Replays the schedule of a workload of at most 100,000 events, and writes the summary of the run: how its requests ended, how
/// many layout versions were applied, the lines of the nodes, the line of the check of all reads, and the numbers of events,
/// requests and messages. At each moment of that run, within drains too, what is promised of the store holds.
pub fn run_workload<O: Sink>(alloc: Global, workload: Workload, output: &mut O) -> Status
    requires few { workload.count ≤ 100000 }
    ensures { Summarizes O.Sink workload.count workload.seed result output.old output.new }
{
    promises_are_kept();
    some_workload_is_stated();
    summarized(alloc, workload, output)
}
