//! The program as one call.
ghost use Rattle.std.specs.Prelude.{◌≡◌, ◌⊎◌, ◌+◌, [], drop, map, Some, None, Err, IfOk, OnOk, IfErr, IfSome};
ghost use Rattle.std.specs.Io.KnownBytes.{IsAtEnd};
ghost use Rattle.crdt_core.specs.Outcomes.{OnlyWant};
ghost use Rattle.lab_outside.specs.Rose.{Rose};
ghost use Rattle.lab_outside.specs.Bytes.{Wrote};
ghost use Rattle.serve_model.specs.Talk.{Grammar};
ghost use Rattle.serve_run.specs.Stop.{status_of, said_of, IsOfServing, IsOfReading, IsTooLong, IsTold};
ghost use Rattle.lab_main.specs.Ends.{Ends};
ghost use Rattle.lab_main.specs.Limits.{input_limit};
ghost use Rattle.lab_main.specs.Edges.{IsAfterReading, Answers};
ghost use Rattle.serve_run.specs.Command.{Serves};
ghost use Rattle.serve_run.specs.Plan.{IsPlan};
ghost use Rattle.serve_run.specs.Told.{told};
ghost use Rattle.serve_run.specs.Answer.{HowServed, IsEnd, EndsSo, IsStated, IsSilent, AnswersPrefix, WantsMemory};

use crate::plan::{Plan, read_plan};
use crate::start::installed;
use crate::stop::Stop;
use crate::tail::tail_text;
use change_deeds::nodes_of;
use crdt_core::{Bytes, List, Memory, Value};
use get_laws::{a_get_of_a_cluster_gives_all_of_it, states_know_their_requests};
use lab_main::ends;
use lab_outside::{Clock, Link, Sink, Source, Status};
use layout_roles::{Assignment, smaller_sizes};
use plain_changes::{
    a_first_layout_stands_with_the_empty_map, computed_changes_may_come,
    connections_are_served_through_changes, members_of_both_are_all,
};
use serve_cluster::{Change, Changing, Cluster};
use serve_loop::serve;
use serve_model::Served;
use signed_laws::{only_signed_requests_are_carried_out, what_is_admitted_is_allowed};
use std::alloc::Global;
use store_anchors::promises_are_kept;

/// A port of this machine, and how many connections are served there.
#[derive(Clone, Copy, Debug, PartialEq, Eq)]
pub struct Server {
    pub port: u16,
    pub count: u32,
}

/// The sets of the changes' layouts, in order.
fn sets_of(alloc: Global, changes: &[Change]) -> Result<List<Assignment>, Memory>
    ensures sets { IfOk result (λ sets. sets ≡ map (λ change. change.shown.certified.sets) changes.now) }
    ensures want { OnlyWant result }
{
    let mut sets = List::new(alloc);
    for change in changes {
        sets.push(change.shown.certified.sets.copy()?)?;
    }
    Ok(sets)
}

/// Serves the connections that are asked for, and gives what is written then.
fn served<L: Link, C: Clock>(
    alloc: Global,
    plan: Plan,
    server: Server,
    link: &mut L,
    clock: &mut C,
) -> Result<Bytes, Stop>
    requires plan { IsPlan plan }
    requires absent { L.present link.old ≡ None }
    ensures how { (g : Grammar) → HowServed g plan server.count (told (C.times clock.old) (C.times clock.new) (L.coming link.old) (L.coming link.new) (L.past link.old) (L.past link.new)) result }
    ensures causes { IfErr result IsOfServing }
    ensures fault { result ≡ Err Stop.Link → Rose (L.faults link.old) (L.faults link.new) }
    ensures told { (result ≡ Err Stop.Link) ⊎ (L.faults link.new ≡ L.faults link.old) }
    ensures absent { L.present link.new ≡ None }
    ensures opened { OnOk result (L.open_at link.new ≡ Some server.port) }
{
    promises_are_kept();
    a_first_layout_stands_with_the_empty_map();
    computed_changes_may_come();
    members_of_both_are_all();
    connections_are_served_through_changes();
    states_know_their_requests();
    a_get_of_a_cluster_gives_all_of_it();
    let members = nodes_of(alloc, plan.config.roles.list.as_slice())?;
    let mut later = sets_of(alloc, plan.changes.as_slice())?;
    let world = installed(alloc, &plan)?;
    let inner = Cluster::new(world, members);
    let mut cluster = Changing::new(inner, plan.changes);
    let mut counts = Served { kept: 0, time: 0 };
    let count = serve(
        alloc,
        &mut cluster,
        server.port,
        server.count,
        link,
        clock,
        &mut counts,
        &plan.buckets,
    )?;
    let left = cluster.left();
    let made = later.len().saturating_sub(left);
    later.truncate(made);
    let text = tail_text(
        alloc,
        &plan.certified.sets,
        later.as_slice(),
        cluster.world(),
        count,
    )?;
    Ok(text)
}

/// Reads the cluster that the input says, serves the connections that are asked for, and gives what is written then.
fn read_and_served<I: Source, L: Link, C: Clock>(
    alloc: Global,
    server: Server,
    input: &mut I,
    link: &mut L,
    clock: &mut C,
) -> Result<Bytes, Stop>
    requires absent { L.present link.old ≡ None }
    ensures ends { (g : Grammar) → EndsSo g server.count (I.left input.old) (told (C.times clock.old) (C.times clock.new) (L.coming link.old) (L.coming link.new) (L.past link.old) (L.past link.new)) result }
    ensures end { OnOk result (IsAtEnd (I.left input.new)) }
    ensures read { IfErr result IsTold → IfSome (I.left input.old) (λ bytes. I.left input.new ≡ Some (drop (input_limit + 1) bytes)) }
    ensures wants { (g : Grammar) → result ≡ Err Stop.Memory → WantsMemory g (I.left input.old) (told (C.times clock.old) (C.times clock.new) (L.coming link.old) (L.coming link.new) (L.past link.old) (L.past link.new)) }
    ensures untouched { IfErr result (λ stop. IsOfReading stop → (link.new ≡ link.old) × (clock.new ≡ clock.old)) }
    ensures unopened { IsTooLong (I.left input.old) → (link.new ≡ link.old) × (clock.new ≡ clock.old) }
    ensures read_fault { result ≡ Err Stop.Read → Rose (I.faults input.old) (I.faults input.new) }
    ensures read_told { (result ≡ Err Stop.Read) ⊎ (I.faults input.new ≡ I.faults input.old) }
    ensures link_fault { result ≡ Err Stop.Link → Rose (L.faults link.old) (L.faults link.new) }
    ensures link_told { (result ≡ Err Stop.Link) ⊎ (L.faults link.new ≡ L.faults link.old) }
    ensures absent { L.present link.new ≡ None }
    ensures opened { OnOk result (L.open_at link.new ≡ Some server.port) }
{
    let plan = read_plan(alloc, input)?;
    let text = served(alloc, plan, server, link, clock)?;
    Ok(text)
}

/// Says why nothing was served to the end, where that is said in the output.
fn stopped<O: Sink>(output: &mut O, stop: &Stop) -> Status
    ensures told { result ≡ Status.WriteFault → IsTold stop.now }
    ensures read { stop.now ≡ Stop.Read → result ≡ Status.ReadFault }
    ensures link { stop.now ≡ Stop.Link → result ≡ Status.LinkFault }
    ensures unwritten { result ≡ Status.ReadFault → output.new ≡ output.old }
    ensures write_told { (result ≡ Status.WriteFault) ⊎ (O.faults output.new ≡ O.faults output.old) }
    ensures ends { Ends (status_of stop.now) (said_of stop.now) result (O.written output.old) (O.written output.new) (O.faults output.old) (O.faults output.new) }
{
    match stop {
        Stop::Read => Status::ReadFault,
        Stop::Link => Status::LinkFault,
        Stop::Memory => Status::Memory,
        Stop::LongInput => ends(output, b"limit input 8388608\n", Status::Limit),
        Stop::Refused(line) => ends(output, line.as_slice(), Status::Refused),
        Stop::Kept => ends(output, b"limit kept 536870912\n", Status::Limit),
        Stop::Number => ends(output, b"limit number\n", Status::Limit),
    }
}

/// Reads, serves and writes, and answers the status.
fn serve_and_tell<I: Source, O: Sink, L: Link, C: Clock>(
    alloc: Global,
    server: Server,
    input: &mut I,
    output: &mut O,
    link: &mut L,
    clock: &mut C,
) -> Status
    requires absent { L.present link.old ≡ None }
    ensures answers { (g : Grammar) → IsStated result → Answers (IsEnd g server.count (I.left input.old) (told (C.times clock.old) (C.times clock.new) (L.coming link.old) (L.coming link.new) (L.past link.old) (L.past link.new))) result (O.written output.old) (O.written output.new) }
    ensures prefix { (g : Grammar) → result ≡ Status.WriteFault → AnswersPrefix (IsEnd g server.count (I.left input.old) (told (C.times clock.old) (C.times clock.new) (L.coming link.old) (L.coming link.new) (L.past link.old) (L.past link.new))) (O.written output.old) (O.written output.new) }
    ensures silent { IsSilent result → Wrote (O.written output.old) (O.written output.new) [] }
    ensures wants { (g : Grammar) → result ≡ Status.Memory → WantsMemory g (I.left input.old) (told (C.times clock.old) (C.times clock.new) (L.coming link.old) (L.coming link.new) (L.past link.old) (L.past link.new)) }
    ensures end { result ≡ Status.Done → IsAtEnd (I.left input.new) }
    ensures read { IsAfterReading result → IfSome (I.left input.old) (λ bytes. I.left input.new ≡ Some (drop (input_limit + 1) bytes)) }
    ensures untouched { (result ≡ Status.Refused) ⊎ (result ≡ Status.ReadFault) → (link.new ≡ link.old) × (clock.new ≡ clock.old) }
    ensures unopened { IsTooLong (I.left input.old) → (link.new ≡ link.old) × (clock.new ≡ clock.old) }
    ensures no_usage { result ≡ Status.Usage → ⊥ }
    ensures unwritten { result ≡ Status.ReadFault → output.new ≡ output.old }
    ensures read_fault { result ≡ Status.ReadFault → Rose (I.faults input.old) (I.faults input.new) }
    ensures write_fault { result ≡ Status.WriteFault → Rose (O.faults output.old) (O.faults output.new) }
    ensures read_told { (result ≡ Status.ReadFault) ⊎ (I.faults input.new ≡ I.faults input.old) }
    ensures write_told { (result ≡ Status.WriteFault) ⊎ (O.faults output.new ≡ O.faults output.old) }
    ensures link_fault { result ≡ Status.LinkFault → Rose (L.faults link.old) (L.faults link.new) }
    ensures link_told { (result ≡ Status.LinkFault) ⊎ (L.faults link.new ≡ L.faults link.old) }
    ensures absent { L.present link.new ≡ None }
    ensures opened { result ≡ Status.Done → L.open_at link.new ≡ Some server.port }
{
    match read_and_served(alloc, server, input, link, clock) {
        Ok(text) => ends(output, text.as_slice(), Status::Done),
        Err(stop) => stopped(output, &stop),
    }
}

/// Serves S3 over the cluster that the input says, to so many connections of a port.
///
/// After Done so many connections were served, no more than are asked for, and fewer only where no more come, by a server of
/// the plan that the input says. Its acts are lawful and fit, from nothing on: buckets, size of blocks and the first layout,
/// and then the acts of each request, and those of each layout change between two of them. At each moment of them, within
/// drains too, what lines of reads tell of a version's bytes is as was written, and replicas that accepted the same rows are
/// equal; and answered reads are fresh, also by the records alone, where no digests of walks clash (a server begins no repair,
/// and rounds in layout changes alone).
/// What was written is the text of the state after these acts; and where clock and link tell, what was written to each
/// connection is what is stated of its bytes, from what the connections before it left, or a first part of that where its count
/// of faults rose, and they led to this very state. And each text is the one that a server writes which is one map from names
/// to objects, with no cluster, or a first part of that where its count of faults rose; and the next connections are served
/// from the map as the requests that were carried out have left it; where neither two names of buckets nor two of the blocks
/// that they put have one digest, and neither two strings that layout changes hash for walks.
///
/// After LinkFault, and where too many bytes were put or copied or a number had no room, serving up to there is stated as after
/// Done, and of the last connection, with which serving ended, that its text is that of the map too, or a first part. After
/// Memory no connection was served, or they were served as after Done, or all but the last one, with which serving ended: what
/// was written to it is a first part of what is stated of its bytes, and of the map's text. However it ends, no connection is
/// present then.
///
/// Where keys are configured, nothing is carried out, and nothing is answered but by a refusal, that no key signed which may
/// ask it.
pub fn run_server<I: Source, O: Sink, L: Link, C: Clock>(
    alloc: Global,
    server: Server,
    input: &mut I,
    output: &mut O,
    link: &mut L,
    clock: &mut C,
) -> Status
    requires absent { L.present link.old ≡ None }
    ensures serves { (g : Grammar) → Serves I.Source O.Sink L.Link C.Clock g server.port server.count result input.old input.new output.old output.new
        link.old link.new clock.old clock.new }
    ensures no_usage { result ≡ Status.Usage → ⊥ }
{
    smaller_sizes();
    only_signed_requests_are_carried_out();
    what_is_admitted_is_allowed();
    serve_and_tell(alloc, server, input, output, link, clock)
}
