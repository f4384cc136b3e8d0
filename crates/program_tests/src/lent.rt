//! One request on a world that its owner lends to the server.
ghost use Rattle.std.specs.Prelude.{◌≡◌, None, IfOk, OnOk};
ghost use Rattle.s3_world.specs.Stands.{HasStore, IsMeantEvent};
ghost use Rattle.serve_model.specs.Serving.{HasState};
ghost use Rattle.serve_cluster.specs.Standing.{StandsFor};

use crdt_core::{Bytes, List, Memory};
use flow_model::{FlowEnd, Order};
use http_wire::Kept;
use lab_outside::{Link, MemClock};
use layout_text::Access;
use s3_world::{Event, S3World};
use serve_cluster::Cluster;
use serve_lent::serve_lent_request;
use serve_loop::Storage;
use serve_model::{Buckets, Served};
use std::alloc::Global;
use std::test::Fail;
use test_links::recorded;

const REQUEST: &[u8] = b"GET /pics/a.txt HTTP/1.1\r\nHost: localhost:3900\r\n\r\n";

/// It is asked a second after the object was put.
const ANSWER: &[u8] = b"\
    HTTP/1.1 200 OK\r\n\
    Date: Tue, 14 Nov 2023 22:13:21 GMT\r\n\
    Content-Length: 3\r\n\
    ETag: \"900150983cd24fb0d6963f7d28e17f72\"\r\n\
    Last-Modified: Tue, 14 Nov 2023 22:13:20 GMT\r\n\
    Content-Type: text/plain\r\n\
    Accept-Ranges: bytes\r\n\r\n\
    abc";

/// An event on a world.
fn stepped(world: &mut S3World, event: &Event) -> Result<(), Memory>
    requires stands { HasStore world.old }
    requires meant { IsMeantEvent event.now }
    ensures stands { OnOk result (HasStore world.new) }
{
    let _ = world.step(event)?;
    Ok(())
}

/// The three nodes get their first layout.
fn start(world: &mut S3World) -> Result<(), Memory>
    requires stands { HasStore world.old }
    ensures stands { OnOk result (HasStore world.new) }
{
    stepped(world, &Event::Trio)
}

/// The bucket is made.
fn make_bucket(alloc: Global, world: &mut S3World) -> Result<(), Memory>
    requires stands { HasStore world.old }
    ensures stands { OnOk result (HasStore world.new) }
{
    let bucket = Event::Bucket(Bytes::from_slice(alloc, b"pics")?);
    stepped(world, &bucket)
}

/// The world of three nodes with their first layout, and one bucket.
fn world_of_three(alloc: Global) -> Result<S3World, Memory>
    ensures stands { IfOk result HasStore }
{
    let mut world = S3World::new(alloc)?;
    start(&mut world)?;
    make_bucket(alloc, &mut world)?;
    Ok(world)
}

/// The numbers of the three nodes.
fn three_members(alloc: Global) -> Result<List<u8>, Memory> {
    let mut members = List::new(alloc);
    members.push(1)?;
    members.push(2)?;
    members.push(3)?;
    Ok(members)
}

/// Three nodes with their first layout, and one bucket.
fn three_nodes(alloc: Global) -> Result<Cluster, Memory>
    ensures state { IfOk result (λ cluster. HasState (StandsFor cluster)) }
{
    let members = three_members(alloc)?;
    let world = world_of_three(alloc)?;
    Ok(Cluster::new(world, members))
}

/// Puts three bytes with the header that S3 stores with them, and says whether they were stored.
fn put(alloc: Global, cluster: &mut Cluster) -> Result<bool, Memory>
    requires state { HasState (StandsFor cluster.old) }
    ensures state { OnOk result (HasState (StandsFor cluster.new)) }
{
    let mut headers = List::new(alloc);
    let name = Bytes::from_slice(alloc, b"content-type")?;
    headers.push((name, Bytes::from_slice(alloc, b"text/plain")?))?;
    let order = Order::Put {
        bucket: Bytes::from_slice(alloc, b"pics")?,
        key: Bytes::from_slice(alloc, b"a.txt")?,
        body: Bytes::from_slice(alloc, b"abc")?,
        headers,
    };
    let end = cluster.carry(1_700_000_000_000, order)?;
    Ok(matches!(end, Some(FlowEnd::Stored { .. })))
}

/// The one bucket, for which nobody need sign.
fn one_bucket(alloc: Global) -> Result<Buckets, Memory> {
    let mut names = List::new(alloc);
    names.push(Bytes::from_slice(alloc, b"pics")?)?;
    let access = Access {
        region: Bytes::from_slice(alloc, b"garage")?,
        keys: List::new(alloc),
    };
    Ok(Buckets { names, access })
}

/// Serves the first request of the next connection, and says whether that goes on.
fn goes_on<L: Link>(alloc: Global, cluster: &mut Cluster, link: &mut L) -> Result<bool, Memory>
    requires state { HasState (StandsFor cluster.old) }
{
    if link.next() != Ok(true) {
        return Ok(false);
    }
    let buckets = one_bucket(alloc)?;
    let mut clock = MemClock::new([1_700_000_001_000].to_vec(alloc)?);
    let mut kept = Kept::new(alloc);
    let mut served = Served { kept: 0, time: 0 };
    let end = serve_lent_request(
        alloc,
        cluster,
        false,
        link,
        &mut kept,
        &mut clock,
        &mut served,
        &buckets,
    );
    Ok(end == Ok(true))
}

/// Puts the object and lends the world for one request over the connection: whether the object was stored, whether the
/// connection goes on, and how many requests the world that came back had.
fn put_and_lend<L: Link>(alloc: Global, link: &mut L) -> Result<(bool, bool, u64), Memory> {
    let mut cluster = three_nodes(alloc)?;
    let stored = put(alloc, &mut cluster)?;
    let goes_on = goes_on(alloc, &mut cluster, link)?;
    Ok((stored, goes_on, cluster.world().requests()))
}

/// The owner of a world puts an object, lends the world for one request over a connection, and has it again.
#[test]
fn lent_world_get(rt: HostRuntime) -> Result<(), Fail> {
    let mut link = recorded(rt.alloc(), REQUEST, 1024)?;
    assert_eq!(rt; put_and_lend(rt.alloc(), &mut link)?, (true, true, 2));
    assert_eq!(rt; link.written(), ANSWER);
    Ok(())
}
