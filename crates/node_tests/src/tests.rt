//! Each call of a node that takes memory, with ample memory: a put and a get over three nodes, a layout change with
//! its round, what a restart leaves, and a block with its reference. The messages are passed on by hand.
ghost use Rattle.std.specs.Prelude.{◌≡◌, IsTrue, IfOk, option_map};
ghost use Rattle.std.specs.List.{AllByRecursion};
ghost use Rattle.blake2_hash.specs.Blake2b.{blake2b};
ghost use Rattle.layout_roles.specs.Zones.{set_ascends};
ghost use Rattle.cluster_machine.specs.Blocks.{IsBeside, IsRowWithBlock, NeedsNone, PacketCarriesBlocks};
ghost use Rattle.cluster_machine.specs.Keeping.{IsShort};
ghost use Rattle.object_schema.specs.Schema.{words};
ghost use Rattle.node_parts.specs.Posts.{told};

use blake2_hash::{Hash32, blake2b_256};
use block_bytes::Block;
use cluster_machine::{Action, LocalEnd};
use crdt_core::{Bool, Bytes, List, Memory};
use crdt_rows::{AnyRow, Body, ObjectRow, RefRow, State, Version};
use layout_roles::{Assignment, Kind, Layout, Role, Roles, Zone};
use node_core::{BeginFault, Envelope, Node, Packet};
use object_schema::S3Schema;
use shared_value::Shared;
use std::alloc::Global;
use std::test::Fail;
use table_schema::{RowFault, Schema};
use wire_messages::{Message, Phase, PhaseEnd};

const BUCKET: Hash32 = Hash32([0x22; 32]);

const BLOCK: &[u8] = b"a block";

type Post = Vec<Envelope<AnyRow>>;

fn everywhere(alloc: Global, set: [u8; 3]) -> Result<Assignment, Memory>
    requires { IsTrue (set_ascends set) }
{
    let mut sets = List::new(alloc);
    for _i in 0..256u16 {
        sets.push(set)?;
    }
    Ok(Assignment { sets })
}

// Version 1 has the storage nodes 1, 2, 3, and version 2 the nodes 2, 3, 4.
fn layout(alloc: Global, version: u32) -> Result<Layout, Fail> {
    let (nodes, sets) = match version {
        1 => ([1, 2, 3], everywhere(alloc, [1, 2, 3])?),
        _ => ([2, 3, 4], everywhere(alloc, [2, 3, 4])?),
    };
    let mut list = List::new(alloc);
    for node in nodes {
        let zone = Zone(Bytes::from_slice(alloc, b"z")?);
        list.push(Role {
            node,
            zone,
            kind: Kind::Storage(1000),
        })?;
    }
    Ok(Layout {
        version,
        roles: Roles::from_list(list).ok_or("not in order")?,
        r: 1,
        size: 1,
        sets,
    })
}

fn append(alloc: Global, node: &mut Node<S3Schema>, version: u32) -> Result<(), Fail> {
    let layout = layout(alloc, version)?;
    if layout.roles.list.is_empty() || layout.version.checked_sub(1) != Some(node.view().newest()) {
        return Err("not the next version".into());
    }
    node.append(layout)?;
    Ok(())
}

fn node(alloc: Global, id: u8) -> Result<Node<S3Schema>, Fail> {
    let mut node = Node::new(alloc, id)?;
    append(alloc, &mut node, 1)?;
    Ok(node)
}

fn marker(alloc: Global, ts: u64) -> Result<AnyRow, Memory> {
    let state = State::Complete(Body::Marker);
    if !state.is_sized() {
        return Err(Memory::Full);
    }
    let key = Bytes::from_slice(alloc, b"a")?;
    let row = ObjectRow::single(alloc, BUCKET, key, Version { ts, id: ts }, state)?;
    AnyRow::object(alloc, row)
}

// The reference of one version to the block.
fn reference(is_deleted: bool) -> AnyRow {
    AnyRow::Ref(RefRow {
        hash: blake2b_256(BLOCK),
        id: 5,
        deleted: Bool(is_deleted),
    })
}

fn store(alloc: Global, row: AnyRow, block: Option<Block>) -> Result<Phase<AnyRow>, Memory>
    ensures short { IfOk result IsShort }
{
    let mut rows = List::new(alloc);
    rows.push((row, block))?;
    Ok(Phase::Store { rows })
}

fn read(alloc: Global) -> Result<Phase<AnyRow>, Memory>
    ensures short { IfOk result IsShort }
{
    let mut key = Bytes::from_slice(alloc, &BUCKET.0)?;
    key.extend_from_slice(b"a")?;
    Ok(Phase::Read {
        table: 1,
        position: BUCKET,
        key,
    })
}

fn scan(alloc: Global) -> Phase<AnyRow>
    ensures short { IsShort result }
{
    Phase::Range {
        position: BUCKET,
        prefix: Bytes::new(alloc),
        after: Bytes::new(alloc),
    }
}

// The block is the one that is needed, or none is there where none is needed.
fn is_beside(needed: &Option<Hash32>, given: &Option<Block>) -> bool
    ensures { IsTrue result →
        IsBeside (blake2b 32) (option_map (λ hash. hash.0) needed.now) given.now }
{
    match (needed, given) {
        (None, None) => true,
        (Some(hash), Some(block)) => *block.hash() == *hash,
        _ => false,
    }
}

fn comes_with_block(alloc: Global, stored: &(Bytes, Option<Block>)) -> Result<bool, Memory>
    ensures { IfOk result (λ is. IsTrue is → IsRowWithBlock (blake2b 32) words stored.now) }
{
    match S3Schema::row_from(alloc, stored.0.as_slice()) {
        Ok(row) => Ok(is_beside(&S3Schema::live_block(&row), &stored.1)),
        Err(RowFault::NotARow) => Ok(true),
        Err(RowFault::Memory) => Err(Memory::Want),
    }
}

fn come_with_blocks(alloc: Global, rows: &[(Bytes, Option<Block>)]) -> Result<bool, Memory>
    ensures { IfOk result (λ are. IsTrue are →
        AllByRecursion (IsRowWithBlock (blake2b 32) words) rows.now) }
{
    for stored in rows {
        if !comes_with_block(alloc, stored)? {
            return Ok(false);
        }
    }
    Ok(true)
}

// The row needs no block, if it is one.
fn needs_none(alloc: Global, row: &Bytes) -> Result<bool, Memory>
    ensures { IfOk result (λ is. IsTrue is → NeedsNone (blake2b 32) words row.now) }
{
    match S3Schema::row_from(alloc, row.as_slice()) {
        Ok(row) => Ok(S3Schema::live_block(&row).is_none()),
        Err(RowFault::NotARow) => Ok(true),
        Err(RowFault::Memory) => Err(Memory::Want),
    }
}

fn carries_blocks(alloc: Global, packet: &Packet<AnyRow>) -> Result<bool, Memory>
    ensures { IfOk result (λ is. IsTrue is →
        PacketCarriesBlocks (blake2b 32) words (told packet.now)) }
{
    match packet {
        Packet::Msg(message) => match message.get() {
            Message::Store { rows, .. } => come_with_blocks(alloc, rows.as_slice()),
            Message::Tomb { row, .. } => needs_none(alloc, row),
            _ => Ok(true),
        },
        Packet::View(_) => Ok(true),
    }
}

// Nodes 1 to 4.
#[derive(Drop)]
struct Cluster {
    first: Node<S3Schema>,
    second: Node<S3Schema>,
    third: Node<S3Schema>,
    fourth: Node<S3Schema>,
    alloc: Global,
}

// The node acts when its clock says `now`.
fn act_at(
    node: &mut Node<S3Schema>,
    action: Action,
    now: u64,
    out: &mut Post,
) -> Result<LocalEnd, Fail> {
    if node.view().newest() < 1 {
        return Err("no version".into());
    }
    Ok(node.local(action, now, out)?)
}

fn act(node: &mut Node<S3Schema>, action: Action, out: &mut Post) -> Result<LocalEnd, Fail> {
    act_at(node, action, 0, out)
}

// The node works when its clock says `now`.
fn work(alloc: Global, node: &mut Node<S3Schema>, now: u64) -> Result<LocalEnd, Fail> {
    let mut out = Vec::new(alloc);
    act_at(node, Action::Work, now, &mut out)
}

// The node's view, on its way to node `to`.
fn shown(
    alloc: Global,
    node: &Node<S3Schema>,
    from: u8,
    to: u8,
) -> Result<Envelope<AnyRow>, Memory> {
    Ok(Envelope {
        from,
        to,
        packet: Packet::View(Shared::new(alloc, node.view().copy()?)?),
    })
}

impl Cluster {
    fn new(alloc: Global) -> Result<Cluster, Fail> {
        Ok(Cluster {
            first: node(alloc, 1)?,
            second: node(alloc, 2)?,
            third: node(alloc, 3)?,
            fourth: node(alloc, 4)?,
            alloc,
        })
    }

    // Gives each packet to its receiver, and the answers too, ten times; how the last phase that ended did.
    fn deliver(&mut self, out: Post) -> Result<Option<PhaseEnd<AnyRow>>, Fail> {
        let mut ended = None;
        let mut waiting = out;
        for _round in 0..10 {
            let mut answers = Vec::new(self.alloc);
            for envelope in &waiting {
                if !carries_blocks(self.alloc, &envelope.packet)? {
                    return Err("without its block".into());
                }
                let (from, packet) = (envelope.from, &envelope.packet);
                let end = match envelope.to {
                    1 => self.first.on_packet(from, packet, 0, &mut answers)?,
                    2 => self.second.on_packet(from, packet, 0, &mut answers)?,
                    3 => self.third.on_packet(from, packet, 0, &mut answers)?,
                    _ => self.fourth.on_packet(from, packet, 0, &mut answers)?,
                };
                if let Some((_, end)) = end {
                    ended = Some(end);
                }
            }
            waiting = answers;
        }
        Ok(ended)
    }

    // Each node acts, and shows its view to each other one.
    fn act_all(&mut self, action: Action) -> Result<(), Fail> {
        let mut out = Vec::new(self.alloc);
        let _ = act(&mut self.first, action, &mut out)?;
        let _ = act(&mut self.second, action, &mut out)?;
        let _ = act(&mut self.third, action, &mut out)?;
        let _ = act(&mut self.fourth, action, &mut out)?;
        let _ = self.deliver(out)?;
        let mut views = Vec::new(self.alloc);
        for to in 1..=4 {
            views.push(shown(self.alloc, &self.first, 1, to)?)?;
            views.push(shown(self.alloc, &self.second, 2, to)?)?;
            views.push(shown(self.alloc, &self.third, 3, to)?)?;
            views.push(shown(self.alloc, &self.fourth, 4, to)?)?;
        }
        let _ = self.deliver(views)?;
        Ok(())
    }

    // Node 1 stores the marker.
    fn put(&mut self) -> Result<(), Fail> {
        let marker = marker(self.alloc, 5)?;
        self.store(marker, None)
    }

    // Node 1 stores the reference with its block.
    fn put_block(&mut self) -> Result<(), Fail> {
        let block = Block::new(self.alloc, Bytes::from_slice(self.alloc, BLOCK)?)?;
        self.store(reference(false), Some(block))
    }

    // Node 1 stores a row.
    fn store(&mut self, row: AnyRow, block: Option<Block>) -> Result<(), Fail> {
        let mut out = Vec::new(self.alloc);
        if self.first.open(1).is_err() {
            return Err("not open".into());
        }
        let phase = store(self.alloc, row, block)?;
        self.first.phase(1, phase, &mut out)?;
        match self.deliver(out)? {
            Some(PhaseEnd::Kept) => {
                self.first.close(1);
                Ok(())
            }
            _ => Err("not kept".into()),
        }
    }
}

#[test]
fn a_marker_is_stored_read_and_listed(rt: HostRuntime) -> Result<(), Fail> {
    let alloc = rt.alloc();
    let mut cluster = Cluster::new(alloc)?;
    cluster.put()?;
    assert!(rt; cluster.second.open(2).is_ok());
    let mut out = Vec::new(alloc);
    cluster.second.phase(2, read(alloc)?, &mut out)?;
    assert_eq!(rt; out.len(), 3);
    let Some(PhaseEnd::Row(Some(AnyRow::Object(row)))) = cluster.deliver(out)? else {
        return Err("no row".into());
    };
    assert_eq!(rt; row.get().greatest_ts(), 5);
    let mut out = Vec::new(alloc);
    cluster.second.phase(2, scan(alloc), &mut out)?;
    let Some(PhaseEnd::Window { rows, end }) = cluster.deliver(out)? else {
        return Err("no window".into());
    };
    assert_eq!(rt; rows.len(), 1);
    assert!(rt; end.is_none());
    assert!(rt; cluster.fourth.open(3) == Err(BeginFault::NotMember));
    Ok(())
}

#[test]
fn rows_move_to_the_nodes_of_the_next_version(rt: HostRuntime) -> Result<(), Fail> {
    let alloc = rt.alloc();
    let mut cluster = Cluster::new(alloc)?;
    cluster.put()?;
    cluster.put_block()?;
    append(alloc, &mut cluster.first, 2)?;
    append(alloc, &mut cluster.second, 2)?;
    append(alloc, &mut cluster.third, 2)?;
    append(alloc, &mut cluster.fourth, 2)?;
    cluster.act_all(Action::Ack)?;
    assert_eq!(rt; cluster.second.view().ack_least(), 2);
    assert_eq!(rt; cluster.fourth.table().len(), 0);
    cluster.act_all(Action::Sync)?;
    assert_eq!(rt; cluster.fourth.table().len(), 2);
    assert_eq!(rt; cluster.fourth.block_count(), 1);
    assert_eq!(rt; cluster.fourth.view().read_version(), 2);
    cluster.act_all(Action::SyncAck)?;
    assert_eq!(rt; cluster.first.table().len(), 2);
    cluster.act_all(Action::Clean)?;
    assert_eq!(rt; cluster.fourth.view().oldest(), 2);
    assert_eq!(rt; cluster.first.table().len(), 0);
    assert_eq!(rt;
        work(alloc, &mut cluster.first, 600_000)?,
        LocalEnd::Worked { rows: 0, blocks: 1 }
    );
    let mut out = Vec::new(alloc);
    let idle = act(&mut cluster.second, Action::Sync, &mut out)?;
    assert_eq!(rt;
        idle,
        LocalEnd::Idle {
            read: 2,
            ack_least: 2
        }
    );
    Ok(())
}

#[test]
fn a_block_is_kept_and_read_while_its_reference_is_live(rt: HostRuntime) -> Result<(), Fail> {
    let alloc = rt.alloc();
    let mut cluster = Cluster::new(alloc)?;
    cluster.put_block()?;
    assert_eq!(rt; cluster.second.block_count(), 1);
    assert!(rt; cluster.second.open(2).is_ok());
    let mut out = Vec::new(alloc);
    let hash = blake2b_256(BLOCK);
    cluster.second.phase(2, Phase::Block { hash }, &mut out)?;
    let Some(PhaseEnd::Block(block)) = cluster.deliver(out)? else {
        return Err("no block".into());
    };
    assert_eq!(rt; block.as_slice(), BLOCK);
    let mut out = Vec::new(alloc);
    cluster
        .second
        .phase(2, Phase::Block { hash: BUCKET }, &mut out)?;
    assert!(rt; cluster.deliver(out)?.is_none());
    cluster.store(reference(true), None)?;
    assert_eq!(rt;
        work(alloc, &mut cluster.second, 599_999)?,
        LocalEnd::Worked { rows: 0, blocks: 0 }
    );
    assert_eq!(rt;
        work(alloc, &mut cluster.second, 600_000)?,
        LocalEnd::Worked { rows: 0, blocks: 1 }
    );
    assert_eq!(rt; cluster.second.block_count(), 0);
    Ok(())
}

#[test]
fn a_restart_loses_requests_and_a_repair_pushes_rows(rt: HostRuntime) -> Result<(), Fail> {
    let alloc = rt.alloc();
    let mut cluster = Cluster::new(alloc)?;
    cluster.put()?;
    assert!(rt; cluster.first.open(4).is_ok());
    assert!(rt; cluster.first.open(7).is_ok());
    let mut out = Vec::new(alloc);
    cluster.first.phase(7, read(alloc)?, &mut out)?;
    assert_eq!(rt; cluster.first.restart()?.as_slice(), [4, 7].as_slice());
    assert!(rt; cluster.deliver(out)?.is_none());
    let mut out = Vec::new(alloc);
    assert_eq!(rt;
        act(&mut cluster.first, Action::Repair, &mut out)?,
        LocalEnd::Repaired
    );
    assert_eq!(rt; out.len(), 2);
    let mut out = Vec::new(alloc);
    let worked = act(&mut cluster.first, Action::Work, &mut out)?;
    assert_eq!(rt; worked, LocalEnd::Worked { rows: 0, blocks: 0 });
    Ok(())
}

// The node collects when its clock says `now`; how many collections began and are open, and how many messages it sent.
fn collect(alloc: Global, node: &mut Node<S3Schema>, now: u64) -> Result<(u64, u64, usize), Fail> {
    let mut out = Vec::new(alloc);
    match act_at(node, Action::Collect, now, &mut out)? {
        LocalEnd::Collected { begun, left } => Ok((begun, left, out.len())),
        _ => Err("not collected".into()),
    }
}

// The node takes a message from another when its clock says `now`; the delete marker of the row that it drops.
fn hear(
    alloc: Global,
    node: &mut Node<S3Schema>,
    from: u8,
    message: Message<AnyRow>,
    now: u64,
    out: &mut Post,
) -> Result<Option<(u64, u64)>, Fail> {
    let packet = Packet::Msg(Shared::new(alloc, message)?);
    if !carries_blocks(alloc, &packet)? {
        return Err("without its block".into());
    }
    let _ = node.on_packet(from, &packet, now, out)?;
    Ok(node.dropped())
}

// Nodes 2 to 16 confirm a round of collection 1 with newest version 1; the delete marker of the row that is dropped, and
// how many messages the node sends.
fn confirmed(
    alloc: Global,
    node: &mut Node<S3Schema>,
    round: u8,
    now: u64,
) -> Result<(Option<(u64, u64)>, usize), Fail> {
    let mut out = Vec::new(alloc);
    let mut dropped = None;
    for from in 2..17u8 {
        let message = Message::Tombed {
            collection: 1,
            round,
            newest: 1,
        };
        dropped = hear(alloc, node, from, message, now, &mut out)?;
    }
    Ok((dropped, out.len()))
}

// Node 1 with a tombstone of timestamp 5, as another node's collection gave it.
fn with_tomb(alloc: Global) -> Result<Node<S3Schema>, Fail> {
    let mut node = node(alloc, 1)?;
    let row = S3Schema::row_bytes(alloc, &marker(alloc, 5)?)?;
    let mut out = Vec::new(alloc);
    let message = Message::Tomb {
        collection: 7,
        round: 1,
        row,
    };
    if hear(alloc, &mut node, 2, message, 0, &mut out)?.is_some() || out.len() != 1 {
        return Err("not confirmed".into());
    }
    Ok(node)
}

#[test]
fn a_tombstone_is_collected_in_two_rounds(rt: HostRuntime) -> Result<(), Fail> {
    let alloc = rt.alloc();
    let mut node = with_tomb(alloc)?;
    assert_eq!(rt; node.table().len(), 1);
    assert_eq!(rt; collect(alloc, &mut node, 86_400_004)?, (0, 0, 0));
    assert_eq!(rt; collect(alloc, &mut node, 86_400_005)?, (1, 1, 15));
    assert_eq!(rt; collect(alloc, &mut node, 86_400_006)?, (0, 1, 15));
    assert_eq!(rt; confirmed(alloc, &mut node, 1, 86_400_007)?, (None, 0));
    assert_eq!(rt; collect(alloc, &mut node, 97_200_006)?, (0, 1, 0));
    assert_eq!(rt; collect(alloc, &mut node, 97_200_007)?, (0, 1, 15));
    assert_eq!(rt;
        confirmed(alloc, &mut node, 2, 97_200_008)?,
        (Some((5, 5)), 15)
    );
    assert_eq!(rt; node.table().len(), 0);
    assert_eq!(rt; collect(alloc, &mut node, 97_200_009)?, (0, 0, 0));
    Ok(())
}

// What a node drops that is told to forget the row with these bytes.
fn forgotten(
    alloc: Global,
    node: &mut Node<S3Schema>,
    row: &Bytes,
) -> Result<Option<(u64, u64)>, Fail> {
    let mut out = Vec::new(alloc);
    let mut key = Bytes::from_slice(alloc, &BUCKET.0)?;
    key.extend_from_slice(b"a")?;
    let message = Message::Forget {
        table: 1,
        key,
        hash: blake2b_256(row.as_slice()),
    };
    hear(alloc, node, 2, message, 0, &mut out)
}

#[test]
fn a_collected_row_is_forgotten_elsewhere(rt: HostRuntime) -> Result<(), Fail> {
    let alloc = rt.alloc();
    let mut node = with_tomb(alloc)?;
    let other = S3Schema::row_bytes(alloc, &marker(alloc, 6)?)?;
    let row = S3Schema::row_bytes(alloc, &marker(alloc, 5)?)?;
    assert_eq!(rt; forgotten(alloc, &mut node, &other)?, None);
    assert_eq!(rt; forgotten(alloc, &mut node, &row)?, Some((5, 5)));
    assert_eq!(rt; forgotten(alloc, &mut node, &row)?, None);
    Ok(())
}

#[test]
fn a_restart_loses_collections(rt: HostRuntime) -> Result<(), Fail> {
    let alloc = rt.alloc();
    let mut node = with_tomb(alloc)?;
    assert_eq!(rt; collect(alloc, &mut node, 86_400_005)?, (1, 1, 15));
    assert_eq!(rt; node.restart()?.len(), 0);
    assert_eq!(rt; collect(alloc, &mut node, 86_400_006)?, (1, 1, 15));
    Ok(())
}
