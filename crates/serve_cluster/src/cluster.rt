//! A world with its members.
ghost use Rattle.std.specs.Prelude.{◌≡◌, ℕ, OnOk, IfOk};
ghost use Rattle.crdt_core.specs.Outcomes.{WantOr};
ghost use Rattle.store_model.specs.Run.{State};
ghost use Rattle.store_model.specs.Acts.{AreLawfulActs, ActsFit, HasKey};
ghost use Rattle.serve_model.specs.Stores.{stream_of};
ghost use Rattle.serve_model.specs.Clusters.{Cluster as Modelled, asker as asker_of, wait, acts_to_ask, ActLacksRoom};
ghost use Rattle.serve_changes.specs.Changing.{Change as Model, acts_in, changed};
ghost use Rattle.s3_world.specs.Stands.{IsStore};

use crate::acts::{drain_all, feed, finish, keep, leave, tick};
use crate::change::{Change, make};
use crate::getting::{Getting, begun, go_on};
use crdt_core::{Bytes, List, Memory};
use flow_model::{FlowEnd, Order};
use s3_world::S3World;
use serve_loop::{Got, Storage};
use serve_model::Upload;

/// A world, the members of its layout in order, and to which time it was brought, in milliseconds since 1970.
#[derive(Drop)]
pub struct Cluster {
    world: S3World,
    members: List<u8>,
    ticked: u64,
    /// The get that is on its way. None where it was refused, or none is.
    getting: Option<Getting>,
    /// The upload that is on its way, by the number of its request. None where it was refused, or none is.
    uploading: Option<u64>,
}

/// The first of the members.
pub(crate) fn asker(members: &[u8]) -> u8
    ensures { result ≡ asker_of members.now }
{
    match members.first() {
        Some(member) => *member,
        None => 0,
    }
}

// The order of an upload.
fn order_of(upload: Upload) -> Order
    ensures { result ≡ stream_of upload }
{
    let Upload {
        bucket,
        key,
        length,
        headers,
    } = upload;
    Order::Stream {
        bucket,
        key,
        length,
        headers,
    }
}

impl Cluster {
    ghost use Rattle.serve_model.specs.Serving.{HasState};
    ghost use Rattle.serve_cluster.specs.Giving.{HasAsked};
    ghost use Rattle.serve_cluster.specs.Standing.{StandsFor};
    ghost use Rattle.serve_cluster.specs.Changes.{IsComputed, AreWithin, IsChange};

    /// A world whose time is 0, with the members of its one layout version, in order.
    pub fn new(world: S3World, members: List<u8>) -> Cluster
        ensures { (s : State) → IsStore world s → StandsFor result (record { run = s; ticked = 0; members = members }) }
    {
        Cluster {
            world,
            members,
            ticked: 0,
            getting: None,
            uploading: None,
        }
    }

    /// The world, as it is now.
    pub fn world(&self) -> &S3World
        ensures { (c : Modelled) → StandsFor self.now c → IsStore result.now c.run }
    {
        &self.world
    }

    // Asks for something at a time, and gives the number of the request. None where it was refused.
    fn ask(&mut self, time: u64, order: Order) -> Result<Option<u64>, Memory>
        requires state { HasState (StandsFor self.old) }
        requires keyed { HasKey order }
        ensures asks { IfOk result (λ number. (m : Modelled) → StandsFor self.old m → HasAsked self.new m time order number) }
        ensures causes { WantOr result ((m : Modelled) → StandsFor self.old m → ActLacksRoom m.run (acts_to_ask m.members (wait m time) order)) }
    {
        let ms = time.saturating_sub(self.ticked);
        match tick(&mut self.world, ms) {
            Ok(()) => self.ticked = self.ticked.max(time),
            Err(memory) => return Err(memory),
        }
        match self.world.start(asker(self.members.as_slice()), order) {
            Ok(Ok(number)) => Ok(Some(number)),
            Ok(Err(_)) => Ok(None),
            Err(memory) => Err(memory),
        }
    }

    /// Carries a change out: the members are those of the newer layout then.
    pub(crate) fn change(&mut self, change: Change) -> Result<(), Memory>
        requires state { HasState (StandsFor self.old) }
        requires computed { IsComputed change }
        requires within { (m : Modelled) → StandsFor self.old m → AreWithin m.run.world.roles }
        ensures does { OnOk result ((m : Modelled) (ch : ℕ × Model) → StandsFor self.old m → IsChange m.members change ch → AreLawfulActs m.run (acts_in m.run ch.1) × ActsFit m.run (acts_in m.run ch.1) × StandsFor self.new (changed m ch.1)) }
        ensures causes { WantOr result ((m : Modelled) (ch : ℕ × Model) → StandsFor self.old m → IsChange m.members change ch → ActLacksRoom m.run (acts_in m.run ch.1)) }
    {
        match make(&mut self.world, self.members.as_slice(), change) {
            Ok(newer) => {
                self.members = newer;
                Ok(())
            }
            Err(memory) => Err(memory),
        }
    }
}

impl Storage for Cluster {
    ghost use Rattle.serve_model.specs.Clusters.{Cluster as Modelled, cluster, fits as fits_of, lacks as lacks_of};
    ghost use Rattle.serve_cluster.specs.Giving.{IsOnItsWay, left_in};
    ghost use Rattle.serve_cluster.specs.Standing.{StandsFor};
    ghost use Rattle.serve_cluster.specs.Uploads.{IsUploading};

    ghost State = { Modelled };

    ghost model = { cluster };

    ghost stands = { StandsFor };

    ghost fits = { fits_of };

    ghost lacks = { lacks_of };

    ghost gives = { IsOnItsWay };

    ghost left = { left_in };

    ghost takes = { IsUploading };

    fn carry(&mut self, time: u64, order: Order) -> Result<Option<FlowEnd>, Memory> {
        match self.ask(time, order) {
            Ok(Some(number)) => finish(&mut self.world, self.members.as_slice(), number),
            Ok(None) => Ok(None),
            Err(memory) => Err(memory),
        }
    }

    fn begin(&mut self, time: u64, bucket: Bytes, key: Bytes) -> Result<(), Memory> {
        match self.ask(time, Order::Get { bucket, key }) {
            Ok(number) => {
                self.getting = begun(number);
                Ok(())
            }
            Err(memory) => Err(memory),
        }
    }

    fn next(&mut self) -> Result<Got, Memory> {
        match &mut self.getting {
            Some(getting) => go_on(&mut self.world, self.members.as_slice(), getting),
            None => Ok(Got::End(None)),
        }
    }

    fn receive(&mut self, time: u64, upload: Upload) -> Result<Option<u64>, Memory> {
        match self.ask(time, order_of(upload)) {
            Ok(number) => self.uploading = number,
            Err(memory) => return Err(memory),
        }
        match self.uploading {
            Some(request) => match drain_all(&mut self.world) {
                Ok(()) => Ok(self.world.need(request)),
                Err(memory) => Err(memory),
            },
            None => Ok(None),
        }
    }

    fn feed(&mut self, bytes: Bytes) -> Result<Option<u64>, Memory> {
        match self.uploading {
            Some(request) => match feed(&mut self.world, request, bytes) {
                Ok(()) => Ok(self.world.need(request)),
                Err(memory) => Err(memory),
            },
            None => Ok(None),
        }
    }

    fn keep(&mut self) -> Result<Option<FlowEnd>, Memory> {
        match self.uploading {
            Some(request) => keep(&mut self.world, self.members.as_slice(), request),
            None => Ok(None),
        }
    }

    fn leave(&mut self) -> Result<Option<FlowEnd>, Memory> {
        match self.uploading {
            Some(request) => leave(&mut self.world, self.members.as_slice(), request),
            None => Ok(None),
        }
    }
}
