//! A cluster with layout changes to come.
ghost use Rattle.std.specs.Prelude.{◌≡◌, length, OnOk};
ghost use Rattle.crdt_core.specs.Outcomes.{WantOr};
ghost use Rattle.serve_model.specs.Clusters.{ActLacksRoom};
ghost use Rattle.serve_changes.specs.Changing.{Changing as Modelled, with_change, acts_due, ChangeFits};

use crate::change::Change;
use crate::cluster::Cluster;
use crdt_core::{Bytes, List, Memory};
use flow_model::{FlowEnd, Order};
use s3_world::S3World;
use serve_loop::{Got, Storage};
use serve_model::Upload;

/// A cluster, and the changes of its layout that are to come, in order.
#[derive(Drop)]
pub struct Changing {
    cluster: Cluster,
    to_come: List<Change>,
}

impl Changing {
    ghost use Rattle.s3_world.specs.Stands.{IsStore};
    ghost use Rattle.serve_model.specs.Serving.{HasState};
    ghost use Rattle.serve_cluster.specs.Standing.{StandsFor};
    ghost use Rattle.serve_cluster.specs.Changes.{AreWithin, AreChanges, IsChanging, is_due};

    /// A cluster with these changes to come, in order, in which no roles are staged but of nodes 1 to 16.
    pub fn new(cluster: Cluster, to_come: List<Change>) -> Changing
        ensures { (m : Modelled) → StandsFor cluster m.cluster → AreWithin m.cluster.run.world.roles → AreChanges m.cluster.members to_come m.to_come → IsChanging result m }
    {
        Changing { cluster, to_come }
    }

    /// The world, as it is now.
    pub fn world(&self) -> &S3World
        ensures { (m : Modelled) → IsChanging self.now m → IsStore result.now m.cluster.run }
    {
        self.cluster.world()
    }

    /// How many changes are to come.
    pub fn left(&self) -> usize
        ensures { (m : Modelled) → IsChanging self.now m → result ≡ length m.to_come }
    {
        self.to_come.len()
    }

    // So many requests have reached the cluster that the next change is to be made.
    fn is_due(&self) -> bool
        ensures { (m : Modelled) → IsChanging self.now m → result ≡ is_due m.cluster m.to_come }
    {
        match self.to_come.get(0) {
            Some(change) => self.cluster.world().requests() == u64::from(change.after),
            None => false,
        }
    }

    // The next change is made, if it is due.
    fn make_due(&mut self) -> Result<(), Memory>
        requires state { HasState (IsChanging self.old) }
        ensures does { OnOk result ((m : Modelled) → IsChanging self.old m → ChangeFits m.cluster m.to_come × IsChanging self.new (with_change m.cluster m.to_come)) }
        ensures causes { WantOr result ((m : Modelled) → IsChanging self.old m → ActLacksRoom m.cluster.run (acts_due m.cluster m.to_come)) }
    {
        if !self.is_due() {
            return Ok(());
        }
        let change = self.to_come.remove(0);
        self.cluster.change(change)
    }
}

impl Storage for Changing {
    ghost use Rattle.serve_changes.specs.Changing.{Changing as Modelled, changing, changing_fits, changing_lacks};
    ghost use Rattle.serve_cluster.specs.Changes.{IsChanging, IsChangingGet, IsChangingUpload, left_then};

    ghost State = { Modelled };

    ghost model = { changing };

    ghost stands = { IsChanging };

    ghost fits = { changing_fits };

    ghost lacks = { changing_lacks };

    ghost gives = { IsChangingGet };

    ghost left = { left_then };

    ghost takes = { IsChangingUpload };

    fn carry(&mut self, time: u64, order: Order) -> Result<Option<FlowEnd>, Memory> {
        match self.cluster.carry(time, order) {
            Ok(end) => match self.make_due() {
                Ok(()) => Ok(end),
                Err(memory) => Err(memory),
            },
            Err(memory) => Err(memory),
        }
    }

    fn begin(&mut self, time: u64, bucket: Bytes, key: Bytes) -> Result<(), Memory> {
        match self.cluster.begin(time, bucket, key) {
            Ok(()) => Ok(()),
            Err(memory) => Err(memory),
        }
    }

    fn next(&mut self) -> Result<Got, Memory> {
        match self.cluster.next() {
            Ok(Got::End(end)) => match self.make_due() {
                Ok(()) => Ok(Got::End(end)),
                Err(memory) => Err(memory),
            },
            Ok(Got::Found(version, meta)) => Ok(Got::Found(version, meta)),
            Ok(Got::Piece(piece)) => Ok(Got::Piece(piece)),
            Err(memory) => Err(memory),
        }
    }

    fn receive(&mut self, time: u64, upload: Upload) -> Result<Option<u64>, Memory> {
        match self.cluster.receive(time, upload) {
            Ok(need) => Ok(need),
            Err(memory) => Err(memory),
        }
    }

    fn feed(&mut self, bytes: Bytes) -> Result<Option<u64>, Memory> {
        match self.cluster.feed(bytes) {
            Ok(need) => Ok(need),
            Err(memory) => Err(memory),
        }
    }

    fn keep(&mut self) -> Result<Option<FlowEnd>, Memory> {
        match self.cluster.keep() {
            Ok(end) => match self.make_due() {
                Ok(()) => Ok(end),
                Err(memory) => Err(memory),
            },
            Err(memory) => Err(memory),
        }
    }

    fn leave(&mut self) -> Result<Option<FlowEnd>, Memory> {
        match self.cluster.leave() {
            Ok(end) => match self.make_due() {
                Ok(()) => Ok(end),
                Err(memory) => Err(memory),
            },
            Err(memory) => Err(memory),
        }
    }
}
