//! The flow network of roles, a redundancy and a partition size.
ghost use Rattle.std.specs.Prelude.{◌≡◌, ◌<◌, ◌≤◌, ◌↔◌, ◌-◌, min, IsTrue, IfOk};
ghost use Rattle.crdt_core.specs.Outcomes.{OnlyWant};
ghost use Rattle.layout_roles.specs.Zones.{zones};

use crate::answer::FlowOrCut;
use crate::groups::by_zone;
use crate::rows::{copies_in_order, sets_of};
use crate::side::side_of;
use crate::totals::{ALL_COPIES, copies_of_all};
use crdt_core::{List, Memory};
use layout_roles::{Assignment, Cut, PARTITIONS, Role, Roles};
use std::alloc::Global;

/// The flow network of roles for a redundancy, 1 to 3, and a partition size in bytes.
///
/// All partitions have the same edges, so neither a flow nor a cut takes a search.
#[derive(Drop)]
pub struct Network {
    pub roles: Roles,
    pub r: u8,
    pub size: u64,
    groups: List<List<Role>>,
    pub ghost grouped: { groups ≡ zones roles.list },
    pub ghost low: { 1 ≤ r },
    pub ghost high: { r ≤ 3 },
    pub ghost some: { 0 < size },
}

impl Network {
    ghost use Rattle.layout_roles.specs.Fits.{Fits, SomeFits, NoneFits};
    ghost use Rattle.layout_roles.specs.Certificates.{IsPrintedCut};
    ghost use Rattle.layout_flow.specs.Answers.{IfFlow, IfCut};
    ghost use Rattle.layout_flow.specs.Closed.{copies_for, down_is_held};

    pub fn new(alloc: Global, roles: &Roles, r: u8, size: u64) -> Result<Network, Memory>
        requires low { 1 ≤ r }
        requires high { r ≤ 3 }
        requires some { 0 < size }
        ensures roles { IfOk result (λ network. network.roles ≡ roles.now) }
        ensures redundancy { IfOk result (λ network. network.r ≡ r) }
        ensures size { IfOk result (λ network. network.size ≡ size) }
        ensures want { OnlyWant result }
    {
        let groups = by_zone(alloc, roles.list.as_slice())?;
        Ok(Network {
            roles: roles.copy()?,
            r,
            size,
            groups,
        })
    }

    /// Makes it the network for another partition size in bytes.
    pub fn resize(&mut self, size: u64)
        requires { 0 < size }
        ensures roles { self.new.roles ≡ self.old.roles }
        ensures redundancy { self.new.r ≡ self.old.r }
        ensures size { self.new.size ≡ size }
    {
        self.size = size;
    }

    // How many copies there is room for, where each zone gets at most so many of a partition.
    fn copies(&self, each: u8) -> u64
        requires { each ≤ 3 }
        ensures { result ≡ min 768 (copies_for 256 self.now.roles.list self.now.size each) }
    {
        copies_of_all(self.groups.as_slice(), self.size, each)
    }

    // Whether there is room for three copies of each partition, where no zone gets more of one than the
    // redundancy leaves to it.
    fn has_room(&self) -> bool
        ensures { IsTrue result ↔
            (768 ≤ copies_for 256 self.now.roles.list self.now.size (4 - self.now.r)) }
    {
        self.copies(4 - self.r) == ALL_COPIES
    }

    /// Whether some assignment fits, which takes one pass over the nodes and no memory.
    pub fn has_flow(&self) -> bool
        ensures { IsTrue result ↔ SomeFits self.now.roles.list self.now.r self.now.size }
    {
        self.has_room()
    }

    /// An assignment that fits, where there is one, and else the printed cut.
    pub fn max_flow(&self) -> Result<FlowOrCut, Memory>
        ensures flow { IfOk result
            (λ answer. IfFlow answer
            (λ assignment. Fits self.now.roles.list self.now.r self.now.size assignment.sets)) }
        ensures cut { IfOk result
            (λ answer. IfCut answer
            (λ cut. IsPrintedCut self.now.roles.list self.now.r self.now.size cut)) }
        ensures light { IfOk result (λ answer. IfCut answer (λ cut. cut.weight < 768)) }
        ensures none { IfOk result
            (λ answer. IfCut answer (λ _. NoneFits self.now.roles.list self.now.r self.now.size)) }
        ensures want { OnlyWant result }
    {
        if self.has_room() {
            Ok(FlowOrCut::Flow(self.flow()?))
        } else {
            Ok(FlowOrCut::Cut(self.cut()?))
        }
    }

    // The copies laid out in three rows.
    fn flow(&self) -> Result<Assignment, Memory>
        requires { 768 ≤ copies_for 256 self.now.roles.list self.now.size (4 - self.now.r) }
        ensures fits { IfOk result
            (λ assignment. Fits self.now.roles.list self.now.r self.now.size assignment.sets) }
        ensures want { OnlyWant result }
    {
        let alloc = self.groups.allocator();
        let copies = copies_in_order(alloc, self.groups.as_slice(), self.size, 4 - self.r)?;
        let sets = sets_of(alloc, copies.as_slice(), usize::from(PARTITIONS))?;
        Ok(Assignment { sets })
    }

    // Whether down is on the source's side of the printed cut.
    fn holds_down(&self) -> bool
        requires { copies_for 256 self.now.roles.list self.now.size (4 - self.now.r) < 768 }
        ensures { result ≡ down_is_held 256 self.now.roles.list self.now.r self.now.size }
    {
        let past_down = u64::from(3 - self.r) * u64::from(PARTITIONS);
        self.copies(4 - self.r) < past_down + self.copies(1)
    }

    // The printed cut.
    fn cut(&self) -> Result<Cut, Memory>
        requires { copies_for 256 self.now.roles.list self.now.size (4 - self.now.r) < 768 }
        ensures printed { IfOk result
            (λ cut. IsPrintedCut self.now.roles.list self.now.r self.now.size cut) }
        ensures light { IfOk result (λ cut. cut.weight < 768) }
        ensures want { OnlyWant result }
    {
        let down = self.holds_down();
        let each = if down { 4 - self.r } else { 1 };
        let side = side_of(
            self.groups.allocator(),
            self.groups.as_slice(),
            self.roles.list.as_slice(),
            self.size,
            each,
            down,
        )?;
        Ok(Cut {
            size: self.size,
            weight: self.copies(4 - self.r) as u32,
            side,
        })
    }
}
