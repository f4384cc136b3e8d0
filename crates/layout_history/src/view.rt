//! A node's view.
ghost use Rattle.std.specs.Prelude.{◌≡◌, ◌+◌, ℕ, [], None, IsTrue, IfOk, OnOk, OnErr, option_copied, slice_get};
ghost use Rattle.std.specs.List.{list_all};
ghost use Rattle.std.specs.Option.{option_and_then};
ghost use Rattle.crdt_core.specs.Outcomes.{OnlyWant};
ghost use Rattle.view_model.specs.View.{is_gapless};
ghost use Rattle.view_model.specs.Layouts.{reading};
ghost use Rattle.layout_history.specs.Known.{has_members};

use crate::layouts::{copies_above, copies_of, drop_below, kind_in};
use crate::synced::{all_synced, least_in};
use crdt_core::{Crdt, List, Memory};
use layout_roles::{Kind, Layout};
use layout_trackers::{Trackers, Which};
use std::alloc::Global;

/// The layout versions that a node stores, without a gap, and the trackers.
#[derive(Debug, Drop)]
pub struct View {
    layouts: List<Layout>,
    trackers: Trackers,
    pub ghost gapless: { IsTrue (is_gapless reading layouts) },
    pub ghost inhabited: { IsTrue (list_all has_members layouts) },
}

impl View {
    ghost use Rattle.layout_trackers.specs.declared.which.Which.{Which};
    ghost use Rattle.layout_trackers.specs.Trackers.{entry};
    ghost use Rattle.layout_history.specs.Views.{known};
    ghost use Rattle.layout_history.specs.Known.{kind_of};
    ghost use Rattle.view_model.specs.View.{oldest, newest, layout_at, least_of, ack_least, is_established, is_readable, read_version, merged, cleaned, appended, with_entry};

    /// Without a version and without an entry.
    pub fn new(alloc: Global) -> View
        ensures no_layouts { (known result).layouts ≡ [] }
        ensures no_entries { (which : Which) (node : ℕ) →
            entry which node (known result).trackers ≡ None }
    {
        View {
            layouts: List::new(alloc),
            trackers: Trackers::new(alloc),
        }
    }

    /// The oldest stored version, 0 where none is stored.
    pub fn oldest(&self) -> u32
        ensures { result ≡ oldest reading (known self.now) }
    {
        match self.layouts.as_slice() {
            [first, ..] => first.version,
            [] => 0,
        }
    }

    /// The newest stored version, 0 where none is stored.
    pub fn newest(&self) -> u32
        ensures { result ≡ newest reading (known self.now) }
    {
        match self.layouts.as_slice() {
            [.., last] => last.version,
            [] => 0,
        }
    }

    /// The stored layouts, from the oldest version to the newest.
    pub fn layouts(&self) -> &[Layout]
        ensures { result.now ≡ (known self.now).layouts }
    {
        self.layouts.as_slice()
    }

    /// The layout of version v, where it is stored.
    pub fn layout(&self, v: u32) -> Option<&Layout>
        ensures { option_copied result ≡ layout_at reading (known self.now) v }
    {
        self.layouts
            .as_slice()
            .iter()
            .find(|layout| layout.version == v)
    }

    /// The three nodes that version v gives a partition, ascending, where the version is stored.
    pub fn set(&self, v: u32, p: u8) -> Option<[u8; 3]>
        ensures { result ≡ option_and_then
            (λ l. slice_get l.sets.sets p) (layout_at reading (known self.now) v) }
    {
        match self.layout(v) {
            Some(layout) => Some(layout.sets.set(p)),
            None => None,
        }
    }

    /// The kind of the role that version v gives a node, where the version is stored and the node has one.
    pub fn role(&self, v: u32, node: u8) -> Option<Kind>
        ensures { result ≡ option_and_then
            (λ l. kind_of l node) (layout_at reading (known self.now) v) }
    {
        match self.layout(v) {
            Some(layout) => kind_in(layout.roles.list.as_slice(), node),
            None => None,
        }
    }

    pub fn trackers(&self) -> &Trackers
        ensures { result.now ≡ (known self.now).trackers }
    {
        &self.trackers
    }

    fn least_of(&self, which: Which) -> u32
        ensures { result ≡ least_of reading which (known self.now) }
    {
        let missing = self.oldest();
        let layouts = self.layouts.as_slice();
        let mut least = None;
        for layout in layouts {
            let roles = layout.roles.list.as_slice();
            least = least_in(&self.trackers, which, roles, missing, least);
        }
        least.unwrap_or(0)
    }

    /// The least ack among the members of all stored versions, 0 where none is stored.
    pub fn ack_least(&self) -> u32
        ensures { result ≡ ack_least reading (known self.now) }
    {
        self.least_of(Which::Ack)
    }

    /// Whether version v, above the oldest stored, is established: in each partition two of the three nodes
    /// of version v - 1 have synced to it.
    pub fn established(&self, v: u32) -> bool
        ensures { result ≡ is_established reading (known self.now) v }
    {
        let oldest = self.oldest();
        if v <= oldest {
            return false;
        }
        match self.layout(v - 1) {
            Some(layout) => all_synced(&self.trackers, layout.sets.sets.as_slice(), v, oldest),
            None => false,
        }
    }

    fn is_readable(&self, v: u32) -> bool
        ensures { result ≡ is_readable reading (known self.now) v }
    {
        v == self.oldest() || self.established(v) || self.trackers.is_reached(Which::SyncAck, v)
    }

    /// The version at which the node reads: the greatest up to the newest that is the oldest stored one, is
    /// established, or is at most some node's sync-ack. 0 where none is stored.
    pub fn read_version(&self) -> u32
        ensures { result ≡ read_version reading (known self.now) }
    {
        let mut v = self.newest();
        while 0 < v {
            if self.is_readable(v) {
                return v;
            }
            v -= 1;
        }
        0
    }

    pub fn copy(&self) -> Result<View, Memory>
        ensures same { IfOk result (λ view. view ≡ self.now) }
        ensures want { OnlyWant result }
    {
        Ok(View {
            layouts: copies_of(self.layouts.allocator(), self.layouts.as_slice())?,
            trackers: self.trackers.copy()?,
        })
    }

    /// Takes in all that the other view knows. Where both store a version, this view's layout of it stays.
    pub fn merge(&mut self, other: &View) -> Result<(), Memory>
        ensures merged { OnOk result (known self.new ≡ merged reading (known self.old)
            (known other.now)) }
        ensures unchanged { OnErr result (self.new ≡ self.old) }
        ensures want { OnlyWant result }
    {
        let oldest = self.oldest().max(other.oldest());
        let alloc = self.layouts.allocator();
        let mut later = copies_above(alloc, other.layouts.as_slice(), self.newest())?;
        let mut trackers = self.trackers.copy()?;
        trackers.merge(&other.trackers)?;
        self.layouts.append(&mut later)?;
        self.trackers = trackers;
        drop_below(&mut self.layouts, oldest);
        Ok(())
    }

    /// Raises a node's entry, which never lowers it.
    pub fn raise(&mut self, which: Which, node: u8, v: u32) -> Result<(), Memory>
        ensures raised { OnOk result (known self.new ≡ with_entry reading which node v
            (known self.old)) }
        ensures unchanged { OnErr result (self.new ≡ self.old) }
        ensures want { OnlyWant result }
    {
        self.trackers.set_own(which, node, v)
    }

    /// Drops the stored versions, other than the newest, that are below the least sync-ack among the members
    /// of all stored versions, and gives the oldest version that is left.
    pub fn clean(&mut self) -> u32
        ensures cleaned { known self.new ≡ cleaned reading (known self.old) }
        ensures left { result ≡ oldest reading (known self.new) }
    {
        let kept = self.least_of(Which::SyncAck).min(self.newest());
        drop_below(&mut self.layouts, kept);
        self.oldest()
    }

    /// Stores one version more.
    pub fn append(&mut self, layout: Layout) -> Result<(), Memory>
        requires next { layout.version ≡ newest reading (known self.old) + 1 }
        requires inhabited { IsTrue (has_members layout) }
        ensures appended { OnOk result (known self.new ≡ appended reading (known self.old) layout) }
        ensures unchanged { OnErr result (self.new ≡ self.old) }
        ensures want { OnlyWant result }
    {
        self.layouts.push(layout)?;
        Ok(())
    }
}
