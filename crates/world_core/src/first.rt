//! A first layout for some of the nodes: for all of them or for none.
ghost use Rattle.std.specs.Prelude.{◌≡◌, ◌+◌, ◌==◌, ℕ, false, Some, map, IsTrue, IfOk, OnOk, OnErr};
ghost use Rattle.std.specs.List.{IsDistinct, AllByRecursion};
ghost use Rattle.std.specs.Prelude.{nat_eq};
ghost use Rattle.std.specs.Ordering.{nat_cmp};
ghost use Rattle.std.specs.BTreeMap.{get};
ghost use Rattle.crdt_core.specs.Outcomes.{OnlyWant};
ghost use Rattle.layout_roles.specs.declared.layout.Layout.{Layout};
ghost use Rattle.layout_history.specs.Known.{has_members};
ghost use Rattle.layout_history.specs.Views.{known};
ghost use Rattle.view_model.specs.Layouts.{reading};
ghost use Rattle.view_model.specs.View.{newest, appended};
ghost use Rattle.cluster_machine.specs.Acts.{appends};
ghost use Rattle.cluster_machine.specs.Layouts.{layouts};
ghost use Rattle.cluster_machine.specs.Node.{Node as Model};
ghost use Rattle.node_core.specs.declared.node.Node.{Node};
ghost use Rattle.node_core.specs.Stands.{view_of};

use crate::nodes::Nodes;
use crdt_core::Memory;
use layout_history::View;
use layout_roles::Layout;
use table_schema::Schema;

/// A node's number, and its view with one layout version more.
#[derive(Drop)]
pub struct Prepared {
    pub node: u8,
    pub view: View,
}

impl<S: Schema> Nodes<S> {
    ghost use Rattle.world_core.specs.Nodes.{AreNodes, BecomesAt, StayThere, KnowNone, IsPrepared, given_to};

    /// These nodes, each once, get the layout as version 1. Where memory is wanting none of them does.
    pub fn install(&mut self, first: &Layout, nodes: &[u8]) -> Result<(), Memory>
        requires version { first.now.version ≡ 1 }
        requires inhabited { IsTrue (has_members first.now) }
        requires unused { KnowNone S.Row.join S.words self.old }
        requires each_once { IsDistinct nat_eq nodes.now }
        ensures installed { OnOk result ((xs : ℕ → Model S.Row Layout) →
            AreNodes S.Row.join S.words self.old xs →
            AreNodes S.Row.join S.words self.new (given_to nodes.now first.now xs)) }
        ensures unchanged { OnErr result ((xs : ℕ → Model S.Row Layout) →
            AreNodes S.Row.join S.words self.old xs → AreNodes S.Row.join S.words self.new xs) }
        ensures want { OnlyWant result }
    {
        let prepared = self.prepare_all(first, nodes)?;
        self.show_all(prepared);
        Ok(())
    }

    // A node is there, and its view with the layout is made. The nodes stand for the same.
    fn prepare(&mut self, first: &Layout, node: u8) -> Result<Prepared, Memory>
        requires version { first.now.version ≡ 1 }
        requires inhabited { IsTrue (has_members first.now) }
        requires unused { KnowNone S.Row.join S.words self.old }
        ensures same { (xs : ℕ → Model S.Row Layout) → AreNodes S.Row.join S.words self.old xs →
            AreNodes S.Row.join S.words self.new xs }
        ensures there { StayThere self.old self.new }
        ensures prepared { IfOk result (λ one. IsPrepared self.new first.now one) }
        ensures node { IfOk result (λ one. one.node ≡ node) }
        ensures want { OnlyWant result }
    {
        self.ready(node)?;
        let Some(found) = self.by_number.get(&node) else {
            unreachable!()
        };
        let view = found.view_with(first.copy()?)?;
        Ok(Prepared { node, view })
    }

    // The same of each of these nodes.
    fn prepare_all(&mut self, first: &Layout, nodes: &[u8]) -> Result<Vec<Prepared>, Memory>
        requires version { first.now.version ≡ 1 }
        requires inhabited { IsTrue (has_members first.now) }
        requires unused { KnowNone S.Row.join S.words self.old }
        ensures same { (xs : ℕ → Model S.Row Layout) → AreNodes S.Row.join S.words self.old xs →
            AreNodes S.Row.join S.words self.new xs }
        ensures prepared { IfOk result
            (λ all. AllByRecursion (IsPrepared self.new first.now) all.items) }
        ensures nodes { IfOk result (λ all. map (λ one. one.node) all.items ≡ nodes.now) }
        ensures want { OnlyWant result }
    {
        let mut all = Vec::new(self.alloc);
        for node in nodes {
            all.push(self.prepare(first, *node)?)?;
        }
        Ok(all)
    }

    // The node gets the view that was made for it.
    fn show(&mut self, one: Prepared)
        ensures shown { (first : Layout) → first.version ≡ 1 → IsPrepared self.old first one →
            BecomesAt S.Row.join S.words self.old self.new one.node (λ x. appends layouts x first) }
        ensures others { (m : ℕ) → (m == one.node) ≡ false →
            get nat_cmp self.new.by_number m ≡ get nat_cmp self.old.by_number m }
    {
        if let Some(found) = self.by_number.get_mut(&one.node) {
            found.show(one.view);
        }
    }

    // And so does each of these nodes.
    fn show_all(&mut self, all: Vec<Prepared>)
        ensures { (first : Layout) → first.version ≡ 1 →
            AllByRecursion (IsPrepared self.old first) all.items →
            IsDistinct nat_eq (map (λ one. one.node) all.items) →
            (xs : ℕ → Model S.Row Layout) → AreNodes S.Row.join S.words self.old xs → AreNodes S.Row.join S.words self.new (given_to (map (λ one. one.node) all.items) first xs) }
    {
        for one in all {
            self.show(one);
        }
    }
}
