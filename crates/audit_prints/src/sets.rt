//! The sets of partitions that lines print.
ghost use Rattle.std.specs.Prelude.{◌≡◌, ◌++◌, ◌<◌, ◌↔◌, List, replicate, IsTrue, IfSome, IfNone, IfOk, OnOk};
ghost use Rattle.std.specs.List.{list_any};
ghost use Rattle.crdt_core.specs.Outcomes.{OnlyWant};
ghost use Rattle.layout_roles.specs.Fits.{Fits};
ghost use Rattle.layout_roles.specs.Sets.{in_order};
ghost use Rattle.audit_model.specs.declared.said.Said.{Said as SaidLine};
ghost use Rattle.audit_model.specs.declared.said.Said.TheVariants.{Sets};
ghost use Rattle.audit_model.specs.Printed.{sets_from};
ghost use Rattle.audit_prints.specs.Sets.{has_high, WentSo};

use audit_model::Said;
use crdt_core::{List, Memory};
use layout_judge::fits;
use layout_roles::{Assignment, Roles, in_order};
use std::alloc::Global;

/// What a line does to the sets that are read.
#[derive(Clone, Copy, Debug, PartialEq, Eq)]
pub enum Went {
    /// It gives sets, or is passed over.
    On,
    /// It gives no set, nor does a later line.
    Over,
    /// It gives a set in which a node's number has more than a byte.
    High,
}

// Three nodes in order of numbers, where each is a byte.
fn node_set(first: u64, second: u64, third: u64) -> Option<[u8; 3]>
    ensures some { IfSome result (λ set. set ≡ in_order first second third) }
    ensures none { IfNone result (IsTrue (has_high (in_order first second third))) }
{
    if first <= 255 && second <= 255 && third <= 255 {
        Some(in_order(first as u8, second as u8, third as u8))
    } else {
        None
    }
}

// Adds a set so many times.
fn add_run(sets: &mut List<[u8; 3]>, count: u64, set: [u8; 3]) -> Result<(), Memory>
    ensures ok { OnOk result (sets.new ≡ sets.old ++ replicate count set) }
    ensures want { OnlyWant result }
{
    for _ in 0..count {
        sets.push(set)?;
    }
    Ok(())
}

// Adds the set of partitions `first` to `last`, where they are the next ones.
fn add_sets(
    sets: &mut List<[u8; 3]>,
    first: u64,
    last: u64,
    set: (u64, u64, u64),
) -> Result<Went, Memory>
    ensures went { IfOk result (λ went. (rest : List SaidLine) →
        WentSo went sets.old sets.new (Sets first last set) rest) }
    ensures want { OnlyWant result }
{
    if first != sets.len() as u64 || last < first || 255 < last {
        return Ok(Went::Over);
    }
    match node_set(set.0, set.1, set.2) {
        Some(set) => {
            add_run(sets, last + 1 - first, set)?;
            Ok(Went::On)
        }
        None => Ok(Went::High),
    }
}

// Adds the sets of a line.
fn add_line(sets: &mut List<[u8; 3]>, said: &Said) -> Result<Went, Memory>
    ensures went { IfOk result (λ went. (rest : List SaidLine) →
        WentSo went sets.old sets.new said.now rest) }
    ensures want { OnlyWant result }
{
    match said {
        Said::Sets { first, last, set } => add_sets(sets, *first, *last, *set),
        Said::Redundancy(_) => Ok(Went::On),
        _ => Ok(Went::Over),
    }
}

// The sets that the lines give, from partition 0 on; none where one has a node whose number has more than a byte.
fn sets_in(alloc: Global, saids: &[Said]) -> Result<Option<List<[u8; 3]>>, Memory>
    ensures some { IfOk result (λ found. IfSome found (λ sets. sets ≡ sets_from 0 saids.now)) }
    ensures none { IfOk result
        (λ found. IfNone found (IsTrue (list_any has_high (sets_from 0 saids.now)))) }
    ensures want { OnlyWant result }
{
    let mut sets = List::new(alloc);
    for said in saids {
        match add_line(&mut sets, said)? {
            Went::On => {}
            Went::Over => return Ok(Some(sets)),
            Went::High => return Ok(None),
        }
    }
    Ok(Some(sets))
}

/// The sets that the lines give, where they fit the size.
pub fn assignment(
    alloc: Global,
    roles: &Roles,
    r: u8,
    size: u64,
    saids: &[Said],
) -> Result<Option<Assignment>, Memory>
    requires { 0 < size }
    ensures sets { IfOk result
        (λ found. IfSome found (λ assignment. assignment.sets ≡ sets_from 0 saids.now)) }
    ensures fit { IfOk result
        (λ found. IfSome found (λ _. Fits roles.now.list r size (sets_from 0 saids.now))) }
    ensures none { IfOk result
        (λ found. IfNone found (Fits roles.now.list r size (sets_from 0 saids.now) → ⊥)) }
    ensures want { OnlyWant result }
{
    match sets_in(alloc, saids)? {
        Some(sets) => {
            if fits(roles, r, size, sets.as_slice()) {
                Ok(Some(Assignment { sets }))
            } else {
                Ok(None)
            }
        }
        None => Ok(None),
    }
}
