//! One printed layout, judged for what is staged.
ghost use Rattle.std.specs.Prelude.{◌≡◌, ◌<◌, ℕ, length, option_map, IfSome, IfNone, IfOk};
ghost use Rattle.crdt_core.specs.Outcomes.{OnlyWant};
ghost use Rattle.audit_model.specs.Printed.{print_of};
ghost use Rattle.audit_prints.specs.Lines.{size_after};
ghost use Rattle.audit_prints.specs.Stages.{staged_of, PrintLawful, PrintShown};
ghost use Rattle.audit_prints.specs.Judged.{IsFound};

use crate::cuts::{light_cut, zones_wanted};
use crate::lines::{gives_one, is_apply, more_lines, size_first};
use crate::sets::assignment;
use crate::stage::Stage;
use audit_model::{Said, Told};
use cluster_machine::applied::Applied;
use crdt_core::Memory;
use layout_roles::Certified;
use std::alloc::Global;
use store_model::Event;

/// What is found where a layout may be printed.
#[derive(Drop)]
pub enum Found {
    /// None is printed.
    Nothing,
    /// One that is lawful, of which this is shown.
    Lawful(Applied),
    Unlawful,
}

// What is computed of a layout, as the lines after its size print it, where it is lawful.
fn certified(
    alloc: Global,
    stage: &Stage,
    size: u64,
    saids: &[Said],
) -> Result<Option<Certified>, Memory>
    requires { 0 < size }
    ensures lawful { IfOk result
        (λ found. IfSome found (λ _. PrintLawful stage.now size saids.now)) }
    ensures shown { IfOk result (λ found. IfSome found (λ certified.
        PrintShown stage.now size saids.now (record { certified = certified; roles = stage.now.roles }))) }
    ensures unlawful { IfOk result (λ found. IfNone found (PrintLawful stage.now size saids.now →
        ⊥)) }
    ensures want { OnlyWant result }
{
    let saids = more_lines(saids);
    let r = zones_wanted(&stage.roles, stage.wanted);
    let Some(sets) = assignment(alloc, &stage.roles, r, size, saids)? else {
        return Ok(None);
    };
    match light_cut(alloc, &stage.roles, r, size + 1, saids)? {
        Some(cut) => Ok(Some(Certified { r, size, sets, cut })),
        None => Ok(None),
    }
}

// What is shown of it.
fn shown(alloc: Global, stage: &Stage, size: u64, saids: &[Said]) -> Result<Option<Applied>, Memory>
    ensures lawful { IfOk result
        (λ found. IfSome found (λ _. PrintLawful stage.now size saids.now)) }
    ensures shown { IfOk result (λ found. IfSome found (PrintShown stage.now size saids.now)) }
    ensures unlawful { IfOk result (λ found. IfNone found (PrintLawful stage.now size saids.now →
        ⊥)) }
    ensures want { OnlyWant result }
{
    if size == 0 {
        return Ok(None);
    }
    match certified(alloc, stage, size, saids)? {
        Some(certified) => Ok(Some(Applied {
            certified,
            roles: stage.roles.copy()?,
        })),
        None => Ok(None),
    }
}

// The size of the layout that follows on an event of which this is told.
fn size_after(event: &Event, told: &Told, saids: &[Said]) -> Option<u64>
    ensures size { result ≡ size_after event.now told.now saids.now }
    ensures some { IfSome result (λ _. 0 < length saids.now) }
{
    if is_apply(event) && gives_one(told) {
        size_first(saids)
    } else {
        None
    }
}

/// What is found in the lines that follow an event's line.
pub fn layout_after(
    alloc: Global,
    stage: &Stage,
    event: Option<&Event>,
    told: &Told,
    saids: &[Said],
) -> Result<Found, Memory>
    ensures found { IfOk result (λ found. (k line : ℕ) →
        IsFound (staged_of stage.now) k line
        (print_of (staged_of stage.now) k line (option_map (λ e. e.now) event.entry) told.now saids.now) found) }
    ensures want { OnlyWant result }
{
    let Some(event) = event else {
        return Ok(Found::Nothing);
    };
    let Some(size) = size_after(event, told, saids) else {
        return Ok(Found::Nothing);
    };
    match shown(alloc, stage, size, &saids[1..])? {
        Some(shown) => Ok(Found::Lawful(shown)),
        None => Ok(Found::Unlawful),
    }
}
