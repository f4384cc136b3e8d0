//! What an apply is given: the layout that a transcript prints for it, where that is of what is staged.
ghost use Rattle.std.specs.Prelude.{◌≡◌, IfOk, option_copied};
ghost use Rattle.crdt_core.specs.Outcomes.{OnlyWant};
ghost use Rattle.store_model.specs.Run.{State};
ghost use Rattle.audit_model.specs.Audit.{staged_in};
ghost use Rattle.s3_world.specs.Stands.{IsStore};
ghost use Rattle.audit_play.specs.Sheets.{node_of, sheet_at, shown_for, given_for};

use crate::staged::is_of;
use audit_prints::Sheet;
use cluster_machine::applied::Applied;
use crdt_core::{List, Memory};
use layout_roles::{Certified, Cut};
use s3_world::S3World;
use store_model::{Event, Numbered};

/// A copy of a cut.
fn copy_cut(cut: &Cut) -> Result<Cut, Memory>
    ensures same { IfOk result (λ copy. copy ≡ cut.now) }
    ensures want { OnlyWant result }
{
    let side = Vec::from_slice(cut.side.allocator(), cut.side.as_slice())?;
    Ok(Cut {
        size: cut.size,
        weight: cut.weight,
        side: List::from_vec(side),
    })
}

/// A copy of an assignment with its cut.
fn copy_certified(certified: &Certified) -> Result<Certified, Memory>
    ensures same { IfOk result (λ copy. copy ≡ certified.now) }
    ensures want { OnlyWant result }
{
    let sets = certified.sets.copy()?;
    let cut = copy_cut(&certified.cut)?;
    Ok(Certified {
        r: certified.r,
        size: certified.size,
        sets,
        cut,
    })
}

/// A copy of what is shown of a layout.
fn copy_shown(shown: &Applied) -> Result<Applied, Memory>
    ensures same { IfOk result (λ copy. copy ≡ shown.now) }
    ensures want { OnlyWant result }
{
    let roles = shown.roles.copy()?;
    let certified = copy_certified(&shown.certified)?;
    Ok(Applied { certified, roles })
}

/// The first sheet for a line of the schedule.
fn sheet_at(sheets: &[Sheet], line: u64) -> Option<&Sheet>
    ensures { option_copied result ≡ sheet_at sheets.now line }
{
    for sheet in sheets {
        if sheet.line == line {
            return Some(sheet);
        }
    }
    None
}

/// The node of an apply.
fn node_of(event: &Event) -> Option<u8>
    ensures { result ≡ node_of event.now }
{
    match event {
        Event::Apply(node) => Some(*node),
        _ => None,
    }
}

/// A copy of the layout that is printed for a line of the schedule, where it is of what is staged.
fn shown_for(store: &S3World, sheets: &[Sheet], line: u64) -> Result<Option<Applied>, Memory>
    ensures shown { IfOk result (λ shown. (s : State) → IsStore store.now s →
        shown ≡ shown_for (staged_in s) (sheet_at sheets.now line)) }
    ensures want { OnlyWant result }
{
    match sheet_at(sheets, line) {
        Some(sheet) if is_of(store, sheet) => Ok(Some(copy_shown(&sheet.shown)?)),
        _ => Ok(None),
    }
}

/// The node of an apply for which a layout is printed of what is staged, and a copy of the layout.
pub(crate) fn given_for(
    store: &S3World,
    sheets: &[Sheet],
    next: &Numbered,
) -> Result<Option<(u8, Applied)>, Memory>
    ensures given { IfOk result (λ given. (s : State) → IsStore store.now s →
        given ≡ given_for sheets.now (staged_in s) next.now) }
    ensures want { OnlyWant result }
{
    let Some(node) = node_of(&next.event) else {
        return Ok(None);
    };
    match shown_for(store, sheets, next.line)? {
        Some(shown) => Ok(Some((node, shown))),
        None => Ok(None),
    }
}
