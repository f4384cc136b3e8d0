//! One page of a list.
ghost use Rattle.std.specs.Prelude.{◌≡◌, IfOk};
ghost use Rattle.crdt_core.specs.Outcomes.{OnlyWant};
ghost use Rattle.s3_model.specs.Page.{page_of};
ghost use Rattle.s3_list.specs.SoFar.{Shows};

use crate::entry::{entry_of, is_repeated};
use crdt_core::{List, Memory};
use crdt_rows::ObjectRow;
use s3_model::{Entry, ListAsk, Page};
use shared_value::Shared;
use std::alloc::Global;

/// Shows one entry more, unless it is the common prefix that was shown last. False where there is no room for it.
fn show(entries: &mut List<Entry>, entry: Entry, max: u32) -> Result<bool, Memory>
    ensures shows { IfOk result (λ fits. Shows max entries.old entry fits entries.new) }
    ensures want { OnlyWant result }
{
    if is_repeated(entries.as_slice().last(), &entry) {
        return Ok(true);
    }
    if entries.len() >= max as usize {
        return Ok(false);
    }
    entries.push(entry)?;
    Ok(true)
}

/// What a list shows of these rows, which stand in the order of their keys: the first entries, as many as are
/// asked, and whether there are more.
pub fn page(alloc: Global, rows: &[Shared<ObjectRow>], ask: &ListAsk) -> Result<Page, Memory>
    ensures page { IfOk result (λ shown. shown ≡ page_of ask.now rows.now) }
    ensures want { OnlyWant result }
{
    let mut entries = List::new(alloc);
    for row in rows {
        if let Some(entry) = entry_of(ask, row.get())? {
            if !show(&mut entries, entry, ask.max)? {
                return Ok(Page {
                    entries,
                    truncated: ask.max != 0,
                });
            }
        }
    }
    Ok(Page {
        entries,
        truncated: false,
    })
}
