//! What a list shows of one row.
ghost use Rattle.std.specs.Prelude.{◌≡◌, IfOk, option_map, option_copied};
ghost use Rattle.crdt_core.specs.Outcomes.{OnlyWant};
ghost use Rattle.s3_model.specs.Page.{object_of, entry_of, is_repeated, shown};

use crate::key::{common_of, is_listed};
use crdt_core::{Bytes, Memory, Value};
use crdt_rows::{Body, Meta, ObjectRow, Version};
use s3_model::{Entry, ListAsk};

/// The row's object, if its newest complete version isn't a delete marker.
fn object_of(row: &ObjectRow) -> Option<(Version, &Meta)>
    ensures { option_map (λ object. (object.0, object.1.now)) result ≡ object_of row.now }
{
    match row.newest() {
        Some((version, Body::Inline(meta, _))) => Some((version, meta)),
        Some((version, Body::Blocks(meta, _))) => Some((version, meta)),
        _ => None,
    }
}

fn shown(key: &Bytes, version: Version, meta: &Meta, common: Option<&[u8]>) -> Result<Entry, Memory>
    ensures entry { IfOk result
        (λ e. e ≡ shown key.now (version, meta.now) (option_copied common.entry)) }
    ensures want { OnlyWant result }
{
    match common {
        Some(common) => Ok(Entry::Common(Bytes::from_slice(key.allocator(), common)?)),
        None => Ok(Entry::Object(key.copy()?, version, meta.copy()?)),
    }
}

/// What the list shows of a row.
pub(crate) fn entry_of(ask: &ListAsk, row: &ObjectRow) -> Result<Option<Entry>, Memory>
    ensures entry { IfOk result (λ e. e ≡ entry_of ask.now row.now) }
    ensures want { OnlyWant result }
{
    if !is_listed(ask, row.key.as_slice()) {
        return Ok(None);
    }
    match object_of(row) {
        Some((version, meta)) => {
            let common = common_of(ask, row.key.as_slice());
            Ok(Some(shown(&row.key, version, meta, common)?))
        }
        None => Ok(None),
    }
}

/// The entry is the common prefix that was shown last.
pub(crate) fn is_repeated(last: Option<&Entry>, entry: &Entry) -> bool
    ensures { result ≡ is_repeated (option_copied last.entry) entry.now }
{
    match (last, entry) {
        (Some(Entry::Common(last)), Entry::Common(common)) => last == common,
        _ => false,
    }
}
