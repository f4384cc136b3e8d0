//! What is looked up of the writes of a history.
ghost use Rattle.std.specs.Prelude.{◌≡◌, ◌≤◌, length, IfOk};
ghost use Rattle.crdt_core.specs.Outcomes.{OnlyWant};
ghost use Rattle.world_history.specs.Table.{AreNewest, AreDeletes};
ghost use Rattle.world_history.specs.Checks.{version_at, is_deleted, IsNewestBelow};

use crate::deletes::{all_deletes, deletes_at};
use crate::latest::newest_upto;
use crate::rows::{Row, Table, before, follows_key};
use crdt_core::{Bytes, Memory};
use crdt_rows::Version;
use history_model::Record;
use std::alloc::Global;

/// The acknowledged writes, with the newest version of each row's key up to that row, and the deletes.
#[derive(Drop)]
pub struct Past<'a> {
    pub table: Table<'a>,
    pub newest: Vec<Option<Version>>,
    pub deletes: Vec<Row>,
    pub ghost told: { AreNewest table.index.records.now table.rows.items newest.items },
    pub ghost whole: { AreDeletes table.index.records.now deletes.items },
}

impl<'a> Past<'a> {
    pub fn new(alloc: Global, records: &'a [Record]) -> Result<Past<'a>, Memory>
        ensures told { IfOk result (λ past. past.table.index.records.now ≡ records.now) }
        ensures want { OnlyWant result }
    {
        let table = Table::new(alloc, records)?;
        let newest = newest_upto(alloc, &table)?;
        let deletes = all_deletes(alloc, &table.index)?;
        Ok(Past {
            table,
            newest,
            deletes,
        })
    }

    /// The newest version with which a write of the key was acknowledged before place i.
    pub fn newest_before(&self, i: usize, bucket: &Bytes, key: &Bytes) -> Option<Version>
        ensures { IsNewestBelow (version_at self.now.table.index.records.now i bucket.now key.now) i result }
    {
        let rows = self.table.rows.as_slice();
        let high = before(rows, bucket, key, i);
        if follows_key(rows, high, bucket, key) {
            let newest = self.newest.as_slice();
            let last = high - 1;
            newest[last]
        } else {
            None
        }
    }

    /// Whether a delete of the key began before place j which wasn't acknowledged with a version below w.
    pub fn is_deleted(&self, j: usize, bucket: &Bytes, key: &Bytes, w: Version) -> bool
        requires { j ≤ length self.now.table.index.records.now }
        ensures { result ≡ is_deleted self.now.table.index.records.now j bucket.now key.now w }
    {
        let deletes = self.deletes.as_slice();
        let low = before(deletes, bucket, key, 0);
        let high = before(deletes, bucket, key, j);
        for k in (low..high).rev() {
            if deletes_at(&self.table.index, bucket, key, w, deletes[k].place) {
                return true;
            }
        }
        false
    }
}
