//! An open request at its coordinator.
ghost use Rattle.std.specs.Prelude.{◌≡◌, IfOk, OnOk};
ghost use Rattle.crdt_core.specs.Outcomes.{OnlyWant};
ghost use Rattle.node_parts.specs.Calls.{TakesRow, TakesRows, TakesConfirmation, TakesBlock};

use block_bytes::Block;
use crdt_core::{List, Memory, copy_row, copy_rows};
use read_call::{RangeCall, ReadCall};
use std::alloc::Global;
use table_schema::Schema;
use wire_messages::PhaseEnd;
use write_call::WriteCall;

/// The phase that a request is in.
#[derive(Drop)]
pub enum Present<S: Schema> {
    /// None: the request has just begun, or its last phase has ended.
    Resting,
    Asking(ReadCall<S::Row>),
    Scanning(RangeCall<S>),
    Storing(WriteCall),
    /// A block phase.
    Fetching,
}

/// An open request.
#[derive(Drop)]
pub struct Call<S: Schema> {
    /// The coordinator's newest version when the request began.
    pub start: u32,
    /// How many phases began.
    pub phases: u32,
    pub present: Present<S>,
}

impl<S: Schema> Call<S> {
    /// A node answers with the row that it has, if any. A read phase ends with the answer of the second
    /// different node of its set.
    pub fn take_row(
        &mut self,
        from: u8,
        row: &Option<S::Row>,
    ) -> Result<Option<PhaseEnd<S::Row>>, Memory>
        ensures takes { IfOk result
            (λ given. TakesRow S.Row.join self.old self.new from row.now given) }
        ensures want { OnlyWant result }
    {
        let Present::Asking(call) = &mut self.present else {
            return Ok(None);
        };
        let Some(value) = call.answer(from, copy_row(row)?)? else {
            return Ok(None);
        };
        self.present = Present::Resting;
        Ok(Some(PhaseEnd::Row(value)))
    }

    /// A node answers with its first rows of a range, and says whether it has more. A range phase ends with the
    /// answer of the second different node of its set.
    pub fn take_rows(
        &mut self,
        alloc: Global,
        from: u8,
        rows: &[S::Row],
        more: bool,
    ) -> Result<Option<PhaseEnd<S::Row>>, Memory>
        ensures takes { IfOk result
            (λ given. TakesRows S.Row.join S.words self.old self.new from rows.now more given) }
        ensures want { OnlyWant result }
    {
        let Present::Scanning(call) = &mut self.present else {
            return Ok(None);
        };
        let Some((rows, end)) = call.answer(alloc, from, copy_rows(alloc, rows)?.into_vec(), more)?
        else {
            return Ok(None);
        };
        self.present = Present::Resting;
        Ok(Some(PhaseEnd::Window {
            rows: List::from_vec(rows),
            end,
        }))
    }

    /// A node confirms the row at a place of a store phase. The phase ends when all its rows are kept, counting the
    /// versions of at least `oldest`. Takes no memory.
    pub fn take_confirmation(&mut self, from: u8, slot: u8, oldest: u32) -> Option<PhaseEnd<S::Row>>
        ensures { TakesConfirmation self.old self.new from slot oldest result }
    {
        let Present::Storing(call) = &mut self.present else {
            return None;
        };
        if !call.confirm(usize::from(slot), from, oldest) {
            return None;
        }
        self.present = Present::Resting;
        Some(PhaseEnd::Kept)
    }

    /// A node answers with a block, which ends a block phase.
    pub fn take_block(&mut self, bytes: &Block) -> Result<Option<PhaseEnd<S::Row>>, Memory>
        ensures takes { IfOk result (λ given. TakesBlock self.old self.new bytes.now given) }
        ensures want { OnlyWant result }
    {
        let Present::Fetching = self.present else {
            return Ok(None);
        };
        let bytes = bytes.share()?;
        self.present = Present::Resting;
        Ok(Some(PhaseEnd::Block(bytes)))
    }
}
