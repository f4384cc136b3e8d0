//! The line of a check: whether all answered reads are fresh, told from the records alone.
ghost use Rattle.std.specs.Prelude.{◌≡◌, ◌++◌, ◌∷◌, [], IfOk, OnOk};
ghost use Rattle.crdt_core.specs.Outcomes.{OnlyWant};
ghost use Rattle.replay_run.specs.Account.{IsCheck, IsLine};
ghost use Rattle.replay_run.specs.Turning.{TellsLine};

use crate::account::Account;
use crdt_core::{Bytes, Memory};
use history_model::History;
use layout_text::append_number;
use s3_world::S3World;
use std::alloc::Global;
use world_history::check;

/// `fresh N` and a line feed, `stale N` where a read isn't fresh.
fn checked(alloc: Global, history: &History) -> Result<Bytes, Memory>
    ensures line { IfOk result (λ line. IsCheck history.now.0 line) }
    ensures want { OnlyWant result }
{
    let told = check(alloc, history)?;
    let name: &[u8] = if told.is_fresh { b"fresh" } else { b"stale" };
    let mut line = Bytes::from_slice(alloc, name)?;
    append_number(&mut line, told.pairs)?;
    line.push(b'\n')?;
    Ok(line)
}

/// The line of a check of a store's history, nothing where none is asked for.
pub(crate) fn check_line(alloc: Global, account: Account, store: &S3World) -> Result<Bytes, Memory>
    ensures line { IfOk result (TellsLine account store.now) }
    ensures want { OnlyWant result }
{
    match account {
        Account::Transcript => Ok(Bytes::new(alloc)),
        Account::Checked | Account::Summary { .. } => checked(alloc, store.history()),
    }
}
