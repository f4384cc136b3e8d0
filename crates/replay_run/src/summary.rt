//! The first lines of a summary.
ghost use Rattle.std.specs.Prelude.{◌≡◌, ◌++◌, IfOk, OnOk, count_by};
ghost use Rattle.crdt_core.specs.Outcomes.{OnlyWant};
ghost use Rattle.layout_roles.specs.Text.{word, number};
ghost use Rattle.replay_run.specs.Account.{is_finish, is_end, summary_of};
ghost use Rattle.replay_run.specs.Turning.{TellsOpening};

use crate::account::Account;
use crdt_core::{Bytes, Memory};
use history_model::Record;
use layout_text::{append_number, append_word};
use s3_world::S3World;
use std::alloc::Global;

/// How many requests finished with an answer.
fn finished(records: &[Record]) -> usize
    ensures { result ≡ count_by is_finish records.now }
{
    records
        .iter()
        .filter(|record| matches!(record, Record::Finished { .. }))
        .count()
}

/// How many requests ended without an answer.
fn ended(records: &[Record]) -> usize
    ensures { result ≡ count_by is_end records.now }
{
    records
        .iter()
        .filter(|record| matches!(record, Record::Ended { .. }))
        .count()
}

/// A word and a number, each after a space.
fn append_numbered(out: &mut Bytes, name: &[u8], n: u64) -> Result<(), Memory>
    ensures ok { OnOk result (out.new ≡ out.old ++ word name.now ++ number n) }
    ensures want { OnlyWant result }
{
    append_word(out, name)?;
    append_number(out, n)
}

/// The first lines of a summary with these numbers.
fn summary_text(
    alloc: Global,
    asked: (u32, u64),
    ends: (u64, u64, u64),
    versions: u32,
) -> Result<Bytes, Memory>
    ensures text { IfOk result (λ text. text ≡ summary_of asked.0 asked.1 ends.0 ends.1 ends.2 versions) }
    ensures want { OnlyWant result }
{
    let (count, seed) = asked;
    let (finished, ended, open) = ends;
    let mut text = Bytes::from_slice(alloc, b"workload")?;
    append_number(&mut text, u64::from(count))?;
    append_number(&mut text, seed)?;
    text.extend_from_slice(b"\nfinished")?;
    append_number(&mut text, finished)?;
    append_numbered(&mut text, b"ended", ended)?;
    append_numbered(&mut text, b"open", open)?;
    text.extend_from_slice(b"\nversions")?;
    append_number(&mut text, u64::from(versions))?;
    text.push(b'\n')?;
    Ok(text)
}

/// What is written of a workload before the lines of the nodes.
fn summary_lines(alloc: Global, count: u32, seed: u64, store: &S3World) -> Result<Bytes, Memory>
    ensures text { IfOk result (TellsOpening (Account.Summary count seed) store.now) }
    ensures want { OnlyWant result }
{
    let records = store.history().0.as_slice();
    let finished = finished(records) as u64;
    let ended = ended(records) as u64;
    let open = store
        .requests()
        .saturating_sub(finished)
        .saturating_sub(ended);
    summary_text(
        alloc,
        (count, seed),
        (finished, ended, open),
        store.applied(),
    )
}

/// What is written first of the state after all events.
pub(crate) fn opening(alloc: Global, account: Account, store: &S3World) -> Result<Bytes, Memory>
    ensures text { IfOk result (TellsOpening account store.now) }
    ensures want { OnlyWant result }
{
    match account {
        Account::Transcript | Account::Checked => Ok(Bytes::new(alloc)),
        Account::Summary { count, seed } => summary_lines(alloc, count, seed, store),
    }
}
