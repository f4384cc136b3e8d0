//! How many bytes are put or copied.
ghost use Rattle.std.specs.Prelude.{◌≡◌, ◌+◌, ◌<◌, ◌≤◌, ◌&&◌, ◌||◌, not, Err, OnOk, OnErr};
ghost use Rattle.s3_model.specs.Asks.{is_put as is_put_of};
ghost use Rattle.s3_model.specs.Sources.{is_long_key};
ghost use Rattle.serve_model.specs.declared.served.ServeFault.TheVariants.{Kept as TooMany};
ghost use Rattle.serve_model.specs.Judging.{bucket_of, key_of, is_missing as missing_of, counted_before, counted_after as after_end, size_of};
ghost use Rattle.serve_model.specs.Talk.{kept_limit};

use crate::judging::{bucket, is_long, is_missing, key};
use crdt_core::{Bytes, List};
use flow_model::FlowEnd;
use s3_model::Ask;
use serve_model::{ServeFault, Served};

/// How many bytes may be put or copied.
const KEPT_LIMIT: u64 = 536_870_912;

/// Counts bytes that are put or copied, unless they are too many.
pub(crate) fn count(served: &mut Served, size: u64) -> Result<(), ServeFault>
    ensures kept { OnOk result (served.new.kept ≡ served.old.kept + size) }
    ensures within { OnOk result (served.old.kept + size ≤ kept_limit) }
    ensures time { served.new.time ≡ served.old.time }
    ensures beyond { OnErr result (kept_limit < served.old.kept + size) }
    ensures cause { OnErr result (result ≡ Err TooMany) }
{
    match served.kept.checked_add(size) {
        Some(sum) if sum <= KEPT_LIMIT => {
            served.kept = sum;
            Ok(())
        }
        _ => Err(ServeFault::Kept),
    }
}

// An upload whose bucket is there and whose key isn't too long.
fn is_counted(buckets: &List<Bytes>, ask: &Ask) -> bool
    ensures { result ≡ (is_put_of ask.now && not (missing_of buckets.now (bucket_of ask.now) ||
        is_long_key (key_of ask.now))) }
{
    let is_put = match ask {
        Ask::Put { .. } => true,
        _ => false,
    };
    is_put && !(is_missing(buckets, bucket(ask)) || is_long(key(ask)))
}

/// How many bytes a request counts before its body, of so many, is read.
pub(crate) fn counts_before(buckets: &List<Bytes>, ask: &Ask, size: u64) -> u64
    ensures { result ≡ counted_before buckets.now ask.now size }
{
    if is_counted(buckets, ask) { size } else { 0 }
}

// How many bytes were stored.
fn stored_size(end: &FlowEnd) -> u64
    ensures { result ≡ size_of end.now }
{
    match end {
        FlowEnd::Stored {
            meta: Some(meta),
            ..
        } => meta.size,
        _ => 0,
    }
}

/// How many bytes a request counts that ended so.
pub(crate) fn counts_after(ask: &Ask, end: &FlowEnd) -> u64
    ensures { result ≡ after_end ask.now end.now }
{
    match ask {
        Ask::Copy { .. } => stored_size(end),
        _ => 0,
    }
}
